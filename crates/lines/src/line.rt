// A line by its named parts: the line under treatment. In the memory of the walk lines rest as bytes.
ghost use Rattle.std.specs.Prelude.{◌≡◌, ◌+◌, ◌-◌, ◌≤◌, length, replicate};
ghost use Rattle.format.specs.Limits.{record_bytes, no_position};
ghost use Rattle.line_bytes.specs.ForContracts.Layout.{line_bytes, placed};
ghost use Rattle.line_bytes.specs.ForContracts.Resting.{marks, resting_bytes};
ghost use Rattle.lines.specs.ForContracts.Line.{resting_of, opening_line, elements_from, Writable, HasHead, ElementsFit, RemovalFits, Removes};

use format::limits::Limits;
use line_bytes::edit::put;
use line_bytes::element::{Element, Relation, put_element};
use line_bytes::layout::{COUNT, FIRST_ELEMENT, REDUCED};
use line_bytes::rebind::rebind;

// The first `count` elements count. The first `reduced` of them are known to be fully reduced: they are not looked at again, and need not be filled in.
#[derive(Clone, Copy)]
pub struct Line {
    pub bindings: [u8; Limits::VARIABLES],
    pub count: usize,
    pub reduced: usize,
    pub elements: [Element; Limits::ELEMENTS],
}

impl Line {
    // The walk's first line: source > target, and no binding.
    pub fn opening(source: u8, target: u8) -> Line
        ensures result_value { resting_of result ≡ opening_line source target }
        ensures writable { Writable result }
    {
        let relation = Relation::Greater(source, target);
        Line {
            bindings: [Limits::NO_POSITION; Limits::VARIABLES],
            count: 1,
            reduced: 0,
            elements: [Element { relation }; Limits::ELEMENTS],
        }
    }

    // The line that rests at `place`, its elements not filled in yet.
    pub fn head(memory: &[u8], place: usize) -> Line
        requires { place + line_bytes ≤ length memory.now }
        ensures { HasHead memory.now place result }
    {
        let relation = Relation::Greater(0, 0);
        let mut bindings = [Limits::NO_POSITION; Limits::VARIABLES];
        // Not `copy_from_slice`, for the reason that `differ` gives.
        for i in 0..Limits::VARIABLES {
            bindings[i] = memory[place + i];
        }
        Line {
            bindings,
            count: usize::from(memory[place + COUNT]),
            reduced: usize::from(memory[place + REDUCED]),
            elements: [Element { relation }; Limits::ELEMENTS],
        }
    }

    // Writes the line's bytes.
    pub fn write(self, line: &mut [u8])
        requires { Writable self × (length line.old ≡ line_bytes) }
        ensures { line.new ≡ resting_bytes (resting_of self) }
    {
        rebind(line, 0, &self.bindings);
        line[COUNT] = self.count as u8;
        self.put_elements(line, 0, FIRST_ELEMENT);
        pad(line, FIRST_ELEMENT + 2 * self.count);
    }

    // Puts the elements from number `from` on, one behind the other from `to` on.
    fn put_elements(self, bytes: &mut [u8], from: usize, to: usize)
        requires { ElementsFit self from to bytes.old }
        ensures { bytes.new ≡ placed to (marks (elements_from self from)) bytes.old }
    {
        for i in from..self.count {
            put_element(bytes, to + 2 * (i - from), self.elements[i]);
        }
    }

    // Deletes element `at` of the line, which rests at `place`: those behind it move, those in front stand there and are known to be fully reduced.
    pub fn put_without(self, memory: &mut [u8], place: usize, at: usize)
        requires { RemovalFits self place at memory.old }
        ensures { Removes self place at memory.old memory.new }
    {
        let count = self.count;
        self.put_elements(memory, at + 1, place + FIRST_ELEMENT + 2 * at);
        put(
            memory,
            place + FIRST_ELEMENT + 2 * (count - 1),
            Limits::NO_POSITION,
            Limits::NO_POSITION,
        );
        memory[place + COUNT] = (count - 1) as u8;
        memory[place + REDUCED] = at as u8;
    }
}

// Fills the line's record from `from` on.
fn pad(line: &mut [u8], from: usize)
    requires { (from ≤ record_bytes) × (length line.old ≡ line_bytes) }
    ensures { line.new ≡ placed from (replicate (record_bytes - from) no_position) line.old }
{
    line[from..Limits::RECORD].fill(Limits::NO_POSITION);
}
