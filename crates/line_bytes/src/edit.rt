// Lines' bytes: changed in place, and put into the memory of the walk.
ghost use Rattle.std.specs.Prelude.{◌≡◌, ◌+◌, ◌-◌, ◌*◌, ◌≤◌, ◌<◌, length, set};
ghost use Rattle.std.proofs.Math.Seq.{slice};
ghost use Rattle.line_bytes.specs.ForContracts.Layout.{line_bytes, placed};
ghost use Rattle.line_bytes.specs.ForContracts.Room.{Shifted, WideningFits, Widened};

use crate::layout::{COUNT, FIRST_ELEMENT, LINE, REDUCED};
use format::limits::Limits;

// Copies the line that stands at `at`.
pub fn load(records: &[u8], at: usize, line: &mut [u8])
    requires { (at + line_bytes ≤ length records.now) × (length line.old ≡ line_bytes) }
    ensures { line.new ≡ slice at (at + line_bytes) records.now }
{
    // Not `copy_from_slice`, for the reason that `copy_front` (format) gives.
    for i in 0..LINE {
        line[i] = records[at + i];
    }
}

// Puts the line at `at`.
pub fn store(line: &[u8], records: &mut [u8], at: usize)
    requires { (at + line_bytes ≤ length records.old) × (length line.now ≡ line_bytes) }
    ensures { records.new ≡ placed at line.now records.old }
{
    // Not `copy_from_slice`, for the reason that `copy_front` (format) gives.
    for i in 0..LINE {
        records[at + i] = line[i];
    }
}

// Puts two bytes at `at`.
pub fn put(line: &mut [u8], at: usize, a: u8, b: u8)
    requires { at + 1 < length line.old }
    ensures { line.new ≡ set (set line.old at a) (at + 1) b }
{
    line[at] = a;
    line[at + 1] = b;
}

// Puts the line at `to`, with these two bytes at its `at`.
pub fn store_with(line: &[u8], at: usize, a: u8, b: u8, records: &mut [u8], to: usize)
    requires { (to + line_bytes ≤ length records.old) × (length line.now ≡ line_bytes) × (at + 2 ≤ line_bytes) }
    ensures { records.new ≡ placed to (set (set line.now at a) (at + 1) b) records.old }
{
    store(line, records, to);
    put(records, to + at, a, b);
}

// Moves the bytes from `from` to `end` to the left by `by`, the first one first.
pub fn shift_left(bytes: &mut [u8], from: usize, end: usize, by: usize)
    requires { (by ≤ from) × (from ≤ end) × (end ≤ length bytes.old) }
    ensures { bytes.new ≡ placed (from - by) (slice from end bytes.old) bytes.old }
{
    for i in from..end {
        bytes[i - by] = bytes[i];
    }
}

// Moves the bytes from `from` to `end` to the right by `by`, the last one first.
fn shift_right(bytes: &mut [u8], from: usize, end: usize, by: usize)
    requires { (from ≤ end) × (end + by ≤ length bytes.old) }
    ensures { bytes.new ≡ placed (from + by) (slice from end bytes.old) bytes.old }
{
    for i in (from..end).rev() {
        bytes[i + by] = bytes[i];
    }
}

// Makes room for `n` pairs in the place of the one in front of `from`. The pairs from there to `end` move; what they leave at the end is ff.
fn shift(line: &mut [u8], from: usize, end: usize, n: usize)
    requires { (2 ≤ from) × (from ≤ end) × (end ≤ length line.old) × (end + 2 * n ≤ length line.old + 2) }
    ensures { Shifted from end n line.old line.new }
{
    if n == 1 {
        return;
    }
    if n == 0 {
        shift_left(line, from, end, 2);
        put(line, end - 2, Limits::NO_POSITION, Limits::NO_POSITION);
        return;
    }
    shift_right(line, from, end, 2 * (n - 1));
}

// A byte that stands there already is not put again, which would delay a copy of the line.
fn put_if_new(line: &mut [u8], at: usize, a: u8)
    requires { at < length line.old }
    ensures { line.new ≡ set line.old at a }
{
    if line[at] != a {
        line[at] = a;
    }
}

// Makes room for `n` elements in the place of element `i`. Those in front of it are known to be fully reduced.
pub fn make_room(line: &mut [u8], i: usize, n: usize)
    requires { WideningFits i n line.old }
    ensures { Widened i n line.old line.new }
{
    let count = usize::from(line[COUNT]);
    shift(
        line,
        2 * i + FIRST_ELEMENT + 2,
        2 * count + FIRST_ELEMENT,
        n,
    );
    put_if_new(line, COUNT, (count + n - 1) as u8);
    put_if_new(line, REDUCED, i as u8);
}
