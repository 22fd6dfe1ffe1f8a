// The walk's cursor and count, and its turns.
//
// The memory has a place for each line that a table may have. Finished lines' records stand from its front, unfinished lines as a stack from its back,
// so that no line is ever moved for another:
//
//     0                 done * RECORD             top * LINE                       LINES * LINE
//     +-------+-- ... --+-------------------------+----------+-- ... --+----------+
//     | record|  record |          unused         |   first  |         |   last   |
//     +-------+-- ... --+-------------------------+----------+-- ... --+----------+
//      finished, in the table's order                unfinished, in the table's order
//
// A place holds a line as `line_bytes::layout` lays it out: bindings, count, pairs of positions, filler, and last the count of elements known to be fully reduced.
// A record is the line without that last byte, so that the records of finished lines never reach an unfinished one.
ghost use Rattle.std.specs.Prelude.{◌≡◌, ◌+◌, ◌<◌};
ghost use Rattle.format.specs.Limits.{max_lines, max_turns};
ghost use Rattle.bindings.specs.ForContracts.Sets.{HasVariables};
ghost use Rattle.treating.specs.declared.treat.Treatment.TheVariants.{DropElement, Reduced, Split, Unify};
ghost use Rattle.walking.specs.ForContracts.Walking.{Walking, Finishing, TreatingLine, TreatingCount, GoesOn, Advances};

use bindings::equation::EquationTerms;
use format::limits::Limits;
use format::refusal::Refusal;
use line_bytes::edit::load;
use line_bytes::element::element_at;
use line_bytes::layout::{FIRST_ELEMENT, LINE};
use line_bytes::rebind::{differ, rebind};
use line_bytes::record::write_record;
use lines::line::Line;
use treating::split::{choices_of, push_choices, too_long};
use treating::treat::{Sides, Treatment, treatment_of};
use unifying::unifier::unify_positions;

// Where the walk stands: the two sides' positions, how many lines are finished, the place of the first unfinished line, and how many turns are taken.
#[derive(Clone, Copy)]
pub struct Walk {
    pub source: usize,
    pub target: usize,
    pub done: usize,
    pub top: usize,
    pub turns: u16,
}

impl Walk {
    // The first unfinished line is finished, which costs no turn: its record stands behind those of the others.
    fn finish(self, equation: &EquationTerms, memory: &mut [u8]) -> Walk
        requires { Finishing equation.now.nodes.now equation.now.sizes.now memory.old self }
        ensures { GoesOn equation.now.nodes.now equation.now.sizes.now memory.new self result }
    {
        write_record(memory, self.top * LINE, self.done * Limits::RECORD);
        Walk {
            done: self.done + 1,
            top: self.top + 1,
            ..self
        }
    }

    // A turn after which the first unfinished line is at `top`. The count is below its limit, so that one more still fits 16 bits.
    fn turned(self, top: usize) -> Walk
        requires { self.turns < max_turns }
        ensures { result ≡ record { source = self.source; target = self.target; done = self.done; top = top; turns = self.turns + 1 } }
    {
        Walk {
            top,
            turns: self.turns + 1,
            ..self
        }
    }

    // "delete the element"
    fn drop_element(
        self,
        line: Line,
        equation: &EquationTerms,
        memory: &mut [u8],
        at: usize,
    ) -> Walk
        requires { TreatingLine equation.now.nodes.now equation.now.sizes.now memory.old self line at DropElement × (self.turns < max_turns) }
        ensures { GoesOn equation.now.nodes.now equation.now.sizes.now memory.new self result }
    {
        line.put_without(memory, self.top * LINE, at);
        self.turned(self.top)
    }

    // "Failure deletes the line, success the element." Bindings that did not change leave known what is fully reduced.
    fn unify(
        self,
        line: Line,
        equation: &EquationTerms,
        memory: &mut [u8],
        at: usize,
        sides: Sides,
    ) -> Walk
        requires { TreatingLine equation.now.nodes.now equation.now.sizes.now memory.old self line at (Unify sides) × (self.turns < max_turns) × HasVariables equation.now.nodes.now equation.now.sizes.now equation.now.variables.now }
        ensures { GoesOn equation.now.nodes.now equation.now.sizes.now memory.new self result }
    {
        let place = self.top * LINE;
        let unifier = unify_positions(equation, &line.bindings, sides.left, sides.right);
        let Some(()) = unifier.answer else {
            return self.turned(self.top + 1);
        };
        // The bytes at `place` are compared and not `line.bindings`, which they equal: local arrays that are compared the compiler splits into single bytes.
        let changed = differ(memory, place, &unifier.bindings);
        line.put_without(memory, place, at);
        if changed {
            rebind(memory, place, &unifier.bindings);
        }
        self.turned(self.top)
    }

    // "the line is replaced, in its place, by one line per choice"
    fn split(
        self,
        count: usize,
        equation: &EquationTerms,
        memory: &mut [u8],
        at: usize,
        sides: Sides,
        terms: Sides,
    ) -> Result<Walk, Refusal>
        requires { TreatingCount equation.now.nodes.now equation.now.sizes.now memory.old self count at (Split sides terms) }
        ensures { Advances equation.now.nodes.now equation.now.sizes.now memory.new self result }
    {
        let choices = choices_of(equation, at, sides, terms);
        let left = choices.left.count;
        let right = choices.right.count;
        if too_long(choices.last, count - 1 + right) {
            return Err(Refusal::TooManyElements);
        }
        let number = left + left + choices.last;
        if self.top + 1 < self.done + number {
            return Err(Refusal::TooManyLines);
        }
        let first = self.top + 1 - number;
        let mut line = [Limits::NO_POSITION; LINE];
        load(memory, self.top * LINE, &mut line);
        push_choices(equation.sizes, &mut line, memory, choices, first * LINE);
        Ok(self.turned(first))
    }

    // Does what element number `at` asks for, which is one turn.
    fn treat(
        self,
        line: Line,
        equation: &EquationTerms,
        memory: &mut [u8],
        at: usize,
        treatment: Treatment,
    ) -> Result<Walk, Refusal>
        requires { TreatingLine equation.now.nodes.now equation.now.sizes.now memory.old self line at treatment × (treatment ≡ Reduced → ⊥) × HasVariables equation.now.nodes.now equation.now.sizes.now equation.now.variables.now }
        ensures { Advances equation.now.nodes.now equation.now.sizes.now memory.new self result }
    {
        if self.turns == Limits::TURNS {
            return Err(Refusal::TooManyTurns);
        }
        match treatment {
            Treatment::Reduced => Ok(self),
            Treatment::DropLine => Ok(self.turned(self.top + 1)),
            Treatment::DropElement => Ok(self.drop_element(line, equation, memory, at)),
            Treatment::Unify(sides) => Ok(self.unify(line, equation, memory, at, sides)),
            Treatment::Split(sides, terms) => self.split(
                line.count, equation, memory, at, sides, terms,
            ),
        }
    }

    // "Take the first unfinished line and in it the leftmost element that is not fully reduced. Treating it is one turn." A line that has none is finished.
    // The line is filled and searched here, where it is a local: handed to a function it would be copied before each search.
    pub fn turn(self, equation: &EquationTerms, memory: &mut [u8]) -> Result<Walk, Refusal>
        requires { Walking equation.now.nodes.now equation.now.sizes.now memory.old self × (self.top < max_lines) × HasVariables equation.now.nodes.now equation.now.sizes.now equation.now.variables.now }
        ensures { Advances equation.now.nodes.now equation.now.sizes.now memory.new self result }
    {
        let place = self.top * LINE;
        let mut line = Line::head(memory, place);
        for i in line.reduced..line.count {
            line.elements[i] = element_at(memory, place + FIRST_ELEMENT + 2 * i);
        }
        for at in line.reduced..line.count {
            let treatment = treatment_of(equation, &line.bindings, line.elements[at]);
            let Treatment::Reduced = treatment else {
                return self.treat(line, equation, memory, at, treatment);
            };
        }
        Ok(self.finish(equation, memory))
    }
}
