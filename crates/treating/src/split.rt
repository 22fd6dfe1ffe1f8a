// The lines of the choices of an inequality.
ghost use Rattle.std.specs.Prelude.{◌≡◌};
ghost use Rattle.treating.specs.ForContracts.Splitting.{CountsLastChoices, TooLong, span_of, HasArguments, HasChoices, ChoicesOf, ChoicesFit, PushesChoices};

use crate::choices::{fill_exceeding, push_arguments, push_lexicographic};
use crate::treat::Sides;
use bindings::count::row_count;
use bindings::equation::EquationTerms;
use format::limits::Limits;
use line_bytes::edit::{make_room, store};
use line_bytes::layout::{FIRST_ELEMENT, REDUCED};
use terms::arguments::Arguments;

// How many choices there are besides those of the arguments of f, which has `m` and g `n`.
pub fn count_last_choices(f: u8, g: u8, m: usize, n: usize) -> usize
    ensures { CountsLastChoices f g m n result }
{
    if g < f {
        return 1;
    }
    if f == g {
        return m.min(n);
    }
    0
}

// Whether a line of a choice that comes last is too long with `elements` elements.
pub fn too_long(last: usize, elements: usize) -> bool
    ensures { TooLong last elements result }
{
    0 < last && Limits::ELEMENTS < elements
}

// The arguments of a term, and how many they are.
#[derive(Clone, Copy)]
pub struct CountedArguments {
    pub row: Arguments,
    pub count: usize,
}

// The arguments of the term at `p`.
fn counted_arguments(sizes: &[u8], p: usize) -> CountedArguments
    requires { HasArguments sizes.now p }
    ensures { result ≡ span_of sizes.now p }
{
    let from = p + 1;
    let end = p + usize::from(sizes[p]);
    CountedArguments {
        row: Arguments { from, end },
        count: row_count(sizes, from, end),
    }
}

// The choices of p > q, which is element `at` of its line and is f(left) > g(right) under the bindings: those of the arguments of f, and `last` more.
#[derive(Clone, Copy)]
pub struct Choices {
    pub at: usize,
    pub p: u8,
    pub q: u8,
    pub f: u8,
    pub g: u8,
    pub left: CountedArguments,
    pub right: CountedArguments,
    pub last: usize,
}

pub fn choices_of(equation: &EquationTerms, at: usize, sides: Sides, terms: Sides) -> Choices
    requires { HasChoices equation.now.nodes.now equation.now.sizes.now sides terms }
    ensures { ChoicesOf equation.now.nodes.now equation.now.sizes.now at sides terms result }
{
    let f = equation.nodes[terms.left];
    let g = equation.nodes[terms.right];
    let left = counted_arguments(equation.sizes, terms.left);
    let right = counted_arguments(equation.sizes, terms.right);
    let last = count_last_choices(f, g, left.count, right.count);
    Choices {
        at,
        p: sides.left as u8,
        q: sides.right as u8,
        f,
        g,
        left,
        right,
        last,
    }
}

// Puts the lines of all choices. The line is the one that they replace.
pub fn push_choices(sizes: &[u8], line: &mut [u8], memory: &mut [u8], choices: Choices, to: usize)
    requires { ChoicesFit sizes.now line.old memory.old choices to }
    ensures { PushesChoices sizes.now line.old memory.old choices to memory.new }
{
    let at = choices.at;
    let left = choices.left;
    let right = choices.right;
    line[REDUCED] = at as u8;
    let place = 2 * at + FIRST_ELEMENT;
    let next = push_arguments(sizes, line, place, choices.q, left.row, memory, to);
    if choices.last == 0 {
        return;
    }
    make_room(line, at, right.count);
    fill_exceeding(sizes, line, place, choices.p, right.row);
    if choices.g < choices.f {
        store(line, memory, next);
        return;
    }
    push_lexicographic(sizes, line, place, left.row, right.row, memory, next);
}
