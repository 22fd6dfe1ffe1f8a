// The lines of the choices of an inequality, put into the memory of the walk.
ghost use Rattle.treating.specs.ForContracts.Choices.{ExceedingFit, FillsExceeding, ArgumentsFit, PushesArguments, EqualFit, MarksEqual, LexicographicFit, PushesLexicographic};

use line_bytes::edit::{put, store_with};
use line_bytes::element::EQUALITY;
use line_bytes::layout::LINE;
use terms::arguments::Arguments;

// Puts p > t, for each argument t, one behind the other from `at` on.
pub fn fill_exceeding(sizes: &[u8], line: &mut [u8], at: usize, p: u8, arguments: Arguments)
    requires { ExceedingFit sizes.now at arguments.from arguments.end line.old }
    ensures { FillsExceeding sizes.now at p arguments.from arguments.end line.old line.new }
{
    let mut t = arguments.from;
    let mut place = at;
    while t < arguments.end {
        put(line, place, p, t as u8);
        place += 2;
        t += usize::from(sizes[t]);
    }
}

// Puts the lines of the choices of each argument s: s > q and s = q in the place at `at`. Returns where the next line goes.
pub fn push_arguments(
    sizes: &[u8],
    line: &[u8],
    at: usize,
    q: u8,
    arguments: Arguments,
    records: &mut [u8],
    to: usize,
) -> usize
    requires { ArgumentsFit sizes.now at q arguments.from arguments.end to line.now records.old }
    ensures { PushesArguments sizes.now at q arguments.from arguments.end to line.now records.old records.new result }
{
    let mut s = arguments.from;
    let mut next = to;
    while s < arguments.end {
        store_with(line, at, s as u8, q, records, next);
        store_with(line, at, s as u8 + EQUALITY, q, records, next + LINE);
        next += 2 * LINE;
        s += usize::from(sizes[s]);
    }
    next
}

// Marks an equality for each term from `k` to `end`, at every other byte from `at` on.
fn mark_equal(sizes: &[u8], bytes: &mut [u8], at: usize, k: usize, end: usize)
    requires { EqualFit sizes.now at k end bytes.old }
    ensures { MarksEqual sizes.now at k end bytes.old bytes.new }
{
    let mut s = k;
    let mut place = at;
    while s < end {
        bytes[place] = s as u8 + EQUALITY;
        place += 2;
        s += usize::from(sizes[s]);
    }
}

// Puts the lines of the choices of each pair of arguments s and t of the two terms: s > t in the place of t's element,
// behind the equalities of the pairs before it. The line is copied as it is: a byte that was just changed would delay the copy.
pub fn push_lexicographic(
    sizes: &[u8],
    line: &[u8],
    at: usize,
    left: Arguments,
    right: Arguments,
    records: &mut [u8],
    to: usize,
) -> usize
    requires { LexicographicFit sizes.now at left.from left.end right.from right.end to line.now records.old }
    ensures { PushesLexicographic sizes.now at left.from left.end right.from right.end to line.now records.old records.new result }
{
    let mut s = left.from;
    let mut t = right.from;
    let mut place = at;
    let mut next = to;
    while s < left.end && t < right.end {
        store_with(line, place, s as u8, t as u8, records, next);
        mark_equal(sizes, records, next + at, left.from, s);
        place += 2;
        next += LINE;
        s += usize::from(sizes[s]);
        t += usize::from(sizes[t]);
    }
    next
}
