// The lines of a sheet.
use scanning::text::Span;

// A line of the stated digits: its number, counted from 1, and its digits.
#[derive(Clone, Copy)]
pub struct FrameLine {
    pub number: usize,
    pub digits: Span,
}

// A line that is not of the stated digits and LF: its number.
#[derive(Clone, Copy)]
pub struct BrokenLine {
    pub number: usize,
}
