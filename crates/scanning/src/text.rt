// The text of a sheet: digits, bytes of two digits, and where a line ends.
ghost use Rattle.std.specs.Prelude.{◌≡◌, ◌+◌, ◌<◌, ◌≤◌, true, length, take, drop, nat_lt};
ghost use Rattle.sheet.specs.Text.{base};
ghost use Rattle.scanning.specs.ForContracts.Digits.{digit_number, pair_at, block, Digits, DigitsTo, LineRead, CountRead};

use format::byte::LF;
use format::limits::Limits;

// The base of the digits.
const BASE: usize = 16;

// So many characters are tested at once.
const BLOCK: usize = 16;

// The digits from `from` to `end`.
#[derive(Clone, Copy)]
pub struct Span {
    pub from: usize,
    pub end: usize,
}

// A sheet, and the digits of it that a frame or a part of one takes.
#[derive(Clone, Copy)]
pub struct SheetPart<'a> {
    pub sheet: &'a [u8],
    pub span: Span,
}

impl<'a> SheetPart<'a> {
    // The digits of it from `at` on.
    pub fn tail(self, at: usize) -> SheetPart<'a>
        ensures { result ≡ record { sheet = self.entry.sheet; span = record { from = at; end = self.entry.span.end } } }
    {
        SheetPart {
            span: Span {
                from: at,
                ..self.span
            },
            ..self
        }
    }
}

// The value of a digit, or the base for any other character.
pub fn digit_value(c: u8) -> usize
    ensures { result ≡ digit_number c }
{
    match c {
        b'0'..=b'9' => (c - b'0') as usize,
        b'a'..=b'f' => 10 + (c - b'a') as usize,
        _ => BASE,
    }
}

// The byte that the two digits at `at` write.
pub fn byte_at(s: &[u8], at: usize) -> usize
    requires { at + 1 < length s.now }
    ensures { result ≡ pair_at s.now at }
{
    let high = digit_value(s[at]);
    let low = digit_value(s[at + 1]);
    BASE * high + low
}

// Whether a character is a digit, by differences that wrap, without a branch. By `matches!` the loop over a block is not made into vector instructions,
// and a check takes 1.6 times as long.
fn is_digit(c: u8) -> bool
    ensures { result ≡ nat_lt (digit_number c) base }
{
    (c.wrapping_sub(b'0') < 10) | (c.wrapping_sub(b'a') < 6)
}

// Whether the characters of a block from `at` on are digits. No branch leaves the loop: they are tested at once, in one vector.
fn block_digits(s: &[u8], at: usize) -> bool
    requires { at + block ≤ length s.now }
    ensures { result ≡ true → Digits (take block (drop at s.now)) }
{
    let mut all = true;
    for &c in &s[at..at + BLOCK] {
        all &= is_digit(c);
    }
    all
}

// Past the blocks of digits from `at` on, as far as a line may have them.
fn blocks_end(s: &[u8], at: usize) -> usize
    requires { at < length s.now }
    ensures { DigitsTo s.now at result }
{
    // No `for`: where the loop stops is the answer.
    let mut i = at;
    while i + BLOCK <= s.len() && i + BLOCK - at <= Limits::LINE_DIGITS && block_digits(s, i) {
        i += BLOCK;
    }
    i
}

// Where the digits of a line end, if it is a line of the stated digits and LF.
pub fn line_end(s: &[u8], at: usize) -> Option<usize>
    requires { at < length s.now }
    ensures { LineRead s.now at result }
{
    for i in blocks_end(s, at)..s.len() {
        let c = s[i];
        // Most characters are digits, so that the line's end is looked for among the others.
        if BASE <= digit_value(c) {
            return if c == LF { ended_at(at, i) } else { None };
        }
        if i - at == Limits::LINE_DIGITS {
            return None;
        }
    }
    None
}

// An even count, not zero.
fn ended_at(at: usize, end: usize) -> Option<usize>
    requires { at ≤ end }
    ensures { CountRead at end result }
{
    match end - at {
        0 => None,
        count if count % 2 == 1 => None,
        _ => Some(end),
    }
}
