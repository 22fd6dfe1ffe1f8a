// The number that a call returns.
ghost use Rattle.std.specs.Prelude.{◌≡◌, ◌≤◌};
ghost use Rattle.format.specs.Limits.{max_text};
ghost use Rattle.outcomes.specs.Buffer.{fields, refusal_number};

use format::refusal::Refusal;

// What each field counts: the first stands above the refusal's byte, and each has 16 bits.
const FIRST: u64 = 256;

const SECOND: u64 = 65536 * FIRST;

const THIRD: u64 = 65536 * SECOND;

// A refusal and its line.
pub fn refusal_number(why: Refusal, line: usize) -> u64
    requires { line ≤ max_text }
    ensures { result ≡ refusal_number why line }
{
    u64::from(u8::from(why)) + FIRST * (line as u64)
}

// Three fields of 16 bits above the lowest byte, which tells that nothing is refused.
pub fn fields_number(first: u16, second: u16, third: u16) -> u64
    ensures { result ≡ fields first second third }
{
    FIRST * u64::from(first) + SECOND * u64::from(second) + THIRD * u64::from(third)
}
