// Frames of a fixed number of bytes. Each is appended to what stands first in a buffer: `at` bytes stand there before, and the number that is given stands there after. The two
// are no struct: in each contract it would have to say that the buffer that the struct refers to stays the same one.
ghost use Rattle.std.specs.Prelude.{◌≡◌, ℕ, [], ◌∷◌, ◌+◌, ◌*◌, ◌/◌, ◌%◌, ◌≤◌, ◌<◌, length};
ghost use Rattle.format.specs.Limits.{max_text, max_equations, max_lines, max_tasks, max_steps};
ghost use Rattle.solving.specs.ForContracts.Told.{LineTold};
ghost use Rattle.listing.specs.Listing.{printed, two_bytes, refusal_frame, table_kind, judgement_frame, comparison_frame, total_kind};
ghost use Rattle.listing.specs.ForContracts.Appended.{Appended};
ghost use Rattle.frames.specs.ForContracts.Room.{refusal_room, table_room, judgement_room, comparison_room, total_room};

use format::refusal::Refusal;
use listing::digits::put_frame;
use listing::kinds::PrintedKind;
use ordering::decision::Decision;

// How many values a byte has.
const BYTE: u16 = 256;

// "two bytes, high first"
fn two_bytes(number: u16) -> [u8; 2]
    ensures { result ≡ two_bytes number }
{
    [(number / BYTE) as u8, (number % BYTE) as u8]
}

// "only 'ff', number, line in two bytes"
pub fn put_refusal(why: Refusal, line: usize, out: &mut [u8], at: usize) -> usize
    requires { (line ≤ max_text) × (at + refusal_room ≤ length out.old) }
    ensures { Appended out.old at (printed (refusal_frame why line ∷ [])) out.new result }
{
    let line = two_bytes(line as u16);
    let frame = [PrintedKind::Refusal as u8, u8::from(why), line[0], line[1]];
    put_frame(&frame, out, at)
}

// "for each equation and direction '11', equation, direction, lines, turns (two bytes, high first)"
pub fn put_table(rule: usize, lines: usize, turns: u16, out: &mut [u8], at: usize) -> usize
    requires { (rule < 2 * max_equations) × (lines ≤ max_lines) × (at + table_room ≤ length out.old) }
    ensures { Appended out.old at (printed ((table_kind ∷ rule / 2 ∷ rule % 2 ∷ lines ∷ two_bytes turns) ∷ [])) out.new result }
{
    let turns = two_bytes(turns);
    let frame = [
        PrintedKind::Table as u8,
        (rule / 2) as u8,
        (rule % 2) as u8,
        lines as u8,
        turns[0],
        turns[1],
    ];
    put_frame(&frame, out, at)
}

// "judgement, '15', yes 01 or no 00, holding line or 00"
pub fn put_judgement(holding: Option<usize>, out: &mut [u8], at: usize) -> usize
    requires { ((n : ℕ) × LineTold holding n × (n ≤ max_lines)) × (at + judgement_room ≤ length out.old) }
    ensures { (n : ℕ) → LineTold holding n → Appended out.old at (printed (judgement_frame n ∷ [])) out.new result }
{
    let frame = match holding {
        None => [PrintedKind::Judgement as u8, 0, 0],
        Some(line) => [PrintedKind::Judgement as u8, 1, line as u8],
    };
    put_frame(&frame, out, at)
}

// "comparison, '16', 00 smaller, 01 equal, 02 greater", and the clause, "01, 02, 03, or 00 for equal"
pub fn put_comparison(decision: Decision, out: &mut [u8], at: usize) -> usize
    requires { at + comparison_room ≤ length out.old }
    ensures { Appended out.old at (printed (comparison_frame decision ∷ [])) out.new result }
{
    let verdict = u8::from(decision.verdict());
    let frame = [
        PrintedKind::Comparison as u8,
        verdict,
        decision.clause_number(),
    ];
    put_frame(&frame, out, at)
}

// "Last '1f', steps of all runs in two bytes."
pub fn put_total(steps: usize, out: &mut [u8], at: usize) -> usize
    requires { (steps ≤ max_tasks * max_steps) × (at + total_room ≤ length out.old) }
    ensures { Appended out.old at (printed ((total_kind ∷ two_bytes steps) ∷ [])) out.new result }
{
    let steps = two_bytes(steps as u16);
    let frame = [PrintedKind::Total as u8, steps[0], steps[1]];
    put_frame(&frame, out, at)
}
