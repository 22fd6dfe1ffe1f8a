// A rule's table: its first frame, then a frame for each line.
ghost use Rattle.std.specs.Prelude.{List, [], ◌∷◌, ℕ, suc, ◌+◌, ◌*◌, ◌≤◌, ◌<◌, length, get_or};
ghost use Rattle.terms.specs.Equation.{Equation};
ghost use Rattle.walking.specs.ForContracts.Walking.{memory_bytes};
ghost use Rattle.rules.specs.ForContracts.Rows.{RowsAre, HasRuleIn};
ghost use Rattle.reducing.specs.Test.{EverySolves};
ghost use Rattle.listing.specs.Listing.{printed};
ghost use Rattle.listing.specs.ForContracts.Appended.{Appended};
ghost use Rattle.frames.specs.ForContracts.Room.{table_room, line_room};
ghost use Rattle.cursor.specs.ForContracts.Rest.{rule_frames};
ghost use Rattle.cursor.specs.ForContracts.Stands.{LinesThere};
ghost use Rattle.tables.specs.ForContracts.Table.{TableGiven, HasLine, HasLines, LinesGiven};

use cursor::place::{Listed, Place};
use format::limits::Limits;
use frames::fixed::put_table;
use frames::line::{LINE_ROOM, put_line};
use rules::keep::walk_rule;
use rules::rows::Rows;

// "for each equation and direction '11'": walks the rule, whose lines come next.
pub fn list_table(
    rule: usize,
    equations: &[u8],
    lengths: &[u8],
    scratch: &mut [u8],
    out: &mut [u8],
) -> Listed<Place>
    requires { HasRuleIn equations.now lengths.now rule × (memory_bytes ≤ length scratch.old) × (table_room ≤ length out.old) }
    ensures { (arities : List ℕ) (es : List Equation) → RowsAre equations.now lengths.now arities es → EverySolves es → rule < 2 * length es → TableGiven es rule scratch.new out.old out.new result }
{
    match walk_rule(&Rows { equations, lengths }, rule, scratch) {
        Ok(walked) => {
            let bytes = put_table(rule, walked.lines, walked.turns, out, 0);
            Listed {
                next: Place::Line {
                    rule,
                    line: 0,
                    lines: walked.lines,
                },
                bytes,
            }
        }
        // Not met: every direction of a sheet that is listed solves.
        Err(_) => Listed {
            next: Place::End,
            bytes: 0,
        },
    }
}

// Line `line` of the rule, whose records stand first in scratch.
fn list_line(
    rule: usize,
    line: usize,
    rows: &Rows,
    scratch: &[u8],
    out: &mut [u8],
    at: usize,
) -> usize
    requires { HasLine rows.now.equations.now rows.now.lengths.now rule line scratch.now × (at + line_room ≤ length out.old) }
    ensures by_index { (arities : List ℕ) (es : List Equation) (lines : ℕ) → RowsAre rows.now.equations.now rows.now.lengths.now arities es → LinesThere es rule lines scratch.now → line < lines → Appended out.old at (printed (get_or (rule_frames 0 es rule) (suc line) [] ∷ [])) out.new result }
    ensures upper_bound { result ≤ at + line_room }
{
    let row = rule / 2 * Limits::POSITIONS;
    let right = row + usize::from(rows.lengths[row]);
    let end = right + usize::from(rows.lengths[right]);
    let from = line * Limits::RECORD;
    let next = from + Limits::RECORD;
    put_line(
        &scratch[from..next],
        &rows.equations[row..end],
        &rows.lengths[row..end],
        out,
        at,
    )
}

// "then per line '12'": the lines from `first` on that the buffer has room for, one at least.
pub fn list_lines(
    rule: usize,
    first: usize,
    lines: usize,
    rows: &Rows,
    scratch: &[u8],
    out: &mut [u8],
) -> Listed<usize>
    requires { HasLines rows.now.equations.now rows.now.lengths.now rule lines scratch.now × (first < lines) × (line_room ≤ length out.old) }
    ensures { (arities : List ℕ) (es : List Equation) → RowsAre rows.now.equations.now rows.now.lengths.now arities es → LinesThere es rule lines scratch.now → LinesGiven es rule first lines out.old out.new result }
{
    let mut at = 0;
    for line in first..lines {
        if out.len() < at + LINE_ROOM {
            return Listed {
                next: line,
                bytes: at,
            };
        }
        at = list_line(rule, line, rows, scratch, out, at);
    }
    Listed {
        next: lines,
        bytes: at,
    }
}
