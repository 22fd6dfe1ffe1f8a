// Judge: whether a line of a direction holds at the values of a task, and the first that does.
ghost use Rattle.std.specs.Prelude.{◌≡◌, true, List, ℕ, ◌≤◌, length, drop};
ghost use Rattle.format.specs.Limits.{table_bytes, scratch_bytes};
ghost use Rattle.terms.specs.Term.{Terms};
ghost use Rattle.terms.specs.Equation.{Equation};
ghost use Rattle.terms.specs.declared.direction.Direction.{Direction};
ghost use Rattle.reading.specs.ForContracts.Seek.{Accepts};
ghost use Rattle.outcomes.specs.Asked.{asked, judgement_task};
ghost use Rattle.outcomes.specs.Outcome.{judge_answer};
ghost use Rattle.reducing.specs.Test.{holding_line, given_values};
ghost use Rattle.solving.specs.ForContracts.Told.{LineTold};
ghost use Rattle.judge_task.specs.ForContracts.JudgeTask.{JudgementIn, HasJudgement, ValuesIn, HasValues, JudgedIn, HasJudged, JudgedNumber};

use format::limits::Limits;
use format::refusal::Refusal;
use judge_rule::judge::{judge_lines, walk_judged};
use kept_lines::trimmed::KeptLines;
use outcomes::buffer::fill;
use outcomes::number::{fields_number, refusal_number};
use reading::load::load_terms;
use reading::seek::{TaskHead, find_task};
use rules::rows::{ROWS, Rows, store_equations};
use rules::walks::RefusedWalk;
use scanning::known::Known;
use scanning::text::Span;

// The first line that holds at the values that the digits write, over the kept lines of the judged rule, counted from 1.
pub fn judge_values(
    sheet: &[u8],
    known: Known,
    digits: Span,
    equations: &[u8],
    lengths: &[u8],
    rule: usize,
    table: &[u8],
    filled: usize,
    scratch: &mut [u8],
) -> Option<usize>
    requires { HasValues sheet.now known digits.from digits.end equations.now lengths.now rule table.now filled × (scratch_bytes ≤ length scratch.old) }
    ensures by_index { (i : ℕ) (e : Equation) (d : Direction) (ts : Terms) → ValuesIn sheet.now known digits.from digits.end equations.now lengths.now rule table.now filled i e d ts → LineTold result (holding_line e d (given_values ts)) }
    ensures scratch_unchanged { drop scratch_bytes scratch.new ≡ drop scratch_bytes scratch.old }
{
    let rows = Rows { equations, lengths };
    let mut nodes = [0u8; Limits::NODES];
    let mut sizes = [0u8; Limits::NODES];
    let arities = known.arities;
    let n = load_terms(
        sheet,
        digits,
        &arities[..known.symbols],
        &mut nodes,
        &mut sizes,
    );
    let lines = KeptLines {
        from: 0,
        end: filled,
    };
    judge_lines(
        &rows,
        rule,
        table,
        lines,
        &mut nodes,
        &mut sizes,
        &mut scratch[..Limits::CELLS],
        n,
    )
}

// The number that judge returns: the refusal of a walk, or whether a line holds at the values that the digits write, and the first that does.
fn judge_walked(
    sheet: &[u8],
    known: Known,
    digits: Span,
    rows: &Rows,
    rule: usize,
    judged: Result<usize, RefusedWalk>,
    table: &[u8],
    scratch: &mut [u8],
) -> u64
    requires { HasJudged sheet.now known digits.from digits.end rows.now.equations.now rows.now.lengths.now rule judged table.now × (scratch_bytes ≤ length scratch.old) }
    ensures judged_number { (es : List Equation) (i : ℕ) (e : Equation) (d : Direction) (ts : Terms) → JudgedIn sheet.now known digits.from digits.end rows.now.equations.now rows.now.lengths.now rule judged table.now es i e d ts → JudgedNumber judged e d (given_values ts) result }
    ensures scratch_unchanged { drop scratch_bytes scratch.new ≡ drop scratch_bytes scratch.old }
{
    match judged {
        Err(stopped) => refusal_number(stopped.why, stopped.equation + Limits::FIRST_EQUATION_LINE),
        Ok(filled) => {
            match judge_values(
                sheet,
                known,
                digits,
                rows.equations,
                rows.lengths,
                rule,
                table,
                filled,
                scratch,
            ) {
                None => 0,
                Some(line) => fields_number(1, line as u16, 0),
            }
        }
    }
}

// Judge on a task that is a judgement of rule `rule`.
fn judge_found(
    sheet: &[u8],
    known: Known,
    rule: usize,
    digits: Span,
    table: &mut [u8],
    scratch: &mut [u8],
) -> u64
    requires { HasJudgement sheet.now known rule digits.from digits.end × (table_bytes ≤ length table.old) × (scratch_bytes ≤ length scratch.old) }
    ensures { (task : ℕ) → JudgementIn sheet.now known rule digits.from digits.end task → judge_answer table.old scratch.old (asked true sheet.now (judgement_task task)) ≡ record { returned = result; table = table.new; scratch = scratch.new } }
{
    let mut equations = [0u8; ROWS];
    let mut lengths = [0u8; ROWS];
    store_equations(sheet, known, &mut equations, &mut lengths);
    let rows = Rows {
        equations: &equations,
        lengths: &lengths,
    };
    let judged = walk_judged(&rows, known.equations, rule, table, scratch);
    let number = judge_walked(sheet, known, digits, &rows, rule, judged, table, scratch);
    fill(table, Limits::TABLE, Limits::NO_POSITION);
    fill(scratch, Limits::SCRATCH, 0);
    number
}

// Judge on an accepted sheet.
pub fn judge_task(
    sheet: &[u8],
    known: Known,
    task: u64,
    table: &mut [u8],
    scratch: &mut [u8],
) -> u64
    requires { Accepts sheet.now known × (table_bytes ≤ length table.old) × (scratch_bytes ≤ length scratch.old) }
    ensures { judge_answer table.old scratch.old (asked true sheet.now (judgement_task task)) ≡ record { returned = result; table = table.new; scratch = scratch.new } }
{
    if known.tasks as u64 <= task {
        return refusal_number(Refusal::AbsentArgument, 0);
    }
    let found = find_task(sheet, known, task as usize);
    let head = found.head;
    match head {
        TaskHead::Judgement {
            equation,
            direction,
        } => judge_found(
            sheet,
            known,
            equation + equation + direction,
            found.terms,
            table,
            scratch,
        ),
        TaskHead::Comparison => refusal_number(Refusal::AbsentArgument, 0),
        TaskHead::Run { .. } => refusal_number(Refusal::AbsentArgument, 0),
    }
}
