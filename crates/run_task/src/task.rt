// Run: the steps of a task's term, its ending and its last term.
ghost use Rattle.std.specs.Prelude.{◌≡◌, true, ℕ, ◌≤◌, length};
ghost use Rattle.format.specs.Limits.{no_position, table_bytes, scratch_bytes, term_bytes, log_bytes};
ghost use Rattle.reading.specs.ForContracts.Seek.{Accepts};
ghost use Rattle.outcomes.specs.Buffer.{filled};
ghost use Rattle.outcomes.specs.Asked.{asked, reduction_task};
ghost use Rattle.outcomes.specs.Outcome.{run_answer};
ghost use Rattle.run_task.specs.ForContracts.RunTask.{ReductionIn, HasReduction};

use format::limits::Limits;
use format::refusal::Refusal;
use outcomes::buffer::fill;
use outcomes::number::refusal_number;
use reading::seek::{TaskHead, find_task};
use rules::opened::Opened;
use rules::rows::{ROWS, Rows, store_equations};
use rules::walks::{BOUNDS, keep_rules};
use run_term::term::{RunAsked, course_number, run_course};
use scanning::known::Known;
use scanning::text::Span;

// Run on a task that is a run.
fn run_found(
    sheet: &[u8],
    known: Known,
    limit: usize,
    digits: Span,
    table: &mut [u8],
    scratch: &mut [u8],
    term: &mut [u8],
    log: &mut [u8],
) -> u64
    requires has_reduction { HasReduction sheet.now known limit digits.from digits.end }
    requires table_bytes_in_bounds { (table_bytes ≤ length table.old) × (scratch_bytes ≤ length scratch.old) × (term_bytes ≤ length term.old) × (log_bytes ≤ length log.old) }
    ensures { (task : ℕ) → ReductionIn sheet.now known limit digits.from digits.end task → run_answer table.old scratch.old term.old log.old (asked true sheet.now (reduction_task task)) ≡ record { returned = result; table = table.new; scratch = scratch.new; term = term.new; log = log.new } }
{
    let mut equations = [0u8; ROWS];
    let mut lengths = [0u8; ROWS];
    store_equations(sheet, known, &mut equations, &mut lengths);
    let mut bounds = [0usize; BOUNDS];
    let rows = Rows {
        equations: &equations,
        lengths: &lengths,
    };
    let walked = keep_rules(&rows, known.equations, &mut bounds, table, scratch);
    let number = match walked {
        Err(stopped) => refusal_number(stopped.why, stopped.equation + Limits::FIRST_EQUATION_LINE),
        Ok(fits) => {
            let opened = Opened { known, fits };
            let asked = RunAsked {
                opened,
                limit,
                digits,
            };
            let course = run_course(
                sheet, asked, &equations, &lengths, &bounds, table, scratch, term, log,
            );
            course_number(course)
        }
    };
    fill(table, Limits::TABLE, Limits::NO_POSITION);
    fill(scratch, Limits::SCRATCH, 0);
    number
}

// Run on an accepted sheet.
pub fn run_task(
    sheet: &[u8],
    known: Known,
    task: u64,
    table: &mut [u8],
    scratch: &mut [u8],
    term: &mut [u8],
    log: &mut [u8],
) -> u64
    requires accepts { Accepts sheet.now known }
    requires table_bytes_in_bounds { (table_bytes ≤ length table.old) × (scratch_bytes ≤ length scratch.old) × (term_bytes ≤ length term.old) × (log_bytes ≤ length log.old) }
    ensures { run_answer table.old scratch.old term.old log.old (asked true sheet.now (reduction_task task)) ≡ record { returned = result; table = table.new; scratch = scratch.new; term = term.new; log = log.new } }
{
    if known.tasks as u64 <= task {
        return refusal_number(Refusal::AbsentArgument, 0);
    }
    let found = find_task(sheet, known, task as usize);
    let TaskHead::Run { limit } = found.head else {
        return refusal_number(Refusal::AbsentArgument, 0);
    };
    run_found(sheet, known, limit, found.terms, table, scratch, term, log)
}
