// Run: the steps of a task's term, its ending and its last term.
ghost use Rattle.std.specs.Prelude.{◌≡◌};
ghost use Rattle.outcomes.specs.Outcome.{run_fits, run_call};

use crate::entry::{enter, table_fits};
use format::limits::Limits;
use outcomes::number::refusal_number;
use run_task::task::run_task;

// Whether the four lent buffers are long enough.
fn run_fits(table: &[u8], scratch: &[u8], term: &[u8], log: &[u8]) -> bool
    ensures { result ≡ run_fits table.now scratch.now term.now log.now }
{
    let three_fit = table_fits(table, scratch) && Limits::TERM <= term.len();
    three_fit && Limits::LOG <= log.len()
}

// Steps, ending and the bytes of the last term above the refusal's byte, that term and the log of the steps; or a refusal. What is left in each lent buffer is
// defined for each.
pub fn neblinaro_run(
    sheet: &[u8],
    task: u64,
    table: &mut [u8],
    scratch: &mut [u8],
    term: &mut [u8],
    log: &mut [u8],
) -> u64
    ensures log_value { run_call sheet.now task table.old scratch.old term.old log.old ≡ record { returned = result; table = table.new; scratch = scratch.new; term = term.new; log = log.new } }
    ensures unchanged { sheet.exit.now ≡ sheet.entry.now }
{
    let long_enough = run_fits(table, scratch, term, log);
    match enter(sheet, long_enough) {
        Ok(known) => run_task(sheet, known, task, table, scratch, term, log),
        Err(refused) => refusal_number(refused.why, refused.line),
    }
}
