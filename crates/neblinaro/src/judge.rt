// Judge: whether a line of a direction holds at the values of a task, and the first that does.
ghost use Rattle.std.specs.Prelude.{◌≡◌};
ghost use Rattle.outcomes.specs.Outcome.{judge_call};

use crate::entry::{enter, table_fits};
use judge_task::task::judge_task;
use outcomes::number::refusal_number;

// 1 or 0 and the first holding line, counted from 1, or 0, above the refusal's byte; or a refusal. What is left in the table and in scratch is defined for each.
pub fn neblinaro_judge(sheet: &[u8], task: u64, table: &mut [u8], scratch: &mut [u8]) -> u64
    ensures scratch_value { judge_call sheet.now task table.old scratch.old ≡ record { returned = result; table = table.new; scratch = scratch.new } }
    ensures unchanged { sheet.exit.now ≡ sheet.entry.now }
{
    let long_enough = table_fits(table, scratch);
    match enter(sheet, long_enough) {
        Ok(known) => judge_task(sheet, known, task, table, scratch),
        Err(refused) => refusal_number(refused.why, refused.line),
    }
}
