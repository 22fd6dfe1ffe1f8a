// Compare: the verdict of a task of two ground terms, with the clause that decided it.
ghost use Rattle.std.specs.Prelude.{◌≡◌};
ghost use Rattle.outcomes.specs.Outcome.{compare_call};

use crate::entry::enter;
use compare_task::compare::compare_task;
use format::limits::Limits;
use outcomes::number::refusal_number;

// 0 smaller, 1 equal, 2 greater, above the refusal's byte, and above that the clause, 1 to 3, or 0 for equal; scratch's first bytes are left 00, and as they were where the call is refused.
pub fn neblinaro_compare(sheet: &[u8], task: u64, scratch: &mut [u8]) -> u64
    ensures scratch_value { compare_call sheet.now task scratch.old ≡ record { returned = result; scratch = scratch.new } }
    ensures unchanged { sheet.exit.now ≡ sheet.entry.now }
{
    let long_enough = Limits::SCRATCH <= scratch.len();
    match enter(sheet, long_enough) {
        Ok(known) => compare_task(sheet, known, task, scratch),
        Err(refused) => refusal_number(refused.why, refused.line),
    }
}
