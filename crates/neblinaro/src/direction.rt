// Solve and always, which are lent the same buffers and refuse in the same order: the buffers, then the sheet, then what is asked for.
ghost use Rattle.std.specs.Prelude.{◌≡◌};
ghost use Rattle.outcomes.specs.Outcome.{directed_call};

use crate::entry::{enter, table_fits};
use outcomes::number::refusal_number;
use solve_task::direction::{DirectedCall, direction_named};

pub fn directed_call<C: DirectedCall>(
    sheet: &[u8],
    equation: u64,
    direction: u64,
    table: &mut [u8],
    scratch: &mut [u8],
) -> u64
    ensures { directed_call (C.directed equation table.old scratch.old) sheet.now equation direction table.old scratch.old ≡ record { returned = result; table = table.new; scratch = scratch.new } }
{
    let long_enough = table_fits(table, scratch);
    match enter(sheet, long_enough) {
        Ok(known) => direction_named::<C>(sheet, known, equation, direction, table, scratch),
        Err(refused) => refusal_number(refused.why, refused.line),
    }
}
