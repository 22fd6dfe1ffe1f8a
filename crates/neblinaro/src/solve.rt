// Solve: the lines and the turns of one direction of an equation, and its table.
ghost use Rattle.std.specs.Prelude.{◌≡◌};
ghost use Rattle.outcomes.specs.Outcome.{solve_call};

use crate::direction::directed_call;
use solve_task::solve::Solve;

// Lines and turns above the refusal's byte, and the records in the table; or a refusal. What is left in the table and in scratch is defined for each.
pub fn neblinaro_solve(
    sheet: &[u8],
    equation: u64,
    direction: u64,
    table: &mut [u8],
    scratch: &mut [u8],
) -> u64
    ensures scratch_value { solve_call sheet.now equation direction table.old scratch.old ≡ record { returned = result; table = table.new; scratch = scratch.new } }
    ensures unchanged { sheet.exit.now ≡ sheet.entry.now }
{
    directed_call::<Solve>(sheet, equation, direction, table, scratch)
}
