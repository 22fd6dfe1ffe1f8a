// Always (document 02, W6): "says yes as soon as the whole table .. has a finished line with no binding and no element, else no when the walk ends".
ghost use Rattle.std.specs.Prelude.{◌≡◌};
ghost use Rattle.outcomes.specs.Outcome.{always_call};

use crate::direction::directed_call;
use solve_task::always::Always;

// Yes or no and the turns above the refusal's byte, or a refusal. What is left in the table and in scratch is defined for each.
pub fn neblinaro_always(
    sheet: &[u8],
    equation: u64,
    direction: u64,
    table: &mut [u8],
    scratch: &mut [u8],
) -> u64
    ensures scratch_value { always_call sheet.now equation direction table.old scratch.old ≡ record { returned = result; table = table.new; scratch = scratch.new } }
    ensures unchanged { sheet.exit.now ≡ sheet.entry.now }
{
    directed_call::<Always>(sheet, equation, direction, table, scratch)
}
