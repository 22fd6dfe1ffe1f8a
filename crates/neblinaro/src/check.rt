// Check: what the sheet earns.
ghost use Rattle.std.specs.Prelude.{◌≡◌};
ghost use Rattle.outcomes.specs.Outcome.{check_call};

use outcomes::number::refusal_number;
use reading::read::read_sheet;

// The refusal and its line, or 0.
pub fn neblinaro_check(sheet: &[u8]) -> u64
    ensures value { result ≡ check_call sheet.now }
    ensures unchanged { sheet.exit.now ≡ sheet.entry.now }
{
    match read_sheet(sheet) {
        Ok(_) => 0,
        Err(refused) => refusal_number(refused.why, refused.line),
    }
}
