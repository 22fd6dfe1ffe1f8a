// What each call tests before it looks for what it asks for: "Order: 11; 1; then line by line 2, 3, ..", a lent buffer that is too short, then the sheet.
ghost use Rattle.std.specs.Prelude.{◌≡◌};
ghost use Rattle.outcomes.specs.Outcome.{table_fits};
ghost use Rattle.neblinaro.specs.ForContracts.Entry.{EntersAs};

use format::limits::Limits;
use format::refusal::Refusal;
use reading::read::{RefusedAt, read_sheet};
use scanning::known::Known;

// What is known of the sheet, where the lent buffers are long enough.
// Each call matches on it by itself: a closure for its task would stand in as many lines, with a contract that says again what the task's says.
pub fn enter(sheet: &[u8], long_enough: bool) -> Result<Known, RefusedAt>
    ensures { EntersAs sheet.now long_enough result }
{
    if long_enough {
        read_sheet(sheet)
    } else {
        let why = Refusal::ShortBuffer;
        Err(RefusedAt { why, line: 0 })
    }
}

// Whether a table and scratch are long enough.
pub fn table_fits(table: &[u8], scratch: &[u8]) -> bool
    ensures { result ≡ table_fits table.now scratch.now }
{
    Limits::TABLE <= table.len() && Limits::SCRATCH <= scratch.len()
}
