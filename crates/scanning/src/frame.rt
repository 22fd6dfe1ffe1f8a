// The bodies of frames: what each kind's bytes earn.
ghost use Rattle.std.specs.Prelude.{◌≡◌, ◌≤◌, false};
ghost use Rattle.format.specs.Limits.{variable_count, max_side_nodes};
ghost use Rattle.sheet.specs.Frame.{ground_terms};
ghost use Rattle.scanning.specs.ForContracts.Digits.{span_bytes};
ghost use Rattle.scanning.specs.ForContracts.Scan.{known_arities, ScanReady, FrameReady, Matches, WholeScan, EquationGiven};

use crate::known::Known;
use crate::scan::{Wanted, scan};
use crate::text::SheetPart;
use format::limits::Limits;
use format::refusal::Refusal;

// What is wanted and nothing behind it: how many variables there are up to the highest met.
fn whole_scan(known: Known, part: SheetPart, wanted: Wanted) -> Result<usize, Refusal>
    requires { ScanReady part.sheet.now part.span known.symbols wanted }
    ensures { WholeScan (known_arities known) (span_bytes part.entry.sheet.now part.entry.span) wanted result }
{
    let scanned = scan(known, part, wanted)?;
    if scanned.at == part.span.end {
        Ok(scanned.width)
    } else {
        Err(Refusal::FrameBytes)
    }
}

// Ground terms and nothing behind them.
pub fn ground_terms(known: Known, part: SheetPart, terms: usize) -> Result<(), Refusal>
    requires { FrameReady part.sheet.now part.span known × (terms ≤ variable_count) }
    ensures { Matches (ground_terms (known_arities known) terms (span_bytes part.entry.sheet.now part.entry.span)) result }
{
    let wanted = Wanted {
        terms,
        nodes: Limits::TASK_NODES,
        is_ground: true,
        width: 0,
    };
    whole_scan(known, part, wanted)?;
    Ok(())
}

// One side of an equation, behind a side of `width`.
fn side(width: usize) -> Wanted
    ensures { result ≡ record { terms = 1; nodes = max_side_nodes; is_ground = false; width = width } }
{
    Wanted {
        terms: 1,
        nodes: Limits::SIDE_NODES,
        is_ground: false,
        width,
    }
}

// An equation: how many variables there are up to its highest.
pub fn equation_body(known: Known, part: SheetPart) -> Result<usize, Refusal>
    requires { FrameReady part.sheet.now part.span known }
    ensures { EquationGiven (known_arities known) (span_bytes part.entry.sheet.now part.entry.span) result }
{
    let left = scan(known, part, side(0))?;
    whole_scan(known, part.tail(left.at), side(left.width))
}
