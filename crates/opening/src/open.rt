// The first piece of the listing: a refusal, or nothing where the tables come next.
ghost use Rattle.std.specs.Prelude.{◌≡◌, false, ◌≤◌, length};
ghost use Rattle.format.specs.Limits.{table_bytes, scratch_bytes};
ghost use Rattle.reading.specs.ForContracts.Seek.{Accepts};
ghost use Rattle.rules.specs.ForContracts.Rows.{row_bytes, bound_count};
ghost use Rattle.cursor.specs.declared.place.Place.TheVariants.{Start};
ghost use Rattle.cursor.specs.ForContracts.Stands.{Progress};
ghost use Rattle.frames.specs.ForContracts.Room.{refusal_room};

use cursor::place::{Cursor, Listed, Place};
use format::limits::Limits;
use frames::fixed::put_refusal;
use reading::read::read_sheet;
use rules::opened::Opened;
use rules::rows::{Rows, store_equations};
use rules::walks::keep_rules;
use scanning::known::Known;

// Nothing is left to print behind a refusal.
fn refused(known: Known, bytes: usize) -> Listed<Cursor>
    ensures { result ≡ record { next = record { place = Place.End; opened = record { known = known; fits = false } }; bytes = bytes } }
{
    let opened = Opened { known, fits: false };
    let next = Cursor {
        place: Place::End,
        opened,
    };
    Listed { next, bytes }
}

// The table of the first rule comes next.
fn opened(known: Known, fits: bool) -> Listed<Cursor>
    ensures { result ≡ record { next = record { place = Place.Table 0; opened = record { known = known; fits = fits } }; bytes = 0 } }
{
    let opened = Opened { known, fits };
    let next = Cursor {
        place: Place::Table(0),
        opened,
    };
    Listed { next, bytes: 0 }
}

// An accepted sheet: its equations are stored, and every direction is walked.
fn open_accepted(
    input: &[u8],
    known: Known,
    equations: &mut [u8],
    lengths: &mut [u8],
    bounds: &mut [usize],
    table: &mut [u8],
    scratch: &mut [u8],
    out: &mut [u8],
) -> Listed<Cursor>
    requires accepts { Accepts input.now known × (length equations.old ≡ row_bytes) × (length lengths.old ≡ row_bytes) × (length bounds.old ≡ bound_count) }
    requires table_bytes_in_bounds { (table_bytes ≤ length table.old) × (scratch_bytes ≤ length scratch.old) × (refusal_room ≤ length out.old) }
    ensures { Progress input.now Start equations.new lengths.new bounds.new table.new scratch.new out.new result }
{
    store_equations(input, known, equations, lengths);
    match keep_rules(
        &Rows { equations, lengths },
        known.equations,
        bounds,
        table,
        scratch,
    ) {
        Err(stopped) => {
            let line = stopped.equation + Limits::FIRST_EQUATION_LINE;
            let bytes = put_refusal(stopped.why, line, out, 0);
            refused(known, bytes)
        }
        Ok(fits) => opened(known, fits),
    }
}

pub fn open_sheet(
    input: &[u8],
    equations: &mut [u8],
    lengths: &mut [u8],
    bounds: &mut [usize],
    table: &mut [u8],
    scratch: &mut [u8],
    out: &mut [u8],
) -> Listed<Cursor>
    requires equations_len { (length equations.old ≡ row_bytes) × (length lengths.old ≡ row_bytes) × (length bounds.old ≡ bound_count) }
    requires table_bytes_in_bounds { (table_bytes ≤ length table.old) × (scratch_bytes ≤ length scratch.old) × (refusal_room ≤ length out.old) }
    ensures { Progress input.now Start equations.new lengths.new bounds.new table.new scratch.new out.new result }
{
    match read_sheet(input) {
        Err(refusal) => {
            let bytes = put_refusal(refusal.why, refusal.line, out, 0);
            refused(Known::nothing(), bytes)
        }
        Ok(known) => open_accepted(
            input, known, equations, lengths, bounds, table, scratch, out,
        ),
    }
}
