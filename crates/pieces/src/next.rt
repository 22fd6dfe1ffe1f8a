// The next piece of the listing.
ghost use Rattle.std.specs.Prelude.{◌≡◌, ◌≤◌, length};
ghost use Rattle.format.specs.Limits.{table_bytes, scratch_bytes};
ghost use Rattle.rules.specs.ForContracts.Rows.{row_bytes, bound_count};
ghost use Rattle.frames.specs.ForContracts.Room.{line_room};
ghost use Rattle.cursor.specs.ForContracts.Stands.{StandsAt, Progress};

use cursor::place::{Cursor, Listed, Place};
use opening::open::open_sheet;
use places::step::{from_line, from_table, from_task};
use rules::rows::Rows;

// From a place that is not the end to the next one: what is printed between them stands first in `out`. Between two pieces the equations, the sizes of their terms, the bounds and the lines of all rules, and scratch are kept.
pub fn next_piece(
    input: &[u8],
    cursor: Cursor,
    equations: &mut [u8],
    lengths: &mut [u8],
    bounds: &mut [usize],
    table: &mut [u8],
    scratch: &mut [u8],
    out: &mut [u8],
) -> Listed<Cursor>
    requires stands_at { StandsAt input.now cursor.opened.known cursor.opened.fits equations.old lengths.old bounds.old table.old scratch.old cursor.place × (cursor.place ≡ Place.End → ⊥) }
    requires equations_len { (length equations.old ≡ row_bytes) × (length lengths.old ≡ row_bytes) × (length bounds.old ≡ bound_count) }
    requires table_bytes_in_bounds { (table_bytes ≤ length table.old) × (scratch_bytes ≤ length scratch.old) × (line_room ≤ length out.old) }
    ensures { Progress input.now cursor.place equations.new lengths.new bounds.new table.new scratch.new out.new result }
{
    let opened = cursor.opened;
    match cursor.place {
        Place::Start => open_sheet(input, equations, lengths, bounds, table, scratch, out),
        Place::Table(rule) => {
            from_table(
                input,
                opened,
                rule,
                &Rows { equations, lengths },
                scratch,
                out,
            )
        }
        Place::Line { rule, line, lines } => from_line(
            input,
            opened,
            rule,
            line,
            lines,
            &Rows { equations, lengths },
            scratch,
            out,
        ),
        Place::Task { task, steps } => from_task(
            input,
            opened,
            task,
            steps,
            &Rows { equations, lengths },
            bounds,
            table,
            scratch,
            out,
        ),
        // Not met: nothing is left to print there.
        Place::End => Listed {
            next: cursor,
            bytes: 0,
        },
    }
}
