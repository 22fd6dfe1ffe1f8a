// One place further: from a table, from a line, and from a task.
ghost use Rattle.std.specs.Prelude.{◌≡◌, List, ℕ, ◌≤◌, length};
ghost use Rattle.format.specs.Limits.{table_bytes, scratch_bytes};
ghost use Rattle.sheet.specs.Sheet.{Sheet};
ghost use Rattle.frames.specs.ForContracts.Room.{line_room};
ghost use Rattle.cursor.specs.ForContracts.Stands.{Ready, AtPlace, Progress};
ghost use Rattle.places.specs.ForContracts.Step.{HasPlace};

use cursor::place::{Cursor, Listed, Place};
use frames::fixed::put_total;
use rules::opened::Opened;
use rules::rows::Rows;
use tables::table::{list_lines, list_table};
use tasks::task::list_task;

// The cursor at another place, and how many bytes stand in the buffer.
fn moved(opened: Opened, place: Place, bytes: usize) -> Listed<Cursor>
    ensures { result ≡ record { next = record { place = place; opened = opened }; bytes = bytes } }
{
    let next = Cursor { place, opened };
    Listed { next, bytes }
}

// The table of a rule, or the first task behind the last rule.
pub fn from_table(
    input: &[u8],
    opened: Opened,
    rule: usize,
    rows: &Rows,
    scratch: &mut [u8],
    out: &mut [u8],
) -> Listed<Cursor>
    requires has_place { HasPlace input.now opened.known opened.fits rows.now.equations.now rows.now.lengths.now scratch.old (Place.Table rule) }
    requires scratch_bytes_in_bounds { (scratch_bytes ≤ length scratch.old) × (line_room ≤ length out.old) }
    ensures { (bounds table : List ℕ) (s : Sheet) → Ready input.now opened.known opened.fits rows.now.equations.now rows.now.lengths.now bounds table s → AtPlace s scratch.old (Place.Table rule) → Progress input.now (Place.Table rule) rows.now.equations.now rows.now.lengths.now bounds table scratch.new out.new result }
{
    let known = opened.known;
    if rule == known.equations + known.equations {
        return moved(opened, Place::Task { task: 0, steps: 0 }, 0);
    }
    let listed = list_table(rule, rows.equations, rows.lengths, scratch, out);
    moved(opened, listed.next, listed.bytes)
}

// Lines of a rule, or the table of the next rule behind the last line.
pub fn from_line(
    input: &[u8],
    opened: Opened,
    rule: usize,
    line: usize,
    lines: usize,
    rows: &Rows,
    scratch: &[u8],
    out: &mut [u8],
) -> Listed<Cursor>
    requires has_place { HasPlace input.now opened.known opened.fits rows.now.equations.now rows.now.lengths.now scratch.now (Place.Line rule line lines) }
    requires line_room_in_bounds { line_room ≤ length out.old }
    ensures { (bounds table : List ℕ) (s : Sheet) → Ready input.now opened.known opened.fits rows.now.equations.now rows.now.lengths.now bounds table s → AtPlace s scratch.now (Place.Line rule line lines) → Progress input.now (Place.Line rule line lines) rows.now.equations.now rows.now.lengths.now bounds table scratch.now out.new result }
{
    if line == lines {
        return moved(opened, Place::Table(rule + 1), 0);
    }
    let listed = list_lines(rule, line, lines, rows, scratch, out);
    let next = Place::Line {
        rule,
        line: listed.next,
        lines,
    };
    moved(opened, next, listed.bytes)
}

// A task, or the last frame behind the last task.
pub fn from_task(
    input: &[u8],
    opened: Opened,
    task: usize,
    steps: usize,
    rows: &Rows,
    bounds: &[usize],
    table: &mut [u8],
    scratch: &mut [u8],
    out: &mut [u8],
) -> Listed<Cursor>
    requires ready { (s : Sheet) × Ready input.now opened.known opened.fits rows.now.equations.now rows.now.lengths.now bounds.now table.old s × AtPlace s scratch.old (Place.Task task steps) }
    requires table_bytes_in_bounds { (table_bytes ≤ length table.old) × (scratch_bytes ≤ length scratch.old) × (line_room ≤ length out.old) }
    ensures { Progress input.now (Place.Task task steps) rows.now.equations.now rows.now.lengths.now bounds.now table.new scratch.new out.new result }
{
    if task == opened.known.tasks {
        let bytes = put_total(steps, out, 0);
        return moved(opened, Place::End, bytes);
    }
    let listed = list_task(input, opened, task, rows, bounds, table, scratch, out);
    let next = Place::Task {
        task: task + 1,
        steps: steps + listed.steps,
    };
    moved(opened, next, listed.bytes)
}
