// The cells of a comparison, one for each pair of nodes: 0, or one more than the number of a verdict that is settled, and the number of the clause that decided, where that was
// asked for, times 4.
// A row has the cells of the pairs with one first node. Its cells are read only where `ready` has a byte other than 0 at that node.
ghost use Rattle.std.specs.Prelude.{◌≡◌, ◌+◌, ◌≤◌, ◌<◌, length, set};
ghost use Rattle.format.specs.Limits.{node_count, cell_count};
ghost use Rattle.ordering.specs.Verdict.{verdict_number};
ghost use Rattle.cells.specs.ForContracts.Cells.{Cleared, MadeReady, CellHolds};

use format::limits::Limits;
use ordering::verdict::Verdict;

// Clears the bytes from `from` to `end`.
pub fn clear(bytes: &mut [u8], from: usize, end: usize)
    requires { (from ≤ end) × (end ≤ length bytes.old) }
    ensures { Cleared bytes.old from end bytes.new }
{
    bytes[from..end].fill(0);
}

// Makes the row of `s` ready: its cells are cleared at the first use, those with a second node of the subject's.
pub fn make_ready(ready: &mut [u8; Limits::NODES], cells: &mut [u8], s: usize)
    requires { (s < node_count) × (length ready.old ≡ node_count) × (length cells.old ≡ cell_count) }
    ensures { MadeReady ready.old cells.old s ready.new cells.new }
{
    if 0 < ready[s] {
        return;
    }
    let from = s * Limits::ROW_CELLS;
    clear(cells, from + Limits::POSITIONS, from + Limits::ROW_CELLS);
    ready[s] = 1;
}

// What the number of a clause is multiplied by in a cell.
pub const CLAUSE_UNIT: u8 = 4;

// The verdict that a settled cell holds. Cells are lent bytes, so that it stands there as a number.
pub fn held(cell: u8) -> Verdict
    ensures { CellHolds cell result }
{
    let verdict = cell % CLAUSE_UNIT;
    match verdict {
        1 => Verdict::Smaller,
        2 => Verdict::Equal,
        _ => Verdict::Greater,
    }
}

// Keeps a verdict in its cell and hands it back.
pub fn settle(cells: &mut [u8], cell: usize, verdict: Verdict) -> Verdict
    requires { cell < length cells.old }
    ensures value { result ≡ verdict }
    ensures cells_after { cells.new ≡ set cells.old cell (verdict_number verdict + 1) }
{
    cells[cell] = u8::from(verdict) + 1;
    verdict
}
