// Kept lines: each is its record without the filler, the bindings, the count of elements, and as many pairs.
ghost use Rattle.std.specs.Prelude.{◌≡◌, List, ◌+◌, ◌*◌, ◌≤◌, ◌<◌, length, get_or};
ghost use Rattle.std.proofs.Math.Seq.{slice};
ghost use Rattle.format.specs.Limits.{table_bytes};
ghost use Rattle.solving.specs.Line.{Line};
ghost use Rattle.line_bytes.specs.ForContracts.Layout.{count_place, first_element, placed};
ghost use Rattle.kept_lines.specs.ForContracts.Trimmed.{HasRecords, RecordsAre, KeptAs};

use format::limits::Limits;
use line_bytes::layout::{COUNT, FIRST_ELEMENT};

// Where kept lines stand in the table.
#[derive(Clone, Copy)]
pub struct KeptLines {
    pub from: usize,
    pub end: usize,
}

// The bytes of the line at `at` without filler.
pub fn trimmed_length(bytes: &[u8], at: usize) -> usize
    requires { at + count_place < length bytes.now }
    ensures { result ≡ first_element + 2 * get_or bytes.now (at + count_place) 0 }
{
    FIRST_ELEMENT + 2 * usize::from(bytes[at + COUNT])
}

// Copies the `n` bytes at `from` to `to`.
fn copy_line(records: &[u8], from: usize, n: usize, table: &mut [u8], to: usize)
    requires { (from + n ≤ length records.now) × (to + n ≤ length table.old) }
    ensures { table.new ≡ placed to (slice from (from + n) records.now) table.old }
{
    // Not `copy_from_slice`, for the reason that `copy_front` gives.
    for i in 0..n {
        table[to + i] = records[from + i];
    }
}

// Keeps lines whose records stand first in `records`, from `start` on, and tells where they end; none where there is no room for them.
pub fn keep_lines(records: &[u8], lines: usize, table: &mut [u8], start: usize) -> Option<usize>
    requires { HasRecords records.now lines × (start ≤ table_bytes) × (table_bytes ≤ length table.old) }
    ensures { (ls : List Line) → RecordsAre records.now lines ls → KeptAs ls start table.old table.new result }
{
    let mut to = start;
    for i in 0..lines {
        let at = i * Limits::RECORD;
        let n = trimmed_length(records, at);
        if Limits::TABLE < to + n {
            return None;
        }
        copy_line(records, at, n, table, to);
        to += n;
    }
    Some(to)
}
