// A finished line's record.
ghost use Rattle.std.specs.Prelude.{◌≡◌, ◌+◌, ◌≤◌, length};
ghost use Rattle.std.proofs.Math.Seq.{slice};
ghost use Rattle.format.specs.Limits.{record_bytes};
ghost use Rattle.line_bytes.specs.ForContracts.Layout.{placed};

use crate::edit::shift_left;
use format::limits::Limits;

// Puts the record of the line that rests at `from` at `to`, further to the front: all its bytes but the last.
pub fn write_record(memory: &mut [u8], from: usize, to: usize)
    requires { (to ≤ from) × (from + record_bytes ≤ length memory.old) }
    ensures { memory.new ≡ placed to (slice from (from + record_bytes) memory.old) memory.old }
{
    shift_left(memory, from, from + Limits::RECORD, from - to);
}
