// A line's bindings, compared with others and replaced.
ghost use Rattle.std.specs.Prelude.{◌≡◌, ◌+◌, ◌≤◌, length, set};
ghost use Rattle.std.proofs.Math.Seq.{slice};
ghost use Rattle.format.specs.Limits.{variable_count};
ghost use Rattle.line_bytes.specs.ForContracts.Layout.{line_bytes, reduced_place, placed};
ghost use Rattle.line_bytes.specs.ForContracts.Rebind.{Differ};

use crate::layout::REDUCED;
use format::limits::Limits;

// Whether the bindings of the line at `place` differ from `bindings`.
pub fn differ(memory: &[u8], place: usize, bindings: &[u8]) -> bool
    requires { (place + variable_count ≤ length memory.now) × (length bindings.now ≡ variable_count) }
    ensures { Differ (slice place (place + variable_count) memory.now) bindings.now result }
{
    // Not `!=` of slices, which is not compiled into the walk: a turn took some 4 in 100 longer with it and with a copy of slices in `Line::head`.
    for i in 0..Limits::VARIABLES {
        if memory[place + i] != bindings[i] {
            return true;
        }
    }
    false
}

// Puts the bindings into the line at `place`. No element is then known to be fully reduced.
pub fn rebind(memory: &mut [u8], place: usize, bindings: &[u8])
    requires { (place + line_bytes ≤ length memory.old) × (length bindings.now ≡ variable_count) }
    ensures { memory.new ≡ set (placed place bindings.now memory.old) (place + reduced_place) 0 }
{
    // Not `copy_from_slice`, with which solve took a quarter longer on an equation of few turns.
    for i in 0..Limits::VARIABLES {
        memory[place + i] = bindings[i];
    }
    memory[place + REDUCED] = 0;
}
