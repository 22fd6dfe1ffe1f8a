// Lines without binding and element among those that rest in the memory of the walk.
ghost use Rattle.std.specs.Prelude.{◌≡◌, ◌+◌, ◌*◌, ◌≤◌, ◌↔◌, length, slice_index, EachIndex, IsTrue};
ghost use Rattle.format.specs.Limits.{no_position};
ghost use Rattle.line_bytes.specs.ForContracts.Layout.{line_bytes};
ghost use Rattle.stopping.specs.ForContracts.Empty.{EmptyAt, AnyEmpty};

use format::limits::Limits;
use line_bytes::layout::{COUNT, LINE};

// Whether no variable is bound.
fn all_unbound(bindings: &[u8]) -> bool
    ensures { IsTrue result ↔ EachIndex bindings.now (λ k. slice_index bindings.now k ≡ no_position) }
{
    bindings.iter().all(|b| *b == Limits::NO_POSITION)
}

// Whether the line that rests at `place` has no element and no binding.
fn empty_at(memory: &[u8], place: usize) -> bool
    requires { place + line_bytes ≤ length memory.now }
    ensures { EmptyAt memory.now place result }
{
    memory[place + COUNT] == 0 && all_unbound(&memory[place..place + Limits::VARIABLES])
}

// Whether one of the lines at the places from `first` on, before `end`, has no element and no binding.
pub fn any_empty(memory: &[u8], first: usize, end: usize) -> bool
    requires { end * line_bytes ≤ length memory.now }
    ensures { AnyEmpty memory.now first end result }
{
    for i in first..end {
        if empty_at(memory, i * LINE) {
            return true;
        }
    }
    false
}
