// Sets of variables: variable `w` is in a set whose bit `w` is 1.
ghost use Rattle.std.specs.Prelude.{◌≡◌, ◌<◌};
ghost use Rattle.format.specs.Limits.{variable_count};
ghost use Rattle.bindings.specs.ForContracts.Sets.{Has, Singleton, Joined, Within};

// The set that has `w` alone.
pub fn singleton(w: usize) -> u16
    requires { w < variable_count }
    ensures { Singleton w result }
{
    1 << w
}

// The set of what is in either of two sets.
pub fn joined(a: u16, b: u16) -> u16
    ensures { Joined a b result }
{
    a | b
}

// The lowest variable of a set that is not in this part of it.
pub fn lowest_beside(set: u16, part: u16) -> usize
    requires { Within part set × (set ≡ part → ⊥) }
    ensures { Has set result × (Has part result → ⊥) }
{
    (set ^ part).trailing_zeros() as usize
}
