// Links between positions with the same term, seen through the bindings: a byte for each position, ff or another one.
ghost use Rattle.std.specs.Prelude.{◌<◌};
ghost use Rattle.format.specs.Limits.{position_count};
ghost use Rattle.unifying.specs.ForContracts.Links.{Leads, Followed};

use format::limits::Limits;

// The position that the links lead to from `p`.
pub fn linked(links: &[u8], p: usize) -> usize
    requires { Followed links.now × (p < position_count) }
    ensures { Leads links.now p result }
{
    let mut at = p;
    for _hop in 0..Limits::POSITIONS {
        let next = links[at];
        if next == Limits::NO_POSITION {
            return at;
        }
        at = usize::from(next);
    }
    at
}
