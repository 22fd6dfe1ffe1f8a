// The verdicts of a comparison and their numbers.
ghost use Rattle.std.specs.Prelude.{◌≡◌};
ghost use Rattle.ordering.specs.Verdict.{verdict_number};

// The first term is smaller, equal or greater.
#[derive(Clone, Copy, Debug, PartialEq, Eq)]
pub enum Verdict {
    Smaller = 0,
    Equal = 1,
    Greater = 2,
}

// "0 smaller, 1 equal, 2 greater"
impl From<Verdict> for u8 {
    ghost from_gives = { λ verdict number. number ≡ verdict_number verdict };

    #[tactic(auto, unfolding(crate::specs::Verdict::verdict_number))]
    fn from(verdict: Verdict) -> u8 {
        verdict as u8
    }
}
