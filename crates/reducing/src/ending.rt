// The endings of a run and their numbers.
ghost use Rattle.std.specs.Prelude.{◌≡◌};
ghost use Rattle.reducing.specs.Run.{ending_number};

// "none found, ending 00; k steps done, ending 01; result above 160 nodes, ending 02"
#[derive(Clone, Copy, Debug, PartialEq, Eq)]
pub enum Ending {
    NoneFound = 0,
    LimitReached = 1,
    ResultTooLarge = 2,
}

impl From<Ending> for u8 {
    ghost from_gives = { λ ending number. number ≡ ending_number ending };

    #[tactic(auto, unfolding(crate::specs::Run::ending_number))]
    fn from(ending: Ending) -> u8 {
        ending as u8
    }
}
