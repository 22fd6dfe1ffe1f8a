// The two directions in which an equation is solved.
ghost use Rattle.std.specs.Prelude.{◌≡◌, ◌%◌, MatchOption};
ghost use Rattle.std.proofs.Math.Option.{none, some};
ghost use Rattle.terms.specs.Equation.{direction_of};

// "Direction 00 is left > right, 01 is right > left"
#[derive(Clone, Copy, Debug, PartialEq, Eq)]
pub enum Direction {
    LeftRight = 0,
    RightLeft = 1,
}

impl Direction {
    // The direction with this number, if there is one.
    pub fn from_number(number: u64) -> Option<Direction>
        ensures { MatchOption result (direction_of number ≡ none) (λ d. direction_of number ≡ some d) }
    {
        match number {
            0 => Some(Direction::LeftRight),
            1 => Some(Direction::RightLeft),
            _ => None,
        }
    }

    // The direction of a rule: the rules are direction 00 and direction 01 of each equation in turn.
    pub fn of_rule(rule: usize) -> Direction
        ensures { direction_of (rule % 2) ≡ some result }
    {
        if rule % 2 == 0 {
            Direction::LeftRight
        } else {
            Direction::RightLeft
        }
    }
}
