// A verdict with the clause that decided it (document 02, W8): its verdict, and its clause's number.
ghost use Rattle.std.specs.Prelude.{◌≡◌};
ghost use Rattle.ordering.specs.Decision.{verdict_of, clause_number, clause_number_of};

use crate::verdict::Verdict;

// The clauses of the ordering, in the paper's order.
#[derive(Clone, Copy, Debug, PartialEq, Eq)]
pub enum Clause {
    L1 = 1,
    L2 = 2,
    L3 = 3,
}

// The first term is smaller, equal or greater: "with 'greater' the first of L1, L2, L3 that applies, and with 'smaller' the first that applies the other way round".
#[derive(Clone, Copy, Debug, PartialEq, Eq)]
pub enum Decision {
    Smaller(Clause),
    Equal,
    Greater(Clause),
}

impl From<Clause> for u8 {
    ghost from_gives = { λ clause number. number ≡ clause_number clause };

    #[tactic(auto, unfolding(crate::specs::Decision::clause_number))]
    fn from(clause: Clause) -> u8 {
        clause as u8
    }
}

impl Decision {
    #[tactic(auto, unfolding(crate::specs::Decision::verdict_of))]
    pub fn verdict(self) -> Verdict
        ensures { result ≡ verdict_of self }
    {
        match self {
            Decision::Smaller(_) => Verdict::Smaller,
            Decision::Equal => Verdict::Equal,
            Decision::Greater(_) => Verdict::Greater,
        }
    }

    // "01, 02, 03, or 00 for equal"
    #[tactic(auto, unfolding(crate::specs::Decision::clause_number_of))]
    pub fn clause_number(self) -> u8
        ensures { result ≡ clause_number_of self }
    {
        match self {
            Decision::Smaller(clause) => u8::from(clause),
            Decision::Equal => 0,
            Decision::Greater(clause) => u8::from(clause),
        }
    }
}
