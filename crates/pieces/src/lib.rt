// The listing, piece by piece.
#![tactic(auto)]

pub mod next;
