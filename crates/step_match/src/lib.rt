// Matching a side of an equation with a part of the subject.
#![tactic(auto)]

pub mod same;
pub mod side;
