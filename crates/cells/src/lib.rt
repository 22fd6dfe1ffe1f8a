// The nodes of a comparison, and the cells in which the verdicts of their pairs are settled.
#![tactic(auto)]

pub mod nodes;
pub mod passing;
pub mod settled;
