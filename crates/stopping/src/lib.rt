// The walk from turn to turn, to its end or to a line without binding and element (document 02, W6).
#![tactic(auto)]

pub mod empty;
pub mod walk;
