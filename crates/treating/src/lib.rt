// What an element of a line asks for, and the lines of an inequality's choices.
#![tactic(auto)]

pub mod choices;
pub mod split;
pub mod treat;
