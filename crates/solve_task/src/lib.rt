// Solve and always, by equation and direction, on an accepted sheet.
#![tactic(auto)]

pub mod always;
pub mod direction;
pub mod solve;
