// A line by its named parts.
#![tactic(auto)]

pub mod line;
