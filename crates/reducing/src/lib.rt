// Matching, judging and runs. The definitions and their theory stand in specs/.
// Code: the endings of a run and their numbers.
#![tactic(auto)]

pub mod ending;
