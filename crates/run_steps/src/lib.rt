// A run: step after step, until one of the three endings.
#![tactic(auto)]

pub mod course;
