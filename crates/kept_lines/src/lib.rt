// Lines kept without their filler, and which of them hold at values.
#![tactic(auto)]

pub mod holding;
pub mod trimmed;
