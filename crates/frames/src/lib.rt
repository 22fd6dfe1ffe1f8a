// The frames that the program prints.
#![tactic(auto)]

pub mod fixed;
pub mod line;
pub mod steps;
