// Going over a sheet line by line.
#![tactic(auto)]

pub mod line;
pub mod reader;
