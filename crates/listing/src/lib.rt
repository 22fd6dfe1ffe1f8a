// The program's listing: frames in the sheet's digits.
#![tactic(auto)]

pub mod digits;
pub mod kinds;
