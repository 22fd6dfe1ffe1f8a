// How far the listing has come.
#![tactic(auto)]

pub mod place;
