// From place to place of the listing.
#![tactic(auto)]

pub mod step;
