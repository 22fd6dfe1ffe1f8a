// The start of the listing: the sheet is read and every direction walked.
#![tactic(auto)]

pub mod open;
