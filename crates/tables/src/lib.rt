// The tables of the listing: a rule's first frame, and a line's.
#![tactic(auto)]

pub mod table;
