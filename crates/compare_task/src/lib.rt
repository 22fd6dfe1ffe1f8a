// Compare on an accepted sheet: the verdict of a task of two ground terms.
#![tactic(auto)]

pub mod compare;
