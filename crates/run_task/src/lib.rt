// Run on an accepted sheet: the steps of a task's term, its ending and its last term.
#![tactic(auto)]

pub mod task;
