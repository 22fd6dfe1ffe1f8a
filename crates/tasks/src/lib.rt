// The tasks of the listing: what each prints.
#![tactic(auto)]

pub mod task;
