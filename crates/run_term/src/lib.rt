// The run of a task's term over rules that all solve: the number that is returned, the last term and the log.
#![tactic(auto)]

pub mod filling;
pub mod term;
