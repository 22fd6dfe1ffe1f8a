// Judge on an accepted sheet: the first line of a direction that holds at the values of a task.
#![tactic(auto)]

pub mod task;
