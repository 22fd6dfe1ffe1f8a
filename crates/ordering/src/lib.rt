// The lexicographic path ordering. The definitions and its theory stand in specs/.
#![tactic(auto)]

pub mod decision;
pub mod verdict;
