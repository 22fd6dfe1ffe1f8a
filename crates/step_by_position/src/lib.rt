// The search for a step by positions, over the kept lines of all rules.
#![tactic(auto)]

pub mod next;
pub mod positions;
