// The search for a step rule by rule, where the lines of all rules do not fit together.
#![tactic(auto)]

pub mod search;
