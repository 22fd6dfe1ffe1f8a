// The search for a step, by positions or rule by rule.
#![tactic(auto)]

pub mod seek;
