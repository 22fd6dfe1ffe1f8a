// Whether a rule can step at a node of the subject.
#![tactic(auto)]

pub mod applies;
