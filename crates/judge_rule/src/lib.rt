// The judged rule: its lines are kept while all rules are walked, and tested at given values.
#![tactic(auto)]

pub mod judge;
