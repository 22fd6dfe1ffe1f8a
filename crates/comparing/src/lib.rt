// The lexicographic path ordering: the verdict of two terms in prefix form, with the verdicts already settled kept in cells.
#![tactic(auto)]

pub mod comparison;
pub mod constants;
