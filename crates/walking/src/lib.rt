// The walk that solves s > t, over an equation's bytes and the number of nodes of the term that starts at each.
#![tactic(auto)]

pub mod walk;
