// Unification over an equation's bytes: the links between positions, and the unifier.
#![tactic(auto)]

pub mod links;
pub mod unifier;
pub mod unify;
