// The terms of an equation in bytes, seen through the bindings: following them, the occurs test, and sets of variables.
#![tactic(auto)]

pub mod count;
pub mod equation;
pub mod occurs;
pub mod reach;
pub mod sets;
