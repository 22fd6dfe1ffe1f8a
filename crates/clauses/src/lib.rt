// The comparison of two whole terms, with the clause that decided it.
#![tactic(auto)]

pub mod among;
pub mod compare;
pub mod greater;
pub mod kept;
pub mod questions;
pub mod smaller;
