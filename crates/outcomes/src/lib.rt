// The outcomes of the calls: the numbers that they return, and the lent buffers.
#![tactic(auto)]

pub mod buffer;
pub mod number;
