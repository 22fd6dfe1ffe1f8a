// The numbers of the format, the kinds of frames, the refusals, the classes of node bytes, and the copying and comparing of bytes.
#![tactic(auto)]

pub mod byte;
pub mod copy;
pub mod kind;
pub mod limits;
pub mod refusal;
pub mod same;
