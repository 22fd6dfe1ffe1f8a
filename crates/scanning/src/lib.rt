// Reading the digits of a line, and the terms of a frame.
#![tactic(auto)]

pub mod frame;
pub mod known;
pub mod scan;
pub mod task;
pub mod text;
