// The rules of a run: each equation in each direction, with its lines.
#![tactic(auto)]

pub mod keep;
pub mod opened;
pub mod rows;
pub mod sides;
pub mod walks;
