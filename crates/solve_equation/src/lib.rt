// One direction of an equation, from its bytes: solved; and decided, yes or no (document 02, W6).
#![tactic(auto)]

pub mod decide;
pub mod positions;
pub mod solve;
pub mod variables;
