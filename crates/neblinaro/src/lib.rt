// The calls for a marking host. Each is lent the whole sheet and reads it afresh; nothing is kept between calls. `neblinaro_c` exports them for C.
#![tactic(auto)]

pub mod always;
pub mod check;
pub mod compare;
pub mod direction;
pub mod entry;
pub mod judge;
pub mod run;
pub mod solve;
