// Reading a whole sheet, frame by frame; finding its frames again, and storing a task's terms as the subject's nodes.
#![tactic(auto)]

pub mod load;
pub mod read;
pub mod seek;
pub mod symbols;
