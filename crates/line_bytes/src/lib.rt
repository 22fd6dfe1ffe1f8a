// Lines at rest in lent memory, and the records of finished ones: their bytes.
#![tactic(auto)]

pub mod edit;
pub mod element;
pub mod layout;
pub mod rebind;
pub mod record;
