// Terms, their prefix form and their positions. The definitions stand in specs/.
// Code: the number of nodes of the term that starts at each byte, rows of arguments, and the two directions.
#![tactic(auto)]

pub mod arguments;
pub mod direction;
pub mod measure;
