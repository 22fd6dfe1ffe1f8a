// What is known of a sheet whose rules are walked.
use scanning::known::Known;

// What its reading remembers, and whether the lines of all rules fit the table together, and are kept there.
#[derive(Clone, Copy)]
pub struct Opened {
    pub known: Known,
    pub fits: bool,
}
