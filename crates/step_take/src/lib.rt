// A step that was found: taken ("The matched part becomes the target's instance.") and logged.
#![tactic(auto)]

pub mod instance;
pub mod part;
pub mod step;
