//! What the programs say on standard error: why a line is bad, and how far a long run is.
#![tactic(auto)]

pub mod forms;
pub mod note;
pub mod tally;
pub mod watched;
pub mod why;
