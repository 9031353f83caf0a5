//! Pictures of what a script asks of its scheduler.
#![tactic(auto)]

pub mod linkdraw;
