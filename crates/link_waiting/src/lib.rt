//! The messages that wait, and from when on the first of each idle pair may start.
//!
//! It serves `link_events`. All is changed in place, and can be taken back to the last mark.
#![tactic(auto)]

pub mod moment;
mod slots;
pub mod waiting;
