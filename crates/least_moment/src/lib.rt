//! Moments in a row, whose least one is at hand, and all that have come by a time.
#![tactic(auto)]

mod moments;
mod tournament;

pub use moments::Moments;
