//! The scheduler: who sends how fast, and when each message arrives.
#![tactic(auto)]

pub mod call;
pub mod transmitter;
