//! Max-min fair rates: how fast flows over capped sides send.
//!
//! What fair rates are, and the laws about them, stand in `fairness`. This crate passes on what users call of it.
#![tactic(auto)]

pub mod bandwidth;

pub use fairness::{error, peer, ratio};
