//! What fair rates are: exact fractions, rates, the sides that caps make, and the laws of max-min fairness.
#![tactic(auto)]

pub mod bandwidth;
pub mod error;
pub mod lowest_terms;
pub mod peer;
pub mod ratio;
