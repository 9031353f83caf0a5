//! Lists of calls on a new scheduler, and what follows from what a scheduler promises. No program rests on it.
#![tactic(auto)]

pub mod clauses;
mod copies;
pub mod replay;
