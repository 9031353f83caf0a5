//! The scheduler, the planner and scripts as functions that C can call.
//!
//! `bindings/c/p2p_simulated.h` declares them and says how they are called. Each one does what the
//! library's own call does, and says so again in its contract.
#![tactic(auto)]

pub mod batch;
pub mod flights;
pub mod handle;
pub mod in_turn;
pub mod opened;
pub mod place;
pub mod planner;
pub mod records;
pub mod routes;
pub mod scheduler;
pub mod script;
pub mod status;
pub mod unboxed;
