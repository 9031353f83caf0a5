//! Laws about the definitions of the simulation and of the event rule.
//!
//! The definitions stand in `specs/`: `Simulation/World` and `Simulation/Time` are the simulation,
//! which goes nanosecond by nanosecond; `Rule/Planned` and `Rule/Events` are the event rule, which goes
//! from event to event; `Rule/StandsFor` says when a state of the one stands for a state of the other.
//! Each function here does nothing: its contract is a law.

pub mod alone;
pub mod differences;
pub mod events;
pub mod instants;
pub mod meanings;
pub mod orderly;
pub mod progress;
pub mod range;
pub mod replies;
pub mod rows;
pub mod rule;
pub mod runs;
pub mod same;
pub mod simulated;
pub mod time;
