//! A simulated link scheduler: max-min fair rates over capped peers, and when each message arrives.
//!
//! The modules are those of the crates that this one passes on: rates of `fair_rates`, also over routes
//! of `fair_routes`, with the laws of both of `fair_laws`, the scheduler of `link_scheduler`, lists of its
//! calls and what follows from its promises of `link_replay`, the laws of its definitions of `link_laws`,
//! scripts of `link_scripts`, traces of `link_traces`, and pictures of `link_pictures`. So are the definitions that contracts cite:
//! `Rattle.p2p_simulated.specs.Calls.State` is that of `link_scheduler`.
#![tactic(auto)]

pub mod bandwidth;
pub mod routes;

pub use fair_rates::{error, peer, ratio};
pub use link_console::why;
pub use link_laws::model;
pub use link_pictures::linkdraw;
pub use link_replay::{clauses, replay};
pub use link_scheduler::transmitter;
pub use link_scripts::linkrun;
pub use link_traces::linkcheck;
