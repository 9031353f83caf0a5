//! Callers of the library, each short and proved: what its contracts are for.
#![tactic(auto)]

pub mod events;
pub mod messages;
pub mod peers;
pub mod rates;
pub mod replies;
pub mod routes;
pub mod threads;
pub mod worlds;
