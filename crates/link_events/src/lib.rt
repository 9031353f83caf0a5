//! The event rule: what calls do, from one planned moment to the next, over all that is kept between calls.
//!
//! It serves `link_scheduler`, which keeps at each call what the call may change, and puts it back
//! where the call is refused. So where a contract does not say what stays after an error, the caller
//! puts back what was kept.
#![tactic(auto)]

mod answers;
mod batch;
pub mod change;
mod event;
mod events;
mod leave;
pub mod ledger;
pub mod marks;
mod moves;
pub mod outgoing;
mod plans;
mod readiness;
mod settling;
mod spare;
mod through;
