//! What is in flight, and its rates.
//!
//! It serves `link_scheduler`, which passes on to callers what they see of it: readings. What else
//! is public here asks of the scheduler what it keeps. A call of the scheduler changes it in place,
//! and takes it back where it is refused. So where a contract does not say what stays after an error,
//! all may be given up, and be taken back to how it stood at the last mark.
#![tactic(auto)]

pub mod account;
mod component;
mod flight;
pub mod flight_list;
mod fraction;
mod joined;
pub mod loose;
pub mod notes;
mod numbers;
mod rate;
mod rates;
pub mod reading;
mod seen;
mod sides;
pub mod table;
mod units;
