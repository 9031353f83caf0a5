//! What is known of peers and of ordered pairs of them: caps and last arrivals; and their messages and completions.
//!
//! It serves `link_waiting`, `link_flights` and `link_scheduler`, which passes on to callers what
//! they see of it: completions. What is known is changed in place, and a call of the scheduler that is refused
//! takes it back to the mark that was set before.
#![tactic(auto)]

pub mod completion;
pub mod contents;
pub mod known_pairs;
pub mod message;
pub mod pair;
pub mod peers;
mod room;
