//! Traces: the calls of a scheduler, with the lines that another simulator answered to each.
#![tactic(auto)]

pub mod linkcheck;
