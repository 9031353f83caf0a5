//! The language of `linkrun`: scripts of flows, caps, messages and moments.
#![tactic(auto)]

pub mod linkrun;
