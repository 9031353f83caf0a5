//! Tests of `linkcheck`.
#![tactic(auto)]

#[cfg(test)]
mod traces;
