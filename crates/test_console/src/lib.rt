//! Tests of what the programs say on standard error.
#![tactic(auto)]

#[cfg(test)]
mod notes;
#[cfg(test)]
mod runs;
