//! Tests of pictures.
#![tactic(auto)]

#[cfg(test)]
mod pictures;
