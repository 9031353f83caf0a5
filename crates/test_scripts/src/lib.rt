//! Tests of scripts and of what is printed for them, also over readers and writers that fail.
#![tactic(auto)]

#[cfg(test)]
mod scripts;
#[cfg(test)]
mod streams;
