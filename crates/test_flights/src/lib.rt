//! Tests of what is in flight and of what waits: what a call touches of it, how much there may be, and how it is read.
#![tactic(auto)]

#[cfg(test)]
mod apart;
#[cfg(test)]
mod clones;
#[cfg(test)]
mod idle;
#[cfg(test)]
mod joined;
#[cfg(test)]
mod kept;
#[cfg(test)]
mod long;
#[cfg(test)]
mod readings;
#[cfg(test)]
mod rows;
#[cfg(test)]
mod same;
#[cfg(test)]
mod touched;
#[cfg(test)]
mod wide;
