//! Tests under hostile use: what is needed is refused, one thing after another, and the calls and
//! the numbers are those that nobody means well with.
#![tactic(auto)]

#[cfg(test)]
mod calls;
#[cfg(test)]
mod ends;
#[cfg(test)]
mod kinds;
#[cfg(test)]
mod parts;
#[cfg(test)]
mod peers;
#[cfg(test)]
mod quiet;
#[cfg(test)]
mod rates;
#[cfg(test)]
mod refusals;
#[cfg(test)]
mod rows;
