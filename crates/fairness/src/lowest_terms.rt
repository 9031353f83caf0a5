//! How the planner makes fractions that it knows to be in lowest terms. `fair_rates` does not pass it on.
pub use crate::ratio::lowest::from_lowest;
pub use crate::ratio::numbers::gcd_of_narrow;
