//! Tests of numbers and rates: natural numbers, fractions, the planner `bandwidth`, and flows over routes.
#![tactic(auto)]

#[cfg(test)]
mod numbers;
#[cfg(test)]
mod planner;
#[cfg(test)]
mod routes;
#[cfg(test)]
mod same;
#[cfg(test)]
mod text;
