//! Tests of the scheduler: schedules, refusals, and the ends of what there are numbers for.
#![tactic(auto)]

#[cfg(test)]
mod batches;
#[cfg(test)]
mod contents;
#[cfg(test)]
mod ends;
#[cfg(test)]
mod lists;
#[cfg(test)]
mod moments;
#[cfg(test)]
mod numbers;
#[cfg(test)]
mod orders;
#[cfg(test)]
mod refusals;
#[cfg(test)]
mod same;
#[cfg(test)]
mod starts;
#[cfg(test)]
mod vectors;
