//! A plain judge of rates, and a plain planner.
use super::network::{Cap, Network, Side};
use fairness::bandwidth::{Flow, Rate};
use fairness::error::Error;
use fairness::ratio::Ratio;
use std::alloc::Global;

/// What the judge finds.
#[derive(Clone, Copy, Debug, PartialEq, Eq)]
pub enum Verdict {
    Fair,
    Unfair,
    /// A sum does not fit in 128 bits.
    Unjudged,
}

/// The sum of the rates of the flows that a side holds. `Err` where it does not fit, and `None`
/// where one of them is unlimited.
fn total(side: Side, flows: &[Flow<u64>], rates: &[Rate]) -> Result<Option<Ratio>, Error> {
    let mut sum = Ratio::zero();
    for (flow, rate) in flows.iter().zip(rates) {
        if side.holds(flow) {
            match rate {
                Rate::Finite(bytes) => {
                    sum = sum.checked_add(*bytes).ok_or(Error::NumberTooLarge)?;
                }
                Rate::Unlimited => return Ok(None),
            }
        }
    }
    Ok(Some(sum))
}

/// No side has more than its cap.
fn are_within(network: &Network, rates: &[Rate]) -> Result<bool, Error> {
    for Cap(side, cap) in network.caps {
        if !is_within(total(*side, network.flows, rates)?, *cap) {
            return Ok(false);
        }
    }
    Ok(true)
}

fn is_within(sum: Option<Ratio>, cap: u128) -> bool {
    match sum {
        Some(sum) => sum <= Ratio::from_whole(cap),
        None => false,
    }
}

/// Whether a side has its whole cap in use, and gives none of its flows more than this rate.
fn holds_back(cap: &Cap, network: &Network, rates: &[Rate], rate: Ratio) -> Result<bool, Error> {
    let Cap(side, limit) = *cap;
    if total(side, network.flows, rates)? != Some(Ratio::from_whole(limit)) {
        return Ok(false);
    }
    Ok(
        network.flows.iter().zip(rates).all(|(flow, other)| {
            !side.holds(flow) || is_at_most(other, rate)
        }),
    )
}

fn is_at_most(rate: &Rate, most: Ratio) -> bool {
    match rate {
        Rate::Finite(bytes) => *bytes <= most,
        Rate::Unlimited => false,
    }
}

/// Whether a flow is unlimited and under no cap, or held back by a side.
fn is_right(
    network: &Network,
    rates: &[Rate],
    flow: &Flow<u64>,
    rate: &Rate,
) -> Result<bool, Error> {
    match rate {
        Rate::Unlimited => Ok(!network.caps.iter().any(|cap| cap.0.holds(flow))),
        Rate::Finite(bytes) => {
            for cap in network.caps {
                if cap.0.holds(flow) && holds_back(cap, network, rates, *bytes)? {
                    return Ok(true);
                }
            }
            Ok(false)
        }
    }
}

fn are_fair(network: &Network, rates: &[Rate]) -> Result<bool, Error> {
    for (flow, rate) in network.flows.iter().zip(rates) {
        if !is_right(network, rates, flow, rate)? {
            return Ok(false);
        }
    }
    are_within(network, rates)
}

/// Judges rates, one for each flow, by sums alone.
pub fn judge(network: &Network, rates: &[Rate]) -> Verdict {
    if rates.len() != network.flows.len() {
        return Verdict::Unfair;
    }
    match are_fair(network, rates) {
        Ok(true) => Verdict::Fair,
        Ok(false) => Verdict::Unfair,
        Err(_) => Verdict::Unjudged,
    }
}

/// The rates of a plain planner, one for each flow, and its rounds.
pub struct Filled {
    pub rates: Vec<Rate>,
    pub rounds: u64,
}

impl Drop for Filled {
    /// Lets go of what it holds.
    #[inline(always)]
    fn drop(self) {
        let Filled { rates, rounds: _ } = self;
        drop(rates);
    }
}

/// What is left of a side for each of its flows that have no rate yet, or `None` where all have.
fn share(cap: &Cap, flows: &[Flow<u64>], rates: &[Rate]) -> Result<Option<Ratio>, Error> {
    let Cap(side, limit) = *cap;
    let mut left = Ratio::from_whole(limit);
    let mut rising: u64 = 0;
    for (flow, rate) in flows.iter().zip(rates) {
        if side.holds(flow) {
            match rate {
                Rate::Finite(bytes) => {
                    left = left.checked_sub(*bytes).ok_or(Error::NumberTooLarge)?;
                }
                Rate::Unlimited => rising = rising.saturating_add(1),
            }
        }
    }
    if rising == 0 {
        return Ok(None);
    }
    let share = left.checked_div(Ratio::from_whole(rising as u128));
    Ok(Some(share.ok_or(Error::NumberTooLarge)?))
}

/// The least share of all sides.
fn least_share(network: &Network, rates: &[Rate]) -> Result<Option<Ratio>, Error> {
    let mut least = None;
    for cap in network.caps {
        least = lesser(least, share(cap, network.flows, rates)?);
    }
    Ok(least)
}

/// The lesser of those that are there.
fn lesser(one: Option<Ratio>, other: Option<Ratio>) -> Option<Ratio> {
    match (one, other) {
        (Some(one), Some(other)) => Some(one.min(other)),
        (Some(ratio), None) | (None, Some(ratio)) => Some(ratio),
        (None, None) => None,
    }
}

/// Whether one of the sides that hold a flow has just this share left.
fn is_stopped(
    network: &Network,
    rates: &[Rate],
    flow: &Flow<u64>,
    level: Ratio,
) -> Result<bool, Error> {
    for cap in network.caps {
        if cap.0.holds(flow) && share(cap, network.flows, rates)? == Some(level) {
            return Ok(true);
        }
    }
    Ok(false)
}

/// The rates after a round: each rising flow that a side stops at the level has it now.
fn after_round(
    alloc: Global,
    network: &Network,
    rates: &[Rate],
    level: Ratio,
) -> Result<Vec<Rate>, Error> {
    let mut after = Vec::new(alloc);
    for (flow, rate) in network.flows.iter().zip(rates) {
        let stops = *rate == Rate::Unlimited && is_stopped(network, rates, flow, level)?;
        after.push(if stops { Rate::Finite(level) } else { *rate })?;
    }
    Ok(after)
}

/// Fills all sides at once, a round for each level. `Err` where a number on the way does not fit.
pub fn fill(alloc: Global, network: &Network) -> Result<Filled, Error> {
    let mut rates = Vec::new(alloc);
    for _flow in network.flows {
        rates.push(Rate::Unlimited)?;
    }
    for rounds in 0..u64::MAX {
        match least_share(network, &rates)? {
            Some(level) => rates = after_round(alloc, network, &rates, level)?,
            None => return Ok(Filled { rates, rounds }),
        }
    }
    Err(Error::NumberTooLarge)
}

/// Whether rates fit by a common scale: some whole number that makes each of them whole is, times
/// the number of flows and the greatest cap, below 2^128.
pub fn fit(network: &Network, rates: &[Rate]) -> bool {
    let greatest = network.caps.iter().map(|cap| cap.1).max().unwrap_or(0);
    common_scale(rates)
        .and_then(|scale| scale.checked_mul(network.flows.len() as u128))
        .and_then(|scale| scale.checked_mul(greatest))
        .is_some()
}

/// The least whole number above zero that makes each finite rate whole, where it fits.
fn common_scale(rates: &[Rate]) -> Option<u128> {
    let mut scale: u128 = 1;
    for rate in rates {
        if let Rate::Finite(bytes) = rate {
            let missing = Ratio::new(scale, bytes.denominator())?.denominator();
            scale = scale.checked_mul(missing)?;
        }
    }
    Some(scale)
}
