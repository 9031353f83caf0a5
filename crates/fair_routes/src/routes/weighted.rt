//! Who sends how fast where some flows count for more than others.
//!
//! A flow of weight `w` counts at each of its links as `w` flows of weight one, and has what these have
//! together. So the rates, each over the weight of its flow, are max-min fair.
ghost use Rattle.std.specs.Prelude.{◌≡◌, ◌<◌, ◌≤◌, ◌^◌, ℕ, IfOk, IfErr, IfSome, IsSome, ◌↔◌, All, length, map, sum_by};
ghost use Rattle.fair_routes.specs.Network.Sides.{side_of};
ghost use Rattle.fair_routes.specs.Network.Rising.{AreFilledByWeight};
ghost use Rattle.fair_routes.specs.Network.Weights.{weight_at, weighted, AreWeights, IsOfWeights, IsWeightedAllocation};
ghost use Rattle.fair_routes.specs.Network.Weights.{IsWeightRefusal, HaveLittleWeight, HasMuchWeight};

mod error;
mod rising;
mod room;

use crate::routes::sides::{LinkSide, link_sides};
pub use error::WeightError;
use fairness::bandwidth::Rate;
use rising::{Rising, freeze, weigh};
use room::{least_room, share_of};
use std::alloc::{AllocError, Global};

/// The fair rate of each flow over its route by its weight, in the order of the flows.
///
/// `routes` and `caps` are those of [`allocate_routes`](super::allocate_routes), and `weights[i]` is the
/// weight of flow `i`, a whole number above zero. A flow of weight `w` gets what `w` flows of weight one
/// over its route would get together: the flows that use a link have no more than its cap together, and
/// each flow uses a link that is used up and on which no flow has more than this one for each one of its
/// weight. With all weights one the rates are those of `allocate_routes`.
///
/// # Errors
///
/// - `OtherCount` where there are not as many weights as flows.
/// - `NoWeight` with a flow whose weight is zero.
/// - `TooMuchWeight` where the flows that use some link with a cap have a weight of 2^64 or more together.
/// - `Routes(NoSuchLink)` with a flow and a link of its route, where the number of the link is that of no cap.
/// - `Routes(Refused(OutOfMemory))` where memory was refused.
/// - `Routes(Refused(NumberTooLarge))` exactly where the fair rate of some flow, in lowest terms, has a
///   numerator or a denominator of 2^128 or more.
pub fn allocate_weighted_routes(
    alloc: Global,
    routes: &[Vec<usize>],
    weights: &[u64],
    caps: &[Option<u128>],
) -> Result<Vec<Rate>, WeightError>
    ensures fair { IfOk result (λ rates. IsWeightedAllocation caps.now (map (λ route. route.items) routes.now)
        weights.now rates.items) }
    ensures refused { IfErr result (IsWeightRefusal caps.now (map (λ route. route.items) routes.now) weights.now) }
{
    check_weights(routes.len(), weights)?;
    let sides = link_sides(alloc, routes, caps)?;
    check_sides(&sides, weights)?;
    let rising = fill(alloc, &sides, weights)?;
    let found = weigh(alloc, rising, weights)?;
    Ok(found.rates(alloc)?)
}

/// Tests that there is a weight above zero for each of so many flows.
fn check_weights(flows: usize, weights: &[u64]) -> Result<(), WeightError>
    ensures checked { IfOk result (λ _. AreWeights flows weights.now) }
    ensures refused { IfErr result (IsOfWeights flows weights.now) }
{
    if weights.len() != flows {
        return Err(WeightError::OtherCount {
            flows,
            weights: weights.len(),
        });
    }
    for (flow, weight) in weights.iter().enumerate() {
        if *weight == 0 {
            return Err(WeightError::NoWeight { flow });
        }
    }
    Ok(())
}

/// Tests that the users of each side have a weight below 2^64 together.
fn check_sides(sides: &[LinkSide], weights: &[u64]) -> Result<(), WeightError>
    requires { All (λ side. All (λ user. user < length weights.now) side.users.items) sides.now }
    ensures checked { IfOk result (λ _. HaveLittleWeight weights.now (map side_of sides.now)) }
    ensures refused { IfErr result (λ e. (e ≡ WeightError.TooMuchWeight) × HasMuchWeight weights.now
        (map side_of sides.now)) }
{
    for side in sides {
        if weight_together(&side.users, weights).is_none() {
            return Err(WeightError::TooMuchWeight);
        }
    }
    Ok(())
}

/// The weight of these flows together, if it is below 2^64.
fn weight_together(users: &[usize], weights: &[u64]) -> Option<u64>
    requires { All (λ user. user < length weights.now) users.now }
    ensures { IsSome result ↔ (sum_by (weight_at weights.now) users.now < 2 ^ 64) }
{
    let mut together: u64 = 0;
    for user in users {
        together = together.checked_add(weights[*user])?;
    }
    Some(together)
}

/// The fair rates for each one of weight.
fn fill(alloc: Global, sides: &[LinkSide], weights: &[u64]) -> Result<Rising, AllocError>
    requires users { All (λ side. All (λ user. user < length weights.now) side.users.items) sides.now }
    requires positive { All (λ weight. 0 < weight) weights.now }
    requires little { HaveLittleWeight weights.now (map side_of sides.now) }
    ensures { IfOk result (AreFilledByWeight (map side_of sides.now) weights.now) }
{
    let mut rising = Rising::new(alloc, weights.len())?;
    while let Some(least) = least_room(alloc, sides, weights, &rising.scale, &rising.parts)? {
        let next = share_of(least.slack, least.weight)?;
        rising.grow(next.factor)?;
        freeze(&mut rising.parts, &sides[least.place].users, &next.parts)?;
    }
    Ok(rising)
}
