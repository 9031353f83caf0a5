//! Rates over a trunk that flows of several sites share.
ghost use Rattle.std.specs.Prelude.{IfOk, map};
ghost use Rattle.p2p_simulated.specs.Network.Sides.{sides_over};
ghost use Rattle.p2p_simulated.specs.Network.Weights.{AreWeightedRates};
ghost use Rattle.uses.specs.Trunks.{HaveTheOnlyRates};

use p2p_simulated::bandwidth::Rate;
use p2p_simulated::routes::{RouteError, WeightError, allocate_routes, allocate_weighted_routes};
use std::alloc::Global;

/// The fair rates of flows over routes, for whoever wants to hear nothing of weights: no other list of
/// rates is fair.
///
/// # Errors
///
/// As of `allocate_routes`.
pub fn rates_over_routes(
    alloc: Global,
    routes: &[Vec<usize>],
    caps: &[Option<u128>],
) -> Result<Vec<Rate>, RouteError>
    ensures only { IfOk result (λ rates. HaveTheOnlyRates caps.now (map (λ route. route.items) routes.now) rates.items) }
{
    allocate_routes(alloc, routes, caps)
}

/// The fair rates of flows where some are heavier than others.
///
/// # Errors
///
/// As of `allocate_weighted_routes`.
pub fn rates_by_weight(
    alloc: Global,
    routes: &[Vec<usize>],
    weights: &[u64],
    caps: &[Option<u128>],
) -> Result<Vec<Rate>, WeightError>
    ensures fair { IfOk result (λ rates. AreWeightedRates (sides_over caps.now (map (λ route. route.items) routes.now))
        weights.now rates.items) }
{
    allocate_weighted_routes(alloc, routes, weights, caps)
}
