//! Who sends how fast over a network whose links many flows share.
//!
//! A flow uses the links of its route, each a number: an uplink of a rack, a trunk between two sites,
//! or both directions of one line. What a peer may send or receive is a link, too.
ghost use Rattle.std.specs.Prelude.{IfOk, IfErr, map};
ghost use Rattle.fair_routes.specs.Network.Allocation.{IsAllocated, IsCounted, IsRefusal};

mod error;
pub mod network;
mod sides;
pub mod weighted;

pub use error::RouteError;
use fair_rates::bandwidth::fair_parts_on;
use fairness::bandwidth::Rate;
use std::alloc::Global;
pub use weighted::{WeightError, allocate_weighted_routes};

/// The max-min fair rate of each flow over its route, in the order of the flows.
///
/// `routes[i]` is the list of the links that flow `i` uses, by number, in any order. A link that
/// stands there more than once counts once. `caps[j]` is the cap of link `j` in bytes a second, on all
/// flows that use it together, and `None` stands for no cap. A link that no flow uses takes no part.
///
/// A flow none of whose links has a cap is `Unlimited`. The rates of the others are max-min fair: the
/// flows that use a link have no more than its cap together, and each flow uses a link that is used
/// up and that leaves none of its flows more than this one has. This is the bottleneck condition of
/// Bertsekas and Gallager, Data Networks, section 6.5.2. A flow over a link of cap zero has rate zero.
///
/// With at most four flows each finite rate is a whole number of twelfths, with at most sixteen a
/// whole number of 54486432000ths.
///
/// # Errors
///
/// - `NoSuchLink` with a flow and a link of its route, where the number of the link is that of no cap.
/// - `Refused(OutOfMemory)` where memory was refused.
/// - `Refused(NumberTooLarge)` exactly where the fair rate of some flow, in lowest terms, has a
///   numerator or a denominator of 2^128 or more. That takes more than 16 flows or a cap of 2^64 or
///   more. And it never comes where the rates fit: where some whole number above zero makes each
///   finite rate whole and is, times the number of flows and the greatest cap of a link that is used,
///   below 2^128.
pub fn allocate_routes(
    alloc: Global,
    routes: &[Vec<usize>],
    caps: &[Option<u128>],
) -> Result<Vec<Rate>, RouteError>
    ensures fair { IfOk result (λ rates. IsAllocated caps.now (map (λ route. route.items) routes.now) rates.items) }
    ensures refused { IfErr result (IsRefusal caps.now (map (λ route. route.items) routes.now)) }
{
    let (rates, _rounds) = allocate_routes_counted(alloc, routes, caps)?;
    Ok(rates)
}

/// As [`allocate_routes`], with the number of rounds of filling.
///
/// A round raises the common rate of all flows that are not yet held by a full link, until the next
/// link is full, or by nothing where one is full from the start. So there are as many rounds as there
/// are different finite rates, and no more than there are links with a cap that some flow uses.
///
/// # Errors
///
/// As those of [`allocate_routes`].
pub fn allocate_routes_counted(
    alloc: Global,
    routes: &[Vec<usize>],
    caps: &[Option<u128>],
) -> Result<(Vec<Rate>, u128), RouteError>
    ensures counted { IfOk result (λ counted. IsCounted caps.now (map (λ route. route.items) routes.now)
        counted.0.items counted.1) }
    ensures refused { IfErr result (IsRefusal caps.now (map (λ route. route.items) routes.now)) }
{
    let sides = sides::sides(alloc, routes, caps)?;
    let found = fair_parts_on(alloc, routes.len(), sides)?;
    let rates = found.rates(alloc)?;
    Ok((rates, found.levels.len() as u128))
}
