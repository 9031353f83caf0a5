//! The planner over routes for C: who sends how fast over links that many flows share.
ghost use Rattle.std.specs.Prelude.{◌≡◌, ◌⊎◌, ◌<◌, ◌++◌, ◌∷◌, [], ℕ, Some, All, length, map, IfOk, IfErr, OnOk};
ghost use Rattle.std.specs.Prelude.{slice_index_or, slice_set};
ghost use Rattle.fair_routes.specs.Network.Weights.{IsWeightRefusal, IsWeightedAllocation};
ghost use Rattle.p2p_simulated_c.specs.Plan.{record_of_rate};
ghost use Rattle.p2p_simulated_c.specs.Routes.{IsPlannedOver, IsStrayHop};
ghost use Rattle.p2p_simulated_c.specs.Routes.{fault_of, link_cap_of, lists, route_status, routes_of};
ghost use Rattle.p2p_simulated_c.specs.Written.{written};

use super::records::{PlanRate, Wide};
use super::status::{MADE, number_of};
use fair_routes::routes::{RouteError, WeightError, allocate_weighted_routes};
use fairness::bandwidth::Rate;
use std::alloc::{AllocError, Global};

/// Some link has no entry in the list of caps.
pub const NO_SUCH_LINK: u32 = 8;

/// Some flow has no weight.
pub const NO_SUCH_FLOW: u32 = 9;

/// Some weight is zero.
pub const NO_WEIGHT: u32 = 10;

/// The flows of some link have a weight of 2^64 or more together.
pub const TOO_MUCH_WEIGHT: u32 = 11;

/// A flow uses a link; both are numbers.
#[repr(C)]
#[derive(Clone, Copy)]
pub struct Hop {
    pub flow: usize,
    pub link: usize,
}

/// The cap of a link in bytes a second, or none where `is_some` is 0.
#[repr(C)]
#[derive(Clone, Copy)]
pub struct RouteCap {
    pub bytes: Wide,
    pub is_some: u8,
}

impl RouteCap {
    /// The cap of the record, if there is one.
    fn get(self) -> Option<u128>
        ensures { result ≡ link_cap_of self }
    {
        if self.is_some == 0 {
            None
        } else {
            Some(self.bytes.get())
        }
    }
}

/// `routes::allocate_weighted_routes` over lists of weights, hops and caps. There are as many flows as
/// weights, and as many links as caps. Writes the rate of each flow in their order, as many as there is
/// room for. A refusal writes no rate, and `fault` tells which flow and which link it is for, where it is
/// for one.
#[unsafe(no_mangle)]
pub extern "C" fn p2p_allocate_routes(
    alloc: Global,
    weights: &[u64],
    hops: &[Hop],
    caps: &[RouteCap],
    rates: &mut [PlanRate],
    fault: &mut Hop,
) -> u32
    ensures { IsPlannedOver (map link_cap_of caps.now) weights.now hops.now result fault.new rates.old rates.new }
{
    *fault = Hop { flow: 0, link: 0 };
    if let Some(hop) = stray(hops, weights.len()) {
        *fault = hop;
        return NO_SUCH_FLOW;
    }
    match plan(alloc, weights, hops, caps) {
        Ok(found) => {
            write_rates(&found, rates);
            MADE
        }
        Err(why) => {
            *fault = fault_in(why);
            status_of(why)
        }
    }
}

/// The first hop of a flow that is none of so many, if there is one.
fn stray(hops: &[Hop], flows: usize) -> Option<Hop>
    ensures { IsStrayHop hops.now flows result }
{
    for hop in hops {
        if hop.flow >= flows {
            return Some(*hop);
        }
    }
    None
}

/// The rates of the flows.
fn plan(
    alloc: Global,
    weights: &[u64],
    hops: &[Hop],
    caps: &[RouteCap],
) -> Result<Vec<Rate>, WeightError>
    requires { All (λ hop. hop.flow < length weights.now) hops.now }
    ensures plan { IfOk result (λ rates. IsWeightedAllocation (map link_cap_of caps.now)
        (routes_of (length weights.now) hops.now) weights.now rates.items) }
    ensures refused { IfErr result (IsWeightRefusal (map link_cap_of caps.now)
        (routes_of (length weights.now) hops.now) weights.now) }
{
    let routes = listed(alloc, weights.len(), hops)?;
    let caps = caps_of(alloc, caps)?;
    allocate_weighted_routes(alloc, &routes, weights, &caps)
}

/// The routes of so many flows.
fn listed(alloc: Global, flows: usize, hops: &[Hop]) -> Result<Vec<Vec<usize>>, AllocError>
    requires { All (λ hop. hop.flow < flows) hops.now }
    ensures { IfOk result (λ routes. lists routes.items ≡ routes_of flows hops.now) }
{
    let mut routes = no_hops(alloc, flows)?;
    for hop in hops {
        add_hop(&mut routes, *hop)?;
    }
    Ok(routes)
}

/// So many flows that use no link.
fn no_hops(alloc: Global, flows: usize) -> Result<Vec<Vec<usize>>, AllocError>
    ensures { IfOk result (λ routes. lists routes.items ≡ routes_of flows []) }
{
    let mut routes = Vec::with_capacity(alloc, flows)?;
    for _ in 0..flows {
        routes.push(Vec::new(alloc))?;
    }
    Ok(routes)
}

/// Adds the link to the route of the flow.
fn add_hop(routes: &mut [Vec<usize>], hop: Hop) -> Result<(), AllocError>
    requires { hop.flow < length routes.old }
    ensures { OnOk result (lists routes.new ≡ slice_set (lists routes.old) hop.flow
        (slice_index_or (lists routes.old) hop.flow [] ++ hop.link ∷ [])) }
{
    routes[hop.flow].push(hop.link)?;
    Ok(())
}

/// The caps of the records.
fn caps_of(alloc: Global, records: &[RouteCap]) -> Result<Vec<Option<u128>>, AllocError>
    ensures { IfOk result (λ caps. caps.items ≡ map link_cap_of records.now) }
{
    let mut caps = Vec::with_capacity(alloc, records.len())?;
    for record in records {
        caps.push(record.get())?;
    }
    Ok(caps)
}

/// Writes the rates, as many as there is room for.
fn write_rates(rates: &[Rate], out: &mut [PlanRate])
    ensures { out.new ≡ written (map (λ rate. record_of_rate (Some rate)) rates.now) out.old }
{
    let count = rates.len().min(out.len());
    for index in 0..count {
        out[index] = PlanRate::of(Some(rates[index]));
    }
}

/// The number of a refusal.
fn status_of(why: WeightError) -> u32
    ensures { result ≡ route_status why }
{
    match why {
        WeightError::Routes(RouteError::Refused(error)) => number_of(error),
        WeightError::Routes(RouteError::NoSuchLink { .. }) => NO_SUCH_LINK,
        WeightError::OtherCount { .. } => NO_SUCH_FLOW,
        WeightError::NoWeight { .. } => NO_WEIGHT,
        WeightError::TooMuchWeight => TOO_MUCH_WEIGHT,
    }
}

/// The flow and the link that a refusal is for, where it is for one.
fn fault_in(why: WeightError) -> Hop
    ensures { result ≡ fault_of why }
{
    match why {
        WeightError::Routes(RouteError::NoSuchLink { flow, link }) => Hop { flow, link },
        WeightError::NoWeight { flow } => Hop { flow, link: 0 },
        _ => Hop { flow: 0, link: 0 },
    }
}
