//! A network that is told bit by bit, whose flows and links go by any numbers.
ghost use Rattle.std.specs.Prelude.{◌≡◌, ◌↔◌, ◌<◌, ℕ, Some, IfOk, IfErr, OnOk, OnErr, map, slice_get};
ghost use Rattle.std.specs.BTreeMap.{keys, values, IsOrdered};
ghost use Rattle.std.specs.List.{AllPairs, AllZip, zip};
ghost use Rattle.std.specs.Ordering.{nat_cmp};
ghost use Rattle.std.specs.Int.NonZero.{non_zero_u64_get};
ghost use Rattle.fair_routes.specs.Network.Told.{IsToldNothing, IsToldTheSame, IsToldLink, IsToldCap, IsToldWeight};
ghost use Rattle.fair_routes.specs.Network.Told.{told_weight, told_weights, AreRatesTold, MayRefuseTold};
ghost use Rattle.fair_routes.specs.Network.Told.{with_one, IsNumbered, error_of};

use crate::routes::RouteError;
use crate::routes::weighted::{WeightError, allocate_weighted_routes};
use fairness::bandwidth::Rate;
use fairness::error::Error;
use std::alloc::{AllocError, Global};
use std::collections::BTreeMap;
use std::num::NonZeroU64;

/// Flows with their routes and weights, and links with their caps, each by a number of the caller's.
///
/// A flow is there from the first link of its route on, and has weight 1 until another is set. A link
/// without a cap holds no flow, and one that no flow uses takes no part. A call that is refused leaves
/// all as it was.
pub struct Network {
    alloc: Global,
    /// The links of each flow, as they were told.
    routes: BTreeMap<u64, Vec<u64>>,
    /// In bytes a second, by link.
    caps: BTreeMap<u64, u128>,
    /// By flow. A flow without an entry has weight 1.
    weights: BTreeMap<u64, NonZeroU64>,
}

impl Drop for Network {
    /// Lets go of what it holds.
    #[inline(always)]
    fn drop(self) {
        let Network {
            alloc: _,
            routes,
            caps,
            weights,
        } = self;
        drop(routes);
        drop(caps);
        drop(weights);
    }
}

impl Network {
    /// A network without flows and without caps.
    pub fn new(alloc: Global) -> Network
        ensures { IsToldNothing result }
    {
        Network {
            alloc,
            routes: BTreeMap::new(alloc),
            caps: BTreeMap::new(alloc),
            weights: BTreeMap::new(alloc),
        }
    }

    /// From now on the flow uses the link, too. A link that is added more than once counts once.
    ///
    /// # Errors
    ///
    /// `OutOfMemory` where memory was refused.
    pub fn add_link(&mut self, flow: u64, link: u64) -> Result<(), Error>
        ensures told { OnOk result (IsToldLink flow link self.old self.new) }
        ensures kept { OnErr result (IsToldTheSame self.old self.new) }
        ensures refused { IfErr result (λ e. e ≡ Error.OutOfMemory) }
    {
        if let Some(route) = self.routes.get_mut(&flow) {
            route.push(link)?;
            return Ok(());
        }
        let mut route = Vec::new(self.alloc);
        route.push(link)?;
        self.routes.insert(flow, route)?;
        Ok(())
    }

    /// From now on the flows that use the link have no more than the cap together, in bytes a second, or,
    /// with `None`, as much as they like.
    ///
    /// # Errors
    ///
    /// `OutOfMemory` where memory was refused.
    pub fn set_cap(&mut self, link: u64, cap: Option<u128>) -> Result<(), Error>
        ensures told { OnOk result (IsToldCap link cap self.old self.new) }
        ensures kept { OnErr result (IsToldTheSame self.old self.new) }
        ensures refused { IfErr result (λ e. e ≡ Error.OutOfMemory) }
    {
        match cap {
            Some(cap) => {
                self.caps.insert(link, cap)?;
            }
            None => {
                self.caps.remove(&link);
            }
        }
        Ok(())
    }

    /// From now on the flow has this weight: it gets what so many flows of weight one over its route
    /// would get together.
    ///
    /// # Errors
    ///
    /// `OutOfMemory` where memory was refused.
    pub fn set_weight(&mut self, flow: u64, weight: NonZeroU64) -> Result<(), Error>
        ensures told { OnOk result (IsToldWeight flow (non_zero_u64_get weight) self.old self.new) }
        ensures kept { OnErr result (IsToldTheSame self.old self.new) }
        ensures refused { IfErr result (λ e. e ≡ Error.OutOfMemory) }
    {
        self.weights.insert(flow, weight)?;
        Ok(())
    }

    /// The fair rate of each flow that has a route, with its number, by ascending number, as
    /// [`allocate_weighted_routes`] finds them.
    ///
    /// # Errors
    ///
    /// - `OutOfMemory` where memory was refused.
    /// - `NumberTooLarge` where the fair rate of some flow, in lowest terms, has a numerator or a
    ///   denominator of 2^128 or more, or where the flows that use some link with a cap have a weight of
    ///   2^64 or more together.
    pub fn rates(&self) -> Result<Vec<(u64, Rate)>, Error>
        ensures fair { IfOk result (λ rates. AreRatesTold self.now rates.items) }
        ensures refused { IfErr result (MayRefuseTold self.now) }
    {
        let links = self.links()?;
        let routes = numbered_routes(self.alloc, &self.routes, &links)?;
        let weights = self.weights()?;
        let caps = self.caps()?;
        let flows = self.flows()?;
        match allocate_weighted_routes(self.alloc, &routes, &weights, &caps) {
            Ok(rates) => Ok(rated(self.alloc, &flows, &rates)?),
            Err(error) => Err(error_alone(error)),
        }
    }

    /// The links that have a cap, by ascending number.
    fn links(&self) -> Result<Vec<u64>, AllocError>
        ensures links { IfOk result (λ links. links.items ≡ keys self.now.caps) }
        ensures ordered { IsOrdered nat_cmp self.now.caps }
    {
        self.caps.keys().copied().collect(self.alloc)
    }

    /// Their caps.
    fn caps(&self) -> Result<Vec<Option<u128>>, AllocError>
        ensures { IfOk result (λ caps. caps.items ≡ map Some (values self.now.caps)) }
    {
        self.caps.values().map(|cap| Some(*cap)).collect(self.alloc)
    }

    /// The weights of the flows that have a route, by ascending number.
    fn weights(&self) -> Result<Vec<u64>, AllocError>
        ensures { IfOk result (λ weights. weights.items ≡ told_weights self.now) }
    {
        self.routes
            .keys()
            .map(|flow| self.weight(*flow))
            .collect(self.alloc)
    }

    /// The flows that have a route, by ascending number.
    fn flows(&self) -> Result<Vec<u64>, AllocError>
        ensures { IfOk result (λ flows. flows.items ≡ keys self.now.routes) }
    {
        self.routes.keys().copied().collect(self.alloc)
    }

    /// The weight of a flow.
    fn weight(&self, flow: u64) -> u64
        ensures { result ≡ told_weight self.now flow }
    {
        match self.weights.get(&flow) {
            Some(weight) => weight.get(),
            None => 1,
        }
    }
}

/// The flows with their rates, in order.
fn rated(alloc: Global, flows: &[u64], rates: &[Rate]) -> Result<Vec<(u64, Rate)>, AllocError>
    ensures { IfOk result (λ rated. rated.items ≡ zip flows.now rates.now) }
{
    let mut rated = Vec::with_capacity(alloc, rates.len())?;
    for (flow, rate) in flows.iter().zip(rates) {
        rated.push((*flow, *rate))?;
    }
    Ok(rated)
}

/// The routes, whose links go by their places among these. Others hold no flow, and are left out.
fn numbered_routes(
    alloc: Global,
    routes: &BTreeMap<u64, Vec<u64>>,
    links: &[u64],
) -> Result<Vec<Vec<usize>>, AllocError>
    requires { AllPairs (λ one other. one < other) links.now }
    ensures { IfOk result (λ numbered. AllZip (IsNumbered links.now)
        (map (λ route. route.items) (values routes.now)) (map (λ route. route.items) numbered.items)) }
{
    let mut numbered = Vec::with_capacity(alloc, routes.len())?;
    for route in routes.values() {
        numbered.push(numbered_route(alloc, route, links)?)?;
    }
    Ok(numbered)
}

/// The same of one route.
fn numbered_route(alloc: Global, route: &[u64], links: &[u64]) -> Result<Vec<usize>, AllocError>
    requires { AllPairs (λ one other. one < other) links.now }
    ensures { IfOk result (λ numbered. IsNumbered links.now route.now numbered.items) }
{
    let mut numbered = Vec::new(alloc);
    for link in route {
        if let Some(place) = place_of(links, *link) {
            numbered.push(place)?;
        }
    }
    Ok(numbered)
}

/// The place of a link among these, if it is one of them.
fn place_of(links: &[u64], link: u64) -> Option<usize>
    requires { AllPairs (λ one other. one < other) links.now }
    ensures { (place : ℕ) → (result ≡ Some place) ↔ (slice_get links.now place ≡ Some link) }
{
    links.binary_search(&link).ok()
}

/// The error, where neither routes nor weights are at fault.
fn error_alone(error: WeightError) -> Error
    ensures { result ≡ error_of error }
{
    match error {
        WeightError::Routes(RouteError::Refused(error)) => error,
        WeightError::Routes(RouteError::NoSuchLink { .. })
        | WeightError::OtherCount { .. }
        | WeightError::NoWeight { .. }
        | WeightError::TooMuchWeight => Error::NumberTooLarge,
    }
}
