//! Who sends how fast.
ghost use Rattle.std.specs.Prelude.{◌≡◌, ◌<◌, ◌⊎◌, ℕ, IfOk, IfErr, All, length, map};
ghost use Rattle.std.specs.Fn.{CalledAt, TakesAt, CalledAtTwo, TakesAtTwo};
ghost use Rattle.std.specs.Ordering.{nat_cmp};
ghost use Rattle.std.specs.BTreeMap.{get};
ghost use Rattle.fairness.specs.Sides.Answers.{NoLink, CallableOnEach, CallableOnEachPair, origins, recipients};
ghost use Rattle.fairness.specs.Sides.Answers.{pairs};
ghost use Rattle.fairness.specs.Fairness.Allocation.{IsAllocation, IsCountedAllocation, IsFairUnderCaps};
ghost use Rattle.fairness.specs.Fairness.Rates.{last_rate};
ghost use Rattle.fairness.specs.Refusals.TooLarge.{HasLargeRate, IsTooLarge, AreTooLargeUnderCaps};
ghost use Rattle.fair_rates.specs.Filling.CountedRates.{AreCountedRates};
ghost use Rattle.fair_rates.specs.Sides.SideOf.{side_of};

mod alone;
mod filling;
mod numbers;
mod parts;
mod sides;

pub use alone::parts_alone;
pub use fairness::bandwidth::{
    Flow, FlowCaps, Rate, draining_splits, duration, nothing_is_left_from_the_least_time_on,
    rates_are_equal_by_value, there_is_one_duration, there_is_one_least_time, transfer,
};
use fairness::error::Error;
use fairness::peer::Peer;
pub use filling::{Room, fair_parts as fair_parts_on, fair_parts_in};
pub use parts::FairParts;
pub use sides::Side;
use std::alloc::Global;
use std::collections::BTreeMap;

/// So many rates are put into their map one after the other. To make it at once takes more than that for so few.
const FEW_RATES: usize = 16;

/// The max-min fair rate of each flow, by its id.
///
/// The caps are in bytes a second, and `None` stands for no cap. `egress_cap` says how much a peer
/// may send in all, `ingress_cap` how much it may receive. Both are called flow by flow in the
/// order of the list: `egress_cap` once for each flow, with its origin, and then `ingress_cap`
/// once with its recipient, if the flow is delivered. So they may be called several times with one
/// peer, and in any state that their earlier calls left.
///
/// The first number that is answered for a peer is its cap for good. It holds for the flow for
/// which it was answered and for each later flow of that peer, whatever is answered then. Flows
/// before that one are not held by it.
///
/// A flow for which no cap holds is `Unlimited`. The rates of the others are max-min fair: the
/// flows under a cap have no more than it together, and each flow is under a cap that is used up
/// and that leaves none of its flows more than this one has. This is the bottleneck condition of
/// Bertsekas and Gallager, Data Networks, section 6.5.2. A flow under a cap of zero has rate zero.
///
/// The map has an entry for each id that occurs. Of flows with one id the last decides, but each of
/// them is given its share.
///
/// With at most four flows each finite rate is a whole number of twelfths, with at most sixteen a
/// whole number of 54486432000ths.
///
/// # Errors
///
/// - `OutOfMemory` where memory for a list or for the map was refused. The closures may then have
///   been called for no more than the first few of the flows.
/// - `NumberTooLarge` exactly where the fair rate of some flow, in lowest terms, has a numerator or a
///   denominator of 2^128 or more, also of a flow whose id a later one has, so that its rate would not
///   be answered. That takes more than 16 flows or an answered cap of 2^64 or more. And it never comes
///   where the rates fit: where some whole number above zero makes each finite rate whole and is, times
///   the number of flows and the greatest cap of a side, below 2^128.
pub fn allocate<P, E, I>(
    alloc: Global,
    flows: &[Flow<P>],
    egress_cap: E,
    ingress_cap: I,
) -> Result<BTreeMap<u64, Rate>, Error>
where
    P: Peer,
    E: FnMut(&P) -> Option<u128>,
    I: FnMut(&P) -> Option<u128>,
    requires egress { CallableOnEach (TakesAt E.FnMut) (CalledAt E.FnMut) egress_cap (origins flows.now) }
    requires ingress { CallableOnEach (TakesAt I.FnMut) (CalledAt I.FnMut) ingress_cap (recipients flows.now) }
    ensures fair { IfOk result (λ rates. IsAllocation P.cmp (CalledAt E.FnMut) (CalledAt I.FnMut) NoLink
        (record { egress = egress_cap; ingress = ingress_cap; link = tt }) flows.now (get nat_cmp rates)) }
    ensures under_caps { IfOk result (λ rates. IsFairUnderCaps P.cmp (CalledAt E.FnMut) (CalledAt I.FnMut) NoLink
        (record { egress = egress_cap; ingress = ingress_cap; link = tt }) flows.now (get nat_cmp rates)) }
    ensures refused { IfErr result (λ e. (e ≡ Error.OutOfMemory)
        ⊎ ((e ≡ Error.NumberTooLarge) × IsTooLarge P.cmp (CalledAt E.FnMut) (CalledAt I.FnMut) NoLink
        (record { egress = egress_cap; ingress = ingress_cap; link = tt }) flows.now)) }
    ensures refused_under_caps { IfErr result (λ e. e ≡ Error.NumberTooLarge
        → AreTooLargeUnderCaps P.cmp (CalledAt E.FnMut) (CalledAt I.FnMut) NoLink
        (record { egress = egress_cap; ingress = ingress_cap; link = tt }) flows.now) }
{
    let (rates, _rounds) = allocate_counted(alloc, flows, egress_cap, ingress_cap)?;
    Ok(rates)
}

/// The max-min fair rate of each flow, by its id, where also links have caps.
///
/// As [`allocate`], with a third closure. `link_cap` says how much may go from one peer to another,
/// in bytes a second. It is called once for each flow, after the other closures, with the origin
/// and the recipient, also for a flow that is dropped. The first number that is answered for an ordered
/// pair is the cap of all that goes from the one to the other, delivered or dropped, from that flow
/// on. The two directions between two peers are two links.
///
/// # Errors
///
/// As those of [`allocate`].
pub fn allocate_linked<P, E, I, L>(
    alloc: Global,
    flows: &[Flow<P>],
    egress_cap: E,
    ingress_cap: I,
    link_cap: L,
) -> Result<BTreeMap<u64, Rate>, Error>
where
    P: Peer,
    E: FnMut(&P) -> Option<u128>,
    I: FnMut(&P) -> Option<u128>,
    L: FnMut(&P, &P) -> Option<u128>,
    requires egress { CallableOnEach (TakesAt E.FnMut) (CalledAt E.FnMut) egress_cap (origins flows.now) }
    requires ingress { CallableOnEach (TakesAt I.FnMut) (CalledAt I.FnMut) ingress_cap (recipients flows.now) }
    requires link { CallableOnEachPair (TakesAtTwo L.FnMut) (CalledAtTwo L.FnMut) link_cap (pairs flows.now) }
    ensures fair { IfOk result (λ rates. IsAllocation P.cmp (CalledAt E.FnMut) (CalledAt I.FnMut) (CalledAtTwo L.FnMut)
        (record { egress = egress_cap; ingress = ingress_cap; link = link_cap }) flows.now (get nat_cmp rates)) }
    ensures under_caps { IfOk result (λ rates. IsFairUnderCaps P.cmp
        (CalledAt E.FnMut) (CalledAt I.FnMut) (CalledAtTwo L.FnMut)
        (record { egress = egress_cap; ingress = ingress_cap; link = link_cap }) flows.now (get nat_cmp rates)) }
    ensures refused { IfErr result (λ e. (e ≡ Error.OutOfMemory)
        ⊎ ((e ≡ Error.NumberTooLarge) × IsTooLarge P.cmp (CalledAt E.FnMut) (CalledAt I.FnMut) (CalledAtTwo L.FnMut)
        (record { egress = egress_cap; ingress = ingress_cap; link = link_cap }) flows.now)) }
    ensures refused_under_caps { IfErr result (λ e. e ≡ Error.NumberTooLarge
        → AreTooLargeUnderCaps P.cmp (CalledAt E.FnMut) (CalledAt I.FnMut) (CalledAtTwo L.FnMut)
        (record { egress = egress_cap; ingress = ingress_cap; link = link_cap }) flows.now) }
{
    let (rates, _rounds) = allocate_linked_counted(
        alloc,
        flows,
        egress_cap,
        ingress_cap,
        link_cap,
    )?;
    Ok(rates)
}

/// As [`allocate`], with the number of rounds of filling.
///
/// A round raises the common rate of all flows that are not yet held by a full side, until the next
/// side is full, or by nothing where one is full from the start. So there are as many rounds as
/// there are different finite rates, and no more than there are sides.
///
/// # Errors
///
/// As those of [`allocate`].
pub fn allocate_counted<P, E, I>(
    alloc: Global,
    flows: &[Flow<P>],
    egress_cap: E,
    ingress_cap: I,
) -> Result<(BTreeMap<u64, Rate>, u128), Error>
where
    P: Peer,
    E: FnMut(&P) -> Option<u128>,
    I: FnMut(&P) -> Option<u128>,
    requires egress { CallableOnEach (TakesAt E.FnMut) (CalledAt E.FnMut) egress_cap (origins flows.now) }
    requires ingress { CallableOnEach (TakesAt I.FnMut) (CalledAt I.FnMut) ingress_cap (recipients flows.now) }
    ensures counted { IfOk result (λ counted. IsCountedAllocation P.cmp (CalledAt E.FnMut) (CalledAt I.FnMut) NoLink
        (record { egress = egress_cap; ingress = ingress_cap; link = tt }) flows.now
        (get nat_cmp counted.0) counted.1) }
    ensures under_caps { IfOk result (λ counted. IsFairUnderCaps P.cmp (CalledAt E.FnMut) (CalledAt I.FnMut) NoLink
        (record { egress = egress_cap; ingress = ingress_cap; link = tt }) flows.now (get nat_cmp counted.0)) }
    ensures refused { IfErr result (λ e. (e ≡ Error.OutOfMemory)
        ⊎ ((e ≡ Error.NumberTooLarge) × IsTooLarge P.cmp (CalledAt E.FnMut) (CalledAt I.FnMut) NoLink
        (record { egress = egress_cap; ingress = ingress_cap; link = tt }) flows.now)) }
    ensures refused_under_caps { IfErr result (λ e. e ≡ Error.NumberTooLarge
        → AreTooLargeUnderCaps P.cmp (CalledAt E.FnMut) (CalledAt I.FnMut) NoLink
        (record { egress = egress_cap; ingress = ingress_cap; link = tt }) flows.now) }
{
    allocate_linked_counted(
        alloc,
        flows,
        egress_cap,
        ingress_cap,
        |_origin, _recipient| None,
    )
}

/// As [`allocate_linked`], with the number of rounds of filling, as [`allocate_counted`] has it.
///
/// # Errors
///
/// As those of [`allocate`].
pub fn allocate_linked_counted<P, E, I, L>(
    alloc: Global,
    flows: &[Flow<P>],
    mut egress_cap: E,
    mut ingress_cap: I,
    mut link_cap: L,
) -> Result<(BTreeMap<u64, Rate>, u128), Error>
where
    P: Peer,
    E: FnMut(&P) -> Option<u128>,
    I: FnMut(&P) -> Option<u128>,
    L: FnMut(&P, &P) -> Option<u128>,
    requires egress { CallableOnEach (TakesAt E.FnMut) (CalledAt E.FnMut) egress_cap (origins flows.now) }
    requires ingress { CallableOnEach (TakesAt I.FnMut) (CalledAt I.FnMut) ingress_cap (recipients flows.now) }
    requires link { CallableOnEachPair (TakesAtTwo L.FnMut) (CalledAtTwo L.FnMut) link_cap (pairs flows.now) }
    ensures counted { IfOk result (λ counted. IsCountedAllocation P.cmp
        (CalledAt E.FnMut) (CalledAt I.FnMut) (CalledAtTwo L.FnMut)
        (record { egress = egress_cap; ingress = ingress_cap; link = link_cap }) flows.now
        (get nat_cmp counted.0) counted.1) }
    ensures under_caps { IfOk result (λ counted. IsFairUnderCaps P.cmp
        (CalledAt E.FnMut) (CalledAt I.FnMut) (CalledAtTwo L.FnMut)
        (record { egress = egress_cap; ingress = ingress_cap; link = link_cap }) flows.now (get nat_cmp counted.0)) }
    ensures refused { IfErr result (λ e. (e ≡ Error.OutOfMemory)
        ⊎ ((e ≡ Error.NumberTooLarge) × IsTooLarge P.cmp (CalledAt E.FnMut) (CalledAt I.FnMut) (CalledAtTwo L.FnMut)
        (record { egress = egress_cap; ingress = ingress_cap; link = link_cap }) flows.now)) }
    ensures refused_under_caps { IfErr result (λ e. e ≡ Error.NumberTooLarge
        → AreTooLargeUnderCaps P.cmp (CalledAt E.FnMut) (CalledAt I.FnMut) (CalledAtTwo L.FnMut)
        (record { egress = egress_cap; ingress = ingress_cap; link = link_cap }) flows.now) }
{
    let sides = sides::sides(
        alloc,
        flows,
        &mut egress_cap,
        &mut ingress_cap,
        &mut link_cap,
    )?;
    rates_on(alloc, flows, sides)
}

/// The max-min fair rates of the flows on the sides, by their ids, with the number of rounds of filling.
fn rates_on<P>(
    alloc: Global,
    flows: &[Flow<P>],
    sides: Vec<Side>,
) -> Result<(BTreeMap<u64, Rate>, u128), Error>
    requires users { All (λ side. All (λ flow. flow < length flows.now) side.users.items) sides.items }
    ensures counted { IfOk result (λ counted.
        AreCountedRates (map side_of sides.items) flows.now (get nat_cmp counted.0) counted.1) }
    ensures refused { IfErr result (λ e. (e ≡ Error.OutOfMemory)
        ⊎ ((e ≡ Error.NumberTooLarge) × HasLargeRate (map side_of sides.items))) }
{
    let found = filling::fair_parts(alloc, flows.len(), sides)?;
    let rates = found.rates(alloc)?;
    let by_id = rates_by_id(alloc, flows, &rates)?;
    Ok((by_id, found.levels.len() as u128))
}

/// The rates by the ids of their flows. Of flows with one id the last counts.
fn rates_by_id<P>(
    alloc: Global,
    flows: &[Flow<P>],
    rates: &[Rate],
) -> Result<BTreeMap<u64, Rate>, Error>
    ensures by_id { IfOk result (λ by_id. (id : ℕ) → get nat_cmp by_id id ≡ last_rate id flows.now rates.now) }
    ensures refused { IfErr result (λ e. e ≡ Error.OutOfMemory) }
{
    if flows.len() <= FEW_RATES {
        inserted_by_id(alloc, flows, rates)
    } else {
        collected_by_id(alloc, flows, rates)
    }
}

/// The same, put in one after the other.
fn inserted_by_id<P>(
    alloc: Global,
    flows: &[Flow<P>],
    rates: &[Rate],
) -> Result<BTreeMap<u64, Rate>, Error>
    ensures by_id { IfOk result (λ by_id. (id : ℕ) → get nat_cmp by_id id ≡ last_rate id flows.now rates.now) }
    ensures refused { IfErr result (λ e. e ≡ Error.OutOfMemory) }
{
    let mut by_id = BTreeMap::new(alloc);
    for (flow, rate) in flows.iter().zip(rates) {
        by_id.insert(flow.id, *rate)?;
    }
    Ok(by_id)
}

/// The same, listed and then made from the list at once.
fn collected_by_id<P>(
    alloc: Global,
    flows: &[Flow<P>],
    rates: &[Rate],
) -> Result<BTreeMap<u64, Rate>, Error>
    ensures by_id { IfOk result (λ by_id. (id : ℕ) → get nat_cmp by_id id ≡ last_rate id flows.now rates.now) }
    ensures refused { IfErr result (λ e. e ≡ Error.OutOfMemory) }
{
    let mut pairs = Vec::with_capacity(alloc, flows.len())?;
    for (flow, rate) in flows.iter().zip(rates) {
        pairs.push((flow.id, *rate))?;
    }
    Ok(BTreeMap::from_iter(alloc, pairs)?)
}
