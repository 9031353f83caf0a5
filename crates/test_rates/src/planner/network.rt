//! Flows between numbered peers under caps that never change, for the tests of the planner.
use super::{counted_rates, linked_counted_rates};
use fairness::bandwidth::{Flow, Rate};
use fairness::error::Error;
use fairness::ratio::Ratio;
use numbered_peers::Numbered;
use std::alloc::Global;
use std::collections::BTreeMap;
use std::process::Abort;
use std::test::Fail;

/// What a cap holds for.
#[derive(Clone, Copy, PartialEq, Eq)]
pub enum Side {
    /// All that a peer sends.
    Egress(u64),
    /// All that a peer receives.
    Ingress(u64),
    /// All that goes from the first peer to the second.
    Link(u64, u64),
}

impl Side {
    /// Whether a flow is under the cap of this side.
    pub fn holds(self, flow: &Flow<u64>) -> bool {
        match self {
            Side::Egress(peer) => flow.origin == peer,
            Side::Ingress(peer) => flow.delivered && flow.recipient == peer,
            Side::Link(origin, recipient) => {
                flow.origin == origin && flow.recipient == recipient
            }
        }
    }
}

/// A side, and how many bytes a second go through it.
#[derive(Clone, Copy)]
pub struct Cap(pub Side, pub u128);

/// Flows, and the caps, of which no two are of one side. A peer with a cap has a number below 255.
#[derive(Clone, Copy)]
pub struct Network<'a> {
    pub flows: &'a [Flow<u64>],
    pub caps: &'a [Cap],
}

/// The rates by id, and the number of rounds.
pub struct Planned {
    pub rates: BTreeMap<u64, Rate>,
    pub rounds: u128,
}

impl Drop for Planned {
    /// Lets go of what it holds.
    #[inline(always)]
    fn drop(self) {
        let Planned { rates, rounds: _ } = self;
        drop(rates);
    }
}

/// A flow that is delivered.
pub fn sent(id: u64, origin: u64, recipient: u64) -> Flow<u64> {
    Flow {
        id,
        origin,
        recipient,
        delivered: true,
    }
}

/// A flow that is dropped.
pub fn dropped(id: u64, origin: u64, recipient: u64) -> Flow<u64> {
    Flow {
        id,
        origin,
        recipient,
        delivered: false,
    }
}

fn cap_of(caps: &[Cap], side: Side) -> Option<u128> {
    caps.iter().find(|cap| cap.0 == side).map(|cap| cap.1)
}

/// The cap of all that a peer sends.
pub fn egress_cap<P: Numbered>(caps: &[Cap], peer: &P) -> Option<u128> {
    cap_of(caps, Side::Egress(u64::from(peer.number())))
}

/// The cap of all that a peer receives.
pub fn ingress_cap<P: Numbered>(caps: &[Cap], peer: &P) -> Option<u128> {
    cap_of(caps, Side::Ingress(u64::from(peer.number())))
}

/// The cap of all that goes from one peer to another.
pub fn link_cap<P: Numbered>(caps: &[Cap], origin: &P, recipient: &P) -> Option<u128> {
    let (origin, recipient) = (origin.number(), recipient.number());
    cap_of(caps, Side::Link(u64::from(origin), u64::from(recipient)))
}

/// Whether one of the caps is of a link.
pub fn have_links(caps: &[Cap]) -> bool {
    for cap in caps {
        if let Side::Link(..) = cap.0 {
            return true;
        }
    }
    false
}

/// What the planner answers, without caps of links.
pub fn plan(alloc: Global, network: &Network) -> Result<Planned, Error> {
    let (rates, rounds) = counted_rates(alloc, network.flows, network.caps)?;
    Ok(Planned { rates, rounds })
}

/// What the planner answers, with caps of links.
pub fn plan_linked(alloc: Global, network: &Network) -> Result<Planned, Error> {
    let (rates, rounds) = linked_counted_rates(alloc, network.flows, network.caps)?;
    Ok(Planned { rates, rounds })
}

/// So many bytes a second, as a fraction.
pub fn finite(num: u128, den: u128) -> Result<Rate, Fail> {
    Ok(Rate::Finite(Ratio::new(num, den).ok_or("a denominator of zero")?))
}

/// The rate of an id is that.
pub fn has_rate(rt: &impl Abort, rates: &BTreeMap<u64, Rate>, id: u64, wanted: Rate) {
    assert_eq!(rt; rates.get(&id).copied(), Some(wanted), "flow {id}");
}

/// The rate of an id is this fraction.
pub fn expect_rate(
    rt: &impl Abort,
    planned: &Planned,
    id: u64,
    num: u128,
    den: u128,
) -> Result<(), Fail> {
    has_rate(rt, &planned.rates, id, finite(num, den)?);
    Ok(())
}
