//! Many flows of one origin, planned by the calls that count no rounds.
use super::network::{Cap, Side, finite, has_rate, sent};
use super::{linked_rates, rates};
use crate::same::same;
use fairness::bandwidth::{Flow, Rate};
use std::alloc::Global;
use std::collections::BTreeMap;
use std::process::Abort;
use std::test::Fail;

/// So many flows from peer 1, by ids from zero, each to a peer of its own, from 2 on.
fn fan(alloc: Global, flows: u64) -> Result<Vec<Flow<u64>>, Fail> {
    let mut fan = Vec::new(alloc);
    for id in 0..flows {
        fan.push(sent(id, 1, id.saturating_add(2)))?;
    }
    Ok(fan)
}

/// There are so many rates: the first is this one, and all others are that one.
fn expect(rt: &impl Abort, rates: &BTreeMap<u64, Rate>, flows: u64, first: Rate, other: Rate) {
    same(rt, &(rates.len() as u64), &flows);
    same(rt, &rates.get(&0).copied(), &Some(first));
    for id in 1..flows {
        has_rate(rt, rates, id, other);
    }
}

/// So are the rates of the flows, without links.
fn expect_plainly(
    rt: &(impl Abort + AllocGlobal),
    fan: &[Flow<u64>],
    caps: &[Cap],
    flows: u64,
    first: Rate,
    other: Rate,
) -> Result<(), Fail> {
    let rates = rates(rt.alloc(), fan, caps)?;
    expect(rt, &rates, flows, first, other);
    Ok(())
}

/// The same with links.
fn expect_linked(
    rt: &(impl Abort + AllocGlobal),
    fan: &[Flow<u64>],
    caps: &[Cap],
    flows: u64,
    first: Rate,
    other: Rate,
) -> Result<(), Fail> {
    let rates = linked_rates(rt.alloc(), fan, caps)?;
    expect(rt, &rates, flows, first, other);
    Ok(())
}

/// Peer 1 may send so much.
const EGRESS: [Cap; 1] = [Cap(Side::Egress(1), 1_000_000)];

#[test]
fn a_cap_is_shared_by_any_number_of_flows(rt: HostRuntime) -> Result<(), Fail> {
    for flows in [5u64, 16, 17, 100, 2000] {
        let share = finite(1_000_000, flows as u128)?;
        let fan = fan(rt.alloc(), flows)?;
        expect_plainly(&rt, &fan, &EGRESS, flows, share, share)?;
        expect_linked(&rt, &fan, &EGRESS, flows, share, share)?;
    }
    Ok(())
}

/// Peer 1 may send so much, and peer 2 may receive so much.
const HELD_BY_INGRESS: [Cap; 2] = [Cap(Side::Egress(1), 1_000_000), Cap(Side::Ingress(2), 10)];

/// Peer 1 may send so much, and so much of it to peer 2.
const HELD_BY_LINK: [Cap; 2] = [Cap(Side::Egress(1), 1_000_000), Cap(Side::Link(1, 2), 10)];

/// The first flow is held by a cap of its own, and the others share what it leaves.
#[test]
fn what_one_flow_leaves_is_shared_by_the_others(rt: HostRuntime) -> Result<(), Fail> {
    let own = finite(10, 1)?;
    for (flows, others) in [(5u64, 4u128), (16, 15), (17, 16), (100, 99), (2000, 1999)] {
        let share = finite(999_990, others)?;
        let fan = fan(rt.alloc(), flows)?;
        expect_plainly(&rt, &fan, &HELD_BY_INGRESS, flows, own, share)?;
        expect_linked(&rt, &fan, &HELD_BY_LINK, flows, own, share)?;
    }
    Ok(())
}
