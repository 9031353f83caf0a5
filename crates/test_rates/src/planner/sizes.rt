//! Many flows: which rates fit in fractions of 128 bits, and which do not.
use super::network::{Cap, Network, Planned, Side, expect_rate, plan, plan_linked, sent};
use crate::same::same;
use fairness::bandwidth::Flow;
use fairness::error::Error;
use std::alloc::Global;
use std::process::Abort;
use std::test::Fail;

/// A peer without a cap.
const FREE: u64 = 1000;

const WORD: u128 = 18446744073709551615;

const LARGEST: u128 = 340282366920938463463374607431768211455;

/// How many flows a side of a chain holds that no side before it holds, its cap, and the rate that
/// each of these flows is to have, as a fraction.
#[derive(Clone, Copy)]
struct Group(u64, u128, u128, u128);

/// The side of a chain at a place. The sides take turns in sending and receiving.
fn side_at(place: u64) -> Side {
    if place % 2 == 0 {
        Side::Egress(place)
    } else {
        Side::Ingress(place)
    }
}

/// A flow under the cap of the side at a place, between that peer and another.
fn flow_at(place: u64, id: u64, other: u64) -> Flow<u64> {
    if place % 2 == 0 {
        sent(id, place, other)
    } else {
        sent(id, other, place)
    }
}

/// The flows of a chain of sides, by ids from zero. The first flow of each side is also under the
/// cap of the next.
fn flows_of(alloc: Global, chain: &[Group]) -> Result<Vec<Flow<u64>>, Fail> {
    let mut flows = Vec::new(alloc);
    let mut ids = 0..u64::MAX;
    for (place, group) in (0..FREE).zip(chain) {
        for number in 0..group.0 {
            let other = if number == 0 {
                place.saturating_add(1)
            } else {
                FREE
            };
            flows.push(flow_at(place, ids.next().ok_or("no id")?, other))?;
        }
    }
    Ok(flows)
}

fn caps_of(alloc: Global, chain: &[Group]) -> Result<Vec<Cap>, Fail> {
    let mut caps = Vec::new(alloc);
    for (place, group) in (0..FREE).zip(chain) {
        caps.push(Cap(side_at(place), group.1))?;
    }
    Ok(caps)
}

/// Each flow has the rate of its group.
fn expect_groups(rt: &impl Abort, planned: &Planned, chain: &[Group]) -> Result<(), Fail> {
    let mut ids = 0..u64::MAX;
    for group in chain {
        for _number in 0..group.0 {
            let id = ids.next().ok_or("no id")?;
            expect_rate(rt, planned, id, group.2, group.3)?;
        }
    }
    Ok(())
}

/// Both calls answer the rates of a chain, the one without links with a round for each side.
fn expect_chain(
    rt: &(impl Abort + AllocGlobal),
    network: &Network,
    chain: &[Group],
) -> Result<(), Fail> {
    let planned = plan(rt.alloc(), network)?;
    same(rt, &planned.rates.len(), &network.flows.len());
    same(rt, &planned.rounds, &(chain.len() as u128));
    expect_groups(rt, &planned, chain)?;
    expect_groups(rt, &plan_linked(rt.alloc(), network)?, chain)
}

/// The flows of a chain are answered, by both calls.
fn is_answered(rt: &(impl Abort + AllocGlobal), chain: &[Group]) -> Result<(), Fail> {
    let flows = flows_of(rt.alloc(), chain)?;
    let caps = caps_of(rt.alloc(), chain)?;
    let network = Network {
        flows: &flows,
        caps: &caps,
    };
    expect_chain(rt, &network, chain)
}

/// Both calls refuse the flows.
fn expect_refused(rt: &(impl Abort + AllocGlobal), network: &Network) {
    let refusal = Some(Error::NumberTooLarge);
    same(rt, &plan(rt.alloc(), network).err(), &refusal);
    same(rt, &plan_linked(rt.alloc(), network).err(), &refusal);
}

/// The flows of a chain are refused, by both calls.
fn is_refused(rt: &(impl Abort + AllocGlobal), chain: &[Group]) -> Result<(), Fail> {
    let flows = flows_of(rt.alloc(), chain)?;
    let caps = caps_of(rt.alloc(), chain)?;
    let network = Network {
        flows: &flows,
        caps: &caps,
    };
    expect_refused(rt, &network);
    Ok(())
}

/// Sixteen flows under the greatest caps of 64 bits.
#[test]
fn sixteen_flows_are_answered(rt: HostRuntime) -> Result<(), Fail> {
    let chain = [
        Group(7, WORD, 18446744073709551615, 7),
        Group(4, WORD, 55340232221128654845, 14),
        Group(3, WORD, 67638061603601689255, 14),
        Group(2, WORD, 190616355428332033355, 28),
    ];
    is_answered(&rt, &chain)?;
    is_answered(&rt, &[Group(16, WORD, 18446744073709551615, 16)])
}

/// More than sixteen flows, whose rates fit.
#[test]
fn more_flows_are_answered(rt: HostRuntime) -> Result<(), Fail> {
    is_answered(&rt, &[Group(18, 306, 17, 1)])?;
    is_answered(&rt, &[Group(100, 1000000, 10000, 1)])?;
    is_answered(&rt, &[Group(1024, 1024000, 1000, 1)])?;
    let chain = [
        Group(11, WORD, 18446744073709551615, 11),
        Group(7, WORD, 184467440737095516150, 77),
        Group(5, WORD, 247186370587707991641, 77),
        Group(3, WORD, 391070974362642494238, 77),
        Group(2, WORD, 1029328319312992980117, 154),
    ];
    is_answered(&rt, &chain)
}

/// Rates of which one is no fraction of 128 bits, under large caps with few flows and with many.
#[test]
fn large_caps_are_refused(rt: HostRuntime) -> Result<(), Fail> {
    is_refused(&rt, &[Group(3, 11, 0, 1), Group(5, LARGEST, 0, 1)])?;
    is_refused(&rt, &[Group(3, 11, 0, 1), Group(17, LARGEST, 0, 1)])
}

/// Caps of 64 bits and many flows. Each side divides its rest by three, so that the denominators
/// pass 3^43.
#[test]
fn long_chains_are_refused(rt: HostRuntime) -> Result<(), Fail> {
    let first = 3458764513820540928;
    let mut chain = [Group(3, first, 0, 1)].to_vec(rt.alloc())?;
    for place in 1..46_u64 {
        chain.push(Group(3, 4611686018427387904 + 10 * place as u128, 0, 1))?;
    }
    is_refused(&rt, &chain)
}
