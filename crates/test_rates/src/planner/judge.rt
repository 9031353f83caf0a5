//! Rates of many lists, before a plain judge and beside those of a plain planner.
use super::lists::{Chance, Kind, next_list};
use super::network::{Cap, Network, Planned, Side, dropped, finite, plan, plan_linked, sent};
use super::plain::{Filled, Verdict, fill, fit, judge};
use crate::same::same;
use fairness::bandwidth::{Flow, Rate};
use fairness::error::Error;
use std::alloc::Global;
use std::collections::BTreeMap;
use std::process::Abort;
use std::test::Fail;

/// Up to twenty flows under caps of up to 128 bits.
const WIDE: Kind = Kind {
    flows: 20,
    peers: 6,
    wide: true,
    linked: false,
    repeated: false,
};

/// Up to ten flows under small caps, with links.
const SMALL: Kind = Kind {
    flows: 10,
    peers: 3,
    wide: false,
    linked: true,
    repeated: false,
};

/// The rate of each flow, in the order of the flows, of which no two have one id.
fn by_flow(
    alloc: Global,
    flows: &[Flow<u64>],
    rates: &BTreeMap<u64, Rate>,
) -> Result<Vec<Rate>, Fail> {
    let mut list = Vec::new(alloc);
    for flow in flows {
        list.push(rate_of(flow, rates)?)?;
    }
    Ok(list)
}

/// The rate of a flow.
fn rate_of(flow: &Flow<u64>, rates: &BTreeMap<u64, Rate>) -> Result<Rate, Fail> {
    Ok(rates.get(&flow.id).copied().ok_or("no rate")?)
}

/// What the judge says of an answer. A refusal, which is for a number, is not judged.
fn verdict_on(
    rt: &(impl Abort + AllocGlobal),
    network: &Network,
    answer: Result<Planned, Error>,
) -> Result<Verdict, Fail> {
    match answer {
        Ok(planned) => {
            same(rt, &planned.rates.len(), &network.flows.len());
            let rates = by_flow(rt.alloc(), network.flows, &planned.rates)?;
            Ok(judge(network, &rates))
        }
        Err(error) => {
            same(rt, &error, &Error::NumberTooLarge);
            Ok(Verdict::Unjudged)
        }
    }
}

/// The judge does not find the list of that number unfair.
fn not_unfair(rt: &impl Abort, verdict: Verdict, number: u64) {
    assert_ne!(rt; verdict, Verdict::Unfair, "list {number}");
}

/// How many of 300 lists the judge finds fair, where it finds none unfair.
fn count_fair(rt: &(impl Abort + AllocGlobal), kind: &Kind) -> Result<u64, Fail> {
    let mut chance = Chance(1);
    let mut fair: u64 = 0;
    for number in 0..300_u64 {
        let list = next_list(rt.alloc(), &mut chance, kind)?;
        let network = list.network();
        let answer = if kind.linked {
            plan_linked(rt.alloc(), &network)
        } else {
            plan(rt.alloc(), &network)
        };
        let verdict = verdict_on(rt, &network, answer)?;
        not_unfair(rt, verdict, number);
        if verdict == Verdict::Fair {
            fair = fair.saturating_add(1);
        }
    }
    Ok(fair)
}

/// It is so in most of 300 lists.
fn most(rt: &impl Abort, lists: u64) {
    assert!(rt; lists > 200, "{lists} of 300");
}

#[test]
fn answers_are_fair(rt: HostRuntime) -> Result<(), Fail> {
    same(&rt, &(count_fair(&rt, &SMALL)?), &300);
    most(&rt, count_fair(&rt, &WIDE)?);
    let linked = Kind {
        linked: true,
        ..WIDE
    };
    most(&rt, count_fair(&rt, &linked)?);
    Ok(())
}

/// The judge says that of these rates.
fn expect_verdict(rt: &impl Abort, network: &Network, rates: &[Rate], wanted: Verdict) {
    assert_eq!(rt; judge(network, rates), wanted, "{rates:?}");
}

/// The judge tells unfair rates of three flows under a cap of 9, of which one is held to 1.
#[test]
fn the_judge_tells(rt: HostRuntime) -> Result<(), Fail> {
    let network = Network {
        flows: &[sent(1, 1, 2), sent(2, 1, 3), dropped(3, 1, 2)],
        caps: &[Cap(Side::Egress(1), 9), Cap(Side::Ingress(2), 1)],
    };
    for (first, second, third, verdict) in [
        (1, 4, 4, Verdict::Fair),
        (1, 3, 5, Verdict::Unfair),
        (1, 4, 3, Verdict::Unfair),
        (1, 5, 5, Verdict::Unfair),
        (0, 4, 5, Verdict::Unfair),
        (3, 3, 3, Verdict::Unfair),
    ] {
        let rates = [finite(first, 1)?, finite(second, 1)?, finite(third, 1)?];
        expect_verdict(&rt, &network, &rates, verdict);
    }
    let free = [finite(1, 1)?, finite(8, 1)?, Rate::Unlimited];
    same(&rt, &judge(&network, &free), &Verdict::Unfair);
    same(&rt, &judge(&network, &[]), &Verdict::Unfair);
    Ok(())
}

/// The rates of the plain planner by id. Of flows with one id the last decides.
fn by_id(alloc: Global, network: &Network, filled: &Filled) -> Result<BTreeMap<u64, Rate>, Fail> {
    let mut by_id = BTreeMap::new(alloc);
    for (flow, rate) in network.flows.iter().zip(&filled.rates) {
        by_id.insert(flow.id, *rate)?;
    }
    Ok(by_id)
}

/// The planner answers the rates and the rounds of the plain one.
fn expect_same(
    rt: &(impl Abort + AllocGlobal),
    network: &Network,
    filled: &Filled,
    planned: &Planned,
) -> Result<(), Fail> {
    let by_id = by_id(rt.alloc(), network, filled)?;
    same(rt, &planned.rates.len(), &by_id.len());
    for flow in network.flows {
        same(
            rt,
            &planned.rates.get(&flow.id).copied(),
            &by_id.get(&flow.id).copied(),
        );
    }
    same(rt, &planned.rounds, &(filled.rounds as u128));
    Ok(())
}

/// Whether both planners answer a list. Then they agree. Where only the plain one answers, the rates
/// do not fit.
fn agree(rt: &(impl Abort + AllocGlobal), network: &Network) -> Result<bool, Fail> {
    match (fill(rt.alloc(), network), plan_linked(rt.alloc(), network)) {
        (Ok(filled), Ok(planned)) => {
            expect_same(rt, network, &filled, &planned)?;
            Ok(true)
        }
        (Ok(filled), Err(error)) => {
            same(rt, &error, &Error::NumberTooLarge);
            same(rt, &fit(network, &filled.rates), &false);
            Ok(false)
        }
        (Err(_), _) => Ok(false),
    }
}

/// Of how many of 300 lists both planners agree on the rates.
fn count_agreed(rt: &(impl Abort + AllocGlobal), kind: &Kind) -> Result<u64, Fail> {
    let mut chance = Chance(2);
    let mut agreed: u64 = 0;
    for _number in 0..300_u64 {
        let list = next_list(rt.alloc(), &mut chance, kind)?;
        if agree(rt, &list.network())? {
            agreed = agreed.saturating_add(1);
        }
    }
    Ok(agreed)
}

#[test]
fn a_plain_planner_agrees(rt: HostRuntime) -> Result<(), Fail> {
    let repeated = Kind {
        repeated: true,
        ..SMALL
    };
    same(&rt, &(count_agreed(&rt, &SMALL)?), &300);
    same(&rt, &(count_agreed(&rt, &repeated)?), &300);
    most(&rt, count_agreed(&rt, &WIDE)?);
    let linked = Kind {
        linked: true,
        repeated: true,
        ..WIDE
    };
    most(&rt, count_agreed(&rt, &linked)?);
    Ok(())
}

/// The flows in the other order.
fn turned(alloc: Global, flows: &[Flow<u64>]) -> Result<Vec<Flow<u64>>, Fail> {
    let mut backward = Vec::new(alloc);
    for flow in flows.iter().rev() {
        backward.push(flow.clone()?)?;
    }
    Ok(backward)
}

/// Both answers have the same rounds, and the same rate for each of the flows.
fn expect_equal(rt: &impl Abort, flows: &[Flow<u64>], one: &Planned, other: &Planned) {
    same(rt, &one.rounds, &other.rounds);
    for flow in flows {
        same(
            rt,
            &one.rates.get(&flow.id).copied(),
            &other.rates.get(&flow.id).copied(),
        );
    }
}

/// The planner answers the same rates for the flows in the other order, where no two have one id.
fn expect_turned(rt: &(impl Abort + AllocGlobal), network: &Network) -> Result<(), Fail> {
    let backward = turned(rt.alloc(), network.flows)?;
    let other = Network {
        flows: &backward,
        ..*network
    };
    let planned = plan_linked(rt.alloc(), network)?;
    expect_equal(
        rt,
        network.flows,
        &planned,
        &plan_linked(rt.alloc(), &other)?,
    );
    Ok(())
}

#[test]
fn the_order_of_flows_plays_no_part(rt: HostRuntime) -> Result<(), Fail> {
    let three_peers = Network {
        flows: &[
            sent(1, 1, 2),
            sent(2, 1, 2),
            sent(3, 2, 3),
            sent(4, 1, 3),
            sent(5, 3, 2),
        ],
        caps: &[
            Cap(Side::Egress(1), 1000000),
            Cap(Side::Egress(2), 750000),
            Cap(Side::Egress(3), 100000),
            Cap(Side::Ingress(1), 500000),
            Cap(Side::Ingress(2), 250000),
            Cap(Side::Ingress(3), 1000000),
        ],
    };
    expect_turned(&rt, &three_peers)?;
    let mut chance = Chance(3);
    for _number in 0..100_u64 {
        let list = next_list(rt.alloc(), &mut chance, &SMALL)?;
        expect_turned(&rt, &list.network())?;
    }
    Ok(())
}
