//! Rates over routes, against values worked out by hand.
mod network;
mod weighted;

use crate::same::same;
use crate::text;
use fair_routes::routes::{RouteError, allocate_routes, allocate_routes_counted};
use fairness::error::Error;
use std::alloc::Global;
use std::process::Abort;
use std::test::Fail;

/// 2^128 - 1.
const LARGEST: u128 = 340282366920938463463374607431768211455;

/// 2^127.
const HALF: u128 = 170141183460469231731687303715884105728;

/// Flows with these routes under these caps have these rates, after so many rounds.
fn expect(rt: &(impl Abort + AllocGlobal), line: &str) -> Result<(), Fail> {
    let alloc = rt.alloc();
    let mut words = line.split_whitespace();
    let caps = network_lines::caps(alloc, words.next().ok_or("no caps")?)?;
    let routes = network_lines::routes(alloc, words.next().ok_or("no routes")?)?;
    let wanted = text::rates(alloc, words.next().ok_or("no rates")?)?;
    let rounds = words.next().ok_or("no rounds")?.parse::<u128>()?;
    assert_eq!(rt;
        allocate_routes(alloc, &routes, &caps)?.as_slice(),
        wanted.as_slice(),
        "{line}"
    );
    let (rates, counted) = allocate_routes_counted(alloc, &routes, &caps)?;
    assert_eq!(rt; rates.as_slice(), wanted.as_slice(), "{line}");
    assert_eq!(rt; counted, rounds, "{line}");
    Ok(())
}

/// What flows over those routes are refused for.
fn refusal(alloc: Global, caps: &[Option<u128>], routes: &str) -> Result<Option<RouteError>, Fail> {
    let routes = network_lines::routes(alloc, routes)?;
    Ok(allocate_routes(alloc, &routes, caps).err())
}

/// One link: its flows share it, and one of them alone has all of it.
#[test]
fn a_link_is_shared(rt: HostRuntime) -> Result<(), Fail> {
    expect(&rt, "10 0 10 1")?;
    expect(&rt, "10 0;0 5;5 1")?;
    expect(&rt, "10 0;0;0 10/3;10/3;10/3 1")
}

/// A flow over two links, and one over each of them: who is held by the narrow one leaves the rest of
/// the wide one.
#[test]
fn what_one_link_leaves_goes_to_others(rt: HostRuntime) -> Result<(), Fail> {
    expect(&rt, "10,10 0,1;0;1 5;5;5 1")?;
    expect(&rt, "10,4 0,1;0;1 2;8;2 2")?;
    expect(&rt, "4,10 0,1;0;1 2;2;8 2")?;
    expect(&rt, "12,6,3 0,1,2;0,1;0;1,2 3/2;3;15/2;3/2 3")
}

/// A link that stands on a route twice counts once.
#[test]
fn a_link_counts_once(rt: HostRuntime) -> Result<(), Fail> {
    expect(&rt, "10 0,0;0 5;5 1")?;
    expect(&rt, "10,7 0,1,0,1,1;0;1 7/2;13/2;7/2 2")
}

/// A link that no flow uses limits none, whatever its cap is.
#[test]
fn a_link_without_flows_limits_none(rt: HostRuntime) -> Result<(), Fail> {
    expect(&rt, "1,10 1;1 5;5 1")?;
    expect(&rt, "0,10,0 1;1 5;5 1")?;
    expect(&rt, "0,10 none none 0")
}

/// Without a cap there is no limit.
#[test]
fn a_flow_without_caps_is_unlimited(rt: HostRuntime) -> Result<(), Fail> {
    expect(&rt, "-,6 0;0,1;. unlimited;6;unlimited 1")?;
    expect(&rt, "- 0;0 unlimited;unlimited 0")
}

/// A link that is closed gives nothing, and takes nothing from others.
#[test]
fn a_closed_link_gives_nothing(rt: HostRuntime) -> Result<(), Fail> {
    expect(&rt, "0,6 0,1;1 0;6 2")?;
    expect(&rt, "0 0;0 0;0 1")
}

/// Alone a flow has the least of its caps.
#[test]
fn a_flow_alone_has_the_least_cap(rt: HostRuntime) -> Result<(), Fail> {
    expect(&rt, "9,7,8 2,0,1 7 1")?;
    expect(
        &rt,
        "9,-,340282366920938463463374607431768211455 2,1 340282366920938463463374607431768211455 1",
    )
}

/// Five flows among three peers: what a peer sends is a link, and what it receives.
#[test]
fn peers_are_links(rt: HostRuntime) -> Result<(), Fail> {
    expect(
        &rt,
        "1000000,750000,100000,500000,250000,1000000 0,4;0,4;1,5;0,5;2,4 \
         250000/3;250000/3;500000;500000;250000/3 2",
    )
}

/// A link that has no entry in the list of caps is named, with the first flow that uses it.
#[test]
fn a_link_that_is_not_listed_is_named(rt: HostRuntime) -> Result<(), Fail> {
    let caps = [Some(1), None];
    same(
        &rt,
        &(refusal(rt.alloc(), &caps, "0,1;1,7,2;9")?),
        &Some(RouteError::NoSuchLink { flow: 1, link: 7 }),
    );
    same(
        &rt,
        &(refusal(rt.alloc(), &[], "0")?),
        &Some(RouteError::NoSuchLink { flow: 0, link: 0 }),
    );
    let text = format!(in rt.alloc(); "{}", RouteError::NoSuchLink { flow: 1, link: 7 })?;
    same(
        &rt,
        &text.as_str(),
        &"flow 1 uses link 7, which has no entry in the list of caps",
    );
    let memory = format!(in rt.alloc(); "{}", RouteError::Refused(Error::OutOfMemory))?;
    same(&rt, &memory.as_str(), &"out of memory");
    Ok(())
}

/// A fair rate that is no fraction of 128 bits is refused: here the rate of the last flow, a number of
/// sixths. With caps below 2^64 all are fractions.
#[test]
fn a_rate_that_is_no_fraction_is_refused(rt: HostRuntime) -> Result<(), Fail> {
    let caps = [Some(LARGEST), Some(HALF + 1), Some(HALF + 2)];
    same(
        &rt,
        &(refusal(rt.alloc(), &caps, "0,1;1;0,2;2;2;0")?),
        &Some(RouteError::Refused(Error::NumberTooLarge)),
    );
    let narrow = [
        Some(u128::from(u64::MAX)),
        Some(1),
        Some(u128::from(u64::MAX) - 2),
    ];
    same(
        &rt,
        &(refusal(rt.alloc(), &narrow, "0,1;1;0,2;2;2;0")?),
        &None,
    );
    Ok(())
}
