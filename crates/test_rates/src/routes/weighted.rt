//! Rates over routes by weight, against values worked out by hand.
use crate::same::same;
use crate::text;
use fair_routes::routes::{RouteError, WeightError, allocate_routes, allocate_weighted_routes};
use fairness::error::Error;
use std::alloc::Global;
use std::process::Abort;
use std::test::Fail;

/// 2^128 - 1.
const LARGEST: u128 = 340282366920938463463374607431768211455;

/// Flows with these routes and weights under these caps have these rates.
fn expect(rt: &(impl Abort + AllocGlobal), line: &str) -> Result<(), Fail> {
    let alloc = rt.alloc();
    let mut words = line.split_whitespace();
    let caps = network_lines::caps(alloc, words.next().ok_or("no caps")?)?;
    let routes = network_lines::routes(alloc, words.next().ok_or("no routes")?)?;
    let weights = network_lines::weights(alloc, words.next().ok_or("no weights")?)?;
    let wanted = text::rates(alloc, words.next().ok_or("no rates")?)?;
    assert_eq!(rt;
        allocate_weighted_routes(alloc, &routes, &weights, &caps)?.as_slice(),
        wanted.as_slice(),
        "{line}"
    );
    Ok(())
}

/// What flows over those routes are refused for.
fn refusal(
    alloc: Global,
    caps: &[Option<u128>],
    routes: &str,
    weights: &[u64],
) -> Result<Option<WeightError>, Fail> {
    let routes = network_lines::routes(alloc, routes)?;
    Ok(allocate_weighted_routes(alloc, &routes, weights, caps).err())
}

/// A link is shared in the proportion of the weights.
#[test]
fn a_link_is_shared_by_weight(rt: HostRuntime) -> Result<(), Fail> {
    expect(&rt, "12 0;0 1,2 4;8")?;
    expect(&rt, "10 0;0;0 1,2,4 10/7;20/7;40/7")?;
    expect(&rt, "10 0 7 10")?;
    expect(&rt, "- 0;0 1,2 unlimited;unlimited")?;
    expect(&rt, "10 none none none")
}

/// A flow that another link holds gets no more for its weight, and leaves the rest.
#[test]
fn what_a_heavy_flow_cannot_use_goes_to_others(rt: HostRuntime) -> Result<(), Fail> {
    expect(&rt, "10,4 0,1;0 3,1 4;6")?;
    expect(&rt, "12,3 0,1;0;0 5,1,2 3;3;6")?;
    expect(&rt, "30,10 0,1;0;1 2,1,3 4;26;6")
}

/// Weights count on the second link too, once flows of the first are held.
#[test]
fn weights_hold_on_every_link(rt: HostRuntime) -> Result<(), Fail> {
    expect(&rt, "6,20 0,1;0;1;1 2,1,1,3 4;2;4;12")?;
    expect(&rt, "3,9,30 0,1,2;1;2;2 1,2,2,4 3;6;9;18")
}

/// A weight is of the flow, and not of its link: a cap stays what it is, and a link that stands on a
/// route twice counts once.
#[test]
fn a_weight_does_not_widen_a_link(rt: HostRuntime) -> Result<(), Fail> {
    expect(&rt, "10 0 1000 10")?;
    expect(&rt, "10 0,0;0 2,3 4;6")?;
    expect(&rt, "0,10 0,1;1 5,1 0;10")?;
    expect(&rt, "1,10 1;1 1,4 2;8")
}

/// With all weights one the rates are those without weights.
#[test]
fn weights_of_one_change_nothing(rt: HostRuntime) -> Result<(), Fail> {
    let alloc = rt.alloc();
    let caps = network_lines::caps(alloc, "12,6,3,-")?;
    let routes = network_lines::routes(alloc, "0,1,2;0,1;0;1,2;3")?;
    same(
        &rt,
        &allocate_weighted_routes(alloc, &routes, &[1, 1, 1, 1, 1], &caps)?.as_slice(),
        &allocate_routes(alloc, &routes, &caps)?.as_slice(),
    );
    Ok(())
}

/// Weights are large numbers, too: they are not counted one by one.
#[test]
fn weights_may_be_large(rt: HostRuntime) -> Result<(), Fail> {
    expect(
        &rt,
        "18446744073709551615 0;0 18446744073709551614,1 18446744073709551614;1",
    )?;
    expect(
        &rt,
        "18446744073709551615 0 18446744073709551615 18446744073709551615",
    )?;
    expect(
        &rt,
        "340282366920938463463374607431768211455 0;0 6148914691236517205,12297829382473034410 \
         113427455640312821154458202477256070485;226854911280625642308916404954512140970",
    )
}

/// What is none of flows with weights is named.
#[test]
fn weights_that_do_not_fit_are_named(rt: HostRuntime) -> Result<(), Fail> {
    let alloc = rt.alloc();
    let caps = [Some(1), None];
    same(
        &rt,
        &(refusal(alloc, &caps, "0;0", &[1])?),
        &Some(WeightError::OtherCount {
            flows: 2,
            weights: 1,
        }),
    );
    same(
        &rt,
        &(refusal(alloc, &caps, "0", &[1, 1])?),
        &Some(WeightError::OtherCount {
            flows: 1,
            weights: 2,
        }),
    );
    same(
        &rt,
        &(refusal(alloc, &caps, "0;0;0", &[1, 0, 0])?),
        &Some(WeightError::NoWeight { flow: 1 }),
    );
    same(
        &rt,
        &(refusal(alloc, &caps, "0;0;7", &[1, 1, 1])?),
        &Some(WeightError::Routes(RouteError::NoSuchLink { flow: 2, link: 7 })),
    );
    same(
        &rt,
        &(refusal(alloc, &caps, "0;0", &[u64::MAX, 1])?),
        &Some(WeightError::TooMuchWeight),
    );
    same(&rt, &(refusal(alloc, &caps, "1;0", &[u64::MAX, 1])?), &None);
    same(&rt, &(refusal(alloc, &caps, "1;1", &[u64::MAX, 1])?), &None);
    Ok(())
}

/// How these refusals read.
#[test]
fn refusals_are_told(rt: HostRuntime) -> Result<(), Fail> {
    let alloc = rt.alloc();
    let other = format!(in alloc;
        "{}",
        WeightError::OtherCount {
            flows: 2,
            weights: 1
        }
    )?;
    same(&rt, &other.as_str(), &"2 flows have 1 weights");
    let none = format!(in alloc; "{}", WeightError::NoWeight { flow: 3 })?;
    same(&rt, &none.as_str(), &"flow 3 has weight 0");
    let much = format!(in alloc; "{}", WeightError::TooMuchWeight)?;
    same(
        &rt,
        &much.as_str(),
        &"the flows of a link have a weight of 2^64 or more together",
    );
    let memory = WeightError::Routes(RouteError::Refused(Error::OutOfMemory));
    let memory = format!(in alloc; "{}", memory)?;
    same(&rt, &memory.as_str(), &"out of memory");
    Ok(())
}

/// A fair rate that is no fraction of 128 bits is refused. With caps below 2^64 all of these are fractions.
#[test]
fn a_rate_that_is_no_fraction_is_refused(rt: HostRuntime) -> Result<(), Fail> {
    let alloc = rt.alloc();
    let weights = [3, 7, 11, 1, 2, 5];
    let caps = [Some(LARGEST), Some(LARGEST - 1), Some(7)];
    same(
        &rt,
        &(refusal(alloc, &caps, "0,1;0;1;0,2;1,2;0", &weights)?),
        &Some(WeightError::Routes(RouteError::Refused(Error::NumberTooLarge))),
    );
    let narrow = [Some(u128::from(u64::MAX)), Some(1), Some(7)];
    same(
        &rt,
        &(refusal(alloc, &narrow, "0,1;0;1;0,2;1,2;0", &weights)?),
        &None,
    );
    Ok(())
}
