//! Networks that are told bit by bit, against values worked out by hand.
use crate::same::same;
use crate::text;
use fair_routes::routes::network::Network;
use fairness::error::Error;
use std::alloc::Global;
use std::num::NonZeroU64;
use std::process::Abort;
use std::test::Fail;

/// The network has these flows with these rates.
fn expect(
    rt: &(impl Abort + AllocGlobal),
    network: &Network,
    flows: &[u64],
    rates: &str,
) -> Result<(), Fail> {
    let wanted = text::rates(rt.alloc(), rates)?;
    let found = network.rates()?;
    assert_eq!(rt; found.len(), flows.len(), "{rates}");
    for (place, (flow, rate)) in found.iter().enumerate() {
        assert_eq!(rt; flows.get(place), Some(flow), "{rates}");
        assert_eq!(rt; wanted.get(place), Some(rate), "{rates}");
    }
    Ok(())
}

/// A weight.
fn weight(n: u64) -> Result<NonZeroU64, Fail> {
    Ok(NonZeroU64::new(n).ok_or("a weight of zero")?)
}

/// A flow over two links, one that has the rest of the first, and one that shares the second.
fn three_flows(alloc: Global) -> Result<Network, Fail> {
    let mut network = Network::new(alloc);
    network.set_cap(40, Some(10))?;
    network.set_cap(7, Some(4))?;
    network.add_link(9, 40)?;
    network.add_link(3, 40)?;
    network.add_link(3, 7)?;
    network.add_link(u64::MAX, 7)?;
    Ok(network)
}

#[test]
fn flows_come_by_their_numbers(rt: HostRuntime) -> Result<(), Fail> {
    expect(&rt, &Network::new(rt.alloc()), &[], "none")?;
    expect(&rt, &three_flows(rt.alloc())?, &[3, 9, u64::MAX], "2;8;2")
}

/// A link that is added again counts once, and a link without a cap holds no flow.
#[test]
fn links_count_once(rt: HostRuntime) -> Result<(), Fail> {
    let mut network = three_flows(rt.alloc())?;
    network.add_link(9, 40)?;
    network.add_link(9, 41)?;
    expect(&rt, &network, &[3, 9, u64::MAX], "2;8;2")?;
    network.add_link(41, 41)?;
    expect(&rt, &network, &[3, 9, 41, u64::MAX], "2;8;unlimited;2")
}

/// The last cap decides, and a cap can be taken away. A cap of a link that no flow uses changes nothing.
#[test]
fn caps_change(rt: HostRuntime) -> Result<(), Fail> {
    let mut network = three_flows(rt.alloc())?;
    network.set_cap(41, Some(0))?;
    network.set_cap(40, Some(3))?;
    expect(&rt, &network, &[3, 9, u64::MAX], "3/2;3/2;5/2")?;
    network.set_cap(40, None)?;
    expect(&rt, &network, &[3, 9, u64::MAX], "2;unlimited;2")
}

/// A weight may be set before the flow has a route, and again.
#[test]
fn weights_change(rt: HostRuntime) -> Result<(), Fail> {
    let mut network = three_flows(rt.alloc())?;
    network.set_weight(3, weight(3)?)?;
    network.set_weight(5, weight(2)?)?;
    expect(&rt, &network, &[3, 9, u64::MAX], "3;7;1")?;
    network.add_link(5, 7)?;
    expect(&rt, &network, &[3, 5, 9, u64::MAX], "2;4/3;8;2/3")?;
    network.set_weight(3, weight(1)?)?;
    expect(&rt, &network, &[3, 5, 9, u64::MAX], "1;2;9;1")
}

/// What is refused for a number leaves the network as it was.
#[test]
fn weights_of_a_link_are_below_2_to_the_64(rt: HostRuntime) -> Result<(), Fail> {
    let mut network = three_flows(rt.alloc())?;
    network.set_weight(3, weight(u64::MAX)?)?;
    same(&rt, &network.rates().err(), &Some(Error::NumberTooLarge));
    network.set_cap(40, None)?;
    same(&rt, &network.rates().err(), &Some(Error::NumberTooLarge));
    network.set_cap(7, None)?;
    expect(
        &rt,
        &network,
        &[3, 9, u64::MAX],
        "unlimited;unlimited;unlimited",
    )
}
