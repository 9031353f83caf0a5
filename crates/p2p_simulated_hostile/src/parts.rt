//! Numbers, rows of owners, and what is known of peers and pairs, where an allocation for them may be refused.
use chains::Chains;
use fairness::error::Error;
use link_pairs::known_pairs::Pairs;
use link_pairs::peers::Peers;
use natural::Natural;
use std::alloc::{AllocError, Global};
use std::process::Abort;

/// A number of five limbs is doubled, or stays as it was.
fn double(rt: &(impl Abort + AllocGlobal)) -> Result<(), AllocError> {
    let mut n = Natural::from_u128(rt.alloc(), u128::MAX);
    for _ in 0..3 {
        n.multiply(u64::MAX)?;
    }
    let before = n.clone()?;
    let doubled = n.add_assign(&before);
    assert_eq!(rt; n == before, doubled.is_err());
    doubled
}

/// For `make hostile`: some allocation may be refused.
#[test]
fn sums_with_little_memory(rt: HostRuntime) {
    if double(&rt).is_err() {
        double(&rt).expect(&rt, "no sum once more");
    }
}

/// Six rows of two owners in turn, right after a mark.
fn two_owners(alloc: Global) -> Result<Chains, AllocError> {
    let mut chains = Chains::new(alloc);
    chains.add_owner()?;
    chains.add_owner()?;
    for row in 0..6 {
        if row % 2 < chains.owners() {
            chains.add(row % 2)?;
        }
    }
    chains.commit();
    Ok(chains)
}

/// Whose the row is.
fn owner(chains: &Chains, row: usize) -> Option<usize> {
    if row < chains.rows() {
        chains.owner(row)
    } else {
        None
    }
}

/// A row goes, if it stands in a chain.
fn take(chains: &mut Chains, row: usize) -> Result<(), AllocError> {
    if row >= chains.rows() {
        return Ok(());
    }
    match chains.owner(row) {
        Some(owner) => chains.take(owner, row),
        None => Ok(()),
    }
}

/// The first rows go, so many of them.
fn take_first(chains: &mut Chains, count: usize) -> Result<(), AllocError> {
    for row in 0..count {
        take(chains, row)?;
    }
    Ok(())
}

/// Four rows go, or all six stay.
fn take_four(rt: &(impl Abort + AllocGlobal)) -> Result<(), AllocError> {
    let mut chains = two_owners(rt.alloc())?;
    let taken = take_first(&mut chains, 4);
    for row in 0..6 {
        let stays = taken.is_err() || row >= 4;
        assert_eq!(rt; owner(&chains, row).is_some(), stays);
    }
    taken
}

/// For `make hostile`: some allocation may be refused.
#[test]
fn rows_with_little_memory(rt: HostRuntime) {
    if take_four(&rt).is_err() {
        take_four(&rt).expect(&rt, "no rows once more");
    }
}

/// The cap, if it was set.
fn cap_set(set: Result<(), Error>, cap: u128) -> Option<u128> {
    set.ok().map(|()| cap)
}

/// Two peers are limited, each or not.
fn limit_two(rt: &(impl Abort + AllocGlobal)) {
    let mut peers = Peers::<u64>::new(rt.alloc());
    let first = cap_set(peers.set(&1, Some(10), None), 10);
    let second = cap_set(peers.set(&2, Some(20), None), 20);
    assert_eq!(rt; [peers.egress(&1), peers.egress(&2)], [first, second]);
}

/// For `make hostile`: some allocation may be refused.
#[test]
fn caps_with_little_memory(rt: HostRuntime) {
    limit_two(&rt);
}

/// The last arrival of a pair is told as it is raised.
fn raise_twice(rt: &(impl Abort + AllocGlobal)) -> Result<(), Error> {
    let mut pairs = Pairs::<u64>::new(rt.alloc());
    let told = [pairs.raise(&1, &2, 5)?, pairs.raise(&1, &2, 9)?];
    assert_eq!(rt; told, [None, Some(5)]);
    assert_eq!(rt; pairs.last_arrival(&1, &2), Some(9));
    Ok(())
}

/// For `make hostile`: some allocation may be refused.
#[test]
fn arrivals_with_little_memory(rt: HostRuntime) {
    if raise_twice(&rt).is_err() {
        raise_twice(&rt).expect(&rt, "no last arrival once more");
    }
}
