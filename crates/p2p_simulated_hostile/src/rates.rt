//! Rates, where an allocation for them may be refused.
use crate::calls::fuse_of;
use crate::peers::{Fuse, Name, Numbered};
use fair_rates::bandwidth::allocate;
use fairness::bandwidth::{Flow, Rate};
use fairness::error::Error;
use fairness::ratio::Ratio;
use std::alloc::{AllocError, Global};
use std::cell::RefCell;
use std::collections::BTreeMap;
use std::process::Abort;

/// A call of one of the closures, by the number of the peer.
#[derive(Clone, Copy, Debug, PartialEq, Eq)]
enum Asked {
    Egress(u8),
    Ingress(u8),
}

/// The flows by origin and recipient, with ids from 1.
const FLOWS: [(u8, u8); 5] = [(1, 2), (1, 2), (2, 3), (1, 3), (3, 2)];

/// All calls of the closures, in order.
const ASKED: [Asked; 10] = [
    Asked::Egress(1),
    Asked::Ingress(2),
    Asked::Egress(1),
    Asked::Ingress(2),
    Asked::Egress(2),
    Asked::Ingress(3),
    Asked::Egress(1),
    Asked::Ingress(3),
    Asked::Egress(3),
    Asked::Ingress(2),
];

/// The rate of each flow.
const RATES: [(u64, u128, u128); 5] = [
    (1, 250_000, 3),
    (2, 250_000, 3),
    (3, 500_000, 1),
    (4, 500_000, 1),
    (5, 250_000, 3),
];

fn cap_of(asked: Asked) -> Option<u128> {
    match asked {
        Asked::Egress(1) => Some(1_000_000),
        Asked::Egress(2) => Some(750_000),
        Asked::Egress(3) => Some(100_000),
        Asked::Ingress(1) => Some(500_000),
        Asked::Ingress(2) => Some(250_000),
        Asked::Ingress(3) => Some(1_000_000),
        _ => None,
    }
}

/// Puts a call down, for which there is room, and answers the cap.
fn answer(asked: &RefCell<Vec<Asked>>, call: Asked) -> Option<u128> {
    if let Ok(mut asked) = asked.try_borrow_mut() {
        let _ = asked.push(call);
    }
    cap_of(call)
}

fn plan<P: Numbered>(
    alloc: Global,
    flows: &[Flow<P>],
    asked: &RefCell<Vec<Asked>>,
) -> Result<BTreeMap<u64, Rate>, Error> {
    allocate(
        alloc,
        flows,
        |peer| answer(asked, Asked::Egress(peer.number())),
        |peer| answer(asked, Asked::Ingress(peer.number())),
    )
}

/// A flow between two peers that are numbered.
fn flow_of<P: Numbered>(
    alloc: Global,
    id: u64,
    pair: (u8, u8),
    fuse: &Fuse,
) -> Result<Flow<P>, AllocError> {
    Ok(Flow {
        id,
        origin: P::numbered(alloc, pair.0, fuse)?,
        recipient: P::numbered(alloc, pair.1, fuse)?,
        delivered: true,
    })
}

fn flows_of<P: Numbered>(alloc: Global, fuse: &Fuse) -> Result<Vec<Flow<P>>, AllocError> {
    let mut flows = Vec::with_capacity(alloc, FLOWS.len())?;
    for (id, pair) in (1u64..).zip(FLOWS) {
        flows.push(flow_of(alloc, id, pair, fuse)?)?;
    }
    Ok(flows)
}

fn are_right(rates: &BTreeMap<u64, Rate>) -> bool {
    let mut are_right = rates.len() == RATES.len();
    for (id, num, den) in RATES {
        let wanted = Ratio::new(num, den).map(Rate::Finite);
        are_right = rates.get(&id).copied() == wanted && are_right;
    }
    are_right
}

/// Asks for the rates. Where they are refused, the closures were called as always, up to some call.
fn expect_plan<P: Numbered>(rt: &(impl Abort + AllocGlobal)) -> Result<(), Error> {
    let fuse = fuse_of(rt.alloc(), 0)?;
    let flows = flows_of::<P>(rt.alloc(), &fuse)?;
    let asked = RefCell::new(Vec::with_capacity(rt.alloc(), ASKED.len())?);
    let planned = plan(rt.alloc(), &flows, &asked);
    let asked = asked.into_inner();
    assert!(rt; ASKED.starts_with(&asked), "{asked:?}");
    let rates = planned?;
    assert_eq!(rt; asked.len(), ASKED.len());
    assert!(rt; are_right(&rates));
    Ok(())
}

#[test]
fn with_ample_memory_there_are_rates(rt: HostRuntime) -> Result<(), Error> {
    expect_plan::<u64>(&rt)?;
    expect_plan::<Name>(&rt)
}

/// One refusal is of memory, and the rates come when they are asked for again.
fn expect_plan_at_last<P: Numbered>(rt: &(impl Abort + AllocGlobal)) {
    if let Err(error) = expect_plan::<P>(rt) {
        assert!(rt; error == Error::OutOfMemory, "{error:?}");
        expect_plan::<P>(rt).expect(rt, "no rates once more");
    }
}

/// For `make hostile`: some allocation may be refused.
#[test]
fn rates_with_little_memory(rt: HostRuntime) {
    expect_plan_at_last::<u64>(&rt);
    expect_plan_at_last::<Name>(&rt);
}
