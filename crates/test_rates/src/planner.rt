//! Rates of flows, against values worked out by hand.
mod judge;
mod lists;
mod many;
mod network;
mod plain;
mod sizes;
mod wide;

use self::network::{Cap, Side, egress_cap, has_rate, have_links, ingress_cap, link_cap};
use crate::same::same;
use fair_rates::bandwidth::{allocate, allocate_counted, allocate_linked, allocate_linked_counted};
use fairness::bandwidth::{Flow, Rate};
use fairness::error::Error;
use fairness::ratio::Ratio;
use numbered_peers::{Backward, Marked, Numbered};
use std::alloc::{AllocFailed, Global};
use std::cell::RefCell;
use std::collections::BTreeMap;
use std::process::Abort;
use std::test::Fail;

/// A flow from one peer to another, by their numbers, and whether it is delivered.
#[derive(Clone, Copy)]
struct Arrow(u64, u8, u8, bool);

/// The rate that is wanted for an id: a fraction, or `None` for no limit.
#[derive(Clone, Copy)]
struct Wanted(u64, Option<(u128, u128)>);

/// Flows under caps that never change, the rates that they are to have, and the rounds of filling.
#[derive(Clone, Copy)]
struct Case<'a> {
    flows: &'a [Arrow],
    caps: &'a [Cap],
    wanted: &'a [Wanted],
    rounds: u128,
}

fn flows_of<P: Numbered>(
    alloc: Global,
    arrows: &[Arrow],
) -> Result<Vec<Flow<P>>, AllocFailed<Flow<P>>> {
    let mut flows = Vec::new(alloc);
    for Arrow(id, origin, recipient, delivered) in arrows {
        flows.push(Flow {
            id: *id,
            origin: P::numbered(*origin, *id),
            recipient: P::numbered(*recipient, *id),
            delivered: *delivered,
        })?;
    }
    Ok(flows)
}

/// What `allocate` answers.
fn rates<P: Numbered>(
    alloc: Global,
    flows: &[Flow<P>],
    caps: &[Cap],
) -> Result<BTreeMap<u64, Rate>, Error> {
    allocate(
        alloc,
        flows,
        |peer| egress_cap(caps, peer),
        |peer| ingress_cap(caps, peer),
    )
}

/// What `allocate_linked` answers.
fn linked_rates<P: Numbered>(
    alloc: Global,
    flows: &[Flow<P>],
    caps: &[Cap],
) -> Result<BTreeMap<u64, Rate>, Error> {
    allocate_linked(
        alloc,
        flows,
        |peer| egress_cap(caps, peer),
        |peer| ingress_cap(caps, peer),
        |origin, recipient| link_cap(caps, origin, recipient),
    )
}

/// What `allocate_counted` answers.
fn counted_rates<P: Numbered>(
    alloc: Global,
    flows: &[Flow<P>],
    caps: &[Cap],
) -> Result<(BTreeMap<u64, Rate>, u128), Error> {
    allocate_counted(
        alloc,
        flows,
        |peer| egress_cap(caps, peer),
        |peer| ingress_cap(caps, peer),
    )
}

/// What `allocate_linked_counted` answers.
fn linked_counted_rates<P: Numbered>(
    alloc: Global,
    flows: &[Flow<P>],
    caps: &[Cap],
) -> Result<(BTreeMap<u64, Rate>, u128), Error> {
    allocate_linked_counted(
        alloc,
        flows,
        |peer| egress_cap(caps, peer),
        |peer| ingress_cap(caps, peer),
        |origin, recipient| link_cap(caps, origin, recipient),
    )
}

fn expect(rt: &impl Abort, rates: &BTreeMap<u64, Rate>, wanted: &[Wanted]) -> Result<(), Fail> {
    same(rt, &rates.len(), &wanted.len());
    for Wanted(id, rate) in wanted {
        let rate = match rate {
            Some((num, den)) => Rate::Finite(Ratio::new(*num, *den).ok_or(
                "a denominator of zero",
            )?),
            None => Rate::Unlimited,
        };
        has_rate(rt, rates, *id, rate);
    }
    Ok(())
}

/// Rates and rounds are those of the case.
fn expect_counted(
    rt: &impl Abort,
    answer: &(BTreeMap<u64, Rate>, u128),
    case: &Case,
) -> Result<(), Fail> {
    same(rt, &answer.1, &case.rounds);
    expect(rt, &answer.0, case.wanted)
}

/// The calls without links answer what the case says.
fn holds_plainly<P: Numbered>(
    rt: &(impl Abort + AllocGlobal),
    flows: &[Flow<P>],
    case: &Case,
) -> Result<(), Fail> {
    expect(rt, &rates(rt.alloc(), flows, case.caps)?, case.wanted)?;
    expect_counted(rt, &counted_rates(rt.alloc(), flows, case.caps)?, case)
}

/// The calls with links answer what the case says.
fn holds_linked<P: Numbered>(
    rt: &(impl Abort + AllocGlobal),
    flows: &[Flow<P>],
    case: &Case,
) -> Result<(), Fail> {
    expect(
        rt,
        &linked_rates(rt.alloc(), flows, case.caps)?,
        case.wanted,
    )?;
    expect_counted(
        rt,
        &linked_counted_rates(rt.alloc(), flows, case.caps)?,
        case,
    )
}

/// The flows have the rates, between peers of one type.
fn holds<P: Numbered>(rt: &(impl Abort + AllocGlobal), case: &Case) -> Result<(), Fail> {
    let flows = flows_of::<P>(rt.alloc(), case.flows)?;
    holds_linked(rt, &flows, case)?;
    if have_links(case.caps) {
        return Ok(());
    }
    holds_plainly(rt, &flows, case)
}

/// Between peers of each type.
fn holds_at_each_type(rt: &(impl Abort + AllocGlobal), case: &Case) -> Result<(), Fail> {
    holds::<u64>(rt, case)?;
    holds::<char>(rt, case)?;
    holds::<Backward>(rt, case)?;
    holds::<Marked>(rt, case)
}

#[test]
fn one_cap_is_shared(rt: HostRuntime) -> Result<(), Fail> {
    let flows = [Arrow(1, 1, 10, true), Arrow(2, 1, 11, true)];
    let halves = [Wanted(1, Some((500, 1))), Wanted(2, Some((500, 1)))];
    let case = Case {
        flows: &flows,
        caps: &[Cap(Side::Egress(1), 1000)],
        wanted: &halves,
        rounds: 1,
    };
    holds_at_each_type(&rt, &case)?;
    let empty = Case {
        flows: &[],
        wanted: &[],
        rounds: 0,
        ..case
    };
    holds_at_each_type(&rt, &empty)
}

/// Three peers that each send and receive, with five caps in use.
#[test]
fn filling_goes_round_by_round(rt: HostRuntime) -> Result<(), Fail> {
    let flows = [
        Arrow(1, 1, 2, true),
        Arrow(2, 1, 2, true),
        Arrow(3, 2, 3, true),
        Arrow(4, 1, 3, true),
        Arrow(5, 3, 2, true),
    ];
    let wanted = [
        Wanted(1, Some((250000, 3))),
        Wanted(2, Some((250000, 3))),
        Wanted(3, Some((500000, 1))),
        Wanted(4, Some((500000, 1))),
        Wanted(5, Some((250000, 3))),
    ];
    let case = Case {
        flows: &flows,
        caps: &[
            Cap(Side::Egress(1), 1000000),
            Cap(Side::Egress(2), 750000),
            Cap(Side::Egress(3), 100000),
            Cap(Side::Ingress(1), 500000),
            Cap(Side::Ingress(2), 250000),
            Cap(Side::Ingress(3), 1000000),
        ],
        wanted: &wanted,
        rounds: 2,
    };
    holds_at_each_type(&rt, &case)
}

/// Halves and quarters, and the same rates whatever the order of the flows.
#[test]
fn the_order_of_the_flows_plays_no_part(rt: HostRuntime) -> Result<(), Fail> {
    let flows = [
        Arrow(1, 1, 2, true),
        Arrow(2, 3, 2, true),
        Arrow(3, 3, 4, true),
        Arrow(4, 3, 5, true),
    ];
    let backward = [
        Arrow(4, 3, 5, true),
        Arrow(3, 3, 4, true),
        Arrow(2, 3, 2, true),
        Arrow(1, 1, 2, true),
    ];
    let wanted = [
        Wanted(1, Some((1, 2))),
        Wanted(2, Some((1, 2))),
        Wanted(3, Some((5, 4))),
        Wanted(4, Some((5, 4))),
    ];
    let case = Case {
        flows: &flows,
        caps: &[Cap(Side::Egress(3), 3), Cap(Side::Ingress(2), 1)],
        wanted: &wanted,
        rounds: 2,
    };
    holds_at_each_type(&rt, &case)?;
    let turned = Case {
        flows: &backward,
        ..case
    };
    holds_at_each_type(&rt, &turned)
}

/// What a slow recipient leaves goes to the other flow, also where no cap fits 64 bits.
#[test]
fn what_is_left_is_used(rt: HostRuntime) -> Result<(), Fail> {
    let flows = [Arrow(1, 1, 2, true), Arrow(2, 1, 3, true)];
    let wanted = [Wanted(1, Some((1000, 1))), Wanted(2, Some((49000, 1)))];
    let case = Case {
        flows: &flows,
        caps: &[
            Cap(Side::Egress(1), 50000),
            Cap(Side::Ingress(2), 1000),
            Cap(Side::Ingress(3), 500000),
        ],
        wanted: &wanted,
        rounds: 2,
    };
    holds_at_each_type(&rt, &case)?;
    let limited = [Wanted(1, Some((1000, 1))), Wanted(2, Some((20000, 1)))];
    let linked = Case {
        caps: &[
            Cap(Side::Egress(1), 50000),
            Cap(Side::Ingress(2), 1000),
            Cap(Side::Ingress(3), 500000),
            Cap(Side::Link(1, 3), 20000),
        ],
        wanted: &limited,
        ..case
    };
    holds_at_each_type(&rt, &linked)?;
    let large = [
        Wanted(1, Some((18446744073709551616000, 1))),
        Wanted(2, Some((903890459611768029184000, 1))),
    ];
    let wide = Case {
        caps: &[
            Cap(Side::Egress(1), 922337203685477580800000),
            Cap(Side::Ingress(2), 18446744073709551616000),
            Cap(Side::Ingress(3), 9223372036854775808000000),
        ],
        wanted: &large,
        ..case
    };
    holds_at_each_type(&rt, &wide)
}

/// A flow that is dropped takes nothing of what its recipient may receive.
#[test]
fn dropped_flows_charge_their_origin(rt: HostRuntime) -> Result<(), Fail> {
    let flows = [Arrow(1, 1, 2, true), Arrow(2, 1, 3, false)];
    let wanted = [Wanted(1, Some((0, 1))), Wanted(2, Some((100, 1)))];
    let case = Case {
        flows: &flows,
        caps: &[
            Cap(Side::Egress(1), 100),
            Cap(Side::Ingress(2), 0),
            Cap(Side::Ingress(3), 0),
        ],
        wanted: &wanted,
        rounds: 2,
    };
    holds_at_each_type(&rt, &case)?;
    let linked = Case {
        caps: &[Cap(Side::Egress(1), 100), Cap(Side::Link(1, 2), 0)],
        ..case
    };
    holds_at_each_type(&rt, &linked)
}

/// Of flows with one id the last decides, and both use what is shared.
#[test]
fn the_last_of_an_id_decides(rt: HostRuntime) -> Result<(), Fail> {
    let flows = [Arrow(7, 1, 2, true), Arrow(7, 1, 3, true)];
    let case = Case {
        flows: &flows,
        caps: &[Cap(Side::Egress(1), 10), Cap(Side::Ingress(2), 2)],
        wanted: &[Wanted(7, Some((8, 1)))],
        rounds: 2,
    };
    holds_at_each_type(&rt, &case)?;
    let flows = [Arrow(7, 1, 3, true), Arrow(7, 2, 3, true)];
    let last_is_free = Case {
        flows: &flows,
        caps: &[Cap(Side::Egress(1), 5)],
        wanted: &[Wanted(7, None)],
        rounds: 1,
        ..case
    };
    holds_at_each_type(&rt, &last_is_free)?;
    let flows = [Arrow(7, 2, 3, true), Arrow(7, 1, 3, true)];
    let last_is_held = Case {
        flows: &flows,
        wanted: &[Wanted(7, Some((5, 1)))],
        ..last_is_free
    };
    holds_at_each_type(&rt, &last_is_held)
}

/// The cap of a link holds for the one direction, delivered or dropped.
#[test]
fn links_have_caps(rt: HostRuntime) -> Result<(), Fail> {
    let flows = [
        Arrow(1, 1, 2, true),
        Arrow(2, 1, 2, false),
        Arrow(3, 2, 1, true),
    ];
    let wanted = [
        Wanted(1, Some((5, 1))),
        Wanted(2, Some((5, 1))),
        Wanted(3, None),
    ];
    let case = Case {
        flows: &flows,
        caps: &[Cap(Side::Link(1, 2), 10)],
        wanted: &wanted,
        rounds: 1,
    };
    holds_at_each_type(&rt, &case)
}

/// What each closure answers, one call after another, and then none.
#[derive(Clone, Copy)]
struct Answers<'a> {
    egress: &'a [Option<u128>],
    ingress: &'a [Option<u128>],
    links: &'a [Option<u128>],
}

fn answer_from(answers: &mut std::slice::Iter<'_, Option<u128>>) -> Option<u128> {
    answers.next().copied().flatten()
}

/// The rates where the closures answer from lists.
fn answered_rates(
    alloc: Global,
    flows: &[Flow<u64>],
    answers: &Answers,
) -> Result<BTreeMap<u64, Rate>, Error> {
    let mut egress = answers.egress.iter();
    let mut ingress = answers.ingress.iter();
    let mut links = answers.links.iter();
    allocate_linked(
        alloc,
        flows,
        |_peer| answer_from(&mut egress),
        |_peer| answer_from(&mut ingress),
        |_origin, _recipient| answer_from(&mut links),
    )
}

/// The flows have these rates where the closures answer from lists.
fn expect_answered(
    rt: &(impl Abort + AllocGlobal),
    flows: &[Flow<u64>],
    answers: &Answers,
    wanted: &[Wanted],
) -> Result<(), Fail> {
    expect(rt, &answered_rates(rt.alloc(), flows, answers)?, wanted)
}

/// Nothing is answered.
const NONE: Answers<'static> = Answers {
    egress: &[],
    ingress: &[],
    links: &[],
};

/// The first flow came before the side.
const FROM_THE_SECOND: [Wanted; 3] = [
    Wanted(1, None),
    Wanted(2, Some((2, 1))),
    Wanted(3, Some((2, 1))),
];

/// A side comes into being with the first number that is answered for it, and keeps that cap.
#[test]
fn the_first_number_is_the_cap(rt: HostRuntime) -> Result<(), Fail> {
    let dropped = [
        Arrow(1, 1, 2, false),
        Arrow(2, 1, 2, false),
        Arrow(3, 1, 2, false),
    ];
    let dropped = flows_of::<u64>(rt.alloc(), &dropped)?;
    let falling = Answers {
        egress: &[Some(10), Some(1), None],
        ..NONE
    };
    let thirds = [
        Wanted(1, Some((10, 3))),
        Wanted(2, Some((10, 3))),
        Wanted(3, Some((10, 3))),
    ];
    expect_answered(&rt, &dropped, &falling, &thirds)?;
    let late = Answers {
        egress: &[None, Some(4)],
        ..NONE
    };
    expect_answered(&rt, &dropped, &late, &FROM_THE_SECOND)?;
    let late_link = Answers {
        links: &[None, Some(4), None],
        ..NONE
    };
    expect_answered(&rt, &dropped, &late_link, &FROM_THE_SECOND)
}

#[test]
fn the_first_number_of_an_ingress_is_its_cap(rt: HostRuntime) -> Result<(), Fail> {
    let arriving = [
        Arrow(1, 1, 9, true),
        Arrow(2, 2, 9, true),
        Arrow(3, 3, 9, true),
    ];
    let arriving = flows_of::<u64>(rt.alloc(), &arriving)?;
    let between = Answers {
        ingress: &[None, Some(4), None],
        ..NONE
    };
    expect_answered(&rt, &arriving, &between, &FROM_THE_SECOND)
}

/// The rates where the closures for peers answer from lists, without one for links.
fn plainly_answered_rates(
    alloc: Global,
    flows: &[Flow<u64>],
    answers: &Answers,
) -> Result<BTreeMap<u64, Rate>, Error> {
    let mut egress = answers.egress.iter();
    let mut ingress = answers.ingress.iter();
    allocate(
        alloc,
        flows,
        |_peer| answer_from(&mut egress),
        |_peer| answer_from(&mut ingress),
    )
}

/// Of two flows the first is asked about before there is a cap.
#[test]
fn a_late_cap_holds_for_the_later_flow_alone(rt: HostRuntime) -> Result<(), Fail> {
    let flows = [Arrow(1, 1, 2, false), Arrow(2, 1, 2, false)];
    let flows = flows_of::<u64>(rt.alloc(), &flows)?;
    let wanted = [Wanted(1, None), Wanted(2, Some((6, 1)))];
    let late = [None, Some(6)];
    let egress = Answers {
        egress: &late,
        ..NONE
    };
    let rates = plainly_answered_rates(rt.alloc(), &flows, &egress)?;
    expect(&rt, &rates, &wanted)?;
    let link = Answers {
        links: &late,
        ..NONE
    };
    expect_answered(&rt, &flows, &link, &wanted)
}

/// A link of cap zero stops its own flow, and leaves all of the egress to the other.
#[test]
fn a_closed_link_leaves_the_egress_to_others(rt: HostRuntime) -> Result<(), Fail> {
    let flows = [Arrow(1, 1, 2, true), Arrow(2, 1, 3, true)];
    let wanted = [Wanted(1, Some((0, 1))), Wanted(2, Some((100, 1)))];
    let case = Case {
        flows: &flows,
        caps: &[Cap(Side::Egress(1), 100), Cap(Side::Link(1, 2), 0)],
        wanted: &wanted,
        rounds: 2,
    };
    holds_at_each_type(&rt, &case)
}

/// A call of one of the closures.
#[derive(Clone, Copy, Debug, PartialEq, Eq)]
enum Call {
    Egress(u64),
    Ingress(u64),
    Link(u64, u64),
}

/// Puts a call down, and answers no cap.
fn put_down(calls: &RefCell<Vec<Call>>, call: Call) -> Option<u128> {
    if let Ok(mut calls) = calls.try_borrow_mut() {
        let _ = calls.push(call);
    }
    None
}

/// The calls that `allocate` makes.
fn calls_for(alloc: Global, flows: &[Flow<u64>]) -> Result<Vec<Call>, Error> {
    let calls = RefCell::new(Vec::new(alloc));
    let _rates = allocate(
        alloc,
        flows,
        |peer| put_down(&calls, Call::Egress(*peer)),
        |peer| put_down(&calls, Call::Ingress(*peer)),
    )?;
    Ok(calls.into_inner())
}

/// The calls that `allocate_linked` makes.
fn linked_calls_for(alloc: Global, flows: &[Flow<u64>]) -> Result<Vec<Call>, Error> {
    let calls = RefCell::new(Vec::new(alloc));
    let _rates = allocate_linked(
        alloc,
        flows,
        |peer| put_down(&calls, Call::Egress(*peer)),
        |peer| put_down(&calls, Call::Ingress(*peer)),
        |origin, recipient| put_down(&calls, Call::Link(*origin, *recipient)),
    )?;
    Ok(calls.into_inner())
}

/// The closures are called in the order of the flows, and within one egress before ingress before
/// link.
#[test]
fn closures_are_called_in_order(rt: HostRuntime) -> Result<(), Fail> {
    let flows = [
        Arrow(1, 1, 2, true),
        Arrow(2, 1, 3, false),
        Arrow(3, 4, 2, true),
    ];
    let flows = flows_of::<u64>(rt.alloc(), &flows)?;
    let wanted = [
        Call::Egress(1),
        Call::Ingress(2),
        Call::Egress(1),
        Call::Egress(4),
        Call::Ingress(2),
    ];
    same(
        &rt,
        &calls_for(rt.alloc(), &flows)?.as_slice(),
        &wanted.as_slice(),
    );
    let wanted = [
        Call::Egress(1),
        Call::Ingress(2),
        Call::Link(1, 2),
        Call::Egress(1),
        Call::Link(1, 3),
        Call::Egress(4),
        Call::Ingress(2),
        Call::Link(4, 2),
    ];
    same(
        &rt,
        &linked_calls_for(rt.alloc(), &flows)?.as_slice(),
        &wanted.as_slice(),
    );
    Ok(())
}
