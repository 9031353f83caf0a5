//! Rates next to 2^128.
use super::network::{Cap, Network, Planned, Side, expect_rate, plan, plan_linked, sent};
use crate::same::same;
use fairness::error::Error;
use std::process::Abort;
use std::test::Fail;

const LARGEST: u128 = 340282366920938463463374607431768211455;

/// 2^127.
const HALF: u128 = 170141183460469231731687303715884105728;

/// Three rates are fractions of 128 bits, and the fourth, a number of sixths, is none.
#[test]
fn one_rate_that_is_no_fraction_is_refused(rt: HostRuntime) -> Result<(), Fail> {
    let network = Network {
        flows: &[
            sent(0, 1, 2),
            sent(1, 9, 2),
            sent(2, 1, 3),
            sent(3, 9, 3),
            sent(4, 9, 3),
            sent(5, 1, 4),
        ],
        caps: &[
            Cap(Side::Egress(1), LARGEST),
            Cap(Side::Ingress(2), HALF + 1),
            Cap(Side::Ingress(3), HALF + 2),
        ],
    };
    same(
        &rt,
        &plan(rt.alloc(), &network).err(),
        &Some(Error::NumberTooLarge),
    );
    same(
        &rt,
        &plan_linked(rt.alloc(), &network).err(),
        &Some(Error::NumberTooLarge),
    );
    Ok(())
}

/// The rates of five flows, after three rounds.
fn expect_five_rates(rt: &impl Abort, planned: &Planned) -> Result<(), Fail> {
    expect_rate(rt, planned, 0, 170141183460469231731687303715884105729, 2)?;
    expect_rate(rt, planned, 1, 170141183460469231731687303715884105729, 2)?;
    expect_rate(rt, planned, 2, 170141183460469231731687303715884105731, 2)?;
    expect_rate(rt, planned, 3, 170141183460469231731687303715884105731, 2)?;
    expect_rate(rt, planned, 4, 170141183460469231731687303715884105725, 1)?;
    same(rt, &planned.rounds, &3);
    Ok(())
}

/// The flows of peer 1 to peers 2 and 3 have more than 2^128 halves together, and each rate is a
/// fraction of 128 bits.
#[test]
fn rates_whose_sums_are_no_fractions_are_answered(rt: HostRuntime) -> Result<(), Fail> {
    let network = Network {
        flows: &[
            sent(0, 1, 2),
            sent(1, 9, 2),
            sent(2, 1, 3),
            sent(3, 9, 3),
            sent(4, 1, 4),
        ],
        caps: &[
            Cap(Side::Egress(1), LARGEST),
            Cap(Side::Ingress(2), HALF + 1),
            Cap(Side::Ingress(3), HALF + 3),
        ],
    };
    expect_five_rates(&rt, &plan(rt.alloc(), &network)?)?;
    expect_five_rates(&rt, &plan_linked(rt.alloc(), &network)?)
}
