//! Fractions and time, against values worked out by hand.
//!
//! In the tables `7/2` is a fraction made of these two numbers, a number alone is a whole one, and
//! `zero` is zero.
use super::table::{Case, Words, all_hold, number, number_of, order, truth, wide_number, word};
use crate::same::same;
use crate::text::{rate_of, ratio_of};
use fairness::bandwidth::{Flow, Rate, duration, transfer};
use fairness::error::Error;
use fairness::ratio::Ratio;
use std::alloc::Global;
use std::hash::{DefaultHasher, Hash, Hasher};
use std::test::Fail;

/// The next word as a fraction.
fn ratio(words: &mut Words<'_>) -> Result<Ratio, Fail> {
    ratio_of(word(words)?)
}

/// The next word as a fraction, or `none`.
fn ratio_or_none(words: &mut Words<'_>) -> Result<Option<Ratio>, Fail> {
    match word(words)? {
        "none" => Ok(None),
        ratio => Ok(Some(ratio_of(ratio)?)),
    }
}

/// The next word as a fraction of bytes a second, or `unlimited`.
fn rate(words: &mut Words<'_>) -> Result<Rate, Fail> {
    rate_of(word(words)?)
}

fn hash_of(x: &Ratio) -> u64 {
    let mut state = DefaultHasher::new();
    x.hash(&mut state);
    state.finish()
}

/// A fraction, its numerator, its denominator, and whether it is zero.
const REDUCED: &str = "\
    6/4 3 2 false
    0/5 0 1 true
    8/2 4 1 false";

/// The fraction is in lowest terms.
struct Reduced;

impl Case for Reduced {
    fn holds(_alloc: Global, words: &mut Words<'_>) -> Result<bool, Fail> {
        let ratio = ratio(words)?;
        let is_numerator = ratio.numerator() == wide_number(words)?;
        let is_denominator = ratio.denominator() == wide_number(words)?;
        Ok(is_numerator && is_denominator && ratio.is_zero() == truth(words)?)
    }
}

#[test]
fn new_reduces(rt: HostRuntime) -> Result<(), Fail> {
    all_hold::<Reduced>(&rt, REDUCED, 3)
}

#[test]
fn a_denominator_of_zero_is_refused(rt: HostRuntime) -> Result<(), Fail> {
    same(&rt, &Ratio::new(1, 0), &None);
    Ok(())
}

/// Two fractions and their sum, or `none` where it does not fit.
const SUMS: &str = "\
    340282366920938463463374607431768211455 1 none
    340282366920938463463374607431768211455/2 1/2 none
    1/170141183460469231731687303715884105728 1/170141183460469231731687303715884105728 \
        1/85070591730234615865843651857942052864
    1/170141183460469231731687303715884105728 1/3 none
    1/170141183460469231731687303715884105728 1/85070591730234615865843651857942052864 \
        3/170141183460469231731687303715884105728
    1/2 1/3 5/6
    1/6 1/10 4/15";

/// The sum is this.
struct Sum;

impl Case for Sum {
    fn holds(_alloc: Global, words: &mut Words<'_>) -> Result<bool, Fail> {
        let sum = ratio(words)?.checked_add(ratio(words)?);
        Ok(sum == ratio_or_none(words)?)
    }
}

#[test]
fn adds(rt: HostRuntime) -> Result<(), Fail> {
    all_hold::<Sum>(&rt, SUMS, 7)
}

/// Two fractions and what the first is more than the second, or `none` where it is less.
const DIFFERENCES: &str = "\
    1/2 1/2 zero
    1/3 1/2 none
    1/2 1/3 1/6";

/// The difference is this.
struct Difference;

impl Case for Difference {
    fn holds(_alloc: Global, words: &mut Words<'_>) -> Result<bool, Fail> {
        let rest = ratio(words)?.checked_sub(ratio(words)?);
        Ok(rest == ratio_or_none(words)?)
    }
}

#[test]
fn subtracts(rt: HostRuntime) -> Result<(), Fail> {
    all_hold::<Difference>(&rt, DIFFERENCES, 3)
}

/// Two fractions and their product, or `none` where it does not fit.
const PRODUCTS: &str = "\
    340282366920938463463374607431768211455 1/340282366920938463463374607431768211455 1
    170141183460469231731687303715884105728 2 none
    18446744073709551616/3 3/18446744073709551616 1
    170141183460469231731687303715884105728/3 3/170141183460469231731687303715884105728 1";

/// The product is this.
struct Product;

impl Case for Product {
    fn holds(_alloc: Global, words: &mut Words<'_>) -> Result<bool, Fail> {
        let product = ratio(words)?.checked_mul(ratio(words)?);
        Ok(product == ratio_or_none(words)?)
    }
}

#[test]
fn multiplies(rt: HostRuntime) -> Result<(), Fail> {
    all_hold::<Product>(&rt, PRODUCTS, 4)
}

/// Two fractions and the first over the second, or `none` where that is none or does not fit.
const QUOTIENTS: &str = "\
    1/2 1/4 2
    1/2 zero none
    2/3 4/9 3/2
    1/340282366920938463463374607431768211455 2 none
    zero 5 zero";

/// The quotient is this.
struct Quotient;

impl Case for Quotient {
    fn holds(_alloc: Global, words: &mut Words<'_>) -> Result<bool, Fail> {
        let quotient = ratio(words)?.checked_div(ratio(words)?);
        Ok(quotient == ratio_or_none(words)?)
    }
}

#[test]
fn divides(rt: HostRuntime) -> Result<(), Fail> {
    all_hold::<Quotient>(&rt, QUOTIENTS, 5)
}

/// A fraction, and the least whole number that is no less.
const ROUNDED_UP: &str = "\
    7/2 4
    4 4
    zero 0
    340282366920938463463374607431768211455/2 170141183460469231731687303715884105728";

/// Rounded up, the fraction is this number.
struct RoundedUp;

impl Case for RoundedUp {
    fn holds(_alloc: Global, words: &mut Words<'_>) -> Result<bool, Fail> {
        Ok(ratio(words)?.ceil() == wide_number(words)?)
    }
}

#[test]
fn rounds_up(rt: HostRuntime) -> Result<(), Fail> {
    all_hold::<RoundedUp>(&rt, ROUNDED_UP, 4)
}

/// Two fractions and their order.
const COMPARED: &str = "\
    340282366920938463463374607431768211453/340282366920938463463374607431768211454 \
        340282366920938463463374607431768211454/340282366920938463463374607431768211455 less
    340282366920938463463374607431768211454/340282366920938463463374607431768211455 \
        340282366920938463463374607431768211453/340282366920938463463374607431768211454 greater
    340282366920938463463374607431768211454/340282366920938463463374607431768211455 \
        340282366920938463463374607431768211454/340282366920938463463374607431768211455 equal
    1/3 1/2 less
    3/2 5/2 less
    2/4 1/2 equal
    0/5 zero equal
    8/2 4 equal";

/// The fractions have this order by each way of comparing them.
struct Compared;

impl Case for Compared {
    fn holds(_alloc: Global, words: &mut Words<'_>) -> Result<bool, Fail> {
        let left = ratio(words)?;
        let right = ratio(words)?;
        let order = order(words)?;
        let is_order = left.cmp(&right) == order && (left < right) == order.is_lt();
        Ok(is_order && (left == right) == order.is_eq())
    }
}

#[test]
fn compares_by_value(rt: HostRuntime) -> Result<(), Fail> {
    all_hold::<Compared>(&rt, COMPARED, 8)
}

/// Two fractions, and whether they are one number.
const HASHED: &str = "\
    2/4 1/2 true
    1/3 1/2 false
    3/2 1/2 false";

/// The hashes of one number alone are equal.
struct Hashed;

impl Case for Hashed {
    fn holds(_alloc: Global, words: &mut Words<'_>) -> Result<bool, Fail> {
        let is_same = hash_of(&ratio(words)?) == hash_of(&ratio(words)?);
        Ok(is_same == truth(words)?)
    }
}

#[test]
fn hashes_by_value(rt: HostRuntime) -> Result<(), Fail> {
    all_hold::<Hashed>(&rt, HASHED, 3)
}

/// The next word as a number of nanoseconds, `none`, or `refused` where a number is too large.
fn time(words: &mut Words<'_>) -> Result<Result<Option<u64>, Error>, Fail> {
    match word(words)? {
        "refused" => Ok(Err(Error::NumberTooLarge)),
        "none" => Ok(Ok(None)),
        digits => Ok(Ok(Some(number_of(digits)?))),
    }
}

/// A rate, bytes, and the nanoseconds in which they go through, if ever, or `refused`.
const DURATIONS: &str = "\
    3/1 1 333333334
    1/1 18446744073709551615/1000000000 18446744073709551615
    1/1 18446744073709551616/1000000000 none
    0/1 zero none
    0/1 1 none
    5/1 zero 0
    unlimited 1 0
    1/340282366920938463463374607431768211455 2 refused
    1/1 340282366920938463463374607431768211455 refused";

/// The time is this.
struct Duration;

impl Case for Duration {
    fn holds(_alloc: Global, words: &mut Words<'_>) -> Result<bool, Fail> {
        let answer = duration(&rate(words)?, &ratio(words)?);
        Ok(answer == time(words)?)
    }
}

#[test]
fn finds_the_least_time(rt: HostRuntime) -> Result<(), Fail> {
    all_hold::<Duration>(&rt, DURATIONS, 9)
}

/// The next word as a fraction of bytes, or `refused` where a number is too large.
fn rest(words: &mut Words<'_>) -> Result<Result<Ratio, Error>, Fail> {
    match word(words)? {
        "refused" => Ok(Err(Error::NumberTooLarge)),
        ratio => Ok(Ok(ratio_of(ratio)?)),
    }
}

/// A rate, nanoseconds, bytes, and what is left of the bytes after this time.
const DRAINED: &str = "\
    1/2 500000000 10 39/4
    1/2 1500000000 39/4 9
    3/1 333333333 1 1/1000000000
    3/1 333333334 1 zero
    unlimited 0 5 zero
    0/1 1000000000 5 5
    3/1 0 5 5
    3/1 1000000000 zero zero";

/// What is left is this.
struct Drained;

impl Case for Drained {
    fn holds(_alloc: Global, words: &mut Words<'_>) -> Result<bool, Fail> {
        let rate = rate(words)?;
        let elapsed = number(words)?;
        let answer = transfer(&rate, elapsed, ratio(words)?);
        Ok(answer == rest(words)?)
    }
}

#[test]
fn drains(rt: HostRuntime) -> Result<(), Fail> {
    all_hold::<Drained>(&rt, DRAINED, 8)
}

/// A rate, nanoseconds, bytes, and what is left of the bytes after this time, or `refused`.
const LARGE_DRAINS: &str = "\
    340282366920938463463374607431768211455 1000000000 1 zero
    340282366920938463463374607431768211455 2000000000 1 refused
    1/170141183460469231731687303715884105728 1000000000 1/3 refused";

#[test]
fn refuses_a_drain_that_does_not_fit(rt: HostRuntime) -> Result<(), Fail> {
    all_hold::<Drained>(&rt, LARGE_DRAINS, 3)
}

/// Two rates, and whether they are equal.
const RATES: &str = "\
    2/4 1/2 true
    1/2 1/3 false
    0/1 unlimited false
    unlimited unlimited true";

/// The rates are equal, or they are not, by both operators.
struct SameRate;

impl Case for SameRate {
    fn holds(_alloc: Global, words: &mut Words<'_>) -> Result<bool, Fail> {
        let left = rate(words)?;
        let right = rate(words)?;
        let are_equal = truth(words)?;
        Ok((left == right) == are_equal && (left != right) != are_equal)
    }
}

#[test]
fn rates_compare_by_value(rt: HostRuntime) -> Result<(), Fail> {
    all_hold::<SameRate>(&rt, RATES, 4)
}

/// A flow between numbers: its id, its origin, its recipient, and whether it is delivered.
const FLOWS_OF_NUMBERS: &str = "\
    1 1 10 true
    2 1 11 true";

/// The clone of the flow has the same id, origin, recipient and delivery.
struct FlowOfNumbers;

impl Case for FlowOfNumbers {
    fn holds(_alloc: Global, words: &mut Words<'_>) -> Result<bool, Fail> {
        let (id, origin) = (number(words)?, number(words)?);
        let (recipient, delivered) = (number(words)?, truth(words)?);
        let flow = Flow {
            id,
            origin,
            recipient,
            delivered,
        };
        let copy = flow.clone()?;
        let are_peers = copy.origin == origin && copy.recipient == recipient;
        Ok(copy.id == id && are_peers && copy.delivered == delivered)
    }
}

#[test]
fn clones_flows_of_numbers(rt: HostRuntime) -> Result<(), Fail> {
    all_hold::<FlowOfNumbers>(&rt, FLOWS_OF_NUMBERS, 2)
}

/// The next word as a single character.
fn character(words: &mut Words<'_>) -> Result<char, Fail> {
    let letter = word(words)?.parse::<char>();
    Ok(letter.ok().ok_or("no single character")?)
}

/// A flow between characters: its id, its origin, its recipient, and whether it is delivered.
const FLOWS_OF_CHARACTERS: &str = "\
    1 A B true
    2 A B true
    3 B C true
    4 A C true
    5 C B true
    6 A C false";

/// The clone of the flow has the same id, origin, recipient and delivery.
struct FlowOfCharacters;

impl Case for FlowOfCharacters {
    fn holds(_alloc: Global, words: &mut Words<'_>) -> Result<bool, Fail> {
        let (id, origin) = (number(words)?, character(words)?);
        let (recipient, delivered) = (character(words)?, truth(words)?);
        let flow = Flow {
            id,
            origin,
            recipient,
            delivered,
        };
        let copy = flow.clone()?;
        let are_peers = copy.origin == origin && copy.recipient == recipient;
        Ok(copy.id == id && are_peers && copy.delivered == delivered)
    }
}

#[test]
fn clones_flows_of_characters(rt: HostRuntime) -> Result<(), Fail> {
    all_hold::<FlowOfCharacters>(&rt, FLOWS_OF_CHARACTERS, 6)
}
