//! Whole numbers of 128 bits, handled in 64 bits where they fit: that is many times faster.
ghost use Rattle.std.specs.Prelude.{◌≡◌, ◌*◌, ◌/◌, ◌<◌};
ghost use Rattle.fairness.specs.Numbers.Amount.{gcd as greatest_divisor};
ghost use Rattle.fairness.specs.Numbers.Fraction.{fraction_cmp};

use std::cmp::Ordering;

/// The first number of more than 64 bits.
const WIDE: u128 = 1 << 64;

/// The greatest common divisor. That of a number and zero is the number.
pub(super) fn gcd(a: u128, b: u128) -> u128
    ensures value { result ≡ greatest_divisor a b }
    ensures positive { 0 < b → 0 < result }
{
    if a < WIDE && b < WIDE {
        return u128::from(gcd_of_narrow(a as u64, b as u64));
    }
    if b == 0 { a } else { gcd(b, a % b) }
}

/// The greatest common divisor of two numbers of 64 bits.
pub fn gcd_of_narrow(a: u64, b: u64) -> u64
    ensures { result ≡ greatest_divisor a b }
{
    let mut last = a;
    let mut rest = b;
    while rest != 0 {
        let next = last % rest;
        last = rest;
        rest = next;
    }
    last
}

/// The whole part of `n / by`.
pub(super) fn quotient(n: u128, by: u128) -> u128
    requires { 0 < by }
    ensures { result ≡ n / by }
{
    if by == 1 {
        n
    } else if n < WIDE && by < WIDE {
        u128::from(n as u64 / by as u64)
    } else {
        n / by
    }
}

/// How `a / b` stands to `c / d`, whatever the size of the cross products.
pub(super) fn order(a: u128, b: u128, c: u128, d: u128) -> Ordering
    requires left { 0 < b }
    requires right { 0 < d }
    ensures { result ≡ fraction_cmp a b c d }
{
    if b == d {
        a.cmp(&c)
    } else if a < WIDE && b < WIDE && c < WIDE && d < WIDE {
        (a * d).cmp(&(c * b))
    } else {
        order_by_parts(a, b, c, d)
    }
}

/// The same by the whole parts, and where those are equal by the remainders turned over.
fn order_by_parts(a: u128, b: u128, c: u128, d: u128) -> Ordering
    requires left { 0 < b }
    requires right { 0 < d }
    ensures { result ≡ fraction_cmp a b c d }
{
    let whole = a / b;
    let other_whole = c / d;
    if whole != other_whole {
        return whole.cmp(&other_whole);
    }
    let rest = a % b;
    let other_rest = c % d;
    if rest == 0 || other_rest == 0 {
        return rest.cmp(&other_rest);
    }
    order_by_parts(d, other_rest, b, rest)
}
