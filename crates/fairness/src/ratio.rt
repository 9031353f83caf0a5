//! Exact fractions of 128 bits.
ghost use Rattle.std.specs.Prelude.{◌≡◌, ℕ, ◌*◌, ◌<◌, ◌≤◌, ◌↔◌, IsTrue, IsSome, IfSome, Some};
ghost use Rattle.std.specs.Cmp.{partial_order_from_agreeing_total};
ghost use Rattle.std.proofs.Common.{refl};
ghost use Rattle.fairness.specs.Numbers.Fraction.{IsReduced, fraction_cmp};
ghost use Rattle.fairness.specs.Numbers.FractionOrder.{fraction_total, fraction_cmp-Equal};

mod laws;
pub(crate) mod lowest;
pub(crate) mod numbers;

pub use laws::{
    comparisons_are_by_value, each_value_has_one_fraction, hashes_read_the_whole_value,
};
use numbers::{gcd, order, quotient};
use std::cmp::Ordering;

/// A number that is not negative, as a fraction in lowest terms. Zero is 0/1.
///
/// Numerator and denominator have 128 bits. Arithmetic answers `None` where its result does not
/// fit, and is exact otherwise.
#[derive(Clone, Copy, Debug, PartialEq, Eq, Hash)]
pub struct Ratio {
    numerator: u128,
    denominator: u128,
    pub ghost positive: { 0 < denominator },
    pub ghost reduced: { IsReduced numerator denominator },
}

impl Ord for Ratio {
    ghost cmp = { λ x y. fraction_cmp x.numerator x.denominator y.numerator y.denominator };

    ghost total = { fraction_total (λ x. x.numerator) (λ x. x.denominator) (λ x. x.positive) };

    ghost matches_partial_cmp = { λ x y. refl };

    ghost matches_eq = { λ x y. fraction_cmp-Equal x.numerator x.denominator y.numerator y.denominator
        x.positive y.positive x.reduced y.reduced };

    /// By value.
    fn cmp(&self, other: &Ratio) -> Ordering {
        order(
            self.numerator,
            self.denominator,
            other.numerator,
            other.denominator,
        )
    }
}

impl PartialOrd for Ratio {
    ghost partial_cmp = { λ x y. Some (fraction_cmp x.numerator x.denominator y.numerator y.denominator) };

    ghost laws = { partial_order_from_agreeing_total
        (λ x y. fraction_cmp x.numerator x.denominator y.numerator y.denominator)
        (fraction_total (λ x. x.numerator) (λ x. x.denominator) (λ x. x.positive))
        (λ x y. refl)
        (λ x y. fraction_cmp-Equal x.numerator x.denominator y.numerator y.denominator
        x.positive y.positive x.reduced y.reduced) };

    fn partial_cmp(&self, other: &Ratio) -> Option<Ordering> {
        Some(self.cmp(other))
    }
}

/// Two fractions over one denominator.
#[derive(Clone, Copy)]
struct OverCommon {
    first: u128,
    second: u128,
    denominator: u128,
    ghost positive: { 0 < denominator },
}

impl Ratio {
    ghost use Rattle.fairness.specs.Numbers.Amount.{whole, plus, minus, times, over, reduced};
    ghost use Rattle.fairness.specs.Numbers.Fits.{SumFits, DifferenceFits, ReducedFits};
    ghost use Rattle.fairness.specs.Numbers.Fits.{CommonFits, AreOverCommon};
    ghost use Rattle.fairness.specs.Numbers.Ratio.{amount_of, IsWorth};

    /// The value of `num / den`, or `None` where `den` is zero.
    pub fn new(num: u128, den: u128) -> Option<Ratio>
        ensures fits { IsSome result ↔ (0 < den) }
        ensures value { IfSome result (λ r. IsWorth r (record { num = num; den = den })) }
    {
        if den == 0 {
            return None;
        }
        Some(Ratio::lowest(num, den))
    }

    /// `num / den` in lowest terms.
    fn lowest(num: u128, den: u128) -> Ratio
        requires { 0 < den }
        ensures { amount_of result ≡ reduced num den }
    {
        if den == 1 {
            return Ratio::from_whole(num);
        }
        let divisor = gcd(num, den);
        Ratio {
            numerator: quotient(num, divisor),
            denominator: quotient(den, divisor),
        }
    }

    /// Nothing: 0/1.
    pub fn zero() -> Ratio
        ensures { amount_of result ≡ whole 0 }
    {
        Ratio::from_whole(0)
    }

    /// The whole number `n`: n/1.
    pub fn from_whole(n: u128) -> Ratio
        ensures { amount_of result ≡ whole n }
    {
        Ratio {
            numerator: n,
            denominator: 1,
        }
    }

    /// The numerator in lowest terms.
    pub fn numerator(self) -> u128
        ensures { result ≡ (amount_of self).num }
    {
        self.numerator
    }

    /// The denominator in lowest terms: above zero, and with no divisor in common with the numerator but 1.
    pub fn denominator(self) -> u128
        ensures value { result ≡ (amount_of self).den }
        ensures positive { 0 < result }
        ensures lowest { IsReduced (amount_of self).num result }
    {
        self.denominator
    }

    /// Whether the value is zero.
    pub fn is_zero(self) -> bool
        ensures { IsTrue result ↔ ((amount_of self).num ≡ 0) }
    {
        self.numerator == 0
    }

    /// The least whole number that is not below the value.
    pub fn ceil(self) -> u128
        ensures enough { (amount_of self).num ≤ result * (amount_of self).den }
        ensures least { (n : ℕ) → (amount_of self).num ≤ n * (amount_of self).den → result ≤ n }
    {
        self.numerator.div_ceil(self.denominator)
    }

    /// The sum, by way of the least common denominator.
    ///
    /// `None` exactly where one of the two numerators over that denominator, their sum, or the
    /// denominator does not fit in 128 bits, even if the sum in lowest terms would.
    pub fn checked_add(self, other: Ratio) -> Option<Ratio>
        ensures fits { IsSome result ↔ SumFits (amount_of self) (amount_of other) }
        ensures value { IfSome result (λ sum.
            IsWorth sum (plus (amount_of self) (amount_of other))) }
    {
        let over = self.over_common(other)?;
        let sum = over.first.checked_add(over.second)?;
        Some(Ratio::lowest(sum, over.denominator))
    }

    /// The difference, by way of the least common denominator.
    ///
    /// `None` exactly where `other` is greater, or where one of the two numerators over that
    /// denominator, or the denominator, does not fit in 128 bits, even if the difference in lowest
    /// terms would.
    pub fn checked_sub(self, other: Ratio) -> Option<Ratio>
        ensures fits { IsSome result ↔ DifferenceFits (amount_of self) (amount_of other) }
        ensures value { IfSome result (λ rest.
            IsWorth rest (minus (amount_of self) (amount_of other))) }
    {
        let over = self.over_common(other)?;
        let rest = over.first.checked_sub(over.second)?;
        Some(Ratio::lowest(rest, over.denominator))
    }

    /// Both over their least common denominator.
    fn over_common(self, other: Ratio) -> Option<OverCommon>
        ensures fits { IsSome result ↔ CommonFits (amount_of self) (amount_of other) }
        ensures value { IfSome result (λ over.
            AreOverCommon (amount_of self) (amount_of other) over.first over.second over.denominator) }
    {
        if self.denominator == other.denominator {
            return Some(OverCommon {
                first: self.numerator,
                second: other.numerator,
                denominator: self.denominator,
            });
        }
        let common = gcd(self.denominator, other.denominator);
        let scale = quotient(self.denominator, common);
        Some(OverCommon {
            first: self
                .numerator
                .checked_mul(quotient(other.denominator, common))?,
            second: other.numerator.checked_mul(scale)?,
            denominator: scale.checked_mul(other.denominator)?,
        })
    }

    /// The product, or `None` exactly where it does not fit in lowest terms.
    pub fn checked_mul(self, other: Ratio) -> Option<Ratio>
        ensures fits { IsSome result ↔ ReducedFits (times (amount_of self) (amount_of other)) }
        ensures value { IfSome result (λ product.
            IsWorth product (times (amount_of self) (amount_of other))) }
    {
        self.product(other.numerator, other.denominator)
    }

    /// The quotient, or `None` exactly where `other` is zero or the quotient does not fit in lowest
    /// terms.
    pub fn checked_div(self, other: Ratio) -> Option<Ratio>
        ensures fits { IsSome result
            ↔ ((0 < (amount_of other).num) × ReducedFits (over (amount_of self) (amount_of other))) }
        ensures value { IfSome result (λ quotient.
            IsWorth quotient (over (amount_of self) (amount_of other))) }
    {
        if other.numerator == 0 {
            return None;
        }
        self.product(other.denominator, other.numerator)
    }

    /// The product with `num / den`, which is in lowest terms: each numerator and the other
    /// denominator are reduced before they are multiplied.
    fn product(self, num: u128, den: u128) -> Option<Ratio>
        requires positive { 0 < den }
        requires lowest { IsReduced num den }
        ensures fits { IsSome result
            ↔ ReducedFits (times (amount_of self) (record { num = num; den = den })) }
        ensures value { IfSome result (λ product.
            IsWorth product (times (amount_of self) (record { num = num; den = den }))) }
    {
        let first = gcd(self.numerator, den);
        let second = gcd(num, self.denominator);
        let numerator = quotient(self.numerator, first).checked_mul(quotient(num, second))?;
        let denominator = quotient(self.denominator, second).checked_mul(quotient(den, first))?;
        Some(Ratio {
            numerator,
            denominator,
        })
    }
}
