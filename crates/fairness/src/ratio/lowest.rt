//! Fractions that are known to be in lowest terms.
ghost use Rattle.std.specs.Prelude.{◌≡◌, ◌<◌};
ghost use Rattle.fairness.specs.Numbers.Fraction.{IsReduced};
ghost use Rattle.fairness.specs.Numbers.Ratio.{amount_of};

use super::Ratio;

/// `num / den`, which is in lowest terms.
pub fn from_lowest(num: u128, den: u128) -> Ratio
    requires positive { 0 < den }
    requires lowest { IsReduced num den }
    ensures { amount_of result ≡ record { num = num; den = den } }
{
    Ratio {
        numerator: num,
        denominator: den,
    }
}
