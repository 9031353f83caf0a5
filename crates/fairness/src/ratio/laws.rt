//! Laws of fractions. The functions do nothing: their contracts are the laws.
ghost use Rattle.std.specs.Prelude.{◌≡◌, ◌<◌, ◌↔◌, ◌++◌, IsTrue};
ghost use Rattle.std.specs.Hash as fed;
ghost use Rattle.fairness.specs.Numbers.Amount.{Amount, AreEqual};
ghost use Rattle.fairness.specs.Numbers.Ratio.{amount_of, amount_cmp, IsWorth};
ghost use Rattle.fairness.specs.declared.ratio.Ratio.{Ratio as Fraction};

use super::Ratio;
use std::hash::Hash;

/// `==` compares values, and so does the order: by cross products, however large.
pub fn comparisons_are_by_value()
    ensures equality { (x : Fraction) (y : Fraction)
        → IsTrue (⟦<Ratio as PartialEq>⟧.eq x y) ↔ AreEqual (amount_of x) (amount_of y) }
    ensures order { (x : Fraction) (y : Fraction)
        → ⟦<Ratio as Ord>⟧.cmp x y ≡ amount_cmp (amount_of x) (amount_of y) }
{}

/// A hash reads the whole value: the numerator, and then the denominator.
pub fn hashes_read_the_whole_value()
    ensures { (x : Fraction)
        → ⟦<Ratio as Hash>⟧.hash_input x ≡ fed.u128 (amount_of x).num ++ fed.u128 (amount_of x).den }
{}

/// Two fractions that are worth the same amount are the same.
pub fn each_value_has_one_fraction()
    ensures { (x : Fraction) (y : Fraction) (a : Amount)
        → 0 < a.den → IsWorth x a → IsWorth y a → x ≡ y }
{}
