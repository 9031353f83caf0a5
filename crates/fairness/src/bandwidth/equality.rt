//! When two rates are equal.
ghost use Rattle.std.specs.Prelude.{◌↔◌, IsTrue};
ghost use Rattle.fairness.specs.Numbers.OneValue.{HaveOneValue};
ghost use Rattle.fairness.specs.declared.bandwidth.Rate.{Rate as AnyRate};

use crate::bandwidth::Rate;

/// A law of `==` on rates: no limit equals no limit alone, and finite rates are equal where their
/// values are. The function does nothing.
pub fn rates_are_equal_by_value()
    ensures { (x : AnyRate) (y : AnyRate) → IsTrue (⟦<Rate as PartialEq>⟧.eq x y) ↔ HaveOneValue x y }
{}
