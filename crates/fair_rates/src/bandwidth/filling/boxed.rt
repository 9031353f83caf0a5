//! Open sides, each in a box, so that a queue moves no more than where they stand.
ghost use Rattle.std.specs.Prelude.{◌≡◌, ◌*◌, ◌<◌, All, Some, length, true, false, IfOk, OnOk};
ghost use Rattle.std.specs.Cmp.{partial_equiv_from_equiv, eq_by_cmp_equiv, partial_order_from_total};
ghost use Rattle.std.specs.Ordering.{eq_by_cmp};
ghost use Rattle.std.proofs.Common.{refl};
ghost use Rattle.fairness.specs.Numbers.Fraction.{fraction_cmp};
ghost use Rattle.fairness.specs.Numbers.FractionOrder.{fraction_total};

use super::open::OpenSide;
use super::share::Share;
use natural::Natural;
use std::alloc::{AllocError, Global};
use std::cmp::Ordering;
use std::marker::Model;

/// An open side. Sides are compared by their shares: the slack for each rising user.
pub(crate) struct BoxedSide {
    side: Box<OpenSide>,
}

impl Model for BoxedSide {
    ghost use Rattle.fair_rates.specs.declared.bandwidth.filling.open.OpenSide.{OpenSide};

    ghost Value = { OpenSide };

    ghost view = { λ boxed. boxed.side.value };
}

impl Drop for BoxedSide {
    /// Lets go of its box.
    fn drop(self) {
        let BoxedSide { side } = self;
        drop(side);
    }
}

impl PartialEq for BoxedSide {
    ghost eq = { eq_by_cmp (λ x y. fraction_cmp x.slack (length x.rising.items) y.slack (length y.rising.items)) };

    ghost laws = { partial_equiv_from_equiv (eq_by_cmp_equiv
        (fraction_total (λ x. x.slack) (λ x. length x.rising.items) (λ x. x.some))) };

    fn eq(&self, other: &BoxedSide) -> bool {
        self.cmp(other).is_eq()
    }
}

impl Eq for BoxedSide {
    ghost laws = { eq_by_cmp_equiv (fraction_total (λ x. x.slack) (λ x. length x.rising.items) (λ x. x.some)) };
}

impl PartialOrd for BoxedSide {
    ghost partial_cmp = { λ x y. Some (fraction_cmp x.slack (length x.rising.items) y.slack (length y.rising.items)) };

    ghost laws = { partial_order_from_total (fraction_total (λ x. x.slack) (λ x. length x.rising.items)
        (λ x. x.some)) };

    fn partial_cmp(&self, other: &BoxedSide) -> Option<Ordering> {
        Some(self.cmp(other))
    }
}

impl Ord for BoxedSide {
    ghost cmp = { λ x y. fraction_cmp x.slack (length x.rising.items) y.slack (length y.rising.items) };

    ghost total = { fraction_total (λ x. x.slack) (λ x. length x.rising.items) (λ x. x.some) };

    ghost matches_partial_cmp = { λ x y. refl };

    ghost matches_eq = { λ x y. refl };

    #[inline(always)]
    fn cmp(&self, other: &BoxedSide) -> Ordering {
        self.get().compare(other.get())
    }
}

impl BoxedSide {
    ghost use Rattle.fairness.specs.Filling.Frozen.{AllRise, AllFrozen};
    ghost use Rattle.fair_rates.specs.Filling.States.{frozen_at, AreInside, HaveNoMore};
    ghost use Rattle.fair_rates.specs.Filling.States.{HaveBeenCounted, IsGrown};

    /// The side in a new box.
    pub(crate) fn new(alloc: Global, side: OpenSide) -> Result<BoxedSide, AllocError>
        ensures { IfOk result (λ boxed. boxed ≡ side) }
    {
        Ok(BoxedSide {
            side: Box::new(alloc, side)?,
        })
    }

    /// The side.
    #[inline(always)]
    pub(crate) fn get(&self) -> &OpenSide
        ensures { result.now ≡ self.now }
    {
        self.side.as_ref()
    }

    /// As [`OpenSide::renew`].
    pub(crate) fn renew(&mut self, slack: Natural, rising: Vec<usize>) -> Vec<usize>
        requires { 0 < length rising.items }
        ensures slack { self.new.slack ≡ slack }
        ensures rising { self.new.rising.items ≡ rising.items }
    {
        self.side.renew(slack, rising)
    }

    /// As [`OpenSide::count_frozen`].
    pub(crate) fn count_frozen(&mut self, levels: &[Natural], level_of: &[Option<usize>]) -> bool
        requires users { All (λ flow. flow < length level_of.now) self.old.rising.items }
        requires inside { AreInside levels.now level_of.now }
        requires no_more { HaveNoMore (frozen_at levels.now level_of.now) self.old.slack self.old.rising.items }
        ensures counted { HaveBeenCounted (length level_of.now) (frozen_at levels.now level_of.now)
            self.old.slack self.old.rising.items self.new.slack self.new.rising.items }
        ensures rise { result ≡ true → AllRise (frozen_at levels.now level_of.now) self.new.rising.items }
        ensures frozen { result ≡ false → AllFrozen (frozen_at levels.now level_of.now) self.new.rising.items }
    {
        self.side.count_frozen(levels, level_of)
    }

    /// As [`OpenSide::grow`].
    pub(crate) fn grow(&mut self, factor: u64) -> Result<(), AllocError>
        ensures { OnOk result (IsGrown factor self.old self.new) }
    {
        self.side.grow(factor)
    }

    /// As [`OpenSide::take_share`].
    pub(crate) fn take_share(&mut self, alloc: Global) -> Result<Share, AllocError>
        ensures rising { OnOk result (self.new.rising.items ≡ self.old.rising.items) }
        ensures factor { IfOk result (λ share. 0 < share.factor) }
        ensures whole { IfOk result (λ share.
            share.parts * length self.old.rising.items ≡ self.old.slack * share.factor) }
    {
        self.side.take_share(alloc)
    }
}
