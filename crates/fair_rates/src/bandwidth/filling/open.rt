//! A side while the flows rise.
ghost use Rattle.std.specs.Prelude.{◌≡◌, ◌*◌, ◌/◌, ◌%◌, ◌^◌, ◌<◌, All, length, true, false};
ghost use Rattle.std.specs.Ordering.{nat_cmp};
ghost use Rattle.fairness.specs.Numbers.Fraction.{fraction_cmp};

use super::risers::{are_frozen, take_frozen};
use super::share::{Share, share_of, whole_share};
use natural::Natural;
use std::alloc::{AllocError, Global};
use std::cmp::Ordering;
use std::mem;

/// A share, rounded down, and what is left.
#[derive(Clone, Copy)]
pub(crate) struct RoundedShare {
    /// How many limbs of 64 bits of the slack are left out, the lowest ones.
    pub(crate) shift: usize,
    /// The share without these, rounded down.
    pub(crate) quotient: u128,
    /// What is left of the slack without these.
    pub(crate) rest: u64,
}

/// A side of which some users rise.
#[derive(Drop)]
pub(crate) struct OpenSide {
    /// What the users that are counted as frozen leave of the cap, in parts.
    pub(crate) slack: Natural,
    /// The other users.
    pub(crate) rising: Vec<usize>,
    /// The slack for each of these.
    pub(crate) share: RoundedShare,
    pub(crate) ghost some: { 0 < length rising.items },
    pub(crate) ghost rounded: { share.quotient ≡ slack / (2 ^ (64 * share.shift) * length rising.items) },
    pub(crate) ghost left: { share.rest ≡ slack / 2 ^ (64 * share.shift) % length rising.items },
}

impl OpenSide {
    ghost use Rattle.std.specs.Prelude.{IfOk, OnOk};
    ghost use Rattle.fairness.specs.Filling.Frozen.{AllRise, AllFrozen};
    ghost use Rattle.fair_rates.specs.Filling.States.{frozen_at, AreInside, HaveNoMore};
    ghost use Rattle.fair_rates.specs.Filling.States.{HaveBeenCounted, IsGrown};

    /// A side that leaves so much for these users.
    pub(crate) fn new(slack: Natural, rising: Vec<usize>) -> OpenSide
        requires { 0 < length rising.items }
        ensures slack { result.slack ≡ slack }
        ensures rising { result.rising.items ≡ rising.items }
    {
        let share = rounded(&slack, rising.len() as u64);
        OpenSide {
            slack,
            rising,
            share,
        }
    }

    /// Becomes such a side, and gives away the list of users that it had.
    pub(crate) fn renew(&mut self, slack: Natural, rising: Vec<usize>) -> Vec<usize>
        requires { 0 < length rising.items }
        ensures slack { self.new.slack ≡ slack }
        ensures rising { self.new.rising.items ≡ rising.items }
    {
        self.share = rounded(&slack, rising.len() as u64);
        self.slack = slack;
        mem::replace(&mut self.rising, rising)
    }

    /// Counts the users that froze since. Answers whether some rise; else nothing more needs to be reckoned.
    pub(crate) fn count_frozen(&mut self, levels: &[Natural], level_of: &[Option<usize>]) -> bool
        requires users { All (λ flow. flow < length level_of.now) self.old.rising.items }
        requires inside { AreInside levels.now level_of.now }
        requires no_more { HaveNoMore (frozen_at levels.now level_of.now) self.old.slack self.old.rising.items }
        ensures counted { HaveBeenCounted (length level_of.now) (frozen_at levels.now level_of.now)
            self.old.slack self.old.rising.items self.new.slack self.new.rising.items }
        ensures rise { result ≡ true → AllRise (frozen_at levels.now level_of.now) self.new.rising.items }
        ensures frozen { result ≡ false → AllFrozen (frozen_at levels.now level_of.now) self.new.rising.items }
    {
        if are_frozen(&self.rising, level_of) {
            return false;
        }
        let before = self.rising.len();
        let some = take_frozen(&mut self.slack, &mut self.rising, levels, level_of);
        if self.rising.len() < before {
            self.share = rounded(&self.slack, self.rising.len() as u64);
        }
        some
    }

    /// How the shares compare. What is kept of the divisions only saves time.
    #[inline(always)]
    pub(crate) fn compare(&self, other: &OpenSide) -> Ordering
        ensures { result ≡ fraction_cmp self.now.slack (length self.now.rising.items) other.now.slack
            (length other.now.rising.items) }
    {
        if self.share.shift == other.share.shift {
            if self.share.quotient != other.share.quotient {
                return self.share.quotient.cmp(&other.share.quotient);
            }
            if self.share.shift == 0 {
                return self.compare_rests(other);
            }
        }
        self.compare_shares(other)
    }

    /// How the shares compare where the quotients are equal, and no limb is left out.
    #[inline(always)]
    fn compare_rests(&self, other: &OpenSide) -> Ordering
        ensures { result ≡ nat_cmp (length other.now.rising.items * self.now.share.rest)
            (length self.now.rising.items * other.now.share.rest) }
    {
        let one = product(other.rising.len() as u64, self.share.rest);
        let two = product(self.rising.len() as u64, other.share.rest);
        one.cmp(&two)
    }

    /// How the shares compare, whatever the quotients are.
    #[inline(never)]
    fn compare_shares(&self, other: &OpenSide) -> Ordering
        ensures { result ≡ fraction_cmp self.now.slack (length self.now.rising.items) other.now.slack
            (length other.now.rising.items) }
    {
        let count = self.rising.len() as u64;
        let other_count = other.rising.len() as u64;
        self.slack.compare_times(other_count, &other.slack, count)
    }

    /// Makes it the same side at a scale so many times as great.
    pub(crate) fn grow(&mut self, factor: u64) -> Result<(), AllocError>
        ensures { OnOk result (IsGrown factor self.old self.new) }
    {
        self.slack.multiply(factor)?;
        self.share = rounded(&self.slack, self.rising.len() as u64);
        Ok(())
    }

    /// What each of the rising users gets. What is left of the slack then says nothing.
    pub(crate) fn take_share(&mut self, alloc: Global) -> Result<Share, AllocError>
        ensures rising { OnOk result (self.new.rising.items ≡ self.old.rising.items) }
        ensures factor { IfOk result (λ share. 0 < share.factor) }
        ensures whole { IfOk result (λ share.
            share.parts * length self.old.rising.items ≡ self.old.slack * share.factor) }
    {
        let count = self.rising.len() as u64;
        if self.share.shift == 0 {
            let quotient = Natural::from_u128(alloc, self.share.quotient);
            return share_of(alloc, quotient, self.share.rest, count);
        }
        let slack = mem::replace(&mut self.slack, Natural::from_u64(alloc, 0));
        self.share = rounded(&self.slack, count);
        whole_share(alloc, slack, count)
    }
}

/// The share of each of so many users in the slack, rounded down.
fn rounded(slack: &Natural, count: u64) -> RoundedShare
    requires { 0 < count }
    ensures quotient { result.quotient ≡ slack.now / (2 ^ (64 * result.shift) * count) }
    ensures rest { result.rest ≡ slack.now / 2 ^ (64 * result.shift) % count }
{
    let (highest, shift) = slack.highest_limbs();
    let (quotient, rest) = divided(highest, count);
    RoundedShare {
        shift,
        quotient,
        rest,
    }
}

/// `n / by`, and the remainder. A division of 64 bits is the quicker one.
#[inline(always)]
fn divided(n: u128, by: u64) -> (u128, u64)
    requires { 0 < by }
    ensures quotient { result.0 ≡ n / by }
    ensures rest { result.1 ≡ n % by }
{
    match u64::try_from(n) {
        Ok(n) => (u128::from(n / by), n % by),
        Err(_) => {
            let quotient = n / u128::from(by);
            (quotient, (n - quotient * u128::from(by)) as u64)
        }
    }
}

/// `n * by`.
#[inline(always)]
fn product(n: u64, by: u64) -> u128
    ensures { result ≡ n * by }
{
    u128::from(n) * u128::from(by)
}
