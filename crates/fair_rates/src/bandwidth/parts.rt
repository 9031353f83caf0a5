//! Fair rates as whole parts.
ghost use Rattle.std.specs.Prelude.{◌≡◌, ℕ, ◌*◌, ◌<◌, ◌⊎◌, IfOk, IfErr, OnOk, All, Contains, Some, None, [], map};
ghost use Rattle.std.specs.Prelude.{◌+◌, length, replicate, sum_by};
ghost use Rattle.fairness.specs.Numbers.Amount.{parts_over};
ghost use Rattle.fairness.specs.Fairness.Exists.{product};
ghost use Rattle.fair_rates.specs.Filling.FairParts.{level_at, AreRatesAt, HasLargeLevel, AreLevelRates};
ghost use Rattle.fair_rates.specs.Filling.States.{AreInside, IsRaised, AreAtTop, rises};
ghost use Rattle.fairness.specs.Numbers.Fits.{ReducedFits};
ghost use Rattle.fairness.specs.Numbers.Ratio.{IsWorth};

use fairness::bandwidth::Rate;
use fairness::error::Error;
use fairness::lowest_terms::{from_lowest, gcd_of_narrow};
use fairness::ratio::Ratio;
use natural::Natural;
use std::alloc::{AllocError, Global};

/// The max-min fair rates of some flows, as whole numbers of parts of one unit of the caps.
#[derive(Drop)]
pub struct FairParts {
    /// How many parts are one unit of the caps.
    pub scale: Natural,
    /// The factors by which the scale was multiplied, one after the other.
    pub growth: Vec<u64>,
    /// The different finite rates, in parts.
    pub levels: Vec<Natural>,
    /// The place of each flow's rate among the levels. `None` stands for a flow that nothing limits.
    pub level_of: Vec<Option<usize>>,
}

impl FairParts {
    /// No flow.
    pub(crate) fn none(alloc: Global) -> FairParts {
        FairParts {
            scale: Natural::from_u64(alloc, 1),
            growth: Vec::new(alloc),
            levels: Vec::new(alloc),
            level_of: Vec::new(alloc),
        }
    }

    /// Begins anew with so many flows, of which none has a level, and a part is a unit of the caps.
    pub(crate) fn renew(&mut self, alloc: Global, count: usize) -> Result<(), AllocError>
        ensures scale { OnOk result (self.new.scale ≡ 1) }
        ensures growth { OnOk result (self.new.growth.items ≡ []) }
        ensures levels { OnOk result (self.new.levels.items ≡ []) }
        ensures level_of { OnOk result (self.new.level_of.items ≡ replicate count None) }
    {
        self.scale = Natural::from_u64(alloc, 1);
        self.growth.clear();
        self.levels.clear();
        self.level_of.truncate(count);
        self.level_of.fill(None);
        self.level_of.resize(count, None)
    }

    /// Multiplies the scale, and all parts with it.
    pub(crate) fn grow(&mut self, factor: u64) -> Result<(), AllocError>
        requires { 0 < factor }
        ensures scale { OnOk result (self.new.scale ≡ self.old.scale * factor) }
        ensures growth { OnOk result (product self.new.growth.items ≡ product self.old.growth.items * factor) }
        ensures factors { OnOk result (All (λ n. 0 < n) self.old.growth.items →
            All (λ n. 0 < n) self.new.growth.items) }
        ensures levels { OnOk result (self.new.levels.items ≡ map (λ level. level * factor) self.old.levels.items) }
        ensures level_of { OnOk result (self.new.level_of.items ≡ self.old.level_of.items) }
    {
        if factor == 1 {
            return Ok(());
        }
        self.scale.multiply(factor)?;
        self.growth.push(factor)?;
        multiply_each(&mut self.levels, factor)
    }

    /// Gives these users the level, which is the last one or a new one. Answers how many of them had none.
    pub(crate) fn freeze(&mut self, users: &[usize], level: Natural) -> Result<usize, AllocError>
        requires { All (λ flow. flow < length self.old.level_of.items) users.now }
        ensures raised { OnOk result (IsRaised self.old.levels.items self.new.levels.items level) }
        ensures at_top { OnOk result
            (AreAtTop users.now self.old.level_of.items self.new.level_of.items self.new.levels.items) }
        ensures scale { OnOk result (self.new.scale ≡ self.old.scale) }
        ensures growth { OnOk result (self.new.growth.items ≡ self.old.growth.items) }
        ensures fewer { IfOk result (λ fresh.
            fresh + sum_by rises self.new.level_of.items ≡ sum_by rises self.old.level_of.items) }
    {
        if self.levels.last() != Some(&level) {
            self.levels.push(level)?;
        }
        let place = self.levels.len() - 1;
        Ok(set_levels(&mut self.level_of, users, place))
    }

    /// The rate of each flow, where the caps are in bytes a second.
    ///
    /// # Errors
    ///
    /// - `OutOfMemory` where memory was refused.
    /// - `NumberTooLarge` where a level, in lowest terms, is no fraction of 128 bits.
    pub fn rates(&self, alloc: Global) -> Result<Vec<Rate>, Error>
        requires scale { self.now.scale ≡ product self.now.growth.items }
        requires factors { All (λ factor. 0 < factor) self.now.growth.items }
        requires inside { AreInside self.now.levels.items self.now.level_of.items }
        ensures rates { IfOk result (λ rates. AreRatesAt self.now rates.items) }
        ensures refused { IfErr result (λ e. (e ≡ Error.OutOfMemory)
            ⊎ ((e ≡ Error.NumberTooLarge) × HasLargeLevel self.now)) }
    {
        let fractions = self.fractions(alloc)?;
        let mut rates = Vec::with_capacity(alloc, self.level_of.len())?;
        for level in &self.level_of {
            rates.push(match level {
                Some(place) => Rate::Finite(fractions[*place]),
                None => Rate::Unlimited,
            })?;
        }
        Ok(rates)
    }

    /// The levels as fractions.
    fn fractions(&self, alloc: Global) -> Result<Vec<Ratio>, Error>
        requires scale { self.now.scale ≡ product self.now.growth.items }
        requires factors { All (λ factor. 0 < factor) self.now.growth.items }
        ensures levels { IfOk result (λ fractions. AreLevelRates self.now.scale self.now.levels.items fractions.items) }
        ensures refused { IfErr result (λ e. (e ≡ Error.OutOfMemory)
            ⊎ ((e ≡ Error.NumberTooLarge) × HasLargeLevel self.now)) }
    {
        let mut fractions = Vec::with_capacity(alloc, self.levels.len())?;
        for level in &self.levels {
            fractions.push(fraction(alloc, level, &self.growth)?)?;
        }
        Ok(fractions)
    }
}

/// Multiplies each number by the factor.
fn multiply_each(numbers: &mut [Natural], factor: u64) -> Result<(), AllocError>
    ensures { OnOk result (numbers.new ≡ map (λ n. n * factor) numbers.old) }
{
    for number in numbers.iter_mut() {
        number.multiply(factor)?;
    }
    Ok(())
}

/// Gives these users the level at that place. Answers how many of them had none.
fn set_levels(level_of: &mut [Option<usize>], users: &[usize], place: usize) -> usize
    requires { All (λ flow. flow < length level_of.old) users.now }
    ensures all { All (λ flow. level_at level_of.new flow ≡ Some place) users.now }
    ensures others { (flow : ℕ) → Contains users.now flow ⊎ (level_at level_of.new flow ≡ level_at level_of.old flow) }
    ensures fewer { result + sum_by rises level_of.new ≡ sum_by rises level_of.old }
{
    let mut fresh = 0;
    for user in users {
        fresh += level_of[*user].is_none() as usize;
        level_of[*user] = Some(place);
    }
    fresh
}

/// So many parts, of which the product of the factors is one, as a fraction.
fn fraction(alloc: Global, parts: &Natural, factors: &[u64]) -> Result<Ratio, Error>
    requires { All (λ factor. 0 < factor) factors.now }
    ensures value { IfOk result (λ rate. IsWorth rate (parts_over (product factors.now) parts.now)) }
    ensures refused { IfErr result (λ e. (e ≡ Error.OutOfMemory)
        ⊎ ((e ≡ Error.NumberTooLarge) × ¬ ReducedFits (parts_over (product factors.now) parts.now))) }
{
    let mut numerator = parts.clone()?;
    let mut denominator = Natural::from_u64(alloc, 1);
    for factor in factors {
        let shared = gcd_of_narrow(*factor, numerator.remainder(*factor));
        numerator.divide(shared);
        denominator.multiply(*factor / shared)?;
    }
    let numerator = numerator.to_u128().ok_or(Error::NumberTooLarge)?;
    let denominator = denominator.to_u128().ok_or(Error::NumberTooLarge)?;
    Ok(from_lowest(numerator, denominator))
}
