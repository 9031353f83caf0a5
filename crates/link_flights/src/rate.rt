//! How fast a message in flight drains.
ghost use Rattle.std.specs.Prelude.{◌≡◌, ◌/◌, ◌^◌, ◌*◌, IfOk, IfErr, true, not, nat_le};

use fairness::error::Error;
use natural::Natural;
use std::alloc::{AllocError, Global};
use std::marker::Model;
use std::sync::Arc;

/// A large number, with its highest limbs at hand.
#[derive(Drop)]
pub(crate) struct Large {
    number: Natural,
    // What is left of it without so many of its lowest limbs.
    highest: u128,
    shift: usize,
    ghost leads: { highest ≡ number / 2 ^ (64 * shift) },
}

/// Where the number stands.
#[derive(Drop)]
pub(crate) enum Held {
    InPlace(Natural),
    /// With all that have their rate from the same level.
    Shared(Arc<Large>),
}

/// The units that drain in a nanosecond. In contracts it is that number.
///
/// Flights that share a bottleneck have one rate. Where that is a large number, it is kept once for all of them, so
/// that a rate is given without memory, and what they have stays in a fast cache.
pub(crate) struct Rate {
    held: Held,
}

impl Drop for Rate {
    /// Lets go of what it holds.
    fn drop(self) {
        let Rate { held } = self;
        drop(held);
    }
}

impl Model for Rate {
    ghost use Rattle.std.specs.Prelude.{ℕ};
    ghost use Rattle.link_flights.specs.Flights.Rate.{number_of};

    ghost Value = { ℕ };

    ghost view = { λ rate. number_of rate.held };
}

impl Clone for Rate {
    ghost is_clone = { λ rate copy. copy ≡ rate };

    /// The same rate. A large one is shared from then on.
    #[inline(always)]
    fn clone(&self) -> Result<Rate, AllocError>
        ensures value { IfOk result (λ copy. copy ≡ self.now) }
    {
        let held = match &self.held {
            Held::InPlace(number) => Held::InPlace(number.clone()?),
            Held::Shared(number) => Held::Shared(number.clone()?),
        };
        Ok(Rate { held })
    }
}

impl Rate {
    /// Nothing drains.
    pub(crate) fn zero(alloc: Global) -> Rate
        ensures { result ≡ 0 }
    {
        Rate {
            held: Held::InPlace(Natural::from_u64(alloc, 0)),
        }
    }

    /// That number.
    #[inline(always)]
    pub(crate) fn of(alloc: Global, number: Natural) -> Result<Rate, Error>
        ensures value { IfOk result (λ rate. rate ≡ number) }
        ensures refused { IfErr result (λ e. e ≡ Error.OutOfMemory) }
    {
        let held = if number.is_small() {
            Held::InPlace(number)
        } else {
            let (highest, shift) = number.highest_limbs();
            let large = Large {
                number,
                highest,
                shift,
            };
            Held::Shared(Arc::new(alloc, large)?)
        };
        Ok(Rate { held })
    }

    /// The number.
    #[inline(always)]
    pub(crate) fn number(&self) -> &Natural
        ensures { result.now ≡ self.now }
    {
        match &self.held {
            Held::InPlace(number) => number,
            Held::Shared(large) => &large.number,
        }
    }

    /// Whether it is less than another. Large ones are compared by their highest limbs, where these tell.
    #[inline(always)]
    pub(crate) fn is_below(&self, other: &Rate) -> bool
        ensures { result ≡ not (nat_le other.now self.now) }
    {
        if let (Held::Shared(one), Held::Shared(other)) = (&self.held, &other.held) {
            if one.shift == other.shift && one.highest != other.highest {
                return one.highest < other.highest;
            }
        }
        self.number() < other.number()
    }

    /// Whether it is seen to be another. Large ones of which the highest limbs differ are not.
    #[inline(always)]
    pub(crate) fn is(&self, other: &Rate) -> bool
        ensures { result ≡ true → self.now ≡ other.now }
    {
        if let (Held::Shared(one), Held::Shared(other)) = (&self.held, &other.held) {
            if one.highest != other.highest {
                return false;
            }
        }
        self.number() == other.number()
    }
}

/// The rates of these levels, in room that is lent.
pub(crate) fn rates_of(
    alloc: Global,
    levels: &[Natural],
    mut rates: Vec<Rate>,
) -> Result<Vec<Rate>, Error>
    ensures rates { IfOk result (λ rates. rates.items ≡ levels.now) }
    ensures refused { IfErr result (λ e. e ≡ Error.OutOfMemory) }
{
    rates.clear();
    for level in levels {
        rates.push(Rate::of(alloc, level.clone()?)?)?;
    }
    Ok(rates)
}
