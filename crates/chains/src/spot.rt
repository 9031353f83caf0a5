//! Numbers that may be none.
ghost use Rattle.std.specs.Prelude.{◌≡◌, ◌<◌, Some, None, is_some};
ghost use Rattle.chains.specs.Places.{last_of};

use std::marker::Model;

/// The number of a row or of an owner, or none. It takes the room of a number.
#[derive(Clone, Copy)]
pub(crate) struct Spot {
    // One more than the number. Zero is none.
    end: usize,
}

impl Model for Spot {
    ghost use Rattle.std.specs.Prelude.{ℕ, Option};
    ghost use Rattle.chains.specs.Places.{last_of, behind, end_again};

    ghost Value = { Option ℕ };

    ghost view = { λ spot. last_of spot.end };

    ghost inverse = { λ number. record { end = behind number } };

    ghost inverse_ok = { λ spot h i. record { end = end_again spot.end i } };
}

impl Spot {
    /// No number.
    #[inline(always)]
    pub(crate) fn none() -> Spot
        ensures { result ≡ None }
    {
        Spot { end: 0 }
    }

    /// The last of so many numbers.
    #[inline(always)]
    pub(crate) fn last(count: usize) -> Spot
        ensures { result ≡ last_of count }
    {
        Spot { end: count }
    }

    /// That one of so many numbers.
    #[inline(always)]
    pub(crate) fn among(number: usize, count: usize) -> Spot
        requires { number < count }
        ensures { result ≡ Some number }
    {
        Spot { end: number + 1 }
    }

    /// The number, if it is one.
    #[inline(always)]
    pub(crate) fn get(self) -> Option<usize>
        ensures { result ≡ self }
    {
        self.end.checked_sub(1)
    }

    /// Whether it is a number.
    #[inline(always)]
    pub(crate) fn is_some(self) -> bool
        ensures { result ≡ is_some self }
    {
        self.end > 0
    }
}
