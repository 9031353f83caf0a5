//! Peers that go by small numbers: what the tests of rates and of the scheduler send between.
#![tactic(auto)]

ghost use Rattle.std.proofs.Common.{rules};
ghost use Rattle.std.specs.Cmp.{partial_order_from_own_ties};
ghost use Rattle.std.specs.Cmp.Rules.{comparing};
ghost use Rattle.std.specs.Ordering.{nat_cmp, on, flip_args, as_partial_cmp};
ghost use Rattle.std.specs.Prelude.{◌≡◌, ℕ, IfSome, Some, min};

use fairness::peer::Peer;
use std::cmp::Ordering;

/// A peer that goes by a small number.
pub trait Numbered: Peer {
    ghost number_of: { Self → ℕ };

    ghost named_by: { ℕ → ℕ };

    /// A value for the peer that the number names. Values with different marks are still one peer.
    fn numbered(number: u8, mark: u64) -> Self
        ensures goes_by { number_of result ≡ named_by number };

    /// The number.
    fn number(&self) -> u8
        ensures its_number { result ≡ number_of self.now };
}

impl Numbered for u64 {
    ghost number_of = { λ peer. min peer 255 };

    ghost named_by = { λ number. number };

    fn numbered(number: u8, _mark: u64) -> u64
        ensures goes_by { min result 255 ≡ number }
        ensures itself { result ≡ number }
    {
        number as u64
    }

    fn number(&self) -> u8 {
        u8::try_from(*self).unwrap_or(u8::MAX)
    }
}

impl Numbered for char {
    ghost number_of = { λ peer. min peer 255 };

    ghost named_by = { λ number. number };

    fn numbered(number: u8, _mark: u64) -> char
        ensures goes_by { min result 255 ≡ number }
        ensures itself { result ≡ number }
    {
        char::from(number)
    }

    fn number(&self) -> u8 {
        u8::try_from(*self as u32).unwrap_or(u8::MAX)
    }
}

/// A peer that is ordered the other way round.
#[derive(Clone, Copy, Debug, PartialEq, Eq)]
pub struct Backward(u8);

impl Ord for Backward {
    ghost cmp = { flip_args (on (λ b. b.0) nat_cmp) };

    ghost total = { Prim.search (comparing, rules) };

    ghost matches_partial_cmp = { Prim.search (comparing, rules) };

    ghost matches_eq = { Prim.search (comparing, rules) };

    fn cmp(&self, other: &Backward) -> Ordering {
        other.0.cmp(&self.0)
    }
}

impl PartialOrd for Backward {
    ghost partial_cmp = { as_partial_cmp (flip_args (on (λ b. b.0) nat_cmp)) };

    ghost laws = { partial_order_from_own_ties (Prim.search (comparing, rules)) (Prim.search (comparing, rules)) };

    fn partial_cmp(&self, other: &Backward) -> Option<Ordering> {
        Some(self.cmp(other))
    }
}

impl Peer for Backward {
    /// The peer itself, always.
    fn clone_peer(&self) -> Option<Backward>
        ensures always { result ≡ Some self.now }
    {
        Some(*self)
    }
}

impl Numbered for Backward {
    ghost number_of = { λ peer. peer.0 };

    ghost named_by = { λ number. number };

    fn numbered(number: u8, _mark: u64) -> Backward {
        Backward(number)
    }

    fn number(&self) -> u8 {
        self.0
    }
}

/// A peer whose order and equality look at the number alone.
#[derive(Debug, Drop)]
#[derive_where(PartialEq, Eq, PartialOrd, Ord)]
pub struct Marked {
    number: u8,
    #[derive_where(skip(EqHashOrd))]
    mark: u64,
}

impl Peer for Marked {
    /// Under another mark.
    fn clone_peer(&self) -> Option<Marked>
        ensures same { IfSome result (λ copy. copy.number ≡ self.now.number) }
    {
        Some(Marked {
            number: self.number,
            mark: self.mark.wrapping_add(1),
        })
    }
}

impl Numbered for Marked {
    ghost number_of = { λ peer. peer.number };

    ghost named_by = { λ number. number };

    fn numbered(number: u8, mark: u64) -> Marked {
        Marked { number, mark }
    }

    fn number(&self) -> u8 {
        self.number
    }
}
