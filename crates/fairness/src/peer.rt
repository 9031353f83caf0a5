//! Who sends and receives.
ghost use Rattle.std.specs.Prelude.{◌≡◌, IfSome};
ghost use Rattle.std.specs.Ordering.{nat_cmp};
ghost use Rattle.std.specs.declared.cmp.Ordering.TheVariants.{Equal};

use std::cmp::Ordering;

/// Who sends and receives: any type with a total order.
///
/// The order may look at a part of the value alone. Two values are one peer where `cmp` answers
/// `Equal`.
pub trait Peer: Ord + Sized + Drop {
    /// A value for the same peer, or `None` where memory was refused.
    fn clone_peer(&self) -> Option<Self>
        ensures same { IfSome result (λ copy. Self.cmp copy self.now ≡ Equal) };

    /// A number that tells the peer from most others: what is kept of it is found by it. All values of one peer give
    /// the same. Only time hangs on it: where many peers share one, more is compared.
    fn hint(&self) -> u64 {
        0
    }
}

impl Peer for u64 {
    /// The number itself, always.
    fn clone_peer(&self) -> Option<u64>
        ensures same { IfSome result (λ copy. nat_cmp copy self.now ≡ Equal) }
        ensures always { result ≡ Some self.now }
    {
        Some(*self)
    }

    /// The number itself.
    fn hint(&self) -> u64 {
        *self
    }
}

impl Peer for char {
    /// The character itself, always.
    fn clone_peer(&self) -> Option<char>
        ensures same { IfSome result (λ copy. nat_cmp copy self.now ≡ Equal) }
        ensures always { result ≡ Some self.now }
    {
        Some(*self)
    }

    /// The number of the character.
    fn hint(&self) -> u64 {
        u64::from(*self as u32)
    }
}
