//! Pairs of numbers with a number each.
ghost use Rattle.std.specs.Prelude.{◌≡◌, [], length, Some, IfSome, IfOk, IfErr, OnOk, OnErr};
ghost use Rattle.peer_numbers.specs.Ends.{number_of_ends, IsWithEnds};

use fairness::error::Error;
use indexmap::IndexSet;
use std::alloc::Global;
use std::marker::Model;

/// The numbers of the peers of a pair.
#[derive(Clone, Copy, PartialEq, Eq, Hash)]
pub(crate) struct Ends {
    pub(crate) origin: usize,
    pub(crate) recipient: usize,
}

/// Ends with a number each: 0, 1, 2 and so on, in the order in which they first came. To callers they are the list of the
/// ends, where the number of each is its place.
pub(crate) struct EndNumbers {
    known: IndexSet<Ends>,
}

impl Drop for EndNumbers {
    /// Lets go of what it holds.
    #[inline(always)]
    fn drop(self) {
        let EndNumbers { known } = self;
        drop(known);
    }
}

impl Model for EndNumbers {
    ghost use Rattle.std.specs.Prelude.{List};
    ghost use Rattle.peer_numbers.specs.declared.ends.Ends.{Ends as AnyEnds};

    ghost Value = { List AnyEnds };

    ghost view = { λ numbers. numbers.known.keys };
}

impl EndNumbers {
    /// None has a number.
    pub(crate) fn new(alloc: Global) -> EndNumbers
        ensures { result ≡ [] }
    {
        EndNumbers {
            known: IndexSet::new(alloc),
        }
    }

    /// How many have a number: all numbers are below it.
    pub(crate) fn len(&self) -> usize
        ensures { result ≡ length self.now }
    {
        self.known.len()
    }

    /// The ends that have that number, if any have.
    #[inline(always)]
    pub(crate) fn at(&self, number: usize) -> Option<Ends>
        ensures { IfSome result (λ ends. number_of_ends self.now ends ≡ Some number) }
    {
        // It says, too, that no two are the same.
        let _count = self.known.len();
        match self.known.get_index(number) {
            Some(ends) => Some(*ends),
            None => None,
        }
    }

    /// The number of the ends, if they have one.
    pub(crate) fn number(&self, ends: Ends) -> Option<usize>
        ensures { result ≡ number_of_ends self.now ends }
    {
        self.known.get_index_of(&ends)
    }

    /// The number of the ends, which get the next one if they have none.
    ///
    /// `OutOfMemory`: no memory was left. Then none have got a number.
    pub(crate) fn add(&mut self, ends: Ends) -> Result<usize, Error>
        ensures number { IfOk result (λ number. number_of_ends self.new ends ≡ Some number) }
        ensures ends { OnOk result (IsWithEnds self.old ends self.new) }
        ensures refused { IfErr result (λ error. error ≡ Error.OutOfMemory) }
        ensures unchanged { OnErr result (self.new ≡ self.old) }
    {
        let Ok((number, _)) = self.known.insert_full(ends) else {
            return Err(Error::OutOfMemory);
        };
        Ok(number)
    }
}
