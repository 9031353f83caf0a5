//! Room for a list, which is kept from one event to the next.
ghost use Rattle.std.specs.Prelude.{◌≡◌, []};

use std::alloc::Global;
use std::marker::Model;
use std::mem;

/// Room for a list. Nothing stands in it while it is kept, so callers see nothing of it.
pub(crate) struct Spare<T> {
    list: Vec<T>,
}

impl<T: Drop> Drop for Spare<T> {
    /// Lets go of what it holds.
    fn drop(self) {
        let Spare { list } = self;
        drop(list);
    }
}

impl<T> Model for Spare<T> {
    ghost use Rattle.std.specs.Prelude.{◌≡◌, []};

    ghost Value = { Unit {0} };

    ghost view = { λ spare. tt };

    ghost invariant = { λ spare. spare.list.items ≡ [] };
}

impl<T: Drop> Spare<T> {
    /// No room yet.
    pub(crate) fn new(alloc: Global) -> Spare<T> {
        Spare {
            list: Vec::new(alloc),
        }
    }

    /// The room, with nothing in it. It is taken out until it is kept again.
    pub(crate) fn take(&mut self, alloc: Global) -> Vec<T>
        ensures { result.items ≡ [] }
    {
        mem::replace(&mut self.list, Vec::new(alloc))
    }

    /// The room of a list is kept. What stands in the list is let go.
    pub(crate) fn keep(&mut self, mut list: Vec<T>) {
        if !list.is_empty() {
            list.clear();
        }
        self.list = list;
    }
}
