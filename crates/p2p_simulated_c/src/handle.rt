//! The handle that a C program owns.
ghost use Rattle.std.specs.Prelude.{◌≡◌, ◌↔◌, Option, None, Some, IsSome, option_map};

use super::opened::Opened;
use super::place::Place;
use super::unboxed::Unboxed;
use std::alloc::Global;
use std::marker::Send;
use std::mem;

/// A scheduler, or none: `is_open` is 1 exactly where one is there. All zeros is a handle that is
/// not open.
#[repr(C)]
#[derive(Drop)]
pub struct Scheduler {
    place: Place,
    is_open: u8,
    pub ghost known: { is_open ≡ 1 ↔ IsSome place.opened },
}

/// What may go to another thread, as it is.
fn crossing<T: Send>(value: T) -> T
    ensures { result ≡ value }
{
    value
}

impl Scheduler {
    /// A handle that is not open.
    pub fn closed(alloc: Global) -> Scheduler
        ensures { result.place.opened ≡ None }
    {
        Scheduler {
            place: Place::vacant(alloc),
            is_open: 0,
        }
    }

    /// A handle of that scheduler, which may go to another thread between two calls.
    pub fn of(opened: Box<Opened, Global>) -> Scheduler
        ensures { result.place.opened ≡ Some opened.value }
    {
        crossing(Scheduler {
            place: Place::of(Unboxed::of(opened)),
            is_open: 1,
        })
    }

    /// Takes the scheduler out of the handle, which is not open then.
    pub fn take(&mut self, alloc: Global) -> Option<Box<Opened, Global>>
        ensures taken { self.old.place.opened ≡ option_map (λ opened. opened.value) result }
        ensures closed { self.new.place.opened ≡ None }
    {
        let Scheduler { place, is_open } = mem::replace(self, Scheduler::closed(alloc));
        if is_open == 1 {
            Some(place.into_unboxed().into_box())
        } else {
            None
        }
    }
}
