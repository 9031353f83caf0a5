//! Where an open scheduler lies, as a pointer of which nothing outside can tell the type.
ghost use Rattle.std.specs.Prelude.{◌≡◌, Option, Some, None, IsSome};
ghost use Rattle.p2p_simulated_c.specs.declared.opened.Opened.{Opened};
ghost use Rattle.p2p_simulated_c.specs.Place.{place_owns, place_coded};

use super::opened::Opened;
use super::unboxed::Unboxed;
use std::alloc::Global;
use std::marker::{Model, Send};

/// The place of an open scheduler, which it owns, or of none. Who lets go of it without
/// `into_unboxed` leaves the scheduler where it lies, and its memory is never freed.
#[repr(C)]
#[derive(Drop)]
pub struct Place {
    at: *mut u8,
    alloc: Global,
    pub ghost opened: { Option Opened } by { place_coded },
}

impl Model for Place {
    ghost also_owns = { λ place. place_owns place.alloc place.at place.opened };
}

impl Place {
    /// The place of none.
    pub fn vacant(alloc: Global) -> Place
        ensures { result.opened ≡ None }
    {
        Place {
            at: std::ptr::null_mut(),
            alloc,
        }
    }

    /// The place of what was unboxed.
    pub fn of(unboxed: Unboxed<Opened, Global>) -> Place
        ensures { result.opened ≡ Some unboxed.held }
    {
        let Unboxed { at, alloc } = unboxed;
        Place {
            at: at as *mut u8,
            alloc,
        }
    }

    /// What lies at the place.
    pub fn into_unboxed(self) -> Unboxed<Opened, Global>
        requires { IsSome self.opened }
        ensures { Some result.held ≡ self.opened }
    {
        let Place { at, alloc } = self;
        Unboxed {
            at: at as *mut Opened,
            alloc,
        }
    }
}

// What it owns may go to another thread, and any thread may give its memory back.
unsafe impl Send for Place {}
