//! Room for what an event needs, which is kept from one event to the next.
ghost use Rattle.std.specs.Prelude.{◌≡◌, [], length, All, IfOk, IfErr};
ghost use Rattle.link_flights.specs.Flights.Components.{AreNoted};

use crate::component::Component;
use crate::numbers::Numbers;
use crate::rate::Rate;
use fair_rates::bandwidth::{Room, Side};
use fairness::error::Error;
use link_pairs::message::Message;
use std::alloc::Global;
use std::collections::VecDeque;
use std::marker::Model;
use std::mem;
use std::sync::Arc;

/// Room for a note of each place. Between events no place is noted, so callers see nothing of it.
pub(crate) struct Notes {
    noted: Vec<bool>,
}

impl Drop for Notes {
    /// Lets go of what it holds.
    fn drop(self) {
        let Notes { noted } = self;
        drop(noted);
    }
}

/// Room for what an event needs to find rates. What it holds says nothing, so callers see nothing of it.
pub struct Rooms<P> {
    /// For notes of places.
    pub(crate) notes: Notes,
    /// For what an event touches.
    pub(crate) touched: Component<P>,
    /// For the places that are rated.
    pub(crate) places: Vec<usize>,
    /// For the number of each place.
    pub(crate) numbers: Vec<usize>,
    /// For the users of a side.
    pub(crate) users: Vec<usize>,
    /// For whether each that is rated has a side.
    pub(crate) has_side: Vec<bool>,
    /// For sides.
    pub(crate) sides: Vec<Side>,
    /// For the rates that are given.
    pub(crate) rates: Vec<Rate>,
    /// For what is done.
    queue: VecDeque<Arc<Message<P>>>,
    /// For filling.
    pub(crate) filling: Room,
}

impl<P: Drop> Drop for Rooms<P> {
    /// Lets go of what it holds.
    fn drop(self) {
        let Rooms {
            notes,
            touched,
            places,
            numbers,
            users,
            has_side,
            sides,
            rates,
            queue,
            filling,
        } = self;
        drop(notes);
        drop(touched);
        drop(places);
        drop(numbers);
        drop(users);
        drop(has_side);
        drop(sides);
        drop(rates);
        drop(queue);
        drop(filling);
    }
}

impl<P> Model for Rooms<P> {
    ghost Value = { Unit {0} };

    ghost view = { λ rooms. tt };
}

impl<P: Drop> Rooms<P> {
    /// No room yet.
    pub fn new(alloc: Global) -> Rooms<P> {
        Rooms {
            notes: Notes::new(alloc),
            touched: Component::new(alloc),
            places: Vec::new(alloc),
            numbers: Vec::new(alloc),
            users: Vec::new(alloc),
            has_side: Vec::new(alloc),
            sides: Vec::new(alloc),
            rates: Vec::new(alloc),
            queue: VecDeque::new(alloc),
            filling: Room::new(alloc),
        }
    }

    /// Room for the rates that are given. It is taken out until it is kept again.
    pub(crate) fn take_rates(&mut self, alloc: Global) -> Vec<Rate> {
        mem::replace(&mut self.rates, Vec::new(alloc))
    }

    /// Room for what is done, with nothing in it. It is taken out until it is kept again.
    pub fn take_queue(&mut self, alloc: Global) -> VecDeque<Arc<Message<P>>>
        ensures { result.items ≡ [] }
    {
        let mut queue = mem::replace(&mut self.queue, VecDeque::new(alloc));
        if !queue.is_empty() {
            queue.clear();
        }
        queue
    }

    /// The room for what is done is kept, if there is any. What stands in it is let go when it is taken out.
    pub fn keep_queue(&mut self, queue: VecDeque<Arc<Message<P>>>) {
        if queue.capacity() > 0 {
            self.queue = queue;
        }
    }

    /// The room of places and of their numbers is kept.
    pub(crate) fn keep(&mut self, numbers: Numbers) {
        let (places, room) = numbers.into_parts();
        self.places = places;
        self.numbers = room;
    }
}

impl Model for Notes {
    ghost use Rattle.std.specs.Prelude.{◌≡◌, All, false};

    ghost Value = { Unit {0} };

    ghost view = { λ notes. tt };

    ghost invariant = { λ notes. All (λ noted. noted ≡ false) notes.noted.items };
}

impl Notes {
    /// No room yet.
    pub(crate) fn new(alloc: Global) -> Notes {
        Notes {
            noted: Vec::new(alloc),
        }
    }

    /// Room for so many places, of which none is noted. It is taken out until it is given back.
    pub(crate) fn take(&mut self, alloc: Global, count: usize) -> Result<Vec<bool>, Error>
        ensures none { IfOk result (λ noted. AreNoted [] noted.items) }
        ensures each { IfOk result (λ noted. length noted.items ≡ count) }
        ensures refused { IfErr result (λ e. e ≡ Error.OutOfMemory) }
    {
        let mut noted = mem::replace(&mut self.noted, Vec::new(alloc));
        noted.resize(count, false)?;
        Ok(noted)
    }

    /// Room is given back, in which these places are noted, and no others.
    pub(crate) fn give_back(&mut self, mut noted: Vec<bool>, near: &[usize])
        requires { AreNoted near.now noted.items }
    {
        for at in near {
            noted[*at] = false;
        }
        self.noted = noted;
    }
}
