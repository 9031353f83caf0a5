//! Where those that have joined a component are guessed to stand. Only time hangs on it.

use crate::table::{End, Owners};
use std::alloc::Global;
use std::marker::Model;

/// At which place among those that have joined one is guessed to stand that has a peer at an end, by the peer's number.
/// A guess is tested before it is believed, so those of an event before may stay, and callers see nothing of them.
#[derive(Drop)]
pub(crate) struct Seen {
    sent: Vec<usize>,
    received: Vec<usize>,
}

impl Model for Seen {
    ghost Value = { Unit {0} };

    ghost view = { λ seen. tt };
}

impl Seen {
    /// No guess yet.
    pub(crate) fn new(alloc: Global) -> Seen {
        Seen {
            sent: Vec::new(alloc),
            received: Vec::new(alloc),
        }
    }

    /// The guess for the peer of that number at that end, if there is one.
    #[inline(always)]
    pub(crate) fn place(&self, end: End, number: usize) -> Option<usize> {
        match end {
            End::Origin => self.sent.get(number).copied(),
            End::Recipient => self.received.get(number).copied(),
        }
    }

    /// One with these peers has joined at that place. That is noted of its sender and of its receiver, as told.
    pub(crate) fn note(&mut self, numbers: Owners, sender: bool, receiver: bool, place: usize) {
        if sender {
            note(&mut self.sent, numbers.at(End::Origin), place);
        }
        if receiver {
            note(&mut self.received, numbers.at(End::Recipient), place);
        }
    }
}

/// The peer of that number has one at that place, if it has a number, and there is memory to note it.
#[inline(always)]
fn note(places: &mut Vec<usize>, number: Option<usize>, place: usize) {
    let Some(number) = number else {
        return;
    };
    if number >= places.len() && places.resize(number.saturating_add(1), 0).is_err() {
        return;
    }
    if let Some(noted) = places.get_mut(number) {
        *noted = place;
    }
}
