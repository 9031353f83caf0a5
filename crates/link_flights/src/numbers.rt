//! Places that are listed in order, and the number of each among them.
ghost use Rattle.std.specs.Prelude.{◌≡◌, ℕ, ◌<◌, None, Some, All, IfOk, IfErr, IfSome, Contains, length, slice_get};
ghost use Rattle.std.specs.List.{AllPairs};
ghost use Rattle.link_flights.specs.Flights.Components.{AreNumbered};

use fairness::error::Error;
use std::alloc::Global;
use std::marker::Model;

/// Places in order, of which each has its number at hand.
pub(crate) struct Numbers {
    places: Vec<usize>,
    // By place: its number, where it is listed. What stands at others says nothing.
    number_at: Vec<usize>,
}

impl Drop for Numbers {
    /// Lets go of what it holds.
    fn drop(self) {
        let Numbers { places, number_at } = self;
        drop(places);
        drop(number_at);
    }
}

impl Model for Numbers {
    ghost use Rattle.std.specs.Prelude.{List, ℕ};
    ghost use Rattle.link_flights.specs.Flights.Components.{AreNumbered};

    ghost Value = { List ℕ };

    ghost view = { λ numbers. numbers.places.items };

    ghost invariant = { λ numbers. AreNumbered numbers.places.items numbers.number_at.items };
}

/// Notes the number of each of these places.
fn note(places: &[usize], number_at: &mut [usize])
    requires order { AllPairs (λ one other. one < other) places.now }
    requires within { All (λ at. at < length number_at.old) places.now }
    ensures numbered { AreNumbered places.now number_at.new }
{
    for number in 0..places.len() {
        number_at[places[number]] = number;
    }
}

impl Numbers {
    /// The numbers of these places, of so many. They are noted in room that is given.
    pub(crate) fn of(
        places: Vec<usize>,
        mut room: Vec<usize>,
        count: usize,
    ) -> Result<Numbers, Error>
        requires order { AllPairs (λ one other. one < other) places.items }
        requires within { All (λ at. at < count) places.items }
        ensures places { IfOk result (λ numbers. numbers ≡ places.items) }
        ensures refused { IfErr result (λ e. e ≡ Error.OutOfMemory) }
    {
        if room.len() < count {
            room.resize(count, 0)?;
        }
        note(&places, &mut room);
        Ok(Numbers {
            places,
            number_at: room,
        })
    }

    /// The places.
    pub(crate) fn places(&self) -> &[usize]
        ensures { result.now ≡ self.now }
    {
        &self.places
    }

    /// The number of that place, if it is listed.
    pub(crate) fn number(&self, at: usize) -> Option<usize>
        ensures some { IfSome result (λ number. slice_get self.now number ≡ Some at) }
        ensures none { result ≡ None → Contains self.now at → ⊥ }
    {
        let number = *self.number_at.get(at)?;
        let place = *self.places.get(number)?;
        if place == at { Some(number) } else { None }
    }

    /// The places, and the room in which their numbers were noted.
    pub(crate) fn into_parts(self) -> (Vec<usize>, Vec<usize>)
        ensures { result.0.items ≡ self }
    {
        let Numbers { places, number_at } = self;
        (places, number_at)
    }
}
