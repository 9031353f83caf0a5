//! The messages in flight.
ghost use Rattle.std.specs.Prelude.{◌≡◌, ℕ, ◌<◌, ◌≤◌, [], ◌∷◌, ◌++◌, ◌||◌, ◌&&◌, ◌==◌, true, not};
ghost use Rattle.std.specs.Prelude.{length, nat_le, slice_index_or, slice_set, IfOk, IfErr, OnOk};
ghost use Rattle.std.specs.List.{list_all, list_any};
ghost use Rattle.link_flights.specs.declared.flight.Flight.{Flight as AnyFlight};
ghost use Rattle.link_flights.specs.Flights.Flight.{HaveRates};
ghost use Rattle.fairness.specs.Sides.Subjects.{same_peer};

use crate::flight::Flight;
use crate::loose::Loose;
use crate::rate::Rate;
use crate::table::Table;
use fairness::error::Error;
use fairness::peer::Peer;
use link_pairs::message::Message;
use natural::Natural;
use std::alloc::{AllocError, Global};
use std::sync::Arc;

/// Units of what is left in a byte, for each unit of a rate in a byte a second: nanoseconds in a
/// second.
const UNITS_A_BYTE: u128 = 1_000_000_000;

/// The messages in flight, in order of start.
///
/// All that is kept of them is whole, in units that they share. A rate is a number of units of
/// which `scale` are one byte a second. What is left is a number of units of which a billion times
/// `scale` are one byte, so that a rate is what drains in a nanosecond.
///
/// A message drains later: what is kept is what was left at the moment since which it has its rate.
pub struct Flights<P: Peer> {
    pub(crate) alloc: Global,
    pub(crate) list: Table<P>,
    pub(crate) scale: Natural,
    /// The moment of the last account.
    pub at: u64,
    /// The least rate of those that are done or loose since rates were given, if any of them had got one. It counts in
    /// the units that there were then.
    pub floor: Option<Natural>,
    /// Those for which a cap has changed since rates were given.
    pub(crate) loose: Loose<P>,
    /// How many were rated anew at the last account: each drained, with a rate and a finish of its
    /// own. The others went on as they were.
    pub rated_anew: usize,
    /// How many at the beginning of the list got a rate at an account. Those after them have started
    /// since the last one.
    pub(crate) settled: usize,
    /// So many accounts more are made without a search for what is touched. Only time hangs on it.
    pub(crate) unsearched: usize,
    /// At so many accounts in a row the scale has not grown. Only time hangs on it.
    pub(crate) stood: usize,

    pub ghost past: { list_all (λ one. not one.rated || nat_le one.since at) list.items ≡ true },
    pub ghost scaled: { 0 < scale },
    pub ghost counted: { rated_anew ≤ length list.items },
    pub ghost have_rates: { HaveRates settled list.items },
}

impl<P: Peer> Drop for Flights<P> {
    /// Lets go of what it holds.
    fn drop(self) {
        let Flights {
            alloc: _,
            list,
            scale,
            at: _,
            floor,
            loose,
            rated_anew: _,
            settled: _,
            unsearched: _,
            stood: _,
        } = self;
        drop(list);
        drop(scale);
        drop(floor);
        drop(loose);
    }
}

impl<P: Peer> Flights<P> {
    ghost use Rattle.fairness.specs.Numbers.Amount.{whole};
    ghost use Rattle.link_simulation.specs.Rule.Planned.{RatedFlight, rated_messages};
    ghost use Rattle.link_pairs.specs.Pairs.Messages.{message_of};
    ghost use Rattle.link_flights.specs.Flights.Flight.{AreTimed, has_come};
    ghost use Rattle.link_flights.specs.Flights.InFlight.{in_flight, in_units, Joins};
    ghost use Rattle.link_flights.specs.Flights.InFlight.{IsMarkOf, CanBeTakenBack, IsTakenBack};
    ghost use Rattle.link_flights.specs.Flights.Rated.{rated_ones};

    /// No message is in flight.
    pub fn new(alloc: Global) -> Self
        ensures list { result.list.items ≡ [] }
        ensures before { result.list.before ≡ [] }
        ensures at { result.at ≡ 0 }
    {
        Flights {
            alloc,
            list: Table::new(alloc),
            scale: Natural::from_u64(alloc, 1),
            at: 0,
            floor: None,
            loose: Loose::new(alloc),
            rated_anew: 0,
            settled: 0,
            unsearched: 0,
            stood: 0,
        }
    }

    /// How many are in flight.
    pub fn len(&self) -> usize
        ensures { result ≡ length self.now.list.items }
    {
        self.list.len()
    }

    /// Whether nothing is in flight.
    pub fn is_empty(&self) -> bool
        ensures { result ≡ (length self.now.list.items == 0) }
    {
        self.list.is_empty()
    }

    /// Whether a message of the pair is in flight.
    pub fn has(&self, origin: &P, recipient: &P) -> bool
        ensures { result ≡ list_any (λ m. same_peer P.cmp origin.now m.origin
            && same_peer P.cmp recipient.now m.recipient) (rated_messages (in_flight self.now)) }
    {
        self.list.has(origin, recipient)
    }

    /// The message is in flight under that flow id from now on. It gets its rate at the account that
    /// follows.
    pub fn push(&mut self, id: u64, message: Arc<Message<P>>, now: u64) -> Result<(), Error>
        ensures sending { OnOk result (in_flight self.new ≡ in_flight self.old
            ++ record {
              id = id;
              message = message_of message.value;
              left = whole (length message.value.bytes);
              rate = Some (whole 0);
              updated = now;
            } ∷ []) }
        ensures scale { self.new.scale ≡ self.old.scale }
        ensures floor { self.new.floor ≡ self.old.floor }
        ensures loose { self.new.loose ≡ self.old.loose }
        ensures rated { OnOk result (rated_ones (in_units self.new) ≡ rated_ones (in_units self.old)) }
        ensures timed { AreTimed self.old.list.items → AreTimed self.new.list.items }
        ensures joined { OnOk result (Joins id now message.value self.old self.new) }
        ensures before { self.new.list.before ≡ self.old.list.before }
        ensures refused { IfErr result (λ e. e ≡ Error.OutOfMemory) }
    {
        let units = message.bytes.len() as u128 * UNITS_A_BYTE;
        let left = self.scale.product(units)?;
        let should_deliver = message.should_deliver;
        let flight = Flight {
            id,
            message,
            should_deliver,
            left,
            rate: Rate::zero(self.alloc),
            since: now,
            finish: None,
            rated: false,
        };
        if let Err(error) = self.list.push(flight) {
            self.settled = 0;
            self.rated_anew = 0;
            return Err(error);
        }
        Ok(())
    }

    /// The flight stands at that place from now on, in the place of one of the same message.
    #[inline(always)]
    pub(crate) fn put(&mut self, at: usize, flight: Flight<P>) -> Result<(), Error>
        requires place { at < length self.old.list.items }
        requires past { (not flight.rated || nat_le flight.since self.old.at) ≡ true }
        requires still_rated { (d : AnyFlight P)
            → (slice_index_or self.old.list.items at d).rated ≡ true → flight.rated ≡ true }
        requires message { (d : AnyFlight P)
            → flight.message.value ≡ (slice_index_or self.old.list.items at d).message.value }
        ensures list { OnOk result (self.new.list.items ≡ slice_set self.old.list.items at flight) }
        ensures scale { self.new.scale ≡ self.old.scale }
        ensures at { self.new.at ≡ self.old.at }
        ensures floor { self.new.floor ≡ self.old.floor }
        ensures loose { self.new.loose ≡ self.old.loose }
        ensures counted { OnOk result (self.new.rated_anew ≡ self.old.rated_anew) }
        ensures before { self.new.list.before ≡ self.old.list.before }
        ensures refused { IfErr result (λ e. e ≡ Error.OutOfMemory) }
    {
        if let Err(error) = self.list.set(at, flight) {
            self.settled = 0;
            self.rated_anew = 0;
            return Err(error);
        }
        Ok(())
    }

    /// Nothing is in flight any more. It can still be taken back.
    pub fn give_up(&mut self)
        ensures list { self.new.list.items ≡ [] }
        ensures before { self.new.list.before ≡ self.old.list.before }
    {
        self.settled = 0;
        self.rated_anew = 0;
        self.list.give_up();
    }

    /// How all stands beside the list.
    pub fn mark(&self) -> Result<Mark<P>, AllocError>
        ensures { IfOk result (IsMarkOf self.now) }
    {
        let floor = match &self.floor {
            Some(floor) => Some(floor.clone()?),
            None => None,
        };
        Ok(Mark {
            scale: self.scale.clone()?,
            at: self.at,
            floor,
            loose: self.loose.share(self.alloc)?,
            rated_anew: self.rated_anew,
            settled: self.settled,
            unsearched: self.unsearched,
            stood: self.stood,
        })
    }

    /// From now on it can be taken back to how it stands. It takes no memory.
    pub fn commit(&mut self)
        ensures list { self.new.list.items ≡ self.old.list.items }
        ensures before { self.new.list.before ≡ self.old.list.items }
        ensures scale { self.new.scale ≡ self.old.scale }
        ensures at { self.new.at ≡ self.old.at }
        ensures floor { self.new.floor ≡ self.old.floor }
        ensures loose { self.new.loose ≡ self.old.loose }
        ensures counted { self.new.rated_anew ≡ self.old.rated_anew }
    {
        self.list.commit();
    }

    /// All is taken back to how it stood when it was committed, and beside the list as at that mark. It takes no
    /// memory.
    pub fn take_back(&mut self, mark: Mark<P>)
        requires { CanBeTakenBack self.old mark }
        ensures list { self.new.list.items ≡ self.old.list.before }
        ensures back { IsTakenBack self.old mark self.new }
    {
        let Mark {
            scale,
            at,
            floor,
            loose,
            rated_anew,
            settled,
            unsearched,
            stood,
        } = mark;
        self.list.undo();
        self.scale = scale;
        self.at = at;
        self.floor = floor;
        self.loose = loose;
        self.rated_anew = rated_anew;
        self.settled = settled;
        self.unsearched = unsearched;
        self.stood = stood;
    }
}

/// How what is in flight stands beside the list.
#[derive(Drop)]
pub struct Mark<P: Peer> {
    scale: Natural,
    at: u64,
    floor: Option<Natural>,
    loose: Loose<P>,
    rated_anew: usize,
    settled: usize,
    unsearched: usize,
    stood: usize,
}
