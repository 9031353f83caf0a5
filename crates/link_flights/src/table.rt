//! What is in flight, as a table that is changed in place and can be taken back.
ghost use Rattle.std.specs.Prelude.{◌≡◌, ℕ, ◌+◌, ◌<◌, ◌==◌, ◌&&◌, [], ◌∷◌, ◌++◌, Some, length};
ghost use Rattle.std.specs.Prelude.{slice_get, slice_set, slice_index_or, option_map, IfErr, OnOk, OnErr};
ghost use Rattle.std.specs.List.{remove, list_any};
ghost use Rattle.link_flights.specs.declared.flight.Flight.{Flight as AnyFlight};
ghost use Rattle.fairness.specs.Sides.Subjects.{same_peer};
ghost use Rattle.link_simulation.specs.Simulation.Messages.{is_delivered};
ghost use Rattle.link_pairs.specs.Pairs.Messages.{message_of};
ghost use Rattle.link_flights.specs.Flights.Flight.{has_come};
ghost use Rattle.link_flights.specs.Flights.InFlight.{IsNextPlace};
ghost use Rattle.link_flights.specs.Flights.Table.{share};
ghost use Rattle.link_flights.specs.Flights.Loose.{is_at_end};
ghost use Rattle.link_flights.specs.Flights.Rows.{items_of, AreKept};
ghost use Rattle.row_table.specs.Rows.{is_sent_by, is_received_by};

use crate::flight::Flight;
use fairness::error::Error;
use fairness::peer::Peer;
use link_pairs::message::Message;
use peer_numbers::PeerNumbers;
use row_table::RowTable;
use std::alloc::Global;
use std::marker::Model;

/// An end of a message: who sends it, or who receives it.
#[derive(Clone, Copy)]
pub(crate) enum End {
    Origin,
    Recipient,
}

/// The numbers of who sends and who receives a message, as far as they are known.
#[derive(Clone, Copy)]
pub(crate) struct Owners {
    sender: Option<usize>,
    receiver: Option<usize>,
}

impl Owners {
    /// The number of the peer at that end.
    #[inline(always)]
    pub(crate) fn at(self, end: End) -> Option<usize> {
        match end {
            End::Origin => self.sender,
            End::Recipient => self.receiver,
        }
    }
}

/// Whether a row has that sender and that receiver. Those of the sender and those of the receiver are gone through side
/// by side, to the end of the fewer.
fn has_row<T: Drop>(rows: &RowTable<T>, sender: usize, receiver: usize) -> bool
    ensures { result ≡ list_any (λ row. is_sent_by sender row && is_received_by receiver row) rows.now.now }
{
    let mut sent = rows.first_sent(sender);
    let mut received = rows.first_received(receiver);
    while let Some(at) = sent {
        if rows.at(at).receiver == receiver {
            return true;
        }
        let Some(other) = received else {
            return false;
        };
        if rows.at(other).sender == sender {
            return true;
        }
        sent = rows.next_sent(at);
        received = rows.next_received(other);
    }
    false
}

/// One more row comes, with the numbers of its message's peers, and its finish.
fn add_row<P: Peer>(
    numbers: &mut PeerNumbers<P>,
    rows: &mut RowTable<Flight<P>>,
    one: Flight<P>,
) -> Result<(), Error>
    requires { AreKept P.cmp numbers.old rows.old }
    ensures kept { AreKept P.cmp numbers.new rows.new }
    ensures items { OnOk result (items_of rows.new.now ≡ items_of rows.old.now ++ one ∷ []) }
    ensures before { rows.new.before ≡ rows.old.before }
{
    let sender = numbers.add(&one.message.origin)?;
    let receiver = numbers.add(&one.message.recipient)?;
    let finish = one.finish;
    rows.push(one, sender, receiver, finish)?;
    Ok(())
}

/// The messages in flight, in order of start. A place is the number of those before it.
///
/// A table is changed in place, and can be taken back as a whole, with no memory, to how it stood at the last mark.
/// Where a change is refused memory, all in it is given up: it is empty, refuses what comes, and can still be taken
/// back.
pub struct Table<P: Peer> {
    alloc: Global,
    numbers: PeerNumbers<P>,
    rows: RowTable<Flight<P>>,
    given_up: bool,
}

impl<P: Peer> Drop for Table<P> {
    /// Lets go of what it holds.
    fn drop(self) {
        let Table {
            alloc: _,
            numbers,
            rows,
            given_up: _,
        } = self;
        drop(numbers);
        drop(rows);
    }
}

impl<P: Peer> Model for Table<P> {
    ghost use Rattle.link_flights.specs.Flights.Table.{Line};
    ghost use Rattle.link_flights.specs.Flights.Rows.{line_of, AreKept};

    ghost Value = { Line P };

    ghost view = { λ table. line_of table.given_up table.rows };

    ghost invariant = { λ table. AreKept P.cmp table.numbers table.rows };
}

impl<P: Peer> Table<P> {
    /// Nothing is in flight.
    pub(crate) fn new(alloc: Global) -> Table<P>
        ensures items { result.items ≡ [] }
        ensures before { result.before ≡ [] }
    {
        Table {
            alloc,
            numbers: PeerNumbers::new(alloc),
            rows: RowTable::new(alloc),
            given_up: false,
        }
    }

    /// How many are in flight.
    pub(crate) fn len(&self) -> usize
        ensures { result ≡ length self.now.items }
    {
        if self.given_up {
            return 0;
        }
        self.rows.len()
    }

    /// Whether nothing is in flight.
    pub(crate) fn is_empty(&self) -> bool
        ensures { result ≡ (length self.now.items == 0) }
    {
        self.given_up || self.rows.is_empty()
    }

    /// The one at that place.
    #[inline(always)]
    pub(crate) fn at(&self, at: usize) -> &Flight<P>
        requires { at < length self.now.items }
        ensures { result.now ≡ slice_index_or self.now.items at result.now }
    {
        &self.rows.at(at).item
    }

    /// The one at that place, if there is one.
    pub(crate) fn get(&self, at: usize) -> Option<&Flight<P>>
        ensures { option_map (λ one. one.now) result ≡ slice_get self.now.items at }
    {
        if self.given_up {
            return None;
        }
        match self.rows.get(at) {
            Some(row) => Some(&row.item),
            None => None,
        }
    }

    /// The numbers of the peers of the one at that place.
    pub(crate) fn owners_at(&self, at: usize) -> Owners
        requires { at < length self.now.items }
    {
        let row = self.rows.at(at);
        Owners {
            sender: Some(row.sender),
            receiver: Some(row.receiver),
        }
    }

    /// The numbers of the peers of a message, as far as they have any.
    pub(crate) fn owners_of(&self, message: &Message<P>) -> Owners {
        Owners {
            sender: self.numbers.number(&message.origin),
            receiver: self.numbers.number(&message.recipient),
        }
    }

    /// Whether the one at that place is delivered. Its row tells, so its message is not looked at.
    #[inline(always)]
    pub(crate) fn is_delivered(&self, at: usize) -> bool
        requires { at < length self.now.items }
        ensures { (d : AnyFlight P)
            → result ≡ is_delivered P.cmp (message_of (slice_index_or self.now.items at d).message.value) }
    {
        let row = self.rows.at(at);
        row.item.should_deliver && row.sender != row.receiver
    }

    /// One more is in flight, behind all others.
    pub(crate) fn push(&mut self, one: Flight<P>) -> Result<(), Error>
        ensures items { OnOk result (self.new.items ≡ self.old.items ++ one ∷ []) }
        ensures given_up { OnErr result (self.new.items ≡ []) }
        ensures before { self.new.before ≡ self.old.before }
        ensures refused { IfErr result (λ e. e ≡ Error.OutOfMemory) }
    {
        if self.given_up || add_row(&mut self.numbers, &mut self.rows, one).is_err() {
            self.given_up = true;
            return Err(Error::OutOfMemory);
        }
        Ok(())
    }

    /// Another flight of the same message stands at that place from now on.
    #[inline(always)]
    pub(crate) fn set(&mut self, at: usize, one: Flight<P>) -> Result<(), Error>
        requires place { at < length self.old.items }
        requires message { (d : AnyFlight P)
            → one.message.value ≡ (slice_index_or self.old.items at d).message.value }
        ensures items { OnOk result (self.new.items ≡ slice_set self.old.items at one) }
        ensures given_up { OnErr result (self.new.items ≡ []) }
        ensures before { self.new.before ≡ self.old.before }
        ensures refused { IfErr result (λ e. e ≡ Error.OutOfMemory) }
    {
        let finish = one.finish;
        if self.rows.set(at, one, finish).is_err() {
            self.given_up = true;
            return Err(Error::OutOfMemory);
        }
        Ok(())
    }

    /// The one at that place is in flight no more.
    pub(crate) fn remove(&mut self, at: usize) -> Result<(), Error>
        requires { at < length self.old.items }
        ensures items { OnOk result (self.new.items ≡ remove self.old.items at) }
        ensures given_up { OnErr result (self.new.items ≡ []) }
        ensures before { self.new.before ≡ self.old.before }
        ensures refused { IfErr result (λ e. e ≡ Error.OutOfMemory) }
    {
        if self.rows.take(at).is_err() {
            self.given_up = true;
            return Err(Error::OutOfMemory);
        }
        Ok(())
    }

    /// Whether a message of the pair is in flight.
    pub(crate) fn has(&self, origin: &P, recipient: &P) -> bool
        ensures { result ≡ list_any (λ one. same_peer P.cmp origin.now one.message.value.origin
            && same_peer P.cmp recipient.now one.message.value.recipient) self.now.items }
    {
        if self.given_up {
            return false;
        }
        match (self.numbers.number(origin), self.numbers.number(recipient)) {
            (Some(sender), Some(receiver)) => has_row(&self.rows, sender, receiver),
            _ => false,
        }
    }

    /// The first place at which one has the peer at that end, if there is one.
    pub(crate) fn first_of(&self, end: End, peer: &P) -> Option<usize>
        ensures { IsNextPlace (λ one. is_at_end P.cmp end peer.now one.message.value) self.now.items 0 result }
    {
        if self.given_up {
            return None;
        }
        let number = self.numbers.number(peer)?;
        match end {
            End::Origin => self.rows.first_sent(number),
            End::Recipient => self.rows.first_received(number),
        }
    }

    /// The first place at which one shares that end with the message, if there is one.
    pub(crate) fn first_at(&self, end: End, message: &Message<P>) -> Option<usize>
        ensures { IsNextPlace (λ one. share P.cmp end message.now one.message.value) self.now.items 0 result }
    {
        if self.given_up {
            return None;
        }
        match end {
            End::Origin => self.rows.first_sent(self.numbers.number(&message.origin)?),
            End::Recipient => self
                .rows
                .first_received(self.numbers.number(&message.recipient)?),
        }
    }

    /// The first place at which one shares that end with the one at that place.
    #[inline(always)]
    pub(crate) fn first_beside(&self, end: End, at: usize) -> Option<usize>
        requires { at < length self.now.items }
        ensures { (d : AnyFlight P) → IsNextPlace
            (λ one. share P.cmp end (slice_index_or self.now.items at d).message.value one.message.value)
            self.now.items 0 result }
    {
        let row = self.rows.at(at);
        match end {
            End::Origin => self.rows.first_sent(row.sender),
            End::Recipient => self.rows.first_received(row.receiver),
        }
    }

    /// Whether more than one comes from the sender of the message.
    pub(crate) fn sends_several(&self, message: &Message<P>) -> bool {
        match self.first_at(End::Origin, message) {
            Some(at) => self.next_at(End::Origin, at).is_some(),
            None => false,
        }
    }

    /// The first place behind that one at which one shares that end with the one that stands there, if there is one.
    #[inline(always)]
    pub(crate) fn next_at(&self, end: End, at: usize) -> Option<usize>
        requires { at < length self.now.items }
        ensures { (d : AnyFlight P) → IsNextPlace
            (λ one. share P.cmp end (slice_index_or self.now.items at d).message.value one.message.value)
            self.now.items (at + 1) result }
    {
        match end {
            End::Origin => self.rows.next_sent(at),
            End::Recipient => self.rows.next_received(at),
        }
    }

    /// The first place from that one on at which one has finished by a moment, if there is one.
    pub(crate) fn next_finished(&self, from: usize, now: u64) -> Option<usize>
        ensures { IsNextPlace (λ one. has_come now one.finish) self.now.items from result }
    {
        if self.given_up {
            return None;
        }
        self.rows.next_due(from, now)
    }

    /// The first finish of all, if any finishes.
    pub(crate) fn first_finish(&self) -> Option<u64>
        ensures { (t : ℕ) → has_come t result ≡ list_any (λ one. has_come t one.finish) self.now.items }
    {
        if self.given_up {
            return None;
        }
        self.rows.least()
    }

    /// Nothing is in flight any more. It can still be taken back.
    pub(crate) fn give_up(&mut self)
        ensures items { self.new.items ≡ [] }
        ensures before { self.new.before ≡ self.old.before }
    {
        self.given_up = true;
    }

    /// A mark is set: it can be taken back to how it stands.
    pub(crate) fn commit(&mut self)
        ensures items { self.new.items ≡ self.old.items }
        ensures before { self.new.before ≡ self.old.items }
    {
        if self.given_up {
            self.begin_anew();
        } else {
            self.rows.commit();
        }
    }

    /// A mark is set where nothing is in flight. Its own function, since the table that goes takes room on the stack.
    #[inline(never)]
    fn begin_anew(&mut self)
        ensures items { self.new.items ≡ [] }
        ensures before { self.new.before ≡ [] }
    {
        self.rows = RowTable::new(self.alloc);
        self.given_up = false;
    }

    /// It is taken back to how it stood at the last mark.
    pub(crate) fn undo(&mut self)
        ensures items { self.new.items ≡ self.old.before }
        ensures before { self.new.before ≡ self.old.before }
    {
        self.rows.undo();
        self.given_up = false;
    }
}
