//! The messages that wait, and from when on the first of each idle pair may start.
ghost use Rattle.std.specs.Prelude.{◌≡◌, ◌↔◌, ◌&&◌, ◌++◌, ◌∷◌, ℕ, [], true, None, Some, length};
ghost use Rattle.std.specs.Prelude.{map, option_map, All, IfOk, IfErr, IfSome, OnOk, OnErr};
ghost use Rattle.std.specs.List.{list_any};
ghost use Rattle.fairness.specs.Lists.Sorted.{are_ascending};
ghost use Rattle.fairness.specs.Lists.WithoutFirst.{without_first};
ghost use Rattle.fairness.specs.Sides.Subjects.{same_peer};
ghost use Rattle.link_simulation.specs.Simulation.Messages.{with_link};
ghost use Rattle.link_simulation.specs.Rule.Planned.{queued, AreInPairOrder};
ghost use Rattle.link_pairs.specs.Pairs.Messages.{message_of};
ghost use Rattle.link_pairs.specs.Pairs.Entries.{first_of, pair_cmp};
ghost use Rattle.peer_numbers.specs.Pairs.{number_of_pair};
ghost use Rattle.link_waiting.specs.Idle.FirstMoment.{first_moment};
ghost use Rattle.link_waiting.specs.Idle.Slots.{live, is_of, has_number, AreNumbered, Marked, AreKept};
ghost use Rattle.link_waiting.specs.Idle.Waits.{none_waits, since_of, told_of, has_come, pair_of_key};

use crate::slots::{Slot, Slots};
use fairness::error::Error;
use fairness::peer::Peer;
use link_pairs::message::Message;
use link_pairs::pair::PeerPair;
use peer_numbers::PairNumbers;
use std::alloc::Global;
use std::marker::Model;
use std::sync::Arc;

/// The messages that wait, in the order of their pairs, those of a pair in order of `enqueue`; and of each pair the
/// moment from which on its first waiting message may start, if one was told.
///
/// They are changed in place, and can be taken back as a whole, with no memory, to how they stood at the last mark.
pub struct Waiting<P: Peer> {
    alloc: Global,
    // A pair keeps its number, also where none of its messages waits.
    pairs: PairNumbers<P>,
    slots: Slots<P>,
    // Whether all was given up since the mark.
    given_up: bool,
}

impl<P: Peer> Drop for Waiting<P> {
    /// Lets go of what it holds.
    #[inline(always)]
    fn drop(self) {
        let Waiting {
            alloc: _,
            pairs,
            slots,
            given_up: _,
        } = self;
        drop(pairs);
        drop(slots);
    }
}

impl<P: Peer> Model for Waiting<P> {
    ghost use Rattle.link_waiting.specs.Idle.Waits.{AllWaits, waits_of};
    ghost use Rattle.link_waiting.specs.Idle.Slots.{AreKept};

    ghost Value = { AllWaits P };

    ghost view = { λ waiting. waits_of P.cmp waiting.given_up waiting.slots };

    ghost invariant = { λ waiting. AreKept P.cmp waiting.pairs waiting.slots };
}

/// The number of the pair, if a message may wait for it. Where none waits, it is not looked up.
fn number_in<P: Peer>(
    pairs: &PairNumbers<P>,
    slots: &Slots<P>,
    origin: &P,
    recipient: &P,
) -> Option<usize>
    requires { AreKept P.cmp pairs.now slots.now }
    ensures number { IfSome result (λ pair. number_of_pair P.cmp pairs.now origin.now recipient.now ≡ Some pair) }
    ensures alike { All (λ waiter. is_of P.cmp origin.now recipient.now waiter ≡ has_number result waiter)
        (live slots.now.slots.items) }
{
    if slots.is_empty() {
        return None;
    }
    pairs.number(origin, recipient)
}

/// The message joins those that wait for its pair, as the last one. Where memory is refused, part of that is done.
fn add<P: Peer>(
    alloc: Global,
    pairs: &mut PairNumbers<P>,
    slots: &mut Slots<P>,
    message: Message<P>,
) -> Result<(), Error>
    requires { AreKept P.cmp pairs.old slots.old }
    ensures now { OnOk result ((pair : ℕ) × (live slots.new.slots.items ≡ live slots.old.slots.items
        ++ record { message = message_of message; pair = pair } ∷ [])) }
    ensures told { OnOk result (since_of P.cmp (map (told_of slots.new.sinces.items) (live slots.new.slots.items))
        ≡ since_of P.cmp (map (told_of slots.old.sinces.items) (live slots.old.slots.items))) }
    ensures before { slots.new.slots.before ≡ slots.old.slots.before }
    ensures told_before { slots.new.sinces.before ≡ slots.old.sinces.before }
    ensures kept { OnOk result (AreKept P.cmp pairs.new slots.new) }
    ensures marked { Marked slots.new }
    ensures numbered { AreNumbered P.cmp pairs.new (live slots.new.slots.before) }
{
    let pair = pairs.add(&message.origin, &message.recipient)?;
    slots.push(Arc::new(alloc, message)?, pair)?;
    Ok(())
}

impl<P: Peer> Waiting<P> {
    /// No message waits.
    pub fn new(alloc: Global) -> Self
        ensures messages { result.messages ≡ [] }
        ensures told { result.told ≡ [] }
        ensures before { result.before ≡ none_waits }
    {
        Waiting {
            alloc,
            pairs: PairNumbers::new(alloc),
            slots: Slots::new(alloc),
            given_up: false,
        }
    }

    /// How many messages wait.
    pub fn len(&self) -> usize
        ensures { result ≡ length self.now.messages }
    {
        if self.given_up {
            return 0;
        }
        self.slots.len()
    }

    /// The first message that waits for the pair, in its slot.
    fn slot_of(&self, origin: &P, recipient: &P) -> Option<&Slot<P>>
        ensures { option_map (λ slot. message_of slot.now.message.value) result
            ≡ first_of P.cmp self.now.messages origin.now recipient.now }
    {
        if self.given_up {
            return None;
        }
        self.slots
            .first(number_in(&self.pairs, &self.slots, origin, recipient)?)
    }

    /// The first message that waits for the pair.
    pub fn first(&self, origin: &P, recipient: &P) -> Option<&Message<P>>
        ensures { option_map (λ m. message_of m.now) result ≡ first_of P.cmp self.now.messages origin.now recipient.now }
    {
        Some(&self.slot_of(origin, recipient)?.message)
    }

    /// The moment from which on the first waiting message of the pair may start, if one was told.
    pub fn since(&self, origin: &P, recipient: &P) -> Option<u64>
        ensures { result ≡ since_of P.cmp self.now.told origin.now recipient.now }
    {
        if self.given_up {
            return None;
        }
        self.slots
            .since(number_in(&self.pairs, &self.slots, origin, recipient)?)
    }

    /// The first moment from which on a message may start.
    pub fn first_since(&self) -> Option<u64>
        ensures { (t : ℕ) → (has_come t result ≡ true)
            ↔ ((origin : P) × (recipient : P) × (has_come t (since_of P.cmp self.now.told origin recipient) ≡ true)) }
    {
        if self.given_up {
            return None;
        }
        self.slots.moments.least()
    }

    /// The pairs whose first waiting message may start by now, in the order of pairs, the peers cloned. They
    /// are listed in room that is given.
    pub fn ready(&self, now: u64, mut room: Vec<PeerPair<P>>) -> Result<Vec<PeerPair<P>>, Error>
        ensures ascending { IfOk result (λ keys. are_ascending (pair_cmp P.cmp) (map pair_of_key keys.items) ≡ true) }
        ensures ready { IfOk result (λ keys. (origin recipient : P)
            → list_any (λ key. same_peer P.cmp origin key.origin && same_peer P.cmp recipient key.recipient) keys.items
            ≡ has_come now (since_of P.cmp self.now.told origin recipient)) }
        ensures ordered { AreInPairOrder P.cmp self.now.messages }
        ensures refused { IfErr result (λ e. e ≡ Error.OutOfMemory) }
    {
        room.clear();
        if self.given_up {
            return Ok(room);
        }
        let mut ready = self.slots.due(now, room)?;
        ready.sort_by(|key, other| {
            key.origin
                .cmp(&other.origin)
                .then_with(|| key.recipient.cmp(&other.recipient))
        })?;
        Ok(ready)
    }

    /// The message joins those that wait for its pair, as the last one.
    ///
    /// `OutOfMemory`: memory was refused. Then all is taken back to the mark.
    pub fn push(&mut self, message: Message<P>) -> Result<(), Error>
        ensures messages { OnOk result (self.new.messages ≡ queued P.cmp (message_of message) self.old.messages) }
        ensures since { OnOk result (since_of P.cmp self.new.told ≡ since_of P.cmp self.old.told) }
        ensures taken_back { OnErr result ((self.new.messages ≡ self.old.before.messages)
            × (self.new.told ≡ self.old.before.told)) }
        ensures before { self.new.before ≡ self.old.before }
        ensures refused { IfErr result (λ e. e ≡ Error.OutOfMemory) }
    {
        if self.given_up || add(self.alloc, &mut self.pairs, &mut self.slots, message).is_err() {
            self.slots.undo();
            self.given_up = false;
            return Err(Error::OutOfMemory);
        }
        Ok(())
    }

    /// Takes the first message that waits for the pair. From when on the next one may start is not told then.
    ///
    /// `OutOfMemory`: memory was refused. Then all is taken back to the mark.
    pub fn take_first(
        &mut self,
        origin: &P,
        recipient: &P,
    ) -> Result<Option<Arc<Message<P>>>, Error>
        ensures taken { IfOk result (λ taken. option_map (λ m. message_of m.value) taken
            ≡ first_of P.cmp self.old.messages origin.now recipient.now) }
        ensures others { OnOk result (self.new.messages
            ≡ without_first (λ m. same_peer P.cmp origin.now m.origin && same_peer P.cmp recipient.now m.recipient)
            self.old.messages) }
        ensures since { OnOk result (since_of P.cmp self.new.told
            ≡ with_link P.cmp (since_of P.cmp self.old.told) origin.now recipient.now None) }
        ensures taken_back { OnErr result ((self.new.messages ≡ self.old.before.messages)
            × (self.new.told ≡ self.old.before.told)) }
        ensures before { self.new.before ≡ self.old.before }
        ensures refused { IfErr result (λ e. e ≡ Error.OutOfMemory) }
    {
        if self.given_up {
            return Ok(None);
        }
        let Some(pair) = number_in(&self.pairs, &self.slots, origin, recipient) else {
            return Ok(None);
        };
        match self.slots.take_first(pair) {
            Ok(taken) => Ok(taken),
            Err(_) => {
                self.slots.undo();
                Err(Error::OutOfMemory)
            }
        }
    }

    /// The pair is idle, and its last message arrives at that moment, if one does. So it is told from which moment on its
    /// first waiting message may start. That is answered, if one waits.
    ///
    /// `OutOfMemory`: memory was refused. Then all is taken back to the mark.
    pub fn tell_since(
        &mut self,
        origin: &P,
        recipient: &P,
        last_arrival: Option<u64>,
    ) -> Result<Option<u64>, Error>
        ensures answer { IfOk result (λ since. since ≡ option_map (λ m. first_moment last_arrival m.latency)
            (first_of P.cmp self.old.messages origin.now recipient.now)) }
        ensures messages { OnOk result (self.new.messages ≡ self.old.messages) }
        ensures since { IfOk result (λ since. since_of P.cmp self.new.told
            ≡ with_link P.cmp (since_of P.cmp self.old.told) origin.now recipient.now since) }
        ensures taken_back { OnErr result ((self.new.messages ≡ self.old.before.messages)
            × (self.new.told ≡ self.old.before.told)) }
        ensures before { self.new.before ≡ self.old.before }
        ensures refused { IfErr result (λ e. e ≡ Error.OutOfMemory) }
    {
        if self.given_up {
            return Ok(None);
        }
        let Some(pair) = number_in(&self.pairs, &self.slots, origin, recipient) else {
            return Ok(None);
        };
        match self.slots.tell_since(pair, last_arrival) {
            Ok(since) => Ok(since),
            Err(_) => {
                self.slots.undo();
                Err(Error::OutOfMemory)
            }
        }
    }

    /// No message waits any more. It can still be taken back.
    pub fn give_up(&mut self)
        ensures messages { self.new.messages ≡ [] }
        ensures told { self.new.told ≡ [] }
        ensures before { self.new.before ≡ self.old.before }
    {
        self.given_up = true;
    }

    /// A mark is set: it can be taken back to how it stands. It takes no memory.
    pub fn commit(&mut self)
        ensures messages { self.new.messages ≡ self.old.messages }
        ensures told { self.new.told ≡ self.old.told }
        ensures before_messages { self.new.before.messages ≡ self.old.messages }
        ensures before_told { self.new.before.told ≡ self.old.told }
    {
        if self.given_up {
            self.begin_anew();
        } else {
            self.slots.commit();
        }
    }

    /// A mark is set where no message waits. Its own function, since the slots that go take room on the stack.
    #[inline(never)]
    fn begin_anew(&mut self)
        ensures messages { self.new.messages ≡ [] }
        ensures told { self.new.told ≡ [] }
        ensures before { self.new.before ≡ none_waits }
    {
        self.slots = Slots::new(self.alloc);
        self.given_up = false;
    }

    /// It is taken back to how it stood at the last mark. It takes no memory.
    pub fn undo(&mut self)
        ensures messages { self.new.messages ≡ self.old.before.messages }
        ensures told { self.new.told ≡ self.old.before.told }
        ensures before { self.new.before ≡ self.old.before }
    {
        self.slots.undo();
        self.given_up = false;
    }
}
