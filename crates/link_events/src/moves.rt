//! Changes of what is known of one pair, and of its place among the idle pairs.
ghost use Rattle.std.specs.Prelude.{◌≡◌, ◌<◌, true, false, [], Some, None, OnOk, OnErr, IfOk, IfErr};
ghost use Rattle.link_pairs.specs.declared.message.Message.{Message as AnyMessage};
ghost use Rattle.link_flights.specs.Flights.InFlight.{Joins};
ghost use Rattle.link_simulation.specs.Simulation.World.{goes};
ghost use Rattle.link_simulation.specs.Rule.Events.{Enqueues, PlansStart, with_queued, launched};
ghost use Rattle.link_pairs.specs.Pairs.Messages.{message_of};
ghost use Rattle.link_waiting.specs.Idle.PairsOfMessages.{NamesPairOf};
ghost use Rattle.link_pairs.specs.Pairs.Entries.{first_of, raised_at};
ghost use Rattle.link_waiting.specs.Idle.Departed.{HasDeparted};
ghost use Rattle.link_waiting.specs.Idle.Index.{idle_from as idle_since};

use crate::ledger::Ledger;
use crate::marks::give_up;
use fairness::error::Error;
use fairness::peer::Peer;
use link_pairs::known_pairs::later_of;
use link_pairs::message::Message;
use link_pairs::pair::PeerPair;
use std::sync::Arc;

impl<P: Peer> Ledger<P> {
    ghost use Rattle.link_events.specs.Steps.AsPlanned.{planned};
    ghost use Rattle.link_events.specs.Steps.Marks.{before_of};
    ghost use Rattle.link_waiting.specs.Idle.Starting.{may_launch_first};
    ghost use Rattle.link_waiting.specs.Idle.AtRest.{is_sending};

    /// From now on no message of the pair arrives before that moment. Answered is the moment from
    /// which on the pair's first waiting message may start, if one waits and the pair is not busy.
    pub(crate) fn raise(
        &mut self,
        origin: &P,
        recipient: &P,
        moment: u64,
        is_busy: bool,
    ) -> Result<Option<u64>, Error>
        requires { is_sending P.cmp (planned P.cmp self.old) origin.now recipient.now ≡ is_busy }
        ensures raised { OnOk result (planned P.cmp self.new
            ≡ record (planned P.cmp self.old) {
              last_arrival = raised_at P.cmp
                  (planned P.cmp self.old).last_arrival origin.now recipient.now moment;
            }) }
        ensures idle { IfOk result (λ since. since
            ≡ idle_since P.cmp (planned P.cmp self.new) origin.now recipient.now) }
        ensures flights { OnOk result (self.new.flights ≡ self.old.flights) }
        ensures stale { OnOk result (self.new.stale ≡ self.old.stale) }
        ensures before { before_of self.new ≡ before_of self.old }
        ensures refused { IfErr result (λ e. e ≡ Error.OutOfMemory) }
    {
        let last = self.pairs.raise(origin, recipient, moment)?;
        if is_busy {
            return Ok(None);
        }
        let arrival = later_of(last, moment);
        match self.waiting.tell_since(origin, recipient, Some(arrival)) {
            Ok(since) => Ok(since),
            Err(error) => {
                give_up(&mut self.flights, &mut self.waiting);
                self.stale = true;
                Err(error)
            }
        }
    }

    /// The message joins those that wait for its pair, as the last one. Answered is the moment from
    /// which on the pair's first waiting message may start, if the pair is idle.
    pub(crate) fn queue_up(
        &mut self,
        pair: &PeerPair<P>,
        message: Message<P>,
        is_busy: bool,
    ) -> Result<Option<u64>, Error>
        requires named { NamesPairOf P.cmp pair.now (message_of message) }
        requires busy { is_sending P.cmp (planned P.cmp self.old) pair.now.origin pair.now.recipient ≡ is_busy }
        ensures queued { OnOk result (planned P.cmp self.new
            ≡ with_queued P.cmp (planned P.cmp self.old) (message_of message)) }
        ensures idle { IfOk result (λ since. since
            ≡ idle_since P.cmp (planned P.cmp self.new) pair.now.origin pair.now.recipient) }
        ensures before { before_of self.new ≡ before_of self.old }
        ensures refused { IfErr result (λ e. e ≡ Error.OutOfMemory) }
    {
        let (origin, recipient) = (&pair.origin, &pair.recipient);
        if let Err(error) = self.waiting.push(message) {
            give_up(&mut self.flights, &mut self.waiting);
            self.stale = true;
            return Err(error);
        }
        if is_busy {
            return Ok(None);
        }
        let last = self.pairs.last_arrival(origin, recipient);
        match self.waiting.tell_since(origin, recipient, last) {
            Ok(since) => Ok(since),
            Err(error) => {
                give_up(&mut self.flights, &mut self.waiting);
                self.stale = true;
                Err(error)
            }
        }
    }

    /// The first message that waits for the pair is in flight from now on, under the next flow id.
    pub(crate) fn depart(&mut self, origin: &P, recipient: &P, now: u64) -> Result<(), Error>
        requires ready { may_launch_first P.cmp now (planned P.cmp self.old)
            (first_of P.cmp (planned P.cmp self.old).waiting origin.now recipient.now) ≡ true }
        requires id { self.old.next_id < 18446744073709551615 }
        ensures departed { OnOk result (HasDeparted P.cmp now (planned P.cmp self.old) origin.now recipient.now
            (planned P.cmp self.new)) }
        ensures joins { OnOk result ((message : AnyMessage P)
            × (first_of P.cmp (planned P.cmp self.old).waiting origin.now recipient.now ≡ Some (message_of message))
            × Joins self.old.next_id now message self.old.flights self.new.flights) }
        ensures stale { OnOk result (self.new.stale ≡ self.old.stale) }
        ensures before { before_of self.new ≡ before_of self.old }
        ensures refused { IfErr result (λ e. e ≡ Error.OutOfMemory) }
    {
        let message = match self.waiting.take_first(origin, recipient) {
            Ok(Some(message)) => message,
            Ok(None) => return Ok(()),
            Err(error) => {
                give_up(&mut self.flights, &mut self.waiting);
                self.stale = true;
                return Err(error);
            }
        };
        if let Err(error) = self.flights.push(self.next_id, message, now) {
            give_up(&mut self.flights, &mut self.waiting);
            self.stale = true;
            return Err(error);
        }
        self.next_id += 1;
        Ok(())
    }

    /// A message of an idle pair of which none waits is in flight from now on, under the next flow id.
    pub(crate) fn start(&mut self, message: Message<P>, now: u64) -> Result<(), Error>
        requires alone { first_of P.cmp (planned P.cmp self.old).waiting message.origin message.recipient ≡ None }
        requires idle { is_sending P.cmp (planned P.cmp self.old) message.origin message.recipient ≡ false }
        requires id { self.old.next_id < 18446744073709551615 }
        ensures started { OnOk result (planned P.cmp self.new ≡ launched P.cmp now
            (with_queued P.cmp (planned P.cmp self.old) (message_of message)) (message_of message)) }
        ensures before { before_of self.new ≡ before_of self.old }
        ensures refused { IfErr result (λ e. e ≡ Error.OutOfMemory) }
    {
        let message = Arc::new(self.alloc, message)?;
        if let Err(error) = self.flights.push(self.next_id, message, now) {
            give_up(&mut self.flights, &mut self.waiting);
            self.stale = true;
            return Err(error);
        }
        self.next_id += 1;
        Ok(())
    }

    /// A message waits behind the one of its pair that is in flight.
    pub(crate) fn wait(&mut self, now: u64, message: Message<P>) -> Result<(), Error>
        requires limited { (planned P.cmp self.old).limited ≡ true }
        requires busy { is_sending P.cmp (planned P.cmp self.old) message.origin message.recipient ≡ true }
        ensures enqueues { OnOk result (Enqueues P.cmp now (message_of message) (planned P.cmp self.old)
            (goes [] (planned P.cmp self.new))) }
        ensures waits { OnOk result (PlansStart P.cmp now
            (with_queued P.cmp (planned P.cmp self.old) (message_of message)) (planned P.cmp self.new)) }
        ensures flights { OnOk result (self.new.flights ≡ self.old.flights) }
        ensures before { before_of self.new ≡ before_of self.old }
        ensures refused { IfErr result (λ e. e ≡ Error.OutOfMemory) }
    {
        if let Err(error) = self.waiting.push(message) {
            give_up(&mut self.flights, &mut self.waiting);
            self.stale = true;
            return Err(error);
        }
        self.plan_start(now);
        Ok(())
    }
}
