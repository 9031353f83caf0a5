//! Messages that are done as they start: they are never in flight.
ghost use Rattle.std.specs.Prelude.{◌≡◌, ◌<◌, ◌&&◌, ◌∷◌, [], length, true, false, Some, option_map, IfOk, IfErr, OnOk};
ghost use Rattle.fairness.specs.Lists.WithoutFirst.{without_first};
ghost use Rattle.fairness.specs.Sides.Subjects.{same_peer};
ghost use Rattle.link_simulation.specs.Simulation.Messages.{Message as AnyMessage, with_link};
ghost use Rattle.link_simulation.specs.Rule.Events.{Accounts, launched};
ghost use Rattle.link_pairs.specs.Pairs.Messages.{message_of, messages};
ghost use Rattle.link_pairs.specs.Pairs.Entries.{first_of};
ghost use Rattle.link_waiting.specs.Idle.AtRest.{is_sending};
ghost use Rattle.link_waiting.specs.Idle.FirstMoment.{first_moment};
ghost use Rattle.link_waiting.specs.Idle.Waits.{since_of};
ghost use Rattle.link_events.specs.Steps.Through.{FirstIsUnlimited, gone_through, IsPassed};

use crate::ledger::Ledger;
use crate::marks::give_up;
use fairness::error::Error;
use fairness::peer::Peer;
use link_flights::account::is_unlimited;
use link_pairs::message::Message;
use link_waiting::waiting::Waiting;
use std::collections::VecDeque;
use std::sync::Arc;

/// Takes the first message that waits for an idle pair, whose last message arrives at that moment, if one does. It is told
/// from which moment on the next one may start.
fn take_telling<P: Peer>(
    waiting: &mut Waiting<P>,
    origin: &P,
    recipient: &P,
    last_arrival: Option<u64>,
) -> Result<Option<Arc<Message<P>>>, Error>
    ensures taken { IfOk result (λ taken. option_map (λ m. message_of m.value) taken
        ≡ first_of P.cmp waiting.old.messages origin.now recipient.now) }
    ensures others { OnOk result (waiting.new.messages
        ≡ without_first (λ m. same_peer P.cmp origin.now m.origin && same_peer P.cmp recipient.now m.recipient)
        waiting.old.messages) }
    ensures since { OnOk result (since_of P.cmp waiting.new.told
        ≡ with_link P.cmp (since_of P.cmp waiting.old.told) origin.now recipient.now
        (option_map (λ m. first_moment last_arrival m.latency)
        (first_of P.cmp waiting.new.messages origin.now recipient.now))) }
    ensures before { waiting.new.before ≡ waiting.old.before }
    ensures refused { IfErr result (λ e. e ≡ Error.OutOfMemory) }
{
    let taken = waiting.take_first(origin, recipient)?;
    let _since = waiting.tell_since(origin, recipient, last_arrival)?;
    Ok(taken)
}

impl<P: Peer> Ledger<P> {
    ghost use Rattle.link_events.specs.Steps.AsPlanned.{planned};
    ghost use Rattle.link_events.specs.Steps.Marks.{before_of};

    /// Whether the first message that waits for the pair uses no capped side. So it is done as it starts.
    pub(crate) fn next_is_unlimited(&self, origin: &P, recipient: &P) -> bool
        ensures { result ≡ true → FirstIsUnlimited P.cmp (planned P.cmp self.now) origin.now recipient.now }
    {
        if self.peers.egress(origin).is_some() {
            return false;
        }
        match self.waiting.first(origin, recipient) {
            Some(next) => is_unlimited(next, &self.peers, &self.pairs),
            None => false,
        }
    }

    /// The first message that waits for the pair, which is idle, goes under the next flow id.
    fn take_through(&mut self, origin: &P, recipient: &P) -> Result<Arc<Message<P>>, Error>
        requires first { FirstIsUnlimited P.cmp (planned P.cmp self.old) origin.now recipient.now }
        requires idle { is_sending P.cmp (planned P.cmp self.old) origin.now recipient.now ≡ false }
        requires id { self.old.next_id < 18446744073709551615 }
        ensures taken { IfOk result (λ message. first_of P.cmp (planned P.cmp self.old).waiting origin.now recipient.now
            ≡ Some (message_of message.value)) }
        ensures gone { IfOk result (λ message. planned P.cmp self.new
            ≡ gone_through P.cmp (planned P.cmp self.old) (message_of message.value)) }
        ensures before { before_of self.new ≡ before_of self.old }
        ensures refused { IfErr result (λ e. e ≡ Error.OutOfMemory) }
    {
        let last = self.pairs.last_arrival(origin, recipient);
        match take_telling(&mut self.waiting, origin, recipient, last) {
            Ok(Some(message)) => {
                self.next_id += 1;
                Ok(message)
            }
            Ok(None) => unreachable!(),
            Err(error) => {
                give_up(&mut self.flights, &mut self.waiting);
                self.stale = true;
                Err(error)
            }
        }
    }

    /// A message is done at an account at `now`, where nothing is in flight.
    fn done_alone(
        &mut self,
        message: Arc<Message<P>>,
        now: u64,
    ) -> Result<VecDeque<Arc<Message<P>>>, Error>
        requires { length self.old.flights.list.items ≡ 0 }
        ensures done { IfOk result (λ done. messages done.items ≡ message_of message.value ∷ []) }
        ensures passes { OnOk result (IsPassed now (planned P.cmp self.old) (planned P.cmp self.new)) }
        ensures before { before_of self.new ≡ before_of self.old }
        ensures refused { IfErr result (λ e. e ≡ Error.OutOfMemory) }
    {
        self.stale = true;
        if let Err(error) = self.flights.drain(now) {
            give_up(&mut self.flights, &mut self.waiting);
            return Err(error);
        }
        self.finish = None;
        let mut done = self.rooms.take_queue(self.alloc);
        done.push_back(message)?;
        Ok(done)
    }

    /// The first message that waits for the pair, which is idle, starts, and is done at the account that follows, with others.
    pub(crate) fn let_through(
        &mut self,
        origin: &P,
        recipient: &P,
        now: u64,
    ) -> Result<VecDeque<Arc<Message<P>>>, Error>
        requires first { FirstIsUnlimited P.cmp (planned P.cmp self.old) origin.now recipient.now }
        requires idle { is_sending P.cmp (planned P.cmp self.old) origin.now recipient.now ≡ false }
        requires id { self.old.next_id < 18446744073709551615 }
        ensures accounts { IfOk result (λ done. (m : AnyMessage P)
            × (first_of P.cmp (planned P.cmp self.old).waiting origin.now recipient.now ≡ Some m)
            × Accounts P.cmp now (launched P.cmp now (planned P.cmp self.old) m) (messages done.items) (planned P.cmp self.new)) }
        ensures before { before_of self.new ≡ before_of self.old }
        ensures refused { IfErr result (λ e. e ≡ Error.OutOfMemory) }
    {
        let message = self.take_through(origin, recipient)?;
        if self.flights.is_empty() {
            return self.done_alone(message, now);
        }
        let (mut done, were_fair) = self.leave_at(now)?;
        done.push_back(message)?;
        self.rate(now, &done, were_fair)?;
        Ok(done)
    }
}
