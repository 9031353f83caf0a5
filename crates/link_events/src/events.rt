//! The event rule: what calls do, at any moments.
ghost use Rattle.std.specs.Prelude.{◌≡◌, ◌↔◌, ℕ, ◌+◌, nat_lt, if◌then◌else◌, List, [], ◌∷◌, ◌++◌, map};
ghost use Rattle.std.specs.Prelude.{true, false, IfOk, IfErr, OnOk, ◌&&◌, is_some, is_none};
ghost use Rattle.link_simulation.specs.Simulation.World.{Completed, goes, meets, last_moment, later_of as latest};
ghost use Rattle.link_simulation.specs.Simulation.World.{is_late};
ghost use Rattle.link_simulation.specs.Simulation.World.{completed};
ghost use Rattle.link_simulation.specs.Simulation.Messages.{Message as AnyMessage};
ghost use Rattle.link_simulation.specs.Rule.Planned.{next_of, may_launch};
ghost use Rattle.link_simulation.specs.Rule.Events.{Launches, Finishes, Wakes, Rebalances, Enqueues, Advances};
ghost use Rattle.link_simulation.specs.Rule.Events.{landed, completed_at_once, with_queued};
ghost use Rattle.link_simulation.specs.Simulation.RefusalCauses.{IsRefusedFor};
ghost use Rattle.link_pairs.specs.Pairs.Messages.{message_of, ended_of};
ghost use Rattle.link_pairs.specs.Pairs.Entries.{first_of, arrival_of};
ghost use Rattle.link_waiting.specs.Idle.Index.{idle_from as idle_since};
ghost use Rattle.link_events.specs.Steps.Due.{IsDue, Happens};

use crate::event::Event;
use crate::ledger::Ledger;
use fairness::error::Error;
use fairness::peer::Peer;
use link_pairs::completion::Ended;
use link_pairs::known_pairs::later_of;
use link_pairs::message::Message;
use link_pairs::pair::PeerPair;
use link_waiting::moment::ready_moment;
use std::collections::VecDeque;
use std::ops::Deref;
use std::sync::Arc;

impl<P: Peer> Ledger<P> {
    ghost use Rattle.link_events.specs.Steps.AsPlanned.{planned};
    ghost use Rattle.link_events.specs.Steps.Marks.{before_of, now_of};
    ghost use Rattle.link_pairs.specs.Pairs.Messages.{messages};
    ghost use Rattle.link_waiting.specs.Idle.Starting.{may_launch_first};
    ghost use Rattle.link_events.specs.Steps.AsPlanned.{HasNothingDue};
    ghost use Rattle.link_waiting.specs.Idle.AtRest.{is_sending};

    /// Whether the first waiting message of the pair may start: the pair is idle, and the message
    /// arrives no earlier than the pair's last one. So it is from the moment `since` on.
    pub(crate) fn may_launch(&self, since: Option<u64>, origin: &P, recipient: &P, now: u64) -> bool
        requires { since ≡ idle_since P.cmp (planned P.cmp self.now) origin.now recipient.now }
        ensures { result ≡ may_launch_first P.cmp now (planned P.cmp self.now)
            (first_of P.cmp (planned P.cmp self.now).waiting origin.now recipient.now) }
    {
        match since {
            Some(moment) => moment <= now,
            None => false,
        }
    }

    /// The moment from which on the first waiting message of the pair may start, if one waits and the
    /// pair is not busy.
    fn idle_since(&self, origin: &P, recipient: &P) -> Option<u64>
        ensures { result ≡ idle_since P.cmp (planned P.cmp self.now) origin.now recipient.now }
    {
        self.waiting.since(origin, recipient)
    }

    /// The first waiting message of the pair starts if it may, and an account follows, whose
    /// leavers are answered.
    pub(crate) fn launch(
        &mut self,
        origin: &P,
        recipient: &P,
        now: u64,
    ) -> Result<VecDeque<Arc<Message<P>>>, Error>
        ensures launches { IfOk result (λ leavers. Launches P.cmp now (planned P.cmp self.old)
            (first_of P.cmp (planned P.cmp self.old).waiting origin.now recipient.now)
            (goes (messages leavers.items) (planned P.cmp self.new))) }
        ensures before { before_of self.new ≡ before_of self.old }
        ensures refused { IfErr result (IsRefusedFor (λ fault. Launches P.cmp now (planned P.cmp self.old)
            (first_of P.cmp (planned P.cmp self.old).waiting origin.now recipient.now) (meets fault))) }
    {
        let since = self.idle_since(origin, recipient);
        self.launch_from(since, origin, recipient, now)
    }

    /// As `launch`, for a pair that is idle from the moment `since` on.
    pub(crate) fn launch_from(
        &mut self,
        since: Option<u64>,
        origin: &P,
        recipient: &P,
        now: u64,
    ) -> Result<VecDeque<Arc<Message<P>>>, Error>
        requires { since ≡ idle_since P.cmp (planned P.cmp self.old) origin.now recipient.now }
        ensures launches { IfOk result (λ leavers. Launches P.cmp now (planned P.cmp self.old)
            (first_of P.cmp (planned P.cmp self.old).waiting origin.now recipient.now)
            (goes (messages leavers.items) (planned P.cmp self.new))) }
        ensures before { before_of self.new ≡ before_of self.old }
        ensures refused { IfErr result (IsRefusedFor (λ fault. Launches P.cmp now (planned P.cmp self.old)
            (first_of P.cmp (planned P.cmp self.old).waiting origin.now recipient.now) (meets fault))) }
    {
        if !self.may_launch(since, origin, recipient, now) {
            return Ok(VecDeque::new(self.alloc));
        }
        if self.next_id == u64::MAX {
            return Err(Error::FlowIdsUsedUp);
        }
        if self.next_is_unlimited(origin, recipient) {
            return self.let_through(origin, recipient, now);
        }
        self.depart(origin, recipient, now)?;
        self.account(now)
    }

    /// Whether a message that is sent may start at once: none of its pair waits or is in flight, and
    /// it arrives no earlier than the pair's last one.
    pub(crate) fn may_start(&self, message: &Message<P>, is_busy: bool, now: u64) -> bool
        requires { is_sending P.cmp (planned P.cmp self.now) message.now.origin message.now.recipient ≡ is_busy }
        ensures { result ≡ (is_none (first_of P.cmp (planned P.cmp self.now).waiting message.now.origin
            message.now.recipient) && may_launch P.cmp now (planned P.cmp self.now) (message_of message.now)) }
    {
        let (origin, recipient) = (&message.origin, &message.recipient);
        if self.waiting.first(origin, recipient).is_some() {
            return false;
        }
        if is_busy {
            return false;
        }
        ready_moment(self.pairs.last_arrival(origin, recipient), message.latency) <= now
    }

    /// A message that may start does so as it is sent, and an account follows, whose leavers are
    /// answered.
    fn start_at_once(
        &mut self,
        message: Message<P>,
        now: u64,
    ) -> Result<VecDeque<Arc<Message<P>>>, Error>
        requires { (is_none (first_of P.cmp (planned P.cmp self.old).waiting message.origin message.recipient)
            && may_launch P.cmp now (planned P.cmp self.old) (message_of message)) ≡ true }
        ensures launches { IfOk result (λ leavers. Launches P.cmp now
            (with_queued P.cmp (planned P.cmp self.old) (message_of message))
            (next_of P.cmp (with_queued P.cmp (planned P.cmp self.old) (message_of message)) (message_of message))
            (goes (messages leavers.items) (planned P.cmp self.new))) }
        ensures before { before_of self.new ≡ before_of self.old }
        ensures refused { IfErr result (IsRefusedFor (λ fault. Launches P.cmp now
            (with_queued P.cmp (planned P.cmp self.old) (message_of message))
            (next_of P.cmp (with_queued P.cmp (planned P.cmp self.old) (message_of message)) (message_of message))
            (meets fault))) }
    {
        if self.next_id < u64::MAX {
            self.start(message, now)?;
            return self.account(now);
        }
        Err(Error::FlowIdsUsedUp)
    }

    /// A message that is sent starts at once if it may, and else it waits, and the first one of its pair
    /// starts if that may. An account follows a start, whose leavers are answered.
    fn launch_sent(
        &mut self,
        now: u64,
        message: Message<P>,
        is_busy: bool,
    ) -> Result<VecDeque<Arc<Message<P>>>, Error>
        requires { is_sending P.cmp (planned P.cmp self.old) message.origin message.recipient ≡ is_busy }
        ensures launches { IfOk result (λ leavers. Launches P.cmp now
            (with_queued P.cmp (planned P.cmp self.old) (message_of message))
            (next_of P.cmp (with_queued P.cmp (planned P.cmp self.old) (message_of message)) (message_of message))
            (goes (messages leavers.items) (planned P.cmp self.new))) }
        ensures before { before_of self.new ≡ before_of self.old }
        ensures refused { IfErr result (IsRefusedFor (λ fault. Launches P.cmp now
            (with_queued P.cmp (planned P.cmp self.old) (message_of message))
            (next_of P.cmp (with_queued P.cmp (planned P.cmp self.old) (message_of message)) (message_of message))
            (meets fault))) }
    {
        if self.may_start(&message, is_busy, now) {
            return self.start_at_once(message, now);
        }
        let pair = PeerPair::new(&message.origin, &message.recipient)?;
        let since = self.queue_up(&pair, message, is_busy)?;
        self.launch_from(since, &pair.origin, &pair.recipient, now)
    }

    /// A message that is done completes, and its pair's first waiting one starts if it may. What is
    /// done then is answered.
    fn complete(
        &mut self,
        message: Arc<Message<P>>,
        now: u64,
        ended: &mut Vec<Ended<P>>,
    ) -> Result<VecDeque<Arc<Message<P>>>, Error>
        ensures in_time { IfOk result (λ more. is_late P.cmp now (message_of message.value) ≡ false) }
        ensures completion { IfOk result (λ more. map ended_of ended.new.items ≡ map ended_of ended.old.items
            ++ completed P.cmp now (message_of message.value) ∷ []) }
        ensures launches { IfOk result (λ more. Launches P.cmp now
            (landed P.cmp now (planned P.cmp self.old) (message_of message.value))
            (next_of P.cmp (planned P.cmp self.old) (message_of message.value))
            (goes (messages more.items) (planned P.cmp self.new))) }
        ensures before { before_of self.new ≡ before_of self.old }
        ensures refused { IfErr result (λ e. (ms : List (AnyMessage P)) →
            IsRefusedFor (λ fault. Finishes P.cmp now (message_of message.value ∷ ms) (planned P.cmp self.old)
            (meets fault)) e) }
    {
        let contents = message.deref();
        let is_busy = self.flights.has(&contents.origin, &contents.recipient);
        let (deliver_at, since) = self.land(contents, now, is_busy)?;
        let more = self.launch_from(since, &contents.origin, &contents.recipient, now)?;
        ended.push(Ended {
            message,
            done_at: now,
            deliver_at,
        })?;
        Ok(more)
    }

    /// A queue of messages that are done completes; what is done on the way joins its end. Then the
    /// start is planned anew.
    pub(crate) fn finish(
        &mut self,
        mut queue: VecDeque<Arc<Message<P>>>,
        now: u64,
        ended: &mut Vec<Ended<P>>,
    ) -> Result<(), Error>
        ensures finishes { IfOk result (λ done. (cs : List (Completed P))
            × (map ended_of ended.new.items ≡ map ended_of ended.old.items ++ cs)
            × Finishes P.cmp now (messages queue.items) (planned P.cmp self.old) (goes cs (planned P.cmp self.new))) }
        ensures before { before_of self.new ≡ before_of self.old }
        ensures refused { IfErr result (IsRefusedFor
            (λ fault. Finishes P.cmp now (messages queue.items) (planned P.cmp self.old) (meets fault))) }
    {
        while let Some(message) = queue.pop_front() {
            let mut more = self.complete(message, now, ended)?;
            queue.append(&mut more)?;
            self.rooms.keep_queue(more);
        }
        self.rooms.keep_queue(queue);
        self.plan_start(now);
        Ok(())
    }

    /// The pairs that are ready start, in the order of pairs, each with its finishes.
    fn wake(&mut self, now: u64, ended: &mut Vec<Ended<P>>) -> Result<(), Error>
        ensures wakes { IfOk result (λ done. (cs : List (Completed P))
            × (map ended_of ended.new.items ≡ map ended_of ended.old.items ++ cs)
            × Wakes P.cmp now (planned P.cmp self.old) (goes cs (planned P.cmp self.new))) }
        ensures before { before_of self.new ≡ before_of self.old }
        ensures refused { IfErr result (IsRefusedFor (λ fault. Wakes P.cmp now (planned P.cmp self.old)
            (meets fault))) }
    {
        if !self.is_ready(now) {
            self.plan_start(now);
            return Ok(());
        }
        let room = self.spare_ready.take(self.alloc);
        let ready = self.ready(now, room)?;
        for pair in &ready {
            let queue = self.launch(&pair.origin, &pair.recipient, now)?;
            self.finish(queue, now, ended)?;
        }
        self.spare_ready.keep(ready);
        self.plan_start(now);
        Ok(())
    }

    /// What is done under new caps completes.
    pub(crate) fn rebalance(&mut self, now: u64, ended: &mut Vec<Ended<P>>) -> Result<(), Error>
        requires limited { (planned P.cmp self.old).limited ≡ true }
        requires empty { ended.old.items ≡ [] }
        ensures rebalances { OnOk result (Rebalances P.cmp now (planned P.cmp self.old).caps
            (planned P.cmp self.old)
            (goes (map ended_of ended.new.items) (planned P.cmp self.new))) }
        ensures before { before_of self.new ≡ before_of self.old }
        ensures refused { IfErr result (IsRefusedFor
            (λ fault. Rebalances P.cmp now (planned P.cmp self.old).caps (planned P.cmp self.old) (meets fault))) }
    {
        if self.flights.is_empty() {
            self.plan_start(now);
            return Ok(());
        }
        self.settle(now, ended)
    }

    /// A message is sent. Under limits it is known whether one of its pair is in flight.
    pub(crate) fn enqueue(
        &mut self,
        now: u64,
        message: Message<P>,
        is_busy: bool,
        ended: &mut Vec<Ended<P>>,
    ) -> Result<(), Error>
        requires { (planned P.cmp self.old).limited ≡ true
            → is_sending P.cmp (planned P.cmp self.old) message.origin message.recipient ≡ is_busy }
        ensures enqueues { IfOk result (λ done. (cs : List (Completed P))
            × (map ended_of ended.new.items ≡ map ended_of ended.old.items ++ cs)
            × Enqueues P.cmp now (message_of message) (planned P.cmp self.old) (goes cs (planned P.cmp self.new))) }
        ensures before { before_of self.new ≡ before_of self.old }
        ensures refused { IfErr result (IsRefusedFor
            (λ fault. Enqueues P.cmp now (message_of message) (planned P.cmp self.old) (meets fault))) }
    {
        if !self.limited {
            return self.complete_at_once(now, message, ended);
        }
        let queue = self.launch_sent(now, message, is_busy)?;
        self.finish(queue, now, ended)
    }

    /// Whether a message of the pair has to wait: limits hold, and one of the pair is in flight.
    pub fn has_to_wait(&self, origin: &P, recipient: &P) -> bool
        ensures { result ≡ ((planned P.cmp self.now).limited
            && is_sending P.cmp (planned P.cmp self.now) origin.now recipient.now) }
    {
        self.limited && self.flights.has(origin, recipient)
    }

    /// The moment at which a message arrives that completes at once: no earlier than its pair's
    /// last one; or `now`, if it is to be dropped.
    fn arrival_at_once(&self, message: &Message<P>, now: u64) -> Result<u64, Error>
        ensures in_time { IfOk result (λ moment. (message.now.should_deliver
            && nat_lt last_moment (now + message.now.latency)) ≡ false) }
        ensures moment { IfOk result (λ moment. moment ≡ (if message.now.should_deliver
            then latest (arrival_of P.cmp self.now.pairs.entries message.now.origin message.now.recipient)
            (now + message.now.latency) else now)) }
        ensures refused { IfErr result (λ e. (e ≡ Error.MomentTooLate)
            × ((message.now.should_deliver && nat_lt last_moment (now + message.now.latency)) ≡ true)) }
    {
        if !message.should_deliver {
            return Ok(now);
        }
        let earliest = now
            .checked_add(message.latency)
            .ok_or(Error::MomentTooLate)?;
        let last = self.pairs.last_arrival(&message.origin, &message.recipient);
        Ok(later_of(last, earliest))
    }

    /// Before any limit a message completes at once, and arrives no earlier than its pair's last
    /// one.
    fn complete_at_once(
        &mut self,
        now: u64,
        message: Message<P>,
        ended: &mut Vec<Ended<P>>,
    ) -> Result<(), Error>
        ensures completes { IfOk result (λ done. (c : Completed P)
            × (map ended_of ended.new.items ≡ map ended_of ended.old.items ++ c ∷ [])
            × (completed_at_once P.cmp now (planned P.cmp self.old) (message_of message)
            ≡ goes (c ∷ []) (planned P.cmp self.new))) }
        ensures before { before_of self.new ≡ before_of self.old }
        ensures refused { IfErr result (IsRefusedFor
            (λ fault. completed_at_once P.cmp now (planned P.cmp self.old) (message_of message) ≡ meets fault)) }
    {
        let arrival = self.arrival_at_once(&message, now)?;
        let is_busy = self.flights.has(&message.origin, &message.recipient);
        self.raise(&message.origin, &message.recipient, arrival, is_busy)?;
        let deliver_at = message.should_deliver.then_some(arrival);
        let message = Arc::new(self.alloc, message)?;
        ended.push(Ended {
            message,
            done_at: now,
            deliver_at,
        })?;
        Ok(())
    }

    /// The planned finish or start that comes first, if it is due; the finish on a tie.
    fn due(&self, now: u64) -> Option<Event>
        ensures { IsDue now (planned P.cmp self.now) result }
    {
        let event = match (self.finish, self.start) {
            (Some(finish), Some(start)) => {
                if finish <= start {
                    Event::Finish(finish)
                } else {
                    Event::Start(start)
                }
            }
            (Some(finish), None) => Event::Finish(finish),
            (None, Some(start)) => Event::Start(start),
            (None, None) => return None,
        };
        if event.moment() <= now {
            Some(event)
        } else {
            None
        }
    }

    /// An event happens, and is planned no more.
    fn happen(&mut self, event: Event, ended: &mut Vec<Ended<P>>) -> Result<(), Error>
        ensures happens { IfOk result (λ done. (cs : List (Completed P))
            × (map ended_of ended.new.items ≡ map ended_of ended.old.items ++ cs)
            × Happens P.cmp event (planned P.cmp self.old) (goes cs (planned P.cmp self.new))) }
        ensures before { before_of self.new ≡ before_of self.old }
        ensures refused { IfErr result (IsRefusedFor (λ fault. Happens P.cmp event (planned P.cmp self.old)
            (meets fault))) }
    {
        match event {
            Event::Finish(moment) => {
                self.finish = None;
                self.settle(moment, ended)
            }
            Event::Start(moment) => {
                self.start = None;
                self.wake(moment, ended)
            }
        }
    }

    /// Whether no event is due up to `now`, and no waiting message may start at it.
    pub fn is_quiet(&self, now: u64) -> bool
        ensures quiet { (result ≡ true) ↔ HasNothingDue P.cmp (planned P.cmp self.now) now }
    {
        self.due(now).is_none() && !self.is_ready(now)
    }

    /// Time goes on to `now`, up to which nothing happens: the start is planned anew.
    pub fn pass(&mut self, now: u64)
        requires { HasNothingDue P.cmp (planned P.cmp self.old) now }
        ensures advances { Advances P.cmp now (planned P.cmp self.old) 0 (goes [] (planned P.cmp self.new)) }
        ensures now { now_of self.new ≡ now_of self.old }
        ensures before { before_of self.new ≡ before_of self.old }
    {
        self.plan_start(now);
    }

    /// All events up to `now` happen, and what is ready then starts. Answers the number of events.
    pub(crate) fn advance(&mut self, now: u64, ended: &mut Vec<Ended<P>>) -> Result<u128, Error>
        requires { ended.old.items ≡ [] }
        ensures advances { IfOk result (λ events. Advances P.cmp now (planned P.cmp self.old) events
            (goes (map ended_of ended.new.items) (planned P.cmp self.new))) }
        ensures before { before_of self.new ≡ before_of self.old }
        ensures refused { IfErr result (IsRefusedFor
            (λ fault. (n : ℕ) × Advances P.cmp now (planned P.cmp self.old) n (meets fault))) }
    {
        // So few are in flight, and wait, that their events can be counted.
        let _sending = self.flights.len();
        let _waiting = self.waiting.len();
        let mut events = 0u128;
        while let Some(event) = self.due(now) {
            self.happen(event, ended)?;
            events += 1;
        }
        self.wake(now, ended)?;
        Ok(events)
    }
}
