//! An account at a finish, and the first of what is done with it.
ghost use Rattle.std.specs.Prelude.{◌≡◌, ◌⊎◌, [], ◌∷◌, ◌++◌, List, map, true, false, IfOk, IfErr, OnOk};
ghost use Rattle.link_simulation.specs.Simulation.Messages.{Message as AnyMessage};
ghost use Rattle.link_simulation.specs.Simulation.World.{Completed, Course, goes, meets, completion_of, completed};
ghost use Rattle.link_simulation.specs.Simulation.World.{is_late, preceded};
ghost use Rattle.link_simulation.specs.Simulation.RefusalCauses.{IsRefusedFor};
ghost use Rattle.link_simulation.specs.Rule.Planned.{Planned as AnyPlanned, next_of};
ghost use Rattle.link_simulation.specs.Rule.Events.{Accounts, Launches, Finishes, Settles, landed as landed_with};
ghost use Rattle.link_simulation.specs.Rule.Leaving.{Leaves};
ghost use Rattle.link_pairs.specs.Pairs.Messages.{message_of, messages, ended_of};
ghost use Rattle.link_pairs.specs.Pairs.CapsOf.{caps_of};
ghost use Rattle.link_waiting.specs.Idle.Index.{idle_from as idle_since};
ghost use Rattle.link_waiting.specs.Idle.AtRest.{is_sending};
ghost use Rattle.link_flights.specs.Flights.Rated.{HadFairRates};
ghost use Rattle.link_events.specs.Steps.Landing.{AccountsWithNext};
ghost use Rattle.link_events.specs.Steps.Starting.{WouldStay, StartsNext};

use crate::leave::Left;
use crate::ledger::Ledger;
use fairness::error::Error;
use fairness::peer::Peer;
use link_flights::account::is_unlimited;
use link_pairs::completion::Ended;
use link_pairs::message::Message;
use std::collections::VecDeque;
use std::sync::Arc;

/// The first message of a queue completes, if there is one, and more messages join the end of the
/// queue. Answers what is left of it.
fn complete_first<P: Peer>(
    mut queue: VecDeque<Arc<Message<P>>>,
    mut more: VecDeque<Arc<Message<P>>>,
    now: u64,
    deliver_at: Option<u64>,
    ended: &mut Vec<Ended<P>>,
) -> Result<VecDeque<Arc<Message<P>>>, Error>
    ensures completes { IfOk result (λ rest. (m : AnyMessage P) (ms : List (AnyMessage P))
        → messages queue.items ≡ m ∷ ms → (messages rest.items ≡ ms ++ messages more.items)
        × (map ended_of ended.new.items ≡ map ended_of ended.old.items ++ completion_of m now deliver_at ∷ [])) }
    ensures refused { IfErr result (λ e. e ≡ Error.OutOfMemory) }
{
    let Some(message) = queue.pop_front() else {
        return Ok(more);
    };
    ended.push(Ended {
        message,
        done_at: now,
        deliver_at,
    })?;
    queue.append(&mut more)?;
    Ok(queue)
}

impl<P: Peer> Ledger<P> {
    ghost use Rattle.link_events.specs.Steps.AsPlanned.{planned};
    ghost use Rattle.link_events.specs.Steps.Marks.{before_of};

    /// A message that is done lands: no later one of its pair arrives before it. Answers the moment at
    /// which it arrives, if it does, and the moment from which on the first waiting message of its pair
    /// may start, if one waits and the pair is not busy.
    pub(crate) fn land(
        &mut self,
        message: &Message<P>,
        now: u64,
        is_busy: bool,
    ) -> Result<(Option<u64>, Option<u64>), Error>
        requires { is_sending P.cmp (planned P.cmp self.old) message.now.origin message.now.recipient ≡ is_busy }
        ensures in_time { IfOk result (λ landing. is_late P.cmp now (message_of message.now) ≡ false) }
        ensures landed { OnOk result (planned P.cmp self.new
            ≡ landed_with P.cmp now (planned P.cmp self.old) (message_of message.now)) }
        ensures completion { IfOk result (λ landing. completion_of (message_of message.now) now landing.0
            ≡ completed P.cmp now (message_of message.now)) }
        ensures idle { IfOk result (λ landing. landing.1
            ≡ idle_since P.cmp (planned P.cmp self.new) message.now.origin message.now.recipient) }
        ensures flights { OnOk result (self.new.flights ≡ self.old.flights) }
        ensures stale { OnOk result (self.new.stale ≡ self.old.stale) }
        ensures before { before_of self.new ≡ before_of self.old }
        ensures refused { IfErr result (λ e. ((e ≡ Error.MomentTooLate)
            × (is_late P.cmp now (message_of message.now) ≡ true)) ⊎ (e ≡ Error.OutOfMemory)) }
    {
        let arrival = message.arrival(now)?;
        let since = self.raise(&message.origin, &message.recipient, arrival, is_busy)?;
        let deliver_at = message.is_delivered().then_some(arrival);
        Ok((deliver_at, since))
    }

    /// Whether a message that starts stays in flight at the account that follows: an id is left for it,
    /// it has bytes, and it uses a capped side.
    pub(crate) fn would_stay(&self, message: &Message<P>) -> bool
        ensures { result ≡ true → WouldStay P.cmp (planned P.cmp self.now) (message_of message.now) }
    {
        self.next_id < u64::MAX
            && !message.bytes.is_empty()
            && !is_unlimited(message, &self.peers, &self.pairs)
    }

    /// The first waiting message of the pair starts, if it may from the moment `since` on and would stay
    /// in flight at the account that follows. Answers whether it starts.
    fn start_next(
        &mut self,
        since: Option<u64>,
        origin: &P,
        recipient: &P,
        now: u64,
    ) -> Result<bool, Error>
        requires { since ≡ idle_since P.cmp (planned P.cmp self.old) origin.now recipient.now }
        ensures waits { IfOk result (λ starts. starts ≡ false → self.new ≡ self.old) }
        ensures starts { IfOk result (λ starts. starts ≡ true
            → StartsNext P.cmp now origin.now recipient.now self.old self.new) }
        ensures stale { OnOk result (self.new.stale ≡ self.old.stale) }
        ensures before { before_of self.new ≡ before_of self.old }
        ensures refused { IfErr result (λ e. e ≡ Error.OutOfMemory) }
    {
        if !self.may_launch(since, origin, recipient, now) {
            return Ok(false);
        }
        match self.waiting.first(origin, recipient) {
            Some(next) if self.would_stay(next) => {}
            _ => return Ok(false),
        }
        self.depart(origin, recipient, now)?;
        Ok(true)
    }

    /// The next message of the pair starts, if it may from the moment `since` on and would stay in
    /// flight, and those in flight get their fair rates, once some have left with the message, which has
    /// landed. Answers whether it starts.
    fn rate_starting_next(
        &mut self,
        message: &Message<P>,
        since: Option<u64>,
        done: &VecDeque<Arc<Message<P>>>,
        were_fair: bool,
        now: u64,
    ) -> Result<bool, Error>
        requires stale { self.old.stale ≡ true }
        requires moment { self.old.flights.at ≡ now }
        requires left { (old here : AnyPlanned P) × (leavers : List (AnyMessage P)) × Leaves P.cmp now old leavers here
            × (planned P.cmp self.old ≡ landed_with P.cmp now here (message_of message.now)) }
        requires idle { since ≡ idle_since P.cmp (planned P.cmp self.old) message.now.origin message.now.recipient }
        requires fair { were_fair ≡ true → ∥ HadFairRates P.cmp
            (caps_of P.cmp self.old.peers.entries self.old.pairs.entries) self.old.flights (messages done.now.items) ∥₁ }
        ensures starts { IfOk result (λ starts. starts ≡ true → AccountsWithNext P.cmp now (planned P.cmp self.old)
            (message_of message.now) (goes [] (planned P.cmp self.new))) }
        ensures waits { IfOk result (λ starts. starts ≡ false → (old : AnyPlanned P) (leavers : List (AnyMessage P))
            → Leaves P.cmp now old leavers (planned P.cmp self.old)
            → Accounts P.cmp now old leavers (planned P.cmp self.new)) }
        ensures before { before_of self.new ≡ before_of self.old }
        ensures refused { IfErr result (λ e. e ≡ Error.OutOfMemory) }
    {
        let starts = self.start_next(since, &message.origin, &message.recipient, now)?;
        self.rate(now, done, were_fair)?;
        Ok(starts)
    }

    /// Those in flight get their fair rates, once some have left with the message, which has landed, and
    /// the next of its pair starts, if it may from the moment `since` on. What is done then is answered.
    fn rate_with_next(
        &mut self,
        message: &Message<P>,
        since: Option<u64>,
        done: &VecDeque<Arc<Message<P>>>,
        were_fair: bool,
        now: u64,
    ) -> Result<VecDeque<Arc<Message<P>>>, Error>
        requires stale { self.old.stale ≡ true }
        requires moment { self.old.flights.at ≡ now }
        requires left { (old here : AnyPlanned P) × (leavers : List (AnyMessage P)) × Leaves P.cmp now old leavers here
            × (planned P.cmp self.old ≡ landed_with P.cmp now here (message_of message.now)) }
        requires idle { since ≡ idle_since P.cmp (planned P.cmp self.old) message.now.origin message.now.recipient }
        requires fair { were_fair ≡ true → ∥ HadFairRates P.cmp
            (caps_of P.cmp self.old.peers.entries self.old.pairs.entries) self.old.flights (messages done.now.items) ∥₁ }
        ensures launches { IfOk result (λ more. AccountsWithNext P.cmp now (planned P.cmp self.old)
            (message_of message.now) (goes (messages more.items) (planned P.cmp self.new))) }
        ensures before { before_of self.new ≡ before_of self.old }
        ensures refused { IfErr result (λ e. (old here : AnyPlanned P) (leavers : List (AnyMessage P))
            → Leaves P.cmp now old leavers here
            → planned P.cmp self.old ≡ landed_with P.cmp now here (message_of message.now)
            → (mid : AnyPlanned P) × Accounts P.cmp now old leavers mid
            × IsRefusedFor (λ fault. Launches P.cmp now (landed_with P.cmp now mid (message_of message.now))
            (next_of P.cmp mid (message_of message.now)) (meets fault)) e) }
    {
        let starts = self.rate_starting_next(message, since, done, were_fair, now)?;
        if starts {
            return Ok(VecDeque::new(self.alloc));
        }
        self.launch_from(since, &message.origin, &message.recipient, now)
    }

    /// An account, at which the first of those that are done completes, and the next of its pair starts,
    /// if it may. Answers those that are yet to complete.
    fn settle_first(
        &mut self,
        now: u64,
        ended: &mut Vec<Ended<P>>,
    ) -> Result<VecDeque<Arc<Message<P>>>, Error>
        ensures settles { IfOk result (λ queue. (cs : List (Completed P))
            × (map ended_of ended.new.items ≡ map ended_of ended.old.items ++ cs)
            × ((course : Course (Completed P) (AnyPlanned P))
            → Finishes P.cmp now (messages queue.items) (planned P.cmp self.new) course
            → Settles P.cmp now (planned P.cmp self.old) (preceded cs course))) }
        ensures before { before_of self.new ≡ before_of self.old }
        ensures refused { IfErr result (IsRefusedFor (λ fault. Settles P.cmp now (planned P.cmp self.old)
            (meets fault))) }
    {
        let (left, were_fair) = self.leave_landing_at(now)?;
        let Left {
            done: queue,
            deliver_at,
            since,
        } = left;
        let Some(first) = queue.front() else {
            self.rate(now, &queue, were_fair)?;
            return Ok(queue);
        };
        let more = self.rate_with_next(first, since, &queue, were_fair, now)?;
        complete_first(queue, more, now, deliver_at, ended)
    }

    /// An account, and the finishes of what left.
    pub(crate) fn settle(&mut self, now: u64, ended: &mut Vec<Ended<P>>) -> Result<(), Error>
        ensures settles { IfOk result (λ done. (cs : List (Completed P))
            × (map ended_of ended.new.items ≡ map ended_of ended.old.items ++ cs)
            × Settles P.cmp now (planned P.cmp self.old) (goes cs (planned P.cmp self.new))) }
        ensures before { before_of self.new ≡ before_of self.old }
        ensures refused { IfErr result (IsRefusedFor (λ fault. Settles P.cmp now (planned P.cmp self.old)
            (meets fault))) }
    {
        let queue = self.settle_first(now, ended)?;
        self.finish(queue, now, ended)
    }
}
