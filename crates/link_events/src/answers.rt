//! Calls on the state that is worked on, with their answers.
ghost use Rattle.std.specs.Prelude.{◌≡◌, [], map, IfOk, IfErr, OnOk};
ghost use Rattle.link_simulation.specs.Simulation.World.{goes};
ghost use Rattle.std.specs.Result.{result_map_both};
ghost use Rattle.link_simulation.specs.Simulation.Calls.{call_limit, call_limit_link, call_enqueue};
ghost use Rattle.link_simulation.specs.Rule.Events.{Obeys};
ghost use Rattle.link_simulation.specs.Rule.Refusals.{MayBeRefused};
ghost use Rattle.link_pairs.specs.Pairs.Messages.{completed_by, ended_of};
ghost use Rattle.link_events.specs.Steps.Answered.{ObeysIn, IsAnswered};
ghost use Rattle.link_events.specs.Steps.Changes.{call_at};
ghost use Rattle.link_events.specs.Steps.Outgoing.{outgoing_by};

use crate::change::Change;
use crate::ledger::Ledger;
use crate::outgoing::Outgoing;
use fairness::error::Error;
use fairness::peer::Peer;
use link_pairs::completion::{Completion, Ended, answers_of};
use link_pairs::contents::Payload;

impl<P: Peer> Ledger<P> {
    ghost use Rattle.link_events.specs.Steps.AsPlanned.{planned};
    ghost use Rattle.link_events.specs.Steps.Marks.{before_of};

    /// Makes a change at `now`, and answers what completes, with the number of events of an advance.
    pub fn answer<M: Payload>(
        &mut self,
        now: u64,
        change: Change<'_, P, M>,
    ) -> Result<(Vec<Completion<P, M>>, u128), Error>
        ensures answered { IfOk result (λ answer. IsAnswered P.cmp (planned P.cmp self.old)
            (call_at M.bytes now change.entry) answer.1 (map (completed_by M.bytes) answer.0.items) (planned P.cmp self.new)) }
        ensures before { before_of self.new ≡ before_of self.old }
        ensures refused { IfErr result (MayBeRefused P.cmp (planned P.cmp self.old) (call_at M.bytes now change.entry)) }
    {
        let mut ended = self.spare_ended.take(self.alloc);
        let events = self.obey(now, change, &mut ended)?;
        let completions = answers_of(self.alloc, &ended)?;
        self.spare_ended.keep(ended);
        Ok((completions, events))
    }

    /// Makes a change at `now`. What is done is listed, and the number of events of an advance answered.
    fn obey<M: Payload>(
        &mut self,
        now: u64,
        change: Change<'_, P, M>,
        ended: &mut Vec<Ended<P>>,
    ) -> Result<u128, Error>
        requires { ended.old.items ≡ [] }
        ensures obeys { IfOk result (λ events. ObeysIn P.cmp (planned P.cmp self.old) (call_at M.bytes now change.entry)
            events (goes (map ended_of ended.new.items) (planned P.cmp self.new))) }
        ensures before { before_of self.new ≡ before_of self.old }
        ensures refused { IfErr result (MayBeRefused P.cmp (planned P.cmp self.old) (call_at M.bytes now change.entry)) }
    {
        match change {
            Change::Limit {
                peer,
                egress,
                ingress,
            } => uncounted(self.limit(now, peer, egress, ingress, ended)),
            Change::LimitLink {
                origin,
                recipient,
                cap,
            } => uncounted(self.limit_link(now, origin, recipient, cap, ended)),
            Change::Enqueue(message) => uncounted(self.send(now, message, ended)),
            Change::EnqueueAll(messages) => uncounted(self.enqueue_all(now, messages, ended)),
            Change::Advance => self.advance(now, ended),
        }
    }

    /// Sets the caps of a peer, and what is done under them completes.
    fn limit(
        &mut self,
        now: u64,
        peer: &P,
        egress: Option<usize>,
        ingress: Option<usize>,
        ended: &mut Vec<Ended<P>>,
    ) -> Result<(), Error>
        requires { ended.old.items ≡ [] }
        ensures rebalances { OnOk result (Obeys P.cmp (planned P.cmp self.old)
            (call_limit now peer.now egress ingress) (goes (map ended_of ended.new.items) (planned P.cmp self.new))) }
        ensures before { before_of self.new ≡ before_of self.old }
        ensures refused { IfErr result (MayBeRefused P.cmp (planned P.cmp self.old)
            (call_limit now peer.now egress ingress)) }
    {
        self.limit_peer(peer, egress, ingress)?;
        self.rebalance(now, ended)
    }

    /// Sets the cap of an ordered pair, and what is done under it completes.
    fn limit_link(
        &mut self,
        now: u64,
        origin: &P,
        recipient: &P,
        cap: Option<usize>,
        ended: &mut Vec<Ended<P>>,
    ) -> Result<(), Error>
        requires { ended.old.items ≡ [] }
        ensures rebalances { OnOk result (Obeys P.cmp (planned P.cmp self.old)
            (call_limit_link now origin.now recipient.now cap)
            (goes (map ended_of ended.new.items) (planned P.cmp self.new))) }
        ensures before { before_of self.new ≡ before_of self.old }
        ensures refused { IfErr result (MayBeRefused P.cmp (planned P.cmp self.old)
            (call_limit_link now origin.now recipient.now cap)) }
    {
        self.limit_pair(origin, recipient, cap)?;
        self.rebalance(now, ended)
    }

    /// Sends a message.
    fn send<M: Payload>(
        &mut self,
        now: u64,
        message: Outgoing<P, M>,
        ended: &mut Vec<Ended<P>>,
    ) -> Result<(), Error>
        requires { ended.old.items ≡ [] }
        ensures enqueues { OnOk result (Obeys P.cmp (planned P.cmp self.old)
            (call_enqueue now (outgoing_by M.bytes message))
            (goes (map ended_of ended.new.items) (planned P.cmp self.new))) }
        ensures before { before_of self.new ≡ before_of self.old }
        ensures refused { IfErr result (MayBeRefused P.cmp (planned P.cmp self.old)
            (call_enqueue now (outgoing_by M.bytes message))) }
    {
        let is_busy = self.has_to_wait(&message.origin, &message.recipient);
        self.enqueue(now, message.into_message(), is_busy, ended)
    }
}

/// What is answered at a call that counts no events.
fn uncounted(answer: Result<(), Error>) -> Result<u128, Error>
    ensures { result ≡ result_map_both (λ done. 0) (λ e. e) answer }
{
    match answer {
        Ok(()) => Ok(0),
        Err(error) => Err(error),
    }
}
