//! A list of messages that are sent at one moment, with one account for those that only start.
ghost use Rattle.std.specs.Prelude.{◌≡◌, ◌<◌, true, false, [], map, IfOk, IfErr, OnOk, ◌&&◌};
ghost use Rattle.link_simulation.specs.Simulation.World.{goes, meets};
ghost use Rattle.link_simulation.specs.Simulation.RefusalCauses.{IsRefusedFor};
ghost use Rattle.link_simulation.specs.Rule.Planned.{Planned as AnyPlanned};
ghost use Rattle.link_simulation.specs.Rule.Events.{EnqueuesEach};
ghost use Rattle.link_pairs.specs.Pairs.Messages.{message_of, ended_of};
ghost use Rattle.link_events.specs.Steps.Outgoing.{outgoing_by};
ghost use Rattle.link_events.specs.Steps.Standing.{OnlyStarts, IsStanding, is_accounted, does_start, standing_after};
ghost use Rattle.link_events.specs.Steps.Standing.{SendsFrom, MayRefuseFrom};
ghost use Rattle.link_events.specs.Steps.Standing.{IsIdle};

use crate::ledger::Ledger;
use crate::outgoing::Outgoing;
use fairness::error::Error;
use fairness::peer::Peer;
use link_pairs::completion::Ended;
use link_pairs::contents::Payload;
use link_pairs::message::Message;

/// How what is in flight stands at the moment of the messages.
#[derive(Clone, Copy)]
pub(crate) enum Standing {
    /// No account was made at that moment.
    Open,
    /// An account was made at that moment, so nothing is due to leave.
    Accounted,
    /// So it was, and messages have started since. They get their rates at an account that is due.
    Due,
}

impl Standing {
    /// Whether an account was made.
    fn is_accounted(self) -> bool
        ensures { result ≡ is_accounted self }
    {
        match self {
            Standing::Open => false,
            Standing::Accounted | Standing::Due => true,
        }
    }

    /// How it stands once the account that was due is made, and a message was sent that starts, or
    /// waits.
    fn after(self, starts: bool) -> Standing
        ensures { result ≡ standing_after self starts }
    {
        match (self, starts) {
            (Standing::Open, false) => Standing::Open,
            _ => Standing::Accounted,
        }
    }
}

impl<P: Peer> Ledger<P> {
    ghost use Rattle.link_events.specs.Steps.AsPlanned.{planned};
    ghost use Rattle.link_events.specs.Steps.Marks.{before_of};

    /// Messages are sent one after another. Those that only start share one account.
    pub(crate) fn enqueue_all<M: Payload>(
        &mut self,
        now: u64,
        messages: Vec<Outgoing<P, M>>,
        ended: &mut Vec<Ended<P>>,
    ) -> Result<(), Error>
        requires { ended.old.items ≡ [] }
        ensures enqueues { OnOk result (EnqueuesEach P.cmp now (map (outgoing_by M.bytes) messages.items)
            (planned P.cmp self.old) (goes (map ended_of ended.new.items) (planned P.cmp self.new))) }
        ensures before { before_of self.new ≡ before_of self.old }
        ensures refused { IfErr result (IsRefusedFor (λ fault. EnqueuesEach P.cmp now
            (map (outgoing_by M.bytes) messages.items) (planned P.cmp self.old) (meets fault))) }
    {
        let mut standing = Standing::Open;
        for message in messages {
            standing = self.enqueue_next(now, message.into_message(), standing, ended)?;
        }
        self.catch_up(now, standing)
    }

    /// The next message is sent. Where it only starts, the account that it asks for is left due.
    fn enqueue_next(
        &mut self,
        now: u64,
        message: Message<P>,
        standing: Standing,
        ended: &mut Vec<Ended<P>>,
    ) -> Result<Standing, Error>
        ensures enqueues { IfOk result (λ next. SendsFrom P.cmp now (message_of message) standing
            (planned P.cmp self.old) (map ended_of ended.old.items) next (planned P.cmp self.new)
            (map ended_of ended.new.items)) }
        ensures before { before_of self.new ≡ before_of self.old }
        ensures refused { IfErr result (MayRefuseFrom P.cmp now (message_of message) standing
            (planned P.cmp self.old)) }
    {
        if self.has_to_wait(&message.origin, &message.recipient) {
            self.wait(now, message)?;
            return Ok(standing);
        }
        if standing.is_accounted() && self.only_starts(&message, now) {
            self.start(message, now)?;
            self.plan_start(now);
            return Ok(Standing::Due);
        }
        self.enqueue_caught_up(now, message, standing, ended)
    }

    /// The next message is sent once the account that is due is made, if one is. It does not have to
    /// wait.
    fn enqueue_caught_up(
        &mut self,
        now: u64,
        message: Message<P>,
        standing: Standing,
        ended: &mut Vec<Ended<P>>,
    ) -> Result<Standing, Error>
        requires { IsIdle P.cmp (planned P.cmp self.old) message.origin message.recipient }
        ensures enqueues { IfOk result (λ next. SendsFrom P.cmp now (message_of message) standing
            (planned P.cmp self.old) (map ended_of ended.old.items) next (planned P.cmp self.new)
            (map ended_of ended.new.items)) }
        ensures before { before_of self.new ≡ before_of self.old }
        ensures refused { IfErr result (MayRefuseFrom P.cmp now (message_of message) standing
            (planned P.cmp self.old)) }
    {
        self.catch_up(now, standing)?;
        let starts = self.starts_at_once(&message, now);
        self.enqueue(now, message, false, ended)?;
        Ok(standing.after(starts))
    }

    /// Whether limits hold, and a message that is sent starts at once. It does not have to wait.
    fn starts_at_once(&self, message: &Message<P>, now: u64) -> bool
        requires { IsIdle P.cmp (planned P.cmp self.now) message.now.origin message.now.recipient }
        ensures { result ≡ does_start P.cmp now (planned P.cmp self.now) (message_of message.now) }
    {
        self.limited && self.may_start(message, false, now)
    }

    /// Whether a message that is sent starts at once, and stays in flight at the account that
    /// follows: an id is left for it, it has bytes, and it uses a capped side.
    fn only_starts(&self, message: &Message<P>, now: u64) -> bool
        requires { IsIdle P.cmp (planned P.cmp self.now) message.now.origin message.now.recipient }
        ensures { result ≡ true → OnlyStarts P.cmp now (planned P.cmp self.now) (message_of message.now) }
    {
        self.would_stay(message) && self.starts_at_once(message, now)
    }

    /// Makes the account that is due, if one is. Nothing leaves at it, and pairs that are idle stay so.
    fn catch_up(&mut self, now: u64, standing: Standing) -> Result<(), Error>
        ensures caught_up { OnOk result ((w : AnyPlanned P) →
            IsStanding P.cmp now standing (planned P.cmp self.old) w → w ≡ planned P.cmp self.new) }
        ensures idle { OnOk result ((origin recipient : P) → IsIdle P.cmp (planned P.cmp self.old) origin recipient
            → IsIdle P.cmp (planned P.cmp self.new) origin recipient) }
        ensures before { before_of self.new ≡ before_of self.old }
        ensures refused { IfErr result (λ e. e ≡ Error.OutOfMemory) }
    {
        if let Standing::Due = standing {
            self.account(now)?;
        }
        Ok(())
    }
}
