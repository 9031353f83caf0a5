//! A script that is followed.

use super::budget::Budget;
use fairness::error::Error;
use link_drawings::caps::Side;
use link_drawings::history::History;
use link_drawings::options::Options;
use link_drawings::track::{FullRate, Seen};
use link_scheduler::call::{Call, Reply};
use link_scheduler::transmitter::{Completion, Contents, InFlight, Outgoing, State};
use link_scripts::linkrun::command::Command;
use link_scripts::linkrun::fill::fill;
use std::alloc::Global;

/// A script that is followed up to a moment: its scheduler, and what happened.
pub(crate) struct Follower {
    alloc: Global,
    scheduler: State<u64, Contents>,
    /// Messages of one moment that are still to be sent, by one call.
    gathered: Vec<Outgoing<u64, usize>>,
    gathered_at: u64,
    /// Whether something happened since what is in flight was looked up.
    is_stale: bool,
    /// Whether time went on since then without a look.
    is_behind: bool,
    budget: Budget,
    history: History,
}

impl Drop for Follower {
    /// Lets go of what it holds.
    fn drop(self) {
        let Follower {
            alloc: _,
            scheduler,
            gathered,
            gathered_at: _,
            is_stale: _,
            is_behind: _,
            budget,
            history,
        } = self;
        drop(scheduler);
        drop(gathered);
        drop(budget);
        drop(history);
    }
}

impl Follower {
    /// Nothing has happened. Where readings are kept, what is in flight is looked up after each
    /// event, whatever time that takes.
    pub(crate) fn new(alloc: Global, keeps_readings: bool) -> Follower {
        Follower {
            alloc,
            scheduler: State::with_payload(alloc, 0),
            gathered: Vec::new(alloc),
            gathered_at: 0,
            is_stale: false,
            is_behind: false,
            budget: Budget::new(keeps_readings),
            history: History::new(alloc, keeps_readings),
        }
    }

    /// What happened.
    pub(crate) fn history(&self) -> &History {
        &self.history
    }

    /// The first and the last moment to show. At the end, nothing is to be followed any more.
    pub(crate) fn conclude(&mut self, options: &Options) -> Result<(u64, u64), Error> {
        self.send_gathered()?;
        if self.is_stale {
            self.look()?;
        }
        self.history.conclude(options)
    }

    /// Follows a command. Its only error is that memory was refused.
    pub(crate) fn follow(&mut self, command: Command) -> Result<(), Error> {
        match command {
            Command::Schedule(call) => self.make(call),
            _ => Ok(()),
        }
    }

    /// Makes a call of the scheduler. Messages of one moment are gathered.
    fn make(&mut self, call: Call<u64, usize>) -> Result<(), Error> {
        if let Call::Enqueue {
            now,
            origin,
            recipient,
            channel,
            message,
            latency,
            should_deliver,
        } = call
        {
            if now != self.gathered_at {
                self.send_gathered()?;
            }
            self.gathered_at = now;
            self.gathered.push(Outgoing {
                origin,
                recipient,
                channel,
                message,
                latency,
                should_deliver,
            })?;
            return Ok(());
        }
        self.send_gathered()?;
        match &call {
            Call::Advance { now } => self.advance(*now),
            Call::Next => Ok(()),
            other => self.change(other),
        }
    }

    /// Sends what is gathered. Where it cannot be sent as a whole, each message is sent by itself.
    fn send_gathered(&mut self) -> Result<(), Error> {
        if self.gathered.is_empty() {
            return Ok(());
        }
        let messages = std::mem::replace(&mut self.gathered, Vec::new(self.alloc));
        let now = self.gathered_at;
        let all = Call::EnqueueAll { now, messages };
        if self.try_change(&all)? {
            return Ok(());
        }
        if let Call::EnqueueAll { messages, .. } = &all {
            for one in messages {
                self.change(&enqueue_of(now, one))?;
            }
        }
        Ok(())
    }

    /// Makes a call that sets caps or sends messages, once time has gone on to its moment.
    fn change(&mut self, call: &Call<u64, usize>) -> Result<(), Error> {
        if !self.try_change(call)? {
            self.history.refuse();
        }
        Ok(())
    }

    /// The same, and answers whether it was made.
    fn try_change(&mut self, call: &Call<u64, usize>) -> Result<bool, Error> {
        self.pass(moment_of(call))?;
        self.history.ask();
        match fill(self.alloc, call)?.make(&mut self.scheduler) {
            Ok(reply) => {
                self.note(call)?;
                if let Reply::Done(completions) = reply {
                    self.finish(&completions)?;
                }
                Ok(true)
            }
            Err(Error::OutOfMemory) => Err(Error::OutOfMemory),
            Err(_) => Ok(false),
        }
    }

    /// Notes the caps that a call set, or the messages that it sent.
    fn note(&mut self, call: &Call<u64, usize>) -> Result<(), Error> {
        match call {
            Call::Limit {
                peer,
                egress,
                ingress,
                ..
            } => {
                self.history.set_cap(Side::Egress(*peer), *egress)?;
                self.history.set_cap(Side::Ingress(*peer), *ingress)
            }
            Call::LimitLink {
                origin,
                recipient,
                cap,
                ..
            } => self.history.set_cap(Side::Link(*origin, *recipient), *cap),
            Call::EnqueueAll { messages, .. } => {
                for one in messages {
                    self.history.send(
                        (one.origin, one.recipient),
                        one.channel,
                        one.message,
                        one.should_deliver,
                    )?;
                }
                Ok(())
            }
            Call::Enqueue {
                origin,
                recipient,
                channel,
                message,
                should_deliver,
                ..
            } => self
                .history
                .send((*origin, *recipient), *channel, *message, *should_deliver),
            Call::Advance { .. } | Call::Next => Ok(()),
        }
    }

    /// Lets time go on, from event to event.
    fn advance(&mut self, now: u64) -> Result<(), Error> {
        for _ in 0..u64::MAX {
            match self.scheduler.next() {
                Some(event) if event <= now => {
                    self.pass(event)?;
                    self.history.ask();
                    if !self.step(event)? {
                        return Ok(());
                    }
                }
                _ => break,
            }
        }
        self.pass(now)?;
        match self.scheduler.advance(now) {
            Ok(completions) if completions.is_empty() => Ok(()),
            answer => self.take(answer),
        }
    }

    /// Takes what an advance answered.
    fn take(&mut self, answer: Result<Vec<Completion<u64, Contents>>, Error>) -> Result<(), Error> {
        match answer {
            Ok(completions) => self.finish(&completions),
            Err(Error::OutOfMemory) => Err(Error::OutOfMemory),
            Err(_) => {
                self.history.refuse();
                Ok(())
            }
        }
    }

    /// Advances to an event. Answers whether that was made.
    fn step(&mut self, event: u64) -> Result<bool, Error> {
        match self.scheduler.advance(event) {
            Ok(completions) => {
                self.finish(&completions)?;
                Ok(true)
            }
            Err(Error::OutOfMemory) => Err(Error::OutOfMemory),
            Err(_) => {
                self.history.refuse();
                Ok(false)
            }
        }
    }

    /// Time has gone on to that moment. What was in flight up to it is looked up first, where
    /// something happened to it. Where moments go back, time stays.
    fn pass(&mut self, moment: u64) -> Result<(), Error> {
        if !self.history.is_ahead(moment) {
            return Ok(());
        }
        if self.is_stale {
            if self
                .budget
                .pay(self.history.busy(), self.history.messages())
            {
                self.look()?;
            } else {
                self.is_behind = true;
                self.history.skip_a_look();
            }
        }
        self.history.pass(moment);
        Ok(())
    }

    /// A call was made, and these messages are done now.
    fn finish(&mut self, completions: &[Completion<u64, Contents>]) -> Result<(), Error> {
        self.is_stale = true;
        self.budget.earn(self.scheduler.rated_anew());
        for completion in completions {
            let pair = (completion.origin, completion.recipient);
            self.history
                .finish(pair, completion.deliver_at, !self.is_behind)?;
        }
        Ok(())
    }

    /// Looks up what is in flight, and at which rates.
    fn look(&mut self) -> Result<(), Error> {
        let flying = self.scheduler.in_flight()?;
        for flight in &flying {
            let seen = seen_at(self.history.now(), flight);
            let pair = (flight.origin, flight.recipient);
            self.history.see(pair, seen, !self.is_behind)?;
        }
        self.is_stale = false;
        self.is_behind = false;
        Ok(())
    }
}

/// The call that sends a message.
fn enqueue_of(now: u64, one: &Outgoing<u64, usize>) -> Call<u64, usize> {
    Call::Enqueue {
        now,
        origin: one.origin,
        recipient: one.recipient,
        channel: one.channel,
        message: one.message,
        latency: one.latency,
        should_deliver: one.should_deliver,
    }
}

/// The moment of a call.
fn moment_of(call: &Call<u64, usize>) -> u64 {
    match call {
        Call::Limit { now, .. }
        | Call::LimitLink { now, .. }
        | Call::Enqueue { now, .. }
        | Call::EnqueueAll { now, .. }
        | Call::Advance { now } => *now,
        Call::Next => 0,
    }
}

/// A message in flight, as it stands at a moment.
fn seen_at(now: u64, flight: &InFlight<u64>) -> Seen {
    let full = FullRate {
        amount: flight.rate.amount,
        is_exact: flight.rate.is_exact,
    };
    Seen::new(now, flight.since, flight.left.amount, full)
}
