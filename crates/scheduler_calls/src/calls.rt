//! A list of calls, made by itself and all of them by `replay`.
use crate::answers::{Arrival, Counts, Wanted, answer, are_counted, is_wanted};
use bytes::Bytes;
use fairness::error::Error;
use link_replay::replay::replay;
use link_scheduler::call::Call;
use link_scheduler::transmitter::{Outgoing, State};
use numbered_peers::Numbered;
use std::alloc::{AllocError, Global};
use std::mem;
use std::test::Fail;

/// A message to be sent. Its channel is its place among all that are sent, and each of its bytes is
/// that place, too.
#[derive(Clone, Copy)]
pub struct Parcel {
    pub now: u64,
    pub origin: u8,
    pub recipient: u8,
    pub length: usize,
    pub latency: u64,
    pub is_dropped: bool,
}

/// A message of so many bytes, sent at moment zero and without latency.
pub fn bytes_from(origin: u8, recipient: u8, length: usize) -> Parcel {
    Parcel {
        now: 0,
        origin,
        recipient,
        length,
        latency: 0,
        is_dropped: false,
    }
}

/// The bytes of the message at that place among all that are sent.
pub fn contents(alloc: Global, place: usize, length: usize) -> Result<Bytes, AllocError> {
    let bytes = vec![in alloc; (place % 256) as u8; length]?;
    Ok(Bytes::from_vec(bytes)?)
}

/// A list of calls on a new scheduler, and what each is to be answered: where nothing is said,
/// that nothing completes.
pub struct Calls<P> {
    pub alloc: Global,
    /// The first flow id.
    pub first: u64,
    /// Whether a list of messages is sent as one call, and not by a call for each of them.
    as_lists: bool,
    /// How many messages the list that is sent last still lacks.
    lacks: u64,
    /// How many peers were named.
    named: u64,
    pub calls: Vec<Call<P>>,
    wanted: Vec<Wanted>,
    /// What is to be counted at each call.
    counts: Vec<Counts>,
    /// What completes at each call, one call after the other.
    pub arrivals: Vec<Arrival>,
    pub sent: Vec<Parcel>,
}

impl<P: Drop> Drop for Calls<P> {
    /// Lets go of what it holds.
    #[inline(always)]
    fn drop(self) {
        let Calls {
            alloc: _,
            first: _,
            as_lists: _,
            lacks: _,
            named: _,
            calls,
            wanted,
            counts,
            arrivals,
            sent,
        } = self;
        drop(calls);
        drop(wanted);
        drop(counts);
        drop(arrivals);
        drop(sent);
    }
}

impl<P: Numbered> Calls<P> {
    /// No calls yet, for a scheduler whose flow ids begin at `first`.
    pub fn new(alloc: Global, first: u64, as_lists: bool) -> Calls<P> {
        Calls {
            alloc,
            first,
            as_lists,
            lacks: 0,
            named: 0,
            calls: Vec::new(alloc),
            wanted: Vec::new(alloc),
            counts: Vec::new(alloc),
            arrivals: Vec::new(alloc),
            sent: Vec::new(alloc),
        }
    }

    /// The peer of that number, each time with a mark of its own.
    fn peer(&mut self, number: u8) -> P {
        self.named = self.named.wrapping_add(1);
        P::numbered(number, self.named)
    }

    /// Adds a call. No list of messages may lack one.
    fn add(&mut self, call: Call<P>) -> Result<(), Fail> {
        if self.lacks > 0 {
            return Err(Fail::new("a list lacks messages"));
        }
        self.calls.push(call)?;
        let from = self.arrivals.len();
        self.wanted.push(Wanted::Done(from, from))?;
        self.counts.push(Counts::none())?;
        Ok(())
    }

    /// Sets the caps of a peer.
    pub fn limit(
        &mut self,
        now: u64,
        peer: u8,
        egress: Option<usize>,
        ingress: Option<usize>,
    ) -> Result<(), Fail> {
        let peer = self.peer(peer);
        self.add(Call::Limit {
            now,
            peer,
            egress,
            ingress,
        })
    }

    /// Sets the cap of a link.
    pub fn link(
        &mut self,
        now: u64,
        origin: u8,
        recipient: u8,
        cap: Option<usize>,
    ) -> Result<(), Fail> {
        let origin = self.peer(origin);
        let recipient = self.peer(recipient);
        self.add(Call::LimitLink {
            now,
            origin,
            recipient,
            cap,
        })
    }

    /// Sends a message, alone or as one of the list that lacks messages.
    pub fn send(&mut self, parcel: Parcel) -> Result<(), Fail> {
        let place = self.sent.len();
        let message = contents(self.alloc, place, parcel.length)?;
        self.sent.push(parcel)?;
        let message = Outgoing {
            origin: self.peer(parcel.origin),
            recipient: self.peer(parcel.recipient),
            channel: place as u64,
            message,
            latency: parcel.latency,
            should_deliver: !parcel.is_dropped,
        };
        if self.lacks > 0 {
            return self.join(parcel.now, message);
        }
        self.add(alone(parcel.now, message))
    }

    /// The message joins the list that is the last call.
    fn join(&mut self, moment: u64, message: Outgoing<P>) -> Result<(), Fail> {
        self.lacks = self.lacks.saturating_sub(1);
        let Some(Call::EnqueueAll { now, mut messages }) = self.calls.pop() else {
            return Err(Fail::new("no list"));
        };
        if now != moment {
            return Err(Fail::new("a list is of one moment"));
        }
        messages.push(message)?;
        self.calls.push(Call::EnqueueAll { now, messages })?;
        Ok(())
    }

    /// Sends a list of that many messages, those that are sent next.
    pub fn list(&mut self, now: u64, messages: u64) -> Result<(), Fail> {
        if self.as_lists {
            let none = Vec::new(self.alloc);
            self.add(Call::EnqueueAll {
                now,
                messages: none,
            })?;
            self.lacks = messages;
        }
        Ok(())
    }

    /// Lets time pass.
    pub fn advance(&mut self, now: u64) -> Result<(), Fail> {
        self.add(Call::Advance { now })
    }

    /// Asks for the next event, and wants that moment.
    pub fn next(&mut self, moment: Option<u64>) -> Result<(), Fail> {
        self.add(Call::Next)?;
        self.want(Wanted::Next(moment))
    }

    /// The last call is to be answered so.
    fn want(&mut self, wanted: Wanted) -> Result<(), Fail> {
        self.wanted.pop();
        self.wanted.push(wanted)?;
        Ok(())
    }

    /// At the last call this message completes, after those that were said before.
    pub fn done(&mut self, place: usize, deliver_at: Option<u64>) -> Result<(), Fail> {
        let Some(Wanted::Done(from, _)) = self.wanted.pop() else {
            return Err(Fail::new("no call at which a message completes"));
        };
        self.arrivals.push(Arrival {
            place,
            deliver_at,
            done_at: None,
        })?;
        let wanted = Wanted::Done(from, self.arrivals.len());
        self.wanted.push(wanted)?;
        Ok(())
    }

    /// The message that was said last to complete is done at that moment.
    pub fn done_at(&mut self, moment: u64) -> Result<(), Fail> {
        let mut arrival = self.arrivals.pop().ok_or("no message completes")?;
        arrival.done_at = Some(moment);
        self.arrivals.push(arrival)?;
        Ok(())
    }

    /// The last call is an advance that goes through so many events.
    pub fn events(&mut self, count: u64) -> Result<(), Fail> {
        let Some(Call::Advance { .. }) = self.calls.last() else {
            return Err(Fail::new("only an advance goes through events"));
        };
        let counts = self.counts.pop().ok_or("no call")?;
        self.counts.push(Counts {
            events: Some(count as u128),
            ..counts
        })?;
        Ok(())
    }

    /// After the last call so many messages are in flight.
    pub fn flying(&mut self, count: usize) -> Result<(), Fail> {
        let counts = self.counts.pop().ok_or("no call")?;
        self.counts.push(Counts {
            flying: Some(count),
            ..counts
        })?;
        Ok(())
    }

    /// At the last call, or at its last event, so many messages in flight are rated anew.
    pub fn rated(&mut self, count: usize) -> Result<(), Fail> {
        let counts = self.counts.pop().ok_or("no call")?;
        self.counts.push(Counts {
            rated: Some(count),
            ..counts
        })?;
        Ok(())
    }

    /// The last call is refused.
    pub fn refused(&mut self, error: Error) -> Result<(), Fail> {
        if self.calls.is_empty() {
            return Err(Fail::new("no call that is refused"));
        }
        self.want(Wanted::Refused(error))
    }

    /// Makes the calls as a list, where its flow ids begin at 0 as those of `replay` do, and then one
    /// by one. Compares each reply with the wanted one.
    pub fn expect(self) -> Result<(), Fail> {
        if self.first == 0 {
            self.expect_list()?;
        }
        self.expect_each()
    }

    /// There are calls, each has an answer that is wanted, and no list lacks messages.
    fn expect_whole(&self) -> Result<(), Fail> {
        if self.calls.is_empty() {
            return Err(Fail::new("no calls"));
        }
        if self.lacks > 0 {
            return Err(Fail::new("a list lacks messages"));
        }
        if self.wanted.len() != self.calls.len() {
            return Err(Fail::new("a call has no answer"));
        }
        if self.counts.len() != self.calls.len() {
            return Err(Fail::new("a call has no counts"));
        }
        Ok(())
    }

    /// Makes the calls one by one, and compares each reply with the wanted one.
    pub fn expect_each(self) -> Result<(), Fail> {
        let mut state = self.new_state();
        self.make_each(&mut state)
    }

    /// A new scheduler for the calls.
    pub fn new_state(&self) -> State<P> {
        State::with_first_id(self.alloc, self.first)
    }

    /// Makes the calls one by one on a new scheduler, and compares each reply with the wanted one.
    pub fn make_each(mut self, state: &mut State<P>) -> Result<(), Fail> {
        self.expect_whole()?;
        let calls = mem::replace(&mut self.calls, Vec::new(self.alloc)).into_iter();
        let wanted = self.wanted.iter().zip(&self.counts);
        for (place, (call, (wanted, counts))) in calls.zip(wanted).enumerate() {
            let (reply, events) = answer(state, call);
            if !is_wanted(&self.sent, &self.arrivals, &reply, *wanted) {
                return Err(Fail::new(format_args!("the answer to call {place}")));
            }
            if !are_counted(state, events, *counts) {
                return Err(Fail::new(format_args!("the counts at call {place}")));
            }
        }
        Ok(())
    }

    /// Makes the calls as a list, and compares each reply with the wanted one.
    pub fn expect_list(&self) -> Result<(), Fail> {
        self.expect_whole()?;
        let replies = replay(self.alloc, &self.calls)?;
        if replies.len() != self.calls.len() {
            return Err(Fail::new("a call has no reply"));
        }
        for (place, (reply, wanted)) in replies.iter().zip(&self.wanted).enumerate() {
            if !is_wanted(&self.sent, &self.arrivals, reply, *wanted) {
                return Err(Fail::new(format_args!("the reply to call {place}")));
            }
        }
        Ok(())
    }
}

/// The call that sends this message alone.
fn alone<P>(now: u64, message: Outgoing<P>) -> Call<P> {
    Call::Enqueue {
        now,
        origin: message.origin,
        recipient: message.recipient,
        channel: message.channel,
        message: message.message,
        latency: message.latency,
        should_deliver: message.should_deliver,
    }
}
