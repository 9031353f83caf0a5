//! A scheduler that is open, with what its last call completed.
ghost use Rattle.std.specs.Prelude.{◌≡◌, [], length, min, drop, replicate, IfOk, IfErr, MatchResult};
ghost use Rattle.fairness.specs.Refusals.ErrorTexts.{refusal_number};
ghost use Rattle.link_scheduler.specs.Calls.State.{IsNew, IsNextOf};
ghost use Rattle.link_events.specs.Steps.Outgoing.{sent};
ghost use Rattle.link_simulation.specs.Simulation.Calls.{call_limit, call_limit_link, call_enqueue, call_advance};
ghost use Rattle.p2p_simulated_c.specs.Asked.{Ended, Advanced, Counted};
ghost use Rattle.p2p_simulated_c.specs.Completions.{records_from, completed_bytes_from};
ghost use Rattle.p2p_simulated_c.specs.Records.{moment_of_record, value_of};
ghost use Rattle.p2p_simulated_c.specs.Written.{written};

use super::records::{Done, Moment, Wide};
use super::status::{MADE, OUT_OF_MEMORY, number_of};
use bytes::Bytes;
use fairness::error::Error;
use link_scheduler::transmitter::{Completion, Contents, Payload, State};
use std::alloc::Global;

/// A scheduler of numbered peers, and of the last call that was made on it the completions and the
/// moment.
pub struct Opened {
    pub state: State<u64, Contents>,
    pub completed: Vec<Completion<u64, Contents>>,
    /// In nanoseconds since the start, and 0 before any call.
    pub last: u64,
}

impl Drop for Opened {
    /// Lets go of what it holds.
    fn drop(self) {
        let Opened {
            state,
            completed,
            last: _,
        } = self;
        drop(state);
        drop(completed);
    }
}

impl Opened {
    /// Nothing is limited, nothing was sent and nothing has completed. Flow ids begin at `first_id`.
    pub fn new(alloc: Global, first_id: u64) -> Opened
        ensures state { IsNew result.state first_id }
        ensures completed { result.completed.items ≡ [] }
        ensures last { result.last ≡ 0 }
    {
        Opened {
            state: State::with_payload(alloc, first_id),
            completed: Vec::new(alloc),
            last: 0,
        }
    }

    /// Keeps what a call at `now` answered, tells how many messages it completed, and answers its
    /// status. A call that was refused leaves what is kept as it was.
    pub(crate) fn keep(
        &mut self,
        now: u64,
        answer: Result<Vec<Completion<u64, Contents>>, Error>,
        count: &mut usize,
    ) -> u32
        ensures state { self.new.state ≡ self.old.state }
        ensures status { MatchResult answer (λ done. result ≡ 0) (λ why. result ≡ refusal_number why) }
        ensures completed { MatchResult answer (λ done. self.new.completed.items ≡ done.items)
            (λ why. self.new.completed ≡ self.old.completed) }
        ensures moment { MatchResult answer (λ done. self.new.last ≡ now) (λ why. self.new.last ≡ self.old.last) }
        ensures counted { MatchResult answer (λ done. count.new ≡ length done.items) (λ why. count.new ≡ 0) }
    {
        match answer {
            Ok(done) => {
                *count = done.len();
                self.completed = done;
                self.last = now;
                MADE
            }
            Err(why) => {
                *count = 0;
                number_of(why)
            }
        }
    }

    /// `State::limit`.
    pub fn limit(
        &mut self,
        now: u64,
        peer: u64,
        egress: Option<usize>,
        ingress: Option<usize>,
        count: &mut usize,
    ) -> u32
        ensures { Ended (call_limit now peer egress ingress) result count.new self.old self.new }
    {
        let answer = self.state.limit(now, &peer, egress, ingress);
        self.keep(now, answer, count)
    }

    /// `State::limit_link`.
    pub fn limit_link(
        &mut self,
        now: u64,
        origin: u64,
        recipient: u64,
        cap: Option<usize>,
        count: &mut usize,
    ) -> u32
        ensures { Ended (call_limit_link now origin recipient cap) result count.new self.old self.new }
    {
        let answer = self.state.limit_link(now, &origin, &recipient, cap);
        self.keep(now, answer, count)
    }

    /// `State::enqueue`, with a copy of the bytes.
    pub fn enqueue(
        &mut self,
        alloc: Global,
        now: u64,
        origin: u64,
        recipient: u64,
        channel: u64,
        message: &[u8],
        latency: u64,
        should_deliver: bool,
        count: &mut usize,
    ) -> u32
        ensures { Ended (call_enqueue now (sent origin recipient channel message.now latency should_deliver))
            result count.new self.old self.new }
    {
        let Ok(bytes) = Bytes::copy_from_slice(alloc, message) else {
            *count = 0;
            return OUT_OF_MEMORY;
        };
        let answer = self.state.enqueue(
            now,
            origin,
            recipient,
            channel,
            bytes.into_contents(),
            latency,
            should_deliver,
        );
        self.keep(now, answer, count)
    }

    /// `State::enqueue` of so many zero bytes, which take no memory.
    pub fn enqueue_zeros(
        &mut self,
        now: u64,
        origin: u64,
        recipient: u64,
        channel: u64,
        length: usize,
        latency: u64,
        should_deliver: bool,
        count: &mut usize,
    ) -> u32
        ensures { Ended (call_enqueue now (sent origin recipient channel (replicate length 0) latency should_deliver))
            result count.new self.old self.new }
    {
        let answer = self.state.enqueue(
            now,
            origin,
            recipient,
            channel,
            Contents::zeros(length),
            latency,
            should_deliver,
        );
        self.keep(now, answer, count)
    }

    /// `State::advance`.
    pub fn advance(&mut self, now: u64, count: &mut usize) -> u32
        ensures ended { Ended (call_advance now) result count.new self.old self.new }
        ensures advanced { Advanced now result self.old self.new }
    {
        let answer = self.state.advance(now);
        self.keep(now, answer, count)
    }

    /// `State::advance_counted`. After a refusal `events` is 0.
    pub fn advance_counted(&mut self, now: u64, count: &mut usize, events: &mut Wide) -> u32
        ensures ended { Ended (call_advance now) result count.new self.old self.new }
        ensures advanced { Advanced now result self.old self.new }
        ensures counted { Counted now result (value_of events.new) self.old self.new }
    {
        match self.state.advance_counted(now) {
            Ok((done, handled)) => {
                *events = Wide::of(handled);
                self.keep(now, Ok(done), count)
            }
            Err(why) => {
                *events = Wide::of(0);
                self.keep(now, Err(why), count)
            }
        }
    }

    /// `State::next`.
    pub fn next(&self) -> Moment
        ensures { IsNextOf self.now.state (moment_of_record result) }
    {
        Moment::of(self.state.next())
    }

    /// Writes the completions from `first` on, as many as there is room for, and tells how many.
    pub fn completions(&self, first: usize, out: &mut [Done]) -> usize
        ensures count { result ≡ min (length (records_from self.now first)) (length out.old) }
        ensures written { out.new ≡ written (records_from self.now first) out.old }
    {
        let count = self.completed.len().saturating_sub(first).min(out.len());
        for index in 0..count {
            out[index] = Done::of(&self.completed[first + index]);
        }
        count
    }

    /// Writes the bytes of a completion from `from` on, as many as there is room for, and tells how
    /// many. There are none of a completion that is not there.
    pub fn message(&self, index: usize, from: usize, out: &mut [u8]) -> usize
        ensures count { result ≡ min (length (completed_bytes_from self.now index from)) (length out.old) }
        ensures written { out.new ≡ written (completed_bytes_from self.now index from) out.old }
    {
        if index >= self.completed.len() {
            return 0;
        }
        copy_contents(&self.completed[index].message, from, out)
    }
}

/// Writes the bytes from `from` on, as many as there is room for, and tells how many.
fn copy_contents(contents: &Contents, from: usize, out: &mut [u8]) -> usize
    ensures count { result ≡ min (length (drop from contents.now)) (length out.old) }
    ensures written { out.new ≡ written (drop from contents.now) out.old }
{
    let given = copy(contents.given(), from, out);
    let count = contents.len().saturating_sub(from).min(out.len());
    out[given..count].fill(0);
    count
}

/// Writes the bytes from `from` on, as many as there is room for, and tells how many.
pub fn copy(bytes: &[u8], from: usize, out: &mut [u8]) -> usize
    ensures count { result ≡ min (length (drop from bytes.now)) (length out.old) }
    ensures written { out.new ≡ written (drop from bytes.now) out.old }
{
    let Some(rest) = bytes.get(from..) else {
        return 0;
    };
    let count = rest.len().min(out.len());
    out[..count].copy_from_slice(&rest[..count]);
    count
}
