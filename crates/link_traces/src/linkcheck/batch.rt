//! Messages that lines send at one moment and that the trace says are answered with nothing, gathered
//! so that they are sent at once.
ghost use Rattle.std.specs.Prelude.{◌≡◌, ◌++◌, ◌∷◌, All, [], None, false, drop, IsTrue, IfSome};
ghost use Rattle.link_scheduler.specs.Calls.Replay.{reply_of};
ghost use Rattle.link_simulation.specs.Simulation.Replies.{reply_done};
ghost use Rattle.link_scripts.specs.Script.{IsCallOfScriptInRange};
ghost use Rattle.link_traces.specs.Batches.{batch_calls, IsFront};

use crate::linkcheck::asked;
use crate::linkcheck::lines::NEWLINE;
use link_scheduler::call::{Call, Reply};
use link_scheduler::transmitter::{Completion, Contents, Outgoing};
use std::alloc::Global;

/// The messages of lines that follow one another, in order.
#[derive(Drop)]
pub(crate) struct Batch {
    pub(crate) moment: u64,
    pub(crate) messages: Vec<Outgoing<u64, usize>>,
    /// How many bytes their lines take.
    pub(crate) length: usize,
}

/// What became of a batch.
#[derive(Clone, Copy, PartialEq, Eq)]
pub(crate) enum Sent {
    /// All were sent, and none is done at once.
    Silently,
    /// None was sent.
    NotAtOnce,
    /// All were sent, and the first one that is done at once has this place among them.
    Done(usize),
}

impl Batch {
    /// No line is gathered.
    pub(crate) fn new(alloc: Global) -> Batch {
        Batch {
            moment: 0,
            messages: Vec::new(alloc),
            length: 0,
        }
    }

    /// Gathers the messages from the front of what was read ahead, in the place of those before. There
    /// are none where two such lines do not follow one another.
    pub(crate) fn gather(&mut self, ahead: &[u8])
        ensures front { IsFront self.new ahead.now }
        ensures in_range { All IsCallOfScriptInRange (batch_calls self.new) }
    {
        self.messages.clear();
        self.length = 0;
        if !begins_with_two(ahead) {
            return;
        }
        for _ in 0..ahead.len() {
            if !self.gather_one(ahead) {
                return;
            }
        }
    }

    /// Gathers the message of the next line, if that sends one at the moment of those before, and the
    /// trace says that it is answered with nothing. Answers whether it does.
    fn gather_one(&mut self, ahead: &[u8]) -> bool
        requires front { IsFront self.old ahead.now }
        requires in_range { All IsCallOfScriptInRange (batch_calls self.old) }
        ensures front { IsFront self.new ahead.now }
        ensures in_range { All IsCallOfScriptInRange (batch_calls self.new) }
    {
        let Some((line, after)) = silent_line(ahead, self.length) else {
            return false;
        };
        let Some(call) = asked::call(line) else {
            return false;
        };
        if !self.push(&call) {
            return false;
        }
        self.length = after;
        true
    }

    /// Puts the message of a call to the end, if it goes at the moment of those before it and there is
    /// memory for it.
    fn push(&mut self, call: &Call<u64, usize>) -> bool
        ensures put { IsTrue result → batch_calls self.new ≡ batch_calls self.old ++ call.now ∷ [] }
        ensures kept { result ≡ false → batch_calls self.new ≡ batch_calls self.old }
        ensures length { self.new.length ≡ self.old.length }
    {
        let Call::Enqueue {
            now,
            origin,
            recipient,
            channel,
            message,
            latency,
            should_deliver,
        } = call
        else {
            return false;
        };
        if !self.messages.is_empty() && self.moment != *now {
            return false;
        }
        let one = Outgoing {
            origin: *origin,
            recipient: *recipient,
            channel: *channel,
            message: *message,
            latency: *latency,
            should_deliver: *should_deliver,
        };
        if self.messages.push(one).is_err() {
            return false;
        }
        self.moment = *now;
        true
    }

    /// The place of the first message that is done, if the reply says that one is. It is the first
    /// with the words of what is done first.
    pub(crate) fn first_done(&self, reply: &Reply<u64, Contents>) -> Option<usize>
        ensures { result ≡ None → reply_of reply.now ≡ reply_done [] }
    {
        let Reply::Done(completions) = reply else {
            return Some(0);
        };
        let first = completions.first()?;
        Some(self.place_of(first).unwrap_or(0))
    }

    /// The place of the first message with the words of what is done.
    fn place_of(&self, done: &Completion<u64, Contents>) -> Option<usize> {
        let length = done.message.len();
        self.messages.iter().position(|one| {
            one.origin == done.origin
                && one.recipient == done.recipient
                && one.channel == done.channel
                && one.message == length
        })
    }
}

/// Whether two lines that may send messages are at the front. It is asked of each call, and tells soon.
fn begins_with_two(ahead: &[u8]) -> bool {
    if ahead.first() != Some(&b'e') {
        return false;
    }
    match ahead.iter().position(|byte| *byte == NEWLINE) {
        Some(end) => ahead.get(end + 1) == Some(&b'e'),
        None => false,
    }
}

/// The line at that place, without its end byte, and where the next one begins, if both were read
/// ahead and the next one does not begin as an answer does that a call which sends a message has.
fn silent_line(ahead: &[u8], at: usize) -> Option<(&[u8], usize)>
    ensures cut { IfSome result (λ d. drop at ahead.now ≡ d.0.now ++ 10 ∷ drop d.1 ahead.now) }
{
    let rest = ahead.get(at..)?;
    let end = rest.iter().position(|byte| *byte == NEWLINE)?;
    match rest.get(end + 1)? {
        b'd' | b'r' => None,
        _ => Some((&rest[..end], at + end + 1)),
    }
}
