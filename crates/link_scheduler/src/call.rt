//! A call of a scheduler as a value, what it is answered, and how it is made.
ghost use Rattle.std.specs.Prelude.{◌≡◌, IfOk, IfErr, OnErr};
ghost use Rattle.link_scheduler.specs.Calls.State.{planned_of};
ghost use Rattle.link_scheduler.specs.Calls.Replay.{call_by, IsAnsweredBy, MayRefuseCall};

use crate::transmitter::{Completion, Outgoing, Payload, State};
use bytes::Bytes;
use fairness::error::Error;
use fairness::peer::Peer;

/// A call of a scheduler, with its arguments: see the functions of `State`.
///
/// `M` is what it has of a message: the bytes, where nothing else is said. A line of a script says
/// how long the message is, and is a `Call<u64, usize>`. No line says a list of messages.
#[derive(Debug, Drop)]
pub enum Call<P, M = Bytes> {
    /// `State::limit`.
    Limit {
        now: u64,
        peer: P,
        egress: Option<usize>,
        ingress: Option<usize>,
    },
    /// `State::limit_link`.
    LimitLink {
        now: u64,
        origin: P,
        recipient: P,
        cap: Option<usize>,
    },
    /// `State::enqueue`.
    Enqueue {
        now: u64,
        origin: P,
        recipient: P,
        channel: u64,
        message: M,
        latency: u64,
        should_deliver: bool,
    },
    /// `State::enqueue_all`: the messages are sent at one moment, as a whole or not at all.
    EnqueueAll {
        now: u64,
        messages: Vec<Outgoing<P, M>>,
    },
    /// `State::advance`.
    Advance {
        now: u64,
    },
    /// `State::next`.
    Next,
}

/// What a call is answered.
#[derive(Drop)]
pub enum Reply<P, M = Bytes> {
    /// The call was made, and these messages completed, in order.
    Done(Vec<Completion<P, M>>),
    /// The moment of the next event, in nanoseconds since the start, or none.
    Next(Option<u64>),
    /// The call was refused, and changed nothing.
    Refused(Error),
}

impl<P: Peer, M: Payload> Call<P, M> {
    /// Makes the call as the function of `State` does that it stands for, and takes its arguments.
    ///
    /// `Call::Next` is answered `Reply::Next`, and any other call `Reply::Done`. What is refused is
    /// an error here, and never a `Reply::Refused`.
    ///
    /// # Errors
    ///
    /// What the scheduler knows and plans then stays as it was. `Call::Next` is never refused.
    ///
    /// - `OutOfMemory` where memory was refused.
    /// - `MomentTooLate` where a message completes and would arrive past the last moment,
    ///   18446744073709551615.
    /// - `FlowIdsUsedUp` where a message would start and no flow id is left.
    pub fn make(self, state: &mut State<P, M>) -> Result<Reply<P, M>, Error>
        ensures made { IfOk result (λ reply. IsAnsweredBy M.bytes state.old (call_by M.bytes self) reply state.new) }
        ensures refused { IfErr result (MayRefuseCall state.old (call_by M.bytes self)) }
        ensures unchanged { OnErr result (planned_of state.new ≡ planned_of state.old) }
    {
        let completions = match self {
            Call::Limit {
                now,
                peer,
                egress,
                ingress,
            } => state.limit(now, &peer, egress, ingress)?,
            Call::LimitLink {
                now,
                origin,
                recipient,
                cap,
            } => state.limit_link(now, &origin, &recipient, cap)?,
            Call::Enqueue {
                now,
                origin,
                recipient,
                channel,
                message,
                latency,
                should_deliver,
            } => state.enqueue(
                now,
                origin,
                recipient,
                channel,
                message,
                latency,
                should_deliver,
            )?,
            Call::EnqueueAll { now, messages } => state.enqueue_all(now, messages)?,
            Call::Advance { now } => state.advance(now)?,
            Call::Next => return Ok(Reply::Next(state.next())),
        };
        Ok(Reply::Done(completions))
    }
}
