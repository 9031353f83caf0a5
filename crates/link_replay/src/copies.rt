//! Copies of calls, which are made while the list stays the caller's.
ghost use Rattle.std.specs.Prelude.{◌≡◌, ◌≢◌, true, map, [], ◌∷◌, ◌++◌, IfOk, IfErr, OnOk};
ghost use Rattle.std.specs.List.{AllZip};
ghost use Rattle.fairness.specs.Sides.Subjects.{same_peer};
ghost use Rattle.link_simulation.specs.Simulation.Messages.{SameMessage, Message as AnyMessage};
ghost use Rattle.link_simulation.specs.Simulation.Calls.{call_next};
ghost use Rattle.link_simulation.specs.Laws.Isolation.{InTime};
ghost use Rattle.link_simulation.specs.Rule.SamePlanned.{IsSameCall};
ghost use Rattle.link_events.specs.Steps.Outgoing.{outgoing};
ghost use Rattle.link_scheduler.specs.Calls.Replay.{call_of};

use bytes::Bytes;
use fairness::error::Error;
use fairness::peer::Peer;
use link_scheduler::call::Call;
use link_scheduler::transmitter::Outgoing;
use std::alloc::Global;

/// The same call, its peers cloned. It shares the bytes.
pub(crate) fn copy<P: Peer>(call: &Call<P>, alloc: Global) -> Result<Call<P>, Error>
    ensures in_time { InTime (call_of call.now ∷ []) }
    ensures same { IfOk result (λ copy. IsSameCall P.cmp (call_of call.now) (call_of copy)) }
    ensures refused { IfErr result (λ e. (e ≡ Error.OutOfMemory) × (call_of call.now ≢ call_next)) }
{
    Ok(match call {
        Call::Limit {
            now,
            peer,
            egress,
            ingress,
        } => Call::Limit {
            now: *now,
            peer: copy_of(peer)?,
            egress: *egress,
            ingress: *ingress,
        },
        Call::LimitLink {
            now,
            origin,
            recipient,
            cap,
        } => Call::LimitLink {
            now: *now,
            origin: copy_of(origin)?,
            recipient: copy_of(recipient)?,
            cap: *cap,
        },
        Call::Enqueue {
            now,
            origin,
            recipient,
            channel,
            message,
            latency,
            should_deliver,
        } => Call::Enqueue {
            now: *now,
            origin: copy_of(origin)?,
            recipient: copy_of(recipient)?,
            channel: *channel,
            message: share(message)?,
            latency: *latency,
            should_deliver: *should_deliver,
        },
        Call::EnqueueAll { now, messages } => Call::EnqueueAll {
            now: *now,
            messages: copies_of(alloc, messages)?,
        },
        Call::Advance { now } => Call::Advance { now: *now },
        Call::Next => Call::Next,
    })
}

/// The same message, its peers cloned. It shares the bytes.
fn copy_message<P: Peer>(one: &Outgoing<P>) -> Result<Outgoing<P>, Error>
    ensures same { IfOk result (λ copy. SameMessage P.cmp (outgoing one.now) (outgoing copy)) }
    ensures refused { IfErr result (λ e. e ≡ Error.OutOfMemory) }
{
    Ok(Outgoing {
        origin: copy_of(&one.origin)?,
        recipient: copy_of(&one.recipient)?,
        channel: one.channel,
        message: share(&one.message)?,
        latency: one.latency,
        should_deliver: one.should_deliver,
    })
}

/// The same messages, in their order.
fn copies_of<P: Peer>(alloc: Global, messages: &[Outgoing<P>]) -> Result<Vec<Outgoing<P>>, Error>
    ensures same { IfOk result (λ copies. AllZip (SameMessage P.cmp) (map outgoing messages.now)
        (map outgoing copies.items)) }
    ensures refused { IfErr result (λ e. e ≡ Error.OutOfMemory) }
{
    let mut copies = Vec::with_capacity(alloc, messages.len())?;
    for one in messages {
        add_copy(&mut copies, one)?;
    }
    Ok(copies)
}

/// Puts the same message behind others.
fn add_copy<P: Peer>(copies: &mut Vec<Outgoing<P>>, one: &Outgoing<P>) -> Result<(), Error>
    ensures added { OnOk result ((copy : AnyMessage P)
        × (map outgoing copies.new.items ≡ map outgoing copies.old.items ++ copy ∷ [])
        × SameMessage P.cmp (outgoing one.now) copy) }
    ensures refused { IfErr result (λ e. e ≡ Error.OutOfMemory) }
{
    copies.push(copy_message(one)?)?;
    Ok(())
}

/// An equal peer.
fn copy_of<P: Peer>(peer: &P) -> Result<P, Error>
    ensures same { IfOk result (λ copy. same_peer P.cmp peer.now copy ≡ true) }
    ensures refused { IfErr result (λ e. e ≡ Error.OutOfMemory) }
{
    peer.clone_peer().ok_or(Error::OutOfMemory)
}

/// The same bytes, shared.
fn share(message: &Bytes) -> Result<Bytes, Error>
    ensures same { IfOk result (λ copy. copy ≡ message.now) }
    ensures refused { IfErr result (λ e. e ≡ Error.OutOfMemory) }
{
    Ok(message.slice(..)?)
}
