//! The calls of a script, with zero bytes in the place of lengths.
ghost use Rattle.std.specs.Prelude.{◌≡◌, ◌≢◌, map, IfOk, IfErr};
ghost use Rattle.link_scheduler.specs.Calls.Replay.{call_of};
ghost use Rattle.link_events.specs.Steps.Outgoing.{outgoing};
ghost use Rattle.link_simulation.specs.Simulation.Calls.{call_next};
ghost use Rattle.link_scripts.specs.Schedule.{world_call, zeroed};

use fairness::error::Error;
use link_scheduler::call::Call;
use link_scheduler::transmitter::{Contents, Outgoing};
use std::alloc::Global;

/// The call of a script as the scheduler takes it: each message has zero bytes, as many as the
/// call says.
///
/// Its only error is `OutOfMemory`, for a list of messages.
pub fn fill(alloc: Global, call: &Call<u64, usize>) -> Result<Call<u64, Contents>, Error>
    ensures made { IfOk result (λ made. call_of made ≡ world_call call.now) }
    ensures refused { IfErr result (λ e. (e ≡ Error.OutOfMemory) × (world_call call.now ≢ call_next)) }
{
    Ok(match call {
        Call::Limit {
            now,
            peer,
            egress,
            ingress,
        } => Call::Limit {
            now: *now,
            peer: *peer,
            egress: *egress,
            ingress: *ingress,
        },
        Call::LimitLink {
            now,
            origin,
            recipient,
            cap,
        } => Call::LimitLink {
            now: *now,
            origin: *origin,
            recipient: *recipient,
            cap: *cap,
        },
        Call::Enqueue {
            now,
            origin,
            recipient,
            channel,
            message,
            latency,
            should_deliver,
        } => Call::Enqueue {
            now: *now,
            origin: *origin,
            recipient: *recipient,
            channel: *channel,
            message: Contents::zeros(*message),
            latency: *latency,
            should_deliver: *should_deliver,
        },
        Call::EnqueueAll { now, messages } => Call::EnqueueAll {
            now: *now,
            messages: fill_all(alloc, messages)?,
        },
        Call::Advance { now } => Call::Advance { now: *now },
        Call::Next => Call::Next,
    })
}

/// The messages as the scheduler takes them, in their order.
pub(crate) fn fill_all(
    alloc: Global,
    messages: &[Outgoing<u64, usize>],
) -> Result<Vec<Outgoing<u64, Contents>>, Error>
    ensures made { IfOk result (λ made. map outgoing made.items ≡ map zeroed messages.now) }
    ensures refused { IfErr result (λ e. e ≡ Error.OutOfMemory) }
{
    let mut made = Vec::with_capacity(alloc, messages.len())?;
    for one in messages {
        made.push(fill_one(one))?;
    }
    Ok(made)
}

/// The message as the scheduler takes it, with zero bytes of the length that it says.
fn fill_one(message: &Outgoing<u64, usize>) -> Outgoing<u64, Contents>
    ensures { outgoing result ≡ zeroed message.now }
{
    Outgoing {
        origin: message.origin,
        recipient: message.recipient,
        channel: message.channel,
        message: Contents::zeros(message.message),
        latency: message.latency,
        should_deliver: message.should_deliver,
    }
}
