//! A list of messages, sent by one call.
ghost use Rattle.std.specs.Prelude.{◌≡◌, map, IfOk, IfErr};
ghost use Rattle.link_events.specs.Steps.Outgoing.{outgoing};
ghost use Rattle.link_simulation.specs.Simulation.Calls.{call_enqueue_all};
ghost use Rattle.p2p_simulated_c.specs.Asked.{OnHandle, Ended};
ghost use Rattle.p2p_simulated_c.specs.Parcels.{bytes_at, message_at};

use super::handle::Scheduler;
use super::opened::Opened;
use super::records::Parcel;
use super::status::{CLOSED, OUT_OF_MEMORY};
use bytes::Bytes;
use fairness::error::Error;
use link_scheduler::transmitter::{Contents, Outgoing, Payload};
use std::alloc::Global;

impl Opened {
    /// `State::enqueue_all` of the messages of the records, which have their parts of `bytes`.
    pub fn enqueue_all(
        &mut self,
        alloc: Global,
        now: u64,
        parcels: &[Parcel],
        bytes: &[u8],
        count: &mut usize,
    ) -> u32
        ensures { Ended (call_enqueue_all now (map (message_at bytes.now) parcels.now))
            result count.new self.old self.new }
    {
        let Ok(messages) = messages_of(alloc, parcels, bytes) else {
            *count = 0;
            return OUT_OF_MEMORY;
        };
        let answer = self.state.enqueue_all(now, messages);
        self.keep(now, answer, count)
    }
}

/// The messages of the records, in their order. They share one copy of the bytes.
fn messages_of(
    alloc: Global,
    parcels: &[Parcel],
    bytes: &[u8],
) -> Result<Vec<Outgoing<u64, Contents>>, Error>
    ensures messages { IfOk result (λ messages.
        map outgoing messages.items ≡ map (message_at bytes.now) parcels.now) }
    ensures refused { IfErr result (λ why. why ≡ Error.OutOfMemory) }
{
    let bytes = Bytes::copy_from_slice(alloc, bytes)?;
    let mut messages = Vec::with_capacity(alloc, parcels.len())?;
    for parcel in parcels {
        messages.push(message_of(parcel, &bytes)?)?;
    }
    Ok(messages)
}

/// The message of a record.
fn message_of(parcel: &Parcel, bytes: &Bytes) -> Result<Outgoing<u64, Contents>, Error>
    ensures message { IfOk result (λ message. outgoing message ≡ message_at bytes.now parcel.now) }
    ensures refused { IfErr result (λ why. why ≡ Error.OutOfMemory) }
{
    Ok(Outgoing {
        origin: parcel.origin,
        recipient: parcel.recipient,
        channel: parcel.channel,
        message: part_of(bytes, parcel.from, parcel.length)?,
        latency: parcel.latency,
        should_deliver: parcel.should_deliver != 0,
    })
}

/// As many bytes as are wanted, from one of them on, and zeros where there are too few. The bytes are
/// shared, and the zeros take no memory.
fn part_of(bytes: &Bytes, from: usize, wanted: usize) -> Result<Contents, Error>
    ensures part { IfOk result (λ part. part ≡ bytes_at bytes.now from wanted) }
    ensures refused { IfErr result (λ why. why ≡ Error.OutOfMemory) }
{
    let left = bytes.len().saturating_sub(from);
    if left == 0 {
        return Ok(Contents::zeros(wanted));
    }
    if wanted <= left {
        return Ok(bytes.slice(from..from + wanted)?.into_contents());
    }
    Ok(Contents::padded(bytes.slice(from..)?, wanted))
}

/// `State::enqueue_all` of the messages of the records, which have their parts of `bytes`.
#[unsafe(no_mangle)]
pub extern "C" fn p2p_enqueue_all(
    alloc: Global,
    scheduler: &mut Scheduler,
    now: u64,
    parcels: &[Parcel],
    bytes: &[u8],
    count: &mut usize,
) -> u32
    ensures { OnHandle ((result ≡ 5) × (count.new ≡ 0))
        (Ended (call_enqueue_all now (map (message_at bytes.now) parcels.now)) result count.new)
        scheduler.old.place.opened scheduler.new.place.opened }
{
    *count = 0;
    let Some(mut opened) = scheduler.take(alloc) else {
        return CLOSED;
    };
    let status = opened.enqueue_all(alloc, now, parcels, bytes, count);
    *scheduler = Scheduler::of(opened);
    status
}
