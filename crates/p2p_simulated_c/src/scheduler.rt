//! What C has of a scheduler.
ghost use Rattle.std.specs.Prelude.{◌≡◌, None, length, min, replicate};
ghost use Rattle.link_scheduler.specs.Calls.State.{IsNew, IsNextOf};
ghost use Rattle.link_events.specs.Steps.Outgoing.{sent};
ghost use Rattle.link_simulation.specs.Simulation.Calls.{call_limit, call_limit_link, call_enqueue, call_advance};
ghost use Rattle.p2p_simulated_c.specs.Asked.{OnHandle, Ended, Advanced, Counted};
ghost use Rattle.p2p_simulated_c.specs.Completions.{records_from, completed_bytes_from};
ghost use Rattle.p2p_simulated_c.specs.Opening.{IsOpened};
ghost use Rattle.p2p_simulated_c.specs.Records.{is_set, cap_of_record, moment_of_record, value_of};
ghost use Rattle.p2p_simulated_c.specs.Written.{written};

use super::handle::Scheduler;
use super::opened::Opened;
use super::records::{Cap, Done, Moment, Wide};
use super::status::{CLOSED, MADE, OUT_OF_MEMORY};
use std::alloc::Global;

/// Opens a scheduler with flow ids from `first_id`. What the handle had before is closed first.
#[unsafe(no_mangle)]
pub extern "C" fn p2p_open(alloc: Global, scheduler: &mut Scheduler, first_id: u64) -> u32
    ensures { IsOpened first_id result scheduler.new.place.opened }
{
    drop(scheduler.take(alloc));
    match Box::new(alloc, Opened::new(alloc, first_id)) {
        Ok(opened) => {
            *scheduler = Scheduler::of(opened);
            MADE
        }
        Err(_) => OUT_OF_MEMORY,
    }
}

/// Closes a scheduler, and frees all that it has. A handle that is not open stays so.
#[unsafe(no_mangle)]
pub extern "C" fn p2p_close(alloc: Global, scheduler: &mut Scheduler)
    ensures { scheduler.new.place.opened ≡ None }
{
    drop(scheduler.take(alloc));
}

/// `State::limit`.
#[unsafe(no_mangle)]
pub extern "C" fn p2p_limit(
    alloc: Global,
    scheduler: &mut Scheduler,
    now: u64,
    peer: u64,
    egress: Cap,
    ingress: Cap,
    count: &mut usize,
) -> u32
    ensures { OnHandle ((result ≡ 5) × (count.new ≡ 0))
        (Ended (call_limit now peer (cap_of_record egress) (cap_of_record ingress)) result count.new)
        scheduler.old.place.opened scheduler.new.place.opened }
{
    *count = 0;
    let Some(mut opened) = scheduler.take(alloc) else {
        return CLOSED;
    };
    let most_sent = egress.get();
    let most_received = ingress.get();
    let status = opened.limit(now, peer, most_sent, most_received, count);
    *scheduler = Scheduler::of(opened);
    status
}

/// `State::limit_link`.
#[unsafe(no_mangle)]
pub extern "C" fn p2p_limit_link(
    alloc: Global,
    scheduler: &mut Scheduler,
    now: u64,
    origin: u64,
    recipient: u64,
    cap: Cap,
    count: &mut usize,
) -> u32
    ensures { OnHandle ((result ≡ 5) × (count.new ≡ 0))
        (Ended (call_limit_link now origin recipient (cap_of_record cap)) result count.new)
        scheduler.old.place.opened scheduler.new.place.opened }
{
    *count = 0;
    let Some(mut opened) = scheduler.take(alloc) else {
        return CLOSED;
    };
    let most = cap.get();
    let status = opened.limit_link(now, origin, recipient, most, count);
    *scheduler = Scheduler::of(opened);
    status
}

/// `State::enqueue`, with a copy of the bytes.
#[unsafe(no_mangle)]
pub extern "C" fn p2p_enqueue(
    alloc: Global,
    scheduler: &mut Scheduler,
    now: u64,
    origin: u64,
    recipient: u64,
    channel: u64,
    message: &[u8],
    latency: u64,
    should_deliver: u8,
    count: &mut usize,
) -> u32
    ensures { OnHandle ((result ≡ 5) × (count.new ≡ 0))
        (Ended (call_enqueue now (sent origin recipient channel message.now latency (is_set should_deliver)))
        result count.new)
        scheduler.old.place.opened scheduler.new.place.opened }
{
    *count = 0;
    let Some(mut opened) = scheduler.take(alloc) else {
        return CLOSED;
    };
    let status = opened.enqueue(
        alloc,
        now,
        origin,
        recipient,
        channel,
        message,
        latency,
        should_deliver != 0,
        count,
    );
    *scheduler = Scheduler::of(opened);
    status
}

/// `State::enqueue` of so many zero bytes.
#[unsafe(no_mangle)]
pub extern "C" fn p2p_enqueue_zeros(
    alloc: Global,
    scheduler: &mut Scheduler,
    now: u64,
    origin: u64,
    recipient: u64,
    channel: u64,
    length: usize,
    latency: u64,
    should_deliver: u8,
    count: &mut usize,
) -> u32
    ensures { OnHandle ((result ≡ 5) × (count.new ≡ 0))
        (Ended (call_enqueue now (sent origin recipient channel (replicate length 0) latency (is_set should_deliver)))
        result count.new)
        scheduler.old.place.opened scheduler.new.place.opened }
{
    *count = 0;
    let Some(mut opened) = scheduler.take(alloc) else {
        return CLOSED;
    };
    let status = opened.enqueue_zeros(
        now,
        origin,
        recipient,
        channel,
        length,
        latency,
        should_deliver != 0,
        count,
    );
    *scheduler = Scheduler::of(opened);
    status
}

/// `State::advance`.
#[unsafe(no_mangle)]
pub extern "C" fn p2p_advance(
    alloc: Global,
    scheduler: &mut Scheduler,
    now: u64,
    count: &mut usize,
) -> u32
    ensures { OnHandle ((result ≡ 5) × (count.new ≡ 0))
        (λ old new. Ended (call_advance now) result count.new old new × Advanced now result old new)
        scheduler.old.place.opened scheduler.new.place.opened }
{
    *count = 0;
    let Some(mut opened) = scheduler.take(alloc) else {
        return CLOSED;
    };
    let status = opened.advance(now, count);
    *scheduler = Scheduler::of(opened);
    status
}

/// `State::advance_counted`. `events` is 0 where the call is not made.
#[unsafe(no_mangle)]
pub extern "C" fn p2p_advance_counted(
    alloc: Global,
    scheduler: &mut Scheduler,
    now: u64,
    count: &mut usize,
    events: &mut Wide,
) -> u32
    ensures { OnHandle ((result ≡ 5) × (count.new ≡ 0) × (value_of events.new ≡ 0))
        (λ old new. Ended (call_advance now) result count.new old new × Advanced now result old new
        × Counted now result (value_of events.new) old new)
        scheduler.old.place.opened scheduler.new.place.opened }
{
    *count = 0;
    *events = Wide::of(0);
    let Some(mut opened) = scheduler.take(alloc) else {
        return CLOSED;
    };
    let status = opened.advance_counted(now, count, events);
    *scheduler = Scheduler::of(opened);
    status
}

/// `State::next`. The moment is none where the scheduler is not open.
#[unsafe(no_mangle)]
pub extern "C" fn p2p_next(alloc: Global, scheduler: &mut Scheduler, next: &mut Moment) -> u32
    ensures { OnHandle ((result ≡ 5) × (moment_of_record next.new ≡ None))
        (λ old new. (result ≡ 0) × (new ≡ old) × IsNextOf old.state (moment_of_record next.new))
        scheduler.old.place.opened scheduler.new.place.opened }
{
    *next = Moment::of(None);
    let Some(opened) = scheduler.take(alloc) else {
        return CLOSED;
    };
    *next = opened.next();
    *scheduler = Scheduler::of(opened);
    MADE
}

/// Writes what the last call that was made completed, from the completion `first` on, as many as
/// there is room for, and answers how many.
#[unsafe(no_mangle)]
pub extern "C" fn p2p_completions(
    alloc: Global,
    scheduler: &mut Scheduler,
    first: usize,
    out: &mut [Done],
) -> usize
    ensures { OnHandle ((result ≡ 0) × (out.new ≡ out.old))
        (λ old new. (new ≡ old) × (result ≡ min (length (records_from old first)) (length out.old))
        × (out.new ≡ written (records_from old first) out.old))
        scheduler.old.place.opened scheduler.new.place.opened }
{
    let Some(opened) = scheduler.take(alloc) else {
        return 0;
    };
    let count = opened.completions(first, out);
    *scheduler = Scheduler::of(opened);
    count
}

/// Writes the bytes of a completion of the last call that was made, from the byte `from` on, as
/// many as there is room for, and answers how many.
#[unsafe(no_mangle)]
pub extern "C" fn p2p_message(
    alloc: Global,
    scheduler: &mut Scheduler,
    index: usize,
    from: usize,
    out: &mut [u8],
) -> usize
    ensures { OnHandle ((result ≡ 0) × (out.new ≡ out.old))
        (λ old new. (new ≡ old) × (result ≡ min (length (completed_bytes_from old index from)) (length out.old))
        × (out.new ≡ written (completed_bytes_from old index from) out.old))
        scheduler.old.place.opened scheduler.new.place.opened }
{
    let Some(opened) = scheduler.take(alloc) else {
        return 0;
    };
    let count = opened.message(index, from, out);
    *scheduler = Scheduler::of(opened);
    count
}
