//! Calls between two peers, beside much that is kept of others.
use crate::same::same;
use bytes::Bytes;
use fairness::error::Error;
use link_scheduler::transmitter::{Completion, State};
use scheduler_calls::calls::contents;
use scheduler_calls::text::MILLI;
use std::alloc::Global;
use std::process::Abort;

/// A cap for peer 1 and for so many others, each of which has sent a message that is done.
fn put_beside(state: &mut State<u64>, others: u64) -> Result<(), Error> {
    for other in 0..others {
        let origin = other.saturating_add(10);
        let recipient = origin.saturating_add(1);
        let _done = state.enqueue(0, origin, recipient, 7, Bytes::new(), MILLI, true)?;
    }
    for other in 0..others {
        let peer = other.saturating_add(10);
        let _done = state.limit(0, &peer, Some(1000), Some(1000))?;
    }
    let _done = state.limit(0, &1, Some(1000), None)?;
    Ok(())
}

/// Two messages of 100 milliseconds each, of which the second waits for the first, and the advances
/// in which they are done.
fn send_two(
    alloc: Global,
    state: &mut State<u64>,
    now: u64,
) -> Result<Vec<Completion<u64>>, Error> {
    let mut done = Vec::new(alloc);
    for place in 0..2usize {
        let message = contents(alloc, place, 100)?;
        let mut more = state.enqueue(now, 1, 2, place as u64, message, MILLI, true)?;
        done.append(&mut more)?;
    }
    for moment in [
        now.saturating_add(100 * MILLI),
        now.saturating_add(200 * MILLI),
    ] {
        let mut more = state.advance(moment)?;
        done.append(&mut more)?;
    }
    Ok(done)
}

/// The same is done.
fn expect_same(rt: &impl Abort, many: &[Completion<u64>], few: &[Completion<u64>]) {
    same(rt, &many.len(), &2);
    same(rt, &few.len(), &2);
    for (one, other) in many.iter().zip(few) {
        same(rt, &one.origin, &other.origin);
        same(rt, &one.recipient, &other.recipient);
        same(rt, &one.channel, &other.channel);
        same(rt, &one.message.as_slice(), &other.message.as_slice());
        same(rt, &one.done_at, &other.done_at);
        same(rt, &one.deliver_at, &other.deliver_at);
    }
}

/// From that moment on the two answer alike.
fn take_turn(
    rt: &(impl Abort + AllocGlobal),
    large: &mut State<u64>,
    small: &mut State<u64>,
    now: u64,
) -> Result<(), Error> {
    let many = send_two(rt.alloc(), large, now)?;
    let few = send_two(rt.alloc(), small, now)?;
    expect_same(rt, &many, &few);
    same(rt, &large.next(), &small.next());
    Ok(())
}

/// Puts many others beside the one and a few beside the other, and takes a hundred turns.
fn take_turns(
    rt: &(impl Abort + AllocGlobal),
    large: &mut State<u64>,
    small: &mut State<u64>,
) -> Result<(), Error> {
    put_beside(large, 100_000)?;
    put_beside(small, 10)?;
    for turn in 0..100u64 {
        take_turn(rt, large, small, turn * 200 * MILLI)?;
    }
    Ok(())
}

#[test]
fn calls_are_answered_alike_beside_many_others(rt: HostRuntime) -> Result<(), Error> {
    let mut large = State::new(rt.alloc());
    let mut small = State::new(rt.alloc());
    take_turns(&rt, &mut large, &mut small)
}
