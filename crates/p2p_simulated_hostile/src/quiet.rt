//! Advances that meet nothing: they take no memory and clone no peer, so they are never refused.
use crate::calls::{contents, fuse_of, make};
use crate::peers::{Fuse, Name, Numbered};
use fairness::error::Error;
use link_scheduler::call::{Call, Reply};
use link_scheduler::transmitter::State;
use std::alloc::{AllocError, Global};
use std::process::Abort;
use std::test::Fail;

/// What is done with a scheduler.
#[derive(Clone, Copy)]
enum Step {
    /// Peer 1 may send so many bytes a second.
    Limit(usize),
    /// Peer 1 sends so many bytes to peer 2, with that latency.
    Send(u64, u64),
    /// Time goes on to that moment, and so many messages are done.
    Advance(u64, usize),
    /// Time goes on to that moment, and nothing happens.
    Rest(u64),
}

/// The second message of a pair starts once it can no longer overtake the first. Nothing happens
/// before the first one is done, and then until the second one may start.
const STEPS: [Step; 17] = [
    Step::Rest(0),
    Step::Limit(500_000),
    Step::Rest(0),
    Step::Send(1_000_000, 500_000_000),
    Step::Rest(0),
    Step::Send(500_000, 100_000_000),
    Step::Rest(1),
    Step::Rest(1_999_999_999),
    Step::Rest(1_000_000_000),
    Step::Advance(2_000_000_000, 1),
    Step::Rest(2_000_000_000),
    Step::Rest(2_399_999_999),
    Step::Advance(2_400_000_000, 0),
    Step::Rest(3_399_999_999),
    Step::Advance(3_400_000_000, 1),
    Step::Rest(3_400_000_000),
    Step::Rest(18_446_744_073_709_551_615),
];

/// The call of a step.
fn call_of<P: Numbered>(alloc: Global, step: Step, fuse: &Fuse) -> Result<Call<P>, AllocError> {
    Ok(match step {
        Step::Limit(egress) => Call::Limit {
            now: 0,
            peer: P::numbered(alloc, 1, fuse)?,
            egress: Some(egress),
            ingress: None,
        },
        Step::Send(length, latency) => Call::Enqueue {
            now: 0,
            origin: P::numbered(alloc, 1, fuse)?,
            recipient: P::numbered(alloc, 2, fuse)?,
            channel: 7,
            message: contents(alloc, 7, length)?,
            latency,
            should_deliver: true,
        },
        Step::Advance(now, _) | Step::Rest(now) => Call::Advance { now },
    })
}

/// How many messages are done.
fn count_done<P>(reply: &Reply<P>) -> Result<usize, Error> {
    match reply {
        Reply::Done(done) => Ok(done.len()),
        Reply::Next(_) => Ok(0),
        Reply::Refused(error) => Err(*error),
    }
}

/// Makes the call of a step. Answers how many messages are done.
fn take<P: Numbered>(
    alloc: Global,
    state: &mut State<P>,
    step: Step,
    fuse: &Fuse,
) -> Result<usize, Error> {
    let call = call_of(alloc, step, fuse)?;
    let reply = make(state, call)?;
    count_done(&reply)
}

/// Takes a step that may be refused once for want of memory.
fn take_at_last<P: Numbered>(
    alloc: Global,
    state: &mut State<P>,
    step: Step,
    fuse: &Fuse,
) -> Result<usize, Error> {
    match take(alloc, state, step, fuse) {
        Err(Error::OutOfMemory) => take(alloc, state, step, fuse),
        taken => taken,
    }
}

/// `State::advance`. Answers how many messages are done.
fn advance<P: Numbered>(state: &mut State<P>, now: u64) -> Result<usize, Error> {
    Ok(state.advance(now)?.len())
}

/// `State::advance_counted`. Answers how many messages are done, and how much happens.
fn advance_counted<P: Numbered>(state: &mut State<P>, now: u64) -> Result<(usize, u128), Error> {
    let (done, events) = state.advance_counted(now)?;
    Ok((done.len(), events))
}

/// Lets time go on to a moment up to which nothing happens, with the next clone of a peer refused.
fn rest<P: Numbered>(rt: &impl Abort, state: &mut State<P>, now: u64, fuse: &Fuse) {
    let next = state.next();
    fuse.set(1);
    assert!(rt; advance(state, now) == Ok(0), "a rest up to {now}");
    assert!(rt;
        advance_counted(state, now) == Ok((0, 0)),
        "a counted rest up to {now}"
    );
    assert!(rt; state.next() == next, "next after {now}");
    assert!(rt; fuse.get() == 1, "a clone up to {now}");
    fuse.set(0);
}

/// Takes a step by which so many messages are done.
fn expect_done<P: Numbered>(
    rt: &(impl Abort + AllocGlobal),
    state: &mut State<P>,
    step: Step,
    done: usize,
    fuse: &Fuse,
) {
    let taken = take_at_last(rt.alloc(), state, step, fuse);
    assert!(rt; taken == Ok(done), "{taken:?}");
}

fn take_all<P: Numbered>(rt: &(impl Abort + AllocGlobal), fuse: &Fuse) {
    let mut state = State::<P>::new(rt.alloc());
    take_each(rt, &mut state, fuse);
}

/// Takes the steps on that scheduler.
fn take_each<P: Numbered>(rt: &(impl Abort + AllocGlobal), state: &mut State<P>, fuse: &Fuse) {
    for step in STEPS {
        match step {
            Step::Rest(now) => rest(rt, state, now, fuse),
            Step::Limit(_) | Step::Send(_, _) => expect_done(rt, state, step, 0, fuse),
            Step::Advance(_, done) => expect_done(rt, state, step, done, fuse),
        }
    }
}

/// In the gate no allocation is refused, and in `make hostile` each in turn.
#[test]
fn rests_with_little_memory(rt: HostRuntime) -> Result<(), Fail> {
    let fuse = match fuse_of(rt.alloc(), 0) {
        Ok(fuse) => fuse,
        Err(_) => fuse_of(rt.alloc(), 0)?,
    };
    take_all::<u64>(&rt, &fuse);
    take_all::<Name>(&rt, &fuse);
    Ok(())
}
