//! How many peers a call clones.
use crate::same::same;
use fairness::error::Error;
use fairness::peer::Peer;
use link_scheduler::transmitter::{Completion, State};
use scheduler_calls::calls::contents;
use scheduler_calls::text::MILLI;
use std::alloc::{AllocError, Global};
use std::cell::Cell;
use std::process::Abort;
use std::rc::Rc;

/// A moment far in the future.
const FAR: u64 = 1_000_000_000_000_000;

/// How many clones were made of all names that share it.
type Count = Rc<Cell<u64>>;

/// A peer with a name, of which a clone takes memory and is counted.
#[derive(Drop)]
#[derive_where(PartialEq, Eq, PartialOrd, Ord)]
struct Name {
    text: String,
    #[derive_where(skip(EqHashOrd))]
    count: Count,
}

impl Peer for Name {
    fn clone_peer(&self) -> Option<Name> {
        let clones = self.count.get();
        self.count.set(clones.saturating_add(1));
        let Ok(text) = self.text.clone() else {
            return None;
        };
        let Ok(count) = self.count.clone() else {
            return None;
        };
        Some(Name { text, count })
    }
}

/// The peer of that number. Its name is the number.
fn named(alloc: Global, number: u64, count: &Count) -> Result<Name, AllocError> {
    Ok(Name {
        text: format!(in alloc; "{number}")?,
        count: count.clone()?,
    })
}

/// Sends so many bytes at moment zero.
fn send(
    alloc: Global,
    state: &mut State<Name>,
    between: (u64, u64),
    length: usize,
    latency: u64,
    count: &Count,
) -> Result<(), Error> {
    let (origin, recipient) = between;
    let (origin, recipient) = (
        named(alloc, origin, count)?,
        named(alloc, recipient, count)?,
    );
    let message = contents(alloc, 7, length)?;
    let _done = state.enqueue(0, origin, recipient, 7, message, latency, true)?;
    Ok(())
}

/// Each of so many peers sends a byte at moment zero.
fn send_each(
    alloc: Global,
    state: &mut State<Name>,
    peers: u64,
    latency: u64,
    count: &Count,
) -> Result<(), Error> {
    for number in 0..peers {
        let pair = (number, number.saturating_add(2));
        send(alloc, state, pair, 1, latency, count)?;
    }
    Ok(())
}

/// A cap for each of so many peers.
fn cap_each(
    alloc: Global,
    state: &mut State<Name>,
    peers: u64,
    count: &Count,
) -> Result<(), Error> {
    for number in 0..peers {
        let peer = named(alloc, number, count)?;
        let _done = state.limit(0, &peer, Some(1000), None)?;
    }
    Ok(())
}

/// So many peers with a cap each. Where `do_wait` says so, a message from each of them waits for an
/// arrival far in the future.
fn put_peers(
    alloc: Global,
    state: &mut State<Name>,
    peers: u64,
    do_wait: bool,
    count: &Count,
) -> Result<(), Error> {
    if do_wait {
        send_each(alloc, state, peers, FAR, count)?;
    }
    cap_each(alloc, state, peers, count)?;
    if do_wait {
        send_each(alloc, state, peers, 0, count)?;
    }
    Ok(())
}

/// The message is done.
fn expect_done(rt: &impl Abort, done: &[Completion<Name>]) {
    let [completion] = done else {
        assert!(rt; false, "not one completion");
        return;
    };
    same(rt, &completion.origin.text.as_str(), &"0");
    same(rt, &completion.recipient.text.as_str(), &"1");
    same(rt, &completion.channel, &7);
    same(rt, &completion.message.len(), &100);
    same(rt, &completion.done_at, &(100 * MILLI));
    same(rt, &completion.deliver_at, &Some(100 * MILLI));
}

/// Of so many peers the first sends a message to the second. Answers the clones that the advance
/// makes in which it is done.
fn clones_of(
    rt: &(impl Abort + AllocGlobal),
    state: &mut State<Name>,
    peers: u64,
    do_wait: bool,
    count: &Count,
) -> Result<u64, Error> {
    put_peers(rt.alloc(), state, peers, do_wait, count)?;
    send(rt.alloc(), state, (0, 1), 100, 0, count)?;
    same(rt, &state.next(), &Some(100 * MILLI));
    let before = count.get();
    let done = state.advance(100 * MILLI)?;
    expect_done(rt, &done);
    Ok(count.get().saturating_sub(before))
}

/// The same on a new scheduler.
fn clones_beside(rt: &(impl Abort + AllocGlobal), peers: u64, do_wait: bool) -> Result<u64, Error> {
    let count = Rc::new(rt.alloc(), Cell::new(0))?;
    let mut state = State::new(rt.alloc());
    clones_of(rt, &mut state, peers, do_wait, &count)
}

#[test]
fn a_call_clones_no_peers_that_it_does_not_touch(rt: HostRuntime) -> Result<(), Error> {
    for do_wait in [false, true] {
        let few = clones_beside(&rt, 10, do_wait)?;
        assert!(rt; few > 0, "the answer has no peers of its own");
        for peers in [100, 1000] {
            let many = clones_beside(&rt, peers, do_wait)?;
            let differ = many.abs_diff(few);
            assert!(rt;
                differ <= 16,
                "{many} beside {peers} peers, {few} beside 10"
            );
        }
    }
    Ok(())
}
