//! Messages that are known by their length, alone or behind bytes.
use crate::same::same;
use bytes::Bytes;
use fairness::error::Error;
use link_scheduler::transmitter::{Completion, Contents, Outgoing, Payload, State};
use std::alloc::Global;
use std::process::Abort;

/// At half as many bytes a second it takes two seconds.
const LONGEST: usize = usize::MAX - 1;

/// A message of peer 1 to peer 2.
fn message(contents: Contents) -> Outgoing<u64, Contents> {
    Outgoing {
        origin: 1,
        recipient: 2,
        channel: 7,
        message: contents,
        latency: 5,
        should_deliver: true,
    }
}

/// One message of peer 1 is done, so long, with those bytes at its front.
fn expect_one(
    rt: &impl Abort,
    done: &[Completion<u64, Contents>],
    length: usize,
    front: &[u8],
    at: u64,
) {
    same(rt, &done.len(), &1);
    for one in done {
        same(rt, &one.message.len(), &length);
        same(rt, &one.message.given(), &front);
        same(rt, &one.done_at, &at);
        same(rt, &one.deliver_at, &at.checked_add(5));
    }
}

/// A message as long as any may be is sent under a cap, and one of bytes and of zeros behind it.
fn send(rt: &(impl Abort + AllocGlobal), state: &mut State<u64, Contents>) -> Result<(), Error> {
    let _none = state.limit(0, &1, Some(LONGEST / 2), None)?;
    let sent = state.enqueue(0, 1, 2, 7, Contents::zeros(LONGEST), 5, true)?;
    same(rt, &sent.len(), &0);
    let few = Bytes::from_vec(vec![in rt.alloc(); 9u8; 3]?)?;
    let mut both = Vec::new(rt.alloc());
    both.push(message(Contents::padded(few, LONGEST / 2)))?;
    let sent = state.enqueue_all(0, both)?;
    same(rt, &sent.len(), &0);
    same(rt, &state.next(), &Some(2_000_000_000));
    let done = state.advance(2_000_000_000)?;
    expect_one(rt, &done, LONGEST, &[], 2_000_000_000);
    let (done, _events) = state.advance_counted(3_000_000_000)?;
    expect_one(rt, &done, LONGEST / 2, &[9, 9, 9], 3_000_000_000);
    Ok(())
}

#[test]
fn a_length_takes_no_memory_and_comes_back(rt: HostRuntime) -> Result<(), Error> {
    let mut state = State::with_payload(rt.alloc(), 0);
    send(&rt, &mut state)
}

#[test]
fn bytes_and_the_zeros_behind_them_are_all_its_bytes(rt: HostRuntime) -> Result<(), Error> {
    let few = Bytes::from_vec(vec![in rt.alloc(); 9u8; 3]?)?;
    let padded = Contents::padded(few, 5);
    same(&rt, &padded.len(), &5);
    assert!(rt; !padded.is_empty());
    assert!(rt; Contents::zeros(0).is_empty());
    let all = Bytes::of_contents(rt.alloc(), &padded)?;
    same(&rt, &all.as_slice(), &[9, 9, 9, 0, 0].as_slice());
    let kept = Contents::of_contents(rt.alloc(), &padded)?;
    same(&rt, &kept.given(), &[9, 9, 9].as_slice());
    same(&rt, &kept.share()?.len(), &5);
    let whole = Contents::padded(all, 2);
    same(
        &rt,
        &whole.into_contents().given(),
        &[9, 9, 9, 0, 0].as_slice(),
    );
    Ok(())
}
