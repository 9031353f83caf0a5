//! Messages and caps of each kind, made one by one and as a list, and many messages in flight: with
//! ample memory none is refused.
use crate::calls::{contents, done_of, fuse_of, make, replayed};
use crate::peers::{Fuse, Name, Numbered};
use fairness::error::Error;
use link_scheduler::call::{Call, Reply};
use link_scheduler::transmitter::{Completion, State};
use std::alloc::{AllocError, Global};
use std::process::Abort;
use std::test::Fail;

const SECOND: u64 = 1_000_000_000;

/// What one byte takes where 1000 may be sent in a second.
const MILLI: u64 = 1_000_000;

const MOMENTS: [u64; 3] = [0, 1, 1_000_000_000_007];

const CHANNELS: [u64; 8] = [
    0,
    1,
    255,
    256,
    1000,
    65_536,
    4_294_967_296,
    18_446_744_073_709_551_615,
];

const LENGTHS: [u64; 3] = [0, 1, 500];

const LATENCIES: [u64; 2] = [0, 3];

/// What a message from peer 1 to peer 2 finds.
#[derive(Clone, Copy, Debug)]
enum Found {
    /// Nothing is limited.
    NoLimit,
    /// Peer 1 may send 1000 bytes a second.
    Idle,
    /// It sends them to peer 2 just then, so the message waits for a second.
    Busy,
}

const FINDS: [Found; 3] = [Found::NoLimit, Found::Idle, Found::Busy];

/// A message from peer 1 to peer 2.
#[derive(Clone, Copy, Debug)]
struct Kind {
    found: Found,
    now: u64,
    channel: u64,
    length: u64,
    latency: u64,
    should_deliver: bool,
}

impl Kind {
    /// The moment at which the message is done.
    fn done_at(&self) -> u64 {
        let begins = match self.found {
            Found::Busy => self.now.saturating_add(SECOND),
            Found::NoLimit | Found::Idle => self.now,
        };
        match self.found {
            Found::NoLimit => begins,
            Found::Idle | Found::Busy => begins.saturating_add(self.length.saturating_mul(MILLI)),
        }
    }

    fn arrives_at(&self) -> Option<u64> {
        let arrival = self.done_at().saturating_add(self.latency);
        if self.should_deliver {
            Some(arrival)
        } else {
            None
        }
    }
}

fn limit<P: Numbered>(
    alloc: Global,
    now: u64,
    egress: usize,
    fuse: &Fuse,
) -> Result<Call<P>, AllocError> {
    Ok(Call::Limit {
        now,
        peer: P::numbered(alloc, 1, fuse)?,
        egress: Some(egress),
        ingress: None,
    })
}

fn send<P: Numbered>(
    alloc: Global,
    kind: &Kind,
    recipient: u8,
    fuse: &Fuse,
) -> Result<Call<P>, AllocError> {
    Ok(Call::Enqueue {
        now: kind.now,
        origin: P::numbered(alloc, 1, fuse)?,
        recipient: P::numbered(alloc, recipient, fuse)?,
        channel: kind.channel,
        message: contents(alloc, kind.channel, kind.length)?,
        latency: kind.latency,
        should_deliver: kind.should_deliver,
    })
}

/// The calls that lead to what the message finds.
fn put_before<P: Numbered>(
    alloc: Global,
    kind: &Kind,
    calls: &mut Vec<Call<P>>,
    fuse: &Fuse,
) -> Result<(), AllocError> {
    match kind.found {
        Found::NoLimit => {}
        Found::Idle | Found::Busy => calls.push(limit(alloc, kind.now, 1000, fuse)?)?,
    }
    if let Found::Busy = kind.found {
        calls.push(send(alloc, &message(kind.now, 5, 1000), 2, fuse)?)?;
    }
    Ok(())
}

/// A message that is delivered with no latency.
fn message(now: u64, channel: u64, length: u64) -> Kind {
    Kind {
        found: Found::Idle,
        now,
        channel,
        length,
        latency: 0,
        should_deliver: true,
    }
}

/// The calls that lead to what the message finds, the message, and an advance to where it is done.
fn calls_of<P: Numbered>(
    alloc: Global,
    kind: &Kind,
    fuse: &Fuse,
) -> Result<Vec<Call<P>>, AllocError> {
    let mut calls = Vec::new(alloc);
    put_before(alloc, kind, &mut calls, fuse)?;
    calls.push(send(alloc, kind, 2, fuse)?)?;
    calls.push(Call::Advance {
        now: kind.done_at(),
    })?;
    Ok(calls)
}

/// Puts a reply down.
fn put<P: Numbered>(replies: &mut Vec<Reply<P>>, reply: Reply<P>) -> Result<(), AllocError> {
    replies.push(reply)?;
    Ok(())
}

/// Makes a call, and puts its reply down.
fn put_reply<P: Numbered>(
    state: &mut State<P>,
    call: Call<P>,
    replies: &mut Vec<Reply<P>>,
) -> Result<(), Error> {
    let reply = make(state, call)?;
    Ok(put(replies, reply)?)
}

/// Makes the calls one by one on that scheduler.
fn made_on<P: Numbered>(
    state: &mut State<P>,
    calls: Vec<Call<P>>,
    replies: &mut Vec<Reply<P>>,
) -> Result<(), Error> {
    for call in calls {
        put_reply(state, call, replies)?;
    }
    Ok(())
}

/// Makes the calls one by one.
fn made<P: Numbered>(alloc: Global, calls: Vec<Call<P>>) -> Result<Vec<Reply<P>>, Error> {
    let mut state = State::new(alloc);
    let mut replies = Vec::new(alloc);
    made_on(&mut state, calls, &mut replies)?;
    Ok(replies)
}

/// Whether a message is done as one of the kind is.
fn is_of<P: Numbered>(kind: &Kind, done: &Completion<P>) -> bool {
    done.channel == kind.channel
        && done.message.len() as u64 == kind.length
        && done.done_at == kind.done_at()
        && done.deliver_at == kind.arrives_at()
}

/// The message is done last, and none of the calls is refused.
fn is_last<P: Numbered>(kind: &Kind, replies: &[Reply<P>]) -> bool {
    let mut is_last = false;
    for reply in replies {
        let Some(completions) = done_of(reply) else {
            return false;
        };
        if let Some(done) = completions.last() {
            is_last = is_of(kind, done);
        }
    }
    is_last
}

/// The message is sent on a scheduler and in a list of calls.
fn expect<P: Numbered>(rt: &(impl Abort + AllocGlobal), kind: &Kind) -> Result<(), Fail> {
    let fuse = fuse_of(rt.alloc(), 0)?;
    let calls = calls_of::<P>(rt.alloc(), kind, &fuse)?;
    let listed = replayed(rt.alloc(), &calls)?;
    assert!(rt; is_last(kind, &listed), "replay, {kind:?}");
    let one_by_one = made(rt.alloc(), calls)?;
    assert!(rt; is_last(kind, &one_by_one), "{kind:?}");
    Ok(())
}

fn expect_each_length(rt: &(impl Abort + AllocGlobal), kind: Kind) -> Result<(), Fail> {
    for length in LENGTHS {
        for latency in LATENCIES {
            for should_deliver in [true, false] {
                let kind = Kind {
                    length,
                    latency,
                    should_deliver,
                    ..kind
                };
                expect::<u64>(rt, &kind)?;
                expect::<Name>(rt, &kind)?;
            }
        }
    }
    Ok(())
}

#[test]
fn messages_of_each_kind_are_sent(rt: HostRuntime) -> Result<(), Fail> {
    for found in FINDS {
        for now in MOMENTS {
            for channel in CHANNELS {
                let kind = Kind {
                    found,
                    now,
                    channel,
                    length: 0,
                    latency: 0,
                    should_deliver: true,
                };
                expect_each_length(&rt, kind)?;
            }
        }
    }
    Ok(())
}

/// A second after a message of 2000 bytes began, at 1000 bytes a second, a cap comes: when it is
/// done, counted from when it began.
const CAPS: [(Option<usize>, Option<u64>); 5] = [
    (None, Some(2 * SECOND)),
    (Some(0), None),
    (Some(1), Some(1001 * SECOND)),
    (Some(1000), Some(2 * SECOND)),
    (Some(18_446_744_073_709_551_615), Some(2 * SECOND)),
];

/// What the cap is on.
#[derive(Clone, Copy, Debug)]
enum Side {
    Ingress,
    Link,
}

fn cap<P: Numbered>(
    alloc: Global,
    now: u64,
    side: Side,
    most: Option<usize>,
    fuse: &Fuse,
) -> Result<Call<P>, AllocError> {
    Ok(match side {
        Side::Ingress => Call::Limit {
            now,
            peer: P::numbered(alloc, 2, fuse)?,
            egress: None,
            ingress: most,
        },
        Side::Link => Call::LimitLink {
            now,
            origin: P::numbered(alloc, 1, fuse)?,
            recipient: P::numbered(alloc, 2, fuse)?,
            cap: most,
        },
    })
}

/// The calls before a cap, at 1000 bytes a second, with a message that began then, or with none.
fn put_uncapped<P: Numbered>(
    alloc: Global,
    begun: u64,
    is_sent: bool,
    calls: &mut Vec<Call<P>>,
    fuse: &Fuse,
) -> Result<(), AllocError> {
    calls.push(limit(alloc, begun, 1000, fuse)?)?;
    if is_sent {
        calls.push(send(alloc, &message(begun, 0, 2000), 2, fuse)?)?;
    }
    Ok(())
}

/// An advance to the cap, the cap, and the next event.
fn put_cap<P: Numbered>(
    alloc: Global,
    now: u64,
    side: Side,
    most: Option<usize>,
    calls: &mut Vec<Call<P>>,
    fuse: &Fuse,
) -> Result<(), AllocError> {
    calls.push(Call::Advance { now })?;
    calls.push(cap(alloc, now, side, most, fuse)?)?;
    calls.push(Call::Next)?;
    Ok(())
}

/// The calls up to the cap a second later, with a message that began then, or with none; and the
/// next event.
fn capped<P: Numbered>(
    alloc: Global,
    begun: u64,
    is_sent: bool,
    side: Side,
    most: Option<usize>,
) -> Result<Vec<Call<P>>, AllocError> {
    let fuse = fuse_of(alloc, 0)?;
    let now = begun.saturating_add(SECOND);
    let mut calls = Vec::new(alloc);
    put_uncapped(alloc, begun, is_sent, &mut calls, &fuse)?;
    put_cap(alloc, now, side, most, &mut calls, &fuse)?;
    Ok(calls)
}

/// Whether a call is answered, and no message is done.
fn is_quiet<P: Numbered>(reply: &Reply<P>) -> bool {
    match done_of(reply) {
        Some(completions) => completions.is_empty(),
        None => false,
    }
}

fn says_next<P: Numbered>(reply: &Reply<P>, wanted: Option<u64>) -> bool {
    match reply {
        Reply::Next(next) => *next == wanted,
        _ => false,
    }
}

/// Nothing is done, the last call answers that moment, and none is refused.
fn is_next<P: Numbered>(replies: &[Reply<P>], wanted: Option<u64>) -> bool {
    let mut is_next = false;
    for reply in replies {
        is_next = says_next(reply, wanted);
        if !is_next && !is_quiet(reply) {
            return false;
        }
    }
    is_next
}

/// The cap is set in calls that are made one by one, and in a list of them.
fn expect_next<P: Numbered>(
    rt: &(impl Abort + AllocGlobal),
    calls: Vec<Call<P>>,
    wanted: Option<u64>,
) -> Result<(), Fail> {
    let listed = replayed(rt.alloc(), &calls)?;
    assert!(rt; is_next(&listed, wanted), "replay, {wanted:?}");
    let one_by_one = made(rt.alloc(), calls)?;
    assert!(rt; is_next(&one_by_one, wanted), "{wanted:?}");
    Ok(())
}

fn expect_cap<P: Numbered>(
    rt: &(impl Abort + AllocGlobal),
    begun: u64,
    side: Side,
) -> Result<(), Fail> {
    for is_sent in [true, false] {
        for (most, takes) in CAPS {
            let wanted = if is_sent {
                takes.map(|time| begun.saturating_add(time))
            } else {
                None
            };
            let calls = capped::<P>(rt.alloc(), begun, is_sent, side, most)?;
            expect_next(rt, calls, wanted)?;
        }
    }
    Ok(())
}

#[test]
fn caps_of_each_kind_are_set(rt: HostRuntime) -> Result<(), Fail> {
    for begun in MOMENTS {
        for side in [Side::Ingress, Side::Link] {
            expect_cap::<u64>(&rt, begun, side)?;
            expect_cap::<Name>(&rt, begun, side)?;
        }
    }
    Ok(())
}

/// The peers of the crowd are those from the first number to before the last.
const CROWD: (u8, u8) = (2, 66);

/// Each of the crowd may receive 1000 bytes a second.
fn limit_crowd<P: Numbered>(
    alloc: Global,
    calls: &mut Vec<Call<P>>,
    fuse: &Fuse,
) -> Result<(), AllocError> {
    for peer in CROWD.0..CROWD.1 {
        calls.push(Call::Limit {
            now: 0,
            peer: P::numbered(alloc, peer, fuse)?,
            egress: None,
            ingress: Some(1000),
        })?;
    }
    Ok(())
}

/// Peer 1 sends each of the crowd 1000 bytes.
fn send_to_crowd<P: Numbered>(
    alloc: Global,
    channel: u64,
    calls: &mut Vec<Call<P>>,
    fuse: &Fuse,
) -> Result<(), AllocError> {
    let kind = message(0, channel, 1000);
    for peer in CROWD.0..CROWD.1 {
        calls.push(send(alloc, &kind, peer, fuse)?)?;
    }
    Ok(())
}

/// Each of the crowd may receive 1000 bytes a second, and peer 1 sends each of them that, twice. So
/// one message to each is in flight, and one waits.
fn crowd<P: Numbered>(alloc: Global) -> Result<Vec<Call<P>>, AllocError> {
    let fuse = fuse_of(alloc, 0)?;
    let mut calls = Vec::new(alloc);
    limit_crowd(alloc, &mut calls, &fuse)?;
    send_to_crowd(alloc, 0, &mut calls, &fuse)?;
    send_to_crowd(alloc, 1, &mut calls, &fuse)?;
    calls.push(Call::Advance { now: SECOND })?;
    calls.push(Call::Advance { now: 2 * SECOND })?;
    Ok(calls)
}

/// Whether a message of 1000 bytes to that peer is done.
fn is_done<P: Numbered>(done: &Completion<P>, peer: u8, channel: u64, now: u64) -> bool {
    done.recipient.number() == peer
        && done.channel == channel
        && done.message.len() == 1000
        && done.done_at == now
        && done.deliver_at == Some(now)
}

/// The message to each of the crowd is done at that moment, in the order of the peers.
fn are_done<P: Numbered>(reply: &Reply<P>, channel: u64, now: u64) -> bool {
    let Some(completions) = done_of(reply) else {
        return false;
    };
    for (peer, done) in (CROWD.0..CROWD.1).zip(completions) {
        if !is_done(done, peer, channel, now) {
            return false;
        }
    }
    completions.len() == 64
}

/// Whether no message is done by any of the calls.
fn are_quiet<P: Numbered>(replies: &[Reply<P>]) -> bool {
    let mut are_quiet = true;
    for reply in replies {
        are_quiet = is_quiet(reply) && are_quiet;
    }
    are_quiet
}

/// The messages are done by the last two calls.
fn are_crowd<P: Numbered>(replies: &[Reply<P>]) -> bool {
    let Some((second, others)) = replies.split_last() else {
        return false;
    };
    let Some((first, others)) = others.split_last() else {
        return false;
    };
    are_done(first, 0, SECOND) && are_done(second, 1, 2 * SECOND) && are_quiet(others)
}

fn many_at_once<P: Numbered>(rt: &(impl Abort + AllocGlobal)) -> Result<(), Fail> {
    let calls = crowd::<P>(rt.alloc())?;
    let listed = replayed(rt.alloc(), &calls)?;
    assert!(rt; are_crowd(&listed), "replay");
    let one_by_one = made(rt.alloc(), calls)?;
    assert!(rt; are_crowd(&one_by_one));
    Ok(())
}

#[test]
fn many_messages_are_in_flight_and_wait(rt: HostRuntime) -> Result<(), Fail> {
    many_at_once::<u64>(&rt)?;
    many_at_once::<Name>(&rt)
}
