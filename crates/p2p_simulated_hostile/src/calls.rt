//! Calls of a scheduler and their answers, both as the lines of a script say them.
//!
//! A row is the line of a call, a colon, and what is printed of its answer, a completion for each
//! message that is done. Each byte of a message is its channel. A list of calls is a text, with a
//! row in each line.
use crate::peers::{Fuse, Numbered};
use bytes::Bytes;
use fairness::error::Error;
use link_replay::replay::replay;
use link_scheduler::call::{Call, Reply};
use link_scheduler::transmitter::{Completion, State};
use std::alloc::{AllocError, Global};
use std::cell::Cell;
use std::process::Abort;
use std::rc::Rc;
use std::str::SplitWhitespace;

/// A number of 64 bits. Where there is none, 0.
fn number(words: &mut SplitWhitespace<'_>) -> u64 {
    moment(words).unwrap_or(0)
}

/// A number of 64 bits, or none.
fn moment(words: &mut SplitWhitespace<'_>) -> Option<u64> {
    number_in(words.next()?)
}

/// The number of 64 bits that a word is.
fn number_in(word: &str) -> Option<u64> {
    word.parse().ok()
}

/// Takes a word. Answers whether it is that one.
fn takes(words: &mut SplitWhitespace<'_>, wanted: &str) -> bool {
    match words.next() {
        Some(word) => word == wanted,
        None => false,
    }
}

fn cap(words: &mut SplitWhitespace<'_>) -> Option<usize> {
    words.next()?.parse().ok()
}

fn peer<P: Numbered>(
    alloc: Global,
    words: &mut SplitWhitespace<'_>,
    fuse: &Fuse,
) -> Result<P, AllocError> {
    P::numbered(alloc, (number(words) % 256) as u8, fuse)
}

/// So many bytes, each of which is the channel.
pub fn contents(alloc: Global, channel: u64, length: u64) -> Result<Bytes, AllocError> {
    let bytes = vec![in alloc; (channel % 256) as u8; length as usize]?;
    Ok(Bytes::from_vec(bytes)?)
}

/// The rest of an `enqueue`.
fn enqueue_of<P: Numbered>(
    alloc: Global,
    words: &mut SplitWhitespace<'_>,
    fuse: &Fuse,
) -> Result<Call<P>, AllocError> {
    let now = number(words);
    let origin = peer(alloc, words, fuse)?;
    let recipient = peer(alloc, words, fuse)?;
    let channel = number(words);
    let length = number(words);
    Ok(Call::Enqueue {
        now,
        origin,
        recipient,
        channel,
        message: contents(alloc, channel, length)?,
        latency: number(words),
        should_deliver: number(words) == 1,
    })
}

/// The call of a line.
fn call_of<P: Numbered>(alloc: Global, line: &str, fuse: &Fuse) -> Result<Call<P>, AllocError> {
    let mut words = line.split_whitespace();
    let words = &mut words;
    match words.next() {
        Some("limit") => Ok(Call::Limit {
            now: number(words),
            peer: peer(alloc, words, fuse)?,
            egress: cap(words),
            ingress: cap(words),
        }),
        Some("limitlink") => Ok(Call::LimitLink {
            now: number(words),
            origin: peer(alloc, words, fuse)?,
            recipient: peer(alloc, words, fuse)?,
            cap: cap(words),
        }),
        Some("enqueue") => enqueue_of(alloc, words, fuse),
        Some("advance") => Ok(Call::Advance { now: number(words) }),
        _ => Ok(Call::Next),
    }
}

/// How many words follow the name of a call. Where there is no such call, none.
fn arguments_of(name: &str) -> Option<u64> {
    match name {
        "limit" | "limitlink" => Some(4),
        "enqueue" => Some(7),
        "advance" => Some(1),
        "next" => Some(0),
        _ => None,
    }
}

/// Whether the word is a number of 64 bits, or stands for none.
fn is_argument(word: &str) -> bool {
    word == "-" || number_in(word).is_some()
}

/// Whether a line is a name of a call and as many arguments as it has.
fn is_whole(line: &str) -> bool {
    let mut words = line.split_whitespace();
    let Some(name) = words.next() else {
        return false;
    };
    let mut count = 0u64;
    for word in words {
        if !is_argument(word) {
            return false;
        }
        count = count.saturating_add(1);
    }
    arguments_of(name) == Some(count)
}

/// The call of a row, and what is printed of its answer. A row without a colon, and a call with too
/// few words or too many, are faults of the list.
fn parts_of<'a>(rt: &impl Abort, row: &'a str) -> (&'a str, &'a str) {
    let parts = row.split_once(':').expect(rt, "a row has no colon");
    assert!(rt; is_whole(parts.0), "the row {row}");
    parts
}

/// Whether the words go on with the line of a completion.
fn says_done<P: Numbered>(words: &mut SplitWhitespace<'_>, done: &Completion<P>) -> bool {
    says_pair(words, done) && says_message(words, done) && are_bytes_of(done)
}

/// Whether the words go on with `done` and the two peers.
fn says_pair<P: Numbered>(words: &mut SplitWhitespace<'_>, done: &Completion<P>) -> bool {
    takes(words, "done")
        && number(words) == done.origin.number() as u64
        && number(words) == done.recipient.number() as u64
}

/// Whether the words go on with the channel, the length and the arrival.
fn says_message<P: Numbered>(words: &mut SplitWhitespace<'_>, done: &Completion<P>) -> bool {
    number(words) == done.channel
        && number(words) == done.message.len() as u64
        && moment(words) == done.deliver_at
}

/// Whether the first byte and the last are the channel, where there are any.
fn are_bytes_of<P: Numbered>(done: &Completion<P>) -> bool {
    let bytes = done.message.as_slice();
    let mut ends = bytes.first().into_iter().chain(bytes.last());
    ends.all(|byte| *byte == (done.channel % 256) as u8)
}

/// The number by which a refusal is printed.
fn number_of(error: Error) -> u64 {
    match error {
        Error::OutOfMemory => 1,
        Error::NumberTooLarge => 2,
        Error::MomentTooLate => 3,
        Error::FlowIdsUsedUp => 4,
    }
}

/// Whether the words are the lines of these completions.
fn say_all_done<P: Numbered>(words: &mut SplitWhitespace<'_>, all: &[Completion<P>]) -> bool {
    let mut are_said = true;
    for done in all {
        are_said = says_done(words, done) && are_said;
    }
    are_said && words.next().is_none()
}

/// Whether a reply is what the text says.
fn is_wanted<P: Numbered>(reply: &Reply<P>, wanted: &str) -> bool {
    let mut words = wanted.split_whitespace();
    match reply {
        Reply::Done(completions) => say_all_done(&mut words, completions),
        Reply::Next(next) => says_next(&mut words, *next),
        Reply::Refused(error) => says_refused(&mut words, *error),
    }
}

fn says_next(words: &mut SplitWhitespace<'_>, next: Option<u64>) -> bool {
    takes(words, "next") && moment(words) == next && words.next().is_none()
}

fn says_refused(words: &mut SplitWhitespace<'_>, error: Error) -> bool {
    takes(words, "refused") && number(words) == number_of(error) && words.next().is_none()
}

fn lacks_memory<P: Numbered>(reply: &Reply<P>) -> bool {
    matches!(reply, Reply::Refused(Error::OutOfMemory))
}

/// A fuse that burns at that clone.
pub fn fuse_of(alloc: Global, clone: u64) -> Result<Fuse, AllocError> {
    Ok(Rc::new(alloc, Cell::new(clone))?)
}

/// `Call::make`.
pub fn make<P: Numbered>(state: &mut State<P>, call: Call<P>) -> Result<Reply<P>, Error> {
    call.make(state)
}

/// `replay`.
pub fn replayed<P: Numbered>(alloc: Global, calls: &[Call<P>]) -> Result<Vec<Reply<P>>, Error> {
    replay(alloc, calls)
}

/// The messages that are done, where nothing else is answered.
pub fn done_of<P: Numbered>(reply: &Reply<P>) -> Option<&[Completion<P>]> {
    match reply {
        Reply::Done(completions) => Some(completions),
        _ => None,
    }
}

/// Makes the call of a line.
fn made<P: Numbered>(
    alloc: Global,
    state: &mut State<P>,
    line: &str,
    fuse: &Fuse,
) -> Result<Reply<P>, Error> {
    let call = call_of(alloc, line, fuse)?;
    make(state, call)
}

/// Makes the call of a line. Where it is refused, the next event is as before.
fn answer<P: Numbered>(
    rt: &(impl Abort + AllocGlobal),
    state: &mut State<P>,
    line: &str,
    fuse: &Fuse,
) -> Reply<P> {
    let before = state.next();
    match made(rt.alloc(), state, line, fuse) {
        Ok(reply) => reply,
        Err(error) => {
            assert!(rt; state.next() == before, "after a refusal of {line}");
            Reply::Refused(error)
        }
    }
}

/// Makes the call of a line, and compares the answer. Answers whether it was refused for want of
/// memory instead, where it may be.
fn is_refused<P: Numbered>(
    rt: &(impl Abort + AllocGlobal),
    state: &mut State<P>,
    row: &str,
    may_be_refused: bool,
    fuse: &Fuse,
) -> bool {
    let (line, wanted) = parts_of(rt, row);
    let reply = answer(rt, state, line, fuse);
    let is_refused = may_be_refused && lacks_memory(&reply);
    assert!(rt;
        is_refused || is_wanted(&reply, wanted),
        "the answer to {line}"
    );
    is_refused
}

/// Makes the call of a row, and compares the answer. It may be refused for want of memory where none
/// was so far, and is made again. Answers whether one was.
fn play_row<P: Numbered>(
    rt: &(impl Abort + AllocGlobal),
    state: &mut State<P>,
    row: &str,
    was_refused: bool,
    fuse: &Fuse,
) -> bool {
    if is_refused(rt, state, row, !was_refused, fuse) {
        let _is_refused = is_refused(rt, state, row, false, fuse);
        return true;
    }
    was_refused
}

/// Makes the calls on a scheduler whose flow ids begin at `first`, and compares each answer. One
/// call may be refused for want of memory, and is made again. Answers whether one was.
pub fn play<P: Numbered>(
    rt: &(impl Abort + AllocGlobal),
    first: u64,
    rows: &str,
    fuse: &Fuse,
) -> bool {
    let mut state = State::<P>::with_first_id(rt.alloc(), first);
    play_rows(rt, &mut state, rows, fuse)
}

/// Makes the calls on that scheduler.
fn play_rows<P: Numbered>(
    rt: &(impl Abort + AllocGlobal),
    state: &mut State<P>,
    rows: &str,
    fuse: &Fuse,
) -> bool {
    let mut is_refused = false;
    for row in rows.split('\n') {
        is_refused = play_row(rt, state, row, is_refused, fuse);
    }
    is_refused
}

/// The calls of the rows. Where one of the allocations for them is refused, it is made again.
fn calls_of<P: Numbered>(rt: &(impl Abort + AllocGlobal), rows: &str, fuse: &Fuse) -> Vec<Call<P>> {
    match listed(rt, rows, fuse) {
        Ok(calls) => calls,
        Err(_) => listed(rt, rows, fuse).expect(rt, "no room for the calls"),
    }
}

fn listed<P: Numbered>(
    rt: &(impl Abort + AllocGlobal),
    rows: &str,
    fuse: &Fuse,
) -> Result<Vec<Call<P>>, AllocError> {
    let mut calls = Vec::new(rt.alloc());
    for row in rows.split('\n') {
        let (line, _) = parts_of(rt, row);
        calls.push(call_of(rt.alloc(), line, fuse)?)?;
    }
    Ok(calls)
}

/// Replays the calls. Where there is no room for the replies, once more.
fn replies_to<P: Numbered>(rt: &(impl Abort + AllocGlobal), calls: &[Call<P>]) -> Vec<Reply<P>> {
    match replayed(rt.alloc(), calls) {
        Ok(replies) => replies,
        Err(error) => {
            assert!(rt; error == Error::OutOfMemory, "{error:?}");
            replayed(rt.alloc(), calls).expect(rt, "no room for the replies")
        }
    }
}

/// Replays the calls on a new scheduler, and compares each reply. One may be a refusal for want of
/// memory. Then the others are those of the list without that call. Answers whether one was.
pub fn play_list<P: Numbered>(rt: &(impl Abort + AllocGlobal), rows: &str, fuse: &Fuse) -> bool {
    let calls = calls_of::<P>(rt, rows, fuse);
    let replies = replies_to(rt, &calls);
    assert!(rt; replies.len() == calls.len(), "a reply for each call");
    match replies.iter().position(lacks_memory) {
        None => {
            expect_replies(rt, &replies, rows);
            false
        }
        Some(place) => {
            expect_replies(rt, replies.get(..place).unwrap_or(&replies), rows);
            expect_others(rt, calls, replies, place);
            true
        }
    }
}

/// Compares the answer to a line.
fn expect<P: Numbered>(rt: &impl Abort, reply: &Reply<P>, line: &str, wanted: &str) {
    assert!(rt; is_wanted(reply, wanted), "the reply to {line}");
}

/// The first replies are those of the rows.
fn expect_replies<P: Numbered>(rt: &impl Abort, replies: &[Reply<P>], rows: &str) {
    for (reply, row) in replies.iter().zip(rows.split('\n')) {
        let (line, wanted) = parts_of(rt, row);
        expect(rt, reply, line, wanted);
    }
}

/// The replies but that at the place are those of the list without its call.
fn expect_others<P: Numbered>(
    rt: &(impl Abort + AllocGlobal),
    calls: Vec<Call<P>>,
    replies: Vec<Reply<P>>,
    place: usize,
) {
    let others = replies_to(rt, &without(calls, place));
    let replies = without(replies, place);
    assert!(rt; are_same(&replies, &others), "after a refusal at {place}");
}

/// The list without what stands at that place.
fn without<T: Drop>(mut list: Vec<T>, place: usize) -> Vec<T> {
    if place < list.len() {
        let _left_out = list.remove(place);
    }
    list
}

fn are_same<P: Numbered>(one: &[Reply<P>], other: &[Reply<P>]) -> bool {
    for (one, other) in one.iter().zip(other) {
        if !is_same(one, other) {
            return false;
        }
    }
    one.len() == other.len()
}

fn is_same<P: Numbered>(one: &Reply<P>, other: &Reply<P>) -> bool {
    match (one, other) {
        (Reply::Done(one), Reply::Done(other)) => are_same_done(one, other),
        (Reply::Next(one), Reply::Next(other)) => one == other,
        (Reply::Refused(one), Reply::Refused(other)) => one == other,
        _ => false,
    }
}

fn are_same_done<P: Numbered>(one: &[Completion<P>], other: &[Completion<P>]) -> bool {
    for (one, other) in one.iter().zip(other) {
        if !is_same_done(one, other) {
            return false;
        }
    }
    one.len() == other.len()
}

fn is_same_done<P: Numbered>(one: &Completion<P>, other: &Completion<P>) -> bool {
    one.origin.number() == other.origin.number()
        && one.recipient.number() == other.recipient.number()
        && is_same_message(one, other)
}

/// Whether the messages are the same and arrive at the same moment.
fn is_same_message<P: Numbered>(one: &Completion<P>, other: &Completion<P>) -> bool {
    one.channel == other.channel
        && one.done_at == other.done_at
        && one.deliver_at == other.deliver_at
        && one.message.len() == other.message.len()
        && are_bytes_of(one)
        && are_bytes_of(other)
}
