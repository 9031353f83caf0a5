//! What became of the messages of one ordered pair.

use crate::history::MILLION;
use fairness::error::Error;
use fairness::ratio::Ratio;
use std::alloc::Global;

/// Nanoseconds in a second.
const BILLION: u128 = 1_000_000_000;

/// A message. Moments are in nanoseconds since the start.
#[derive(Clone, Copy)]
pub(crate) struct Sent {
    pub(crate) channel: u64,
    pub(crate) length: usize,
    pub(crate) should_deliver: bool,
    pub(crate) enqueued: u64,
    pub(crate) start: Option<u64>,
    /// When nothing was left of it.
    pub(crate) done: Option<u64>,
    /// When it arrives; none for one that is dropped, or not done.
    pub(crate) deliver_at: Option<u64>,
}

/// A time in which one message was in flight at one rate.
#[derive(Clone, Copy)]
pub(crate) struct Piece {
    /// The place of the message in its pair.
    pub(crate) message: usize,
    pub(crate) from: u64,
    pub(crate) to: u64,
    /// In millionths of a byte a second.
    pub(crate) rate: u128,
    /// Whether the message is not to be dropped.
    pub(crate) should_deliver: bool,
}

/// A rate in full, in bytes a second.
#[derive(Clone, Copy, Debug, PartialEq, Eq)]
pub struct FullRate {
    pub amount: Ratio,
    /// Whether the rate is that amount, and not a little more.
    pub is_exact: bool,
}

/// A message in flight, as it stands at a moment.
#[derive(Clone, Copy, Debug)]
pub struct Seen {
    /// The moment at which it was looked up.
    now: u64,
    /// What is left at that moment, in millionths of a byte.
    left: u128,
    /// In millionths of a byte a second.
    rate: u128,
    /// The rate in full.
    full: FullRate,
}

impl Seen {
    /// A message of which so many bytes were left at the moment `since`, looked up now.
    pub fn new(now: u64, since: u64, left: Ratio, full: FullRate) -> Seen {
        let rate = millionths(full.amount);
        let passed = now.saturating_sub(since) as u128;
        let sent = match rate.checked_mul(passed) {
            Some(times) => times / BILLION,
            None => (rate / BILLION).saturating_mul(passed),
        };
        Seen {
            now,
            left: millionths(left).saturating_sub(sent),
            rate,
            full,
        }
    }
}

/// What is known of the first message that is not done.
#[derive(Clone, Copy)]
struct Head {
    seen: u64,
    /// In millionths of a byte, at the moment `seen`.
    left: u128,
    /// None where it was not in flight.
    rate: Option<(u128, FullRate)>,
}

impl Head {
    /// The rate that it had up to that moment, at which so much is left, and that in full where it
    /// is known; none where nothing of it was sent.
    fn passed(&self, to: u64, left: u128, is_exact: bool) -> Option<(u128, Option<FullRate>)> {
        let sent = self.left.saturating_sub(left);
        let mean = pace(sent, to.saturating_sub(self.seen));
        match self.rate {
            Some((rate, reading)) => Some((if is_exact { rate } else { mean }, Some(reading))),
            None if mean > 0 && !is_exact => Some((mean, None)),
            None => None,
        }
    }
}

/// The messages of an ordered pair, in order of enqueue.
pub(crate) struct Track {
    pub(crate) messages: Vec<Sent>,
    pub(crate) pieces: Vec<Piece>,
    /// The rates of the pieces in full, where these are kept.
    pub(crate) readings: Vec<Option<FullRate>>,
    keeps_readings: bool,
    /// The colour of the pair.
    pub(crate) shade: usize,
    /// How many are done. They are done in order of enqueue.
    done: usize,
    head: Head,
}

impl Drop for Track {
    /// Lets go of what it holds.
    #[inline(always)]
    fn drop(self) {
        let Track {
            messages,
            pieces,
            readings,
            keeps_readings: _,
            shade: _,
            done: _,
            head: _,
        } = self;
        drop(messages);
        drop(pieces);
        drop(readings);
    }
}

impl Track {
    /// Nothing was sent.
    pub(crate) fn new(alloc: Global, keeps_readings: bool, shade: usize) -> Track {
        Track {
            messages: Vec::new(alloc),
            pieces: Vec::new(alloc),
            readings: Vec::new(alloc),
            keeps_readings,
            shade,
            done: 0,
            head: Head {
                seen: 0,
                left: 0,
                rate: None,
            },
        }
    }

    /// The rate of a piece in full, where it is known.
    pub(crate) fn reading(&self, place: usize) -> Option<FullRate> {
        match self.readings.get(place) {
            Some(reading) => *reading,
            None => None,
        }
    }

    /// Whether each message is done.
    pub(crate) fn is_idle(&self) -> bool {
        self.done >= self.messages.len()
    }

    /// A message is enqueued.
    pub(crate) fn enqueue(&mut self, message: Sent) -> Result<(), Error> {
        let is_first = self.is_idle();
        let now = message.enqueued;
        self.messages.push(message)?;
        if is_first {
            self.begin(now);
        }
        Ok(())
    }

    /// Nothing is known yet of the first message that is not done.
    fn begin(&mut self, now: u64) {
        let left = match self.messages.get(self.done) {
            Some(message) => (message.length as u128).saturating_mul(MILLION),
            None => 0,
        };
        self.head = Head {
            seen: now,
            left,
            rate: None,
        };
    }

    /// The first message that is not done is in flight. `is_exact`: nothing happened since it was
    /// looked up before.
    pub(crate) fn see(&mut self, seen: Seen, is_exact: bool) -> Result<(), Error> {
        self.pass(seen.now, seen.left, is_exact)?;
        self.start(seen.now, is_exact);
        self.head = Head {
            seen: seen.now,
            left: seen.left,
            rate: Some((seen.rate, seen.full)),
        };
        Ok(())
    }

    /// It started by that moment: at it, or at some moment since it was looked up before.
    fn start(&mut self, now: u64, is_exact: bool) {
        let seen = self.head.seen;
        if let Some(message) = self.messages.get_mut(self.done) {
            if message.start.is_none() {
                message.start = Some(if is_exact { now } else { seen });
            }
        }
    }

    /// The first message that is not done is done at that moment.
    pub(crate) fn finish(
        &mut self,
        now: u64,
        deliver_at: Option<u64>,
        is_exact: bool,
    ) -> Result<(), Error> {
        self.pass(now, 0, is_exact)?;
        self.start(now, is_exact);
        if let Some(message) = self.messages.get_mut(self.done) {
            message.done = Some(now);
            message.deliver_at = deliver_at;
        }
        self.done = self.done.saturating_add(1);
        self.begin(now);
        Ok(())
    }

    /// What is in flight goes on at its rate up to that moment, which ends the picture.
    pub(crate) fn go_on(&mut self, to: u64) -> Result<(), Error> {
        if self.is_idle() || self.head.rate.is_none() {
            return Ok(());
        }
        self.pass(to, 0, true)
    }

    /// Time has gone on to that moment, at which so much is left.
    fn pass(&mut self, to: u64, left: u128, is_exact: bool) -> Result<(), Error> {
        let head = self.head;
        if to <= head.seen {
            return Ok(());
        }
        match head.passed(to, left, is_exact) {
            Some((rate, reading)) => self.send(head.seen, to, rate, reading),
            None => Ok(()),
        }
    }

    /// The first message that is not done had that rate for a time.
    fn send(
        &mut self,
        from: u64,
        to: u64,
        rate: u128,
        reading: Option<FullRate>,
    ) -> Result<(), Error> {
        if self.goes_on(from, rate, reading) {
            if let Some(last) = self.pieces.last_mut() {
                last.to = to;
            }
            return Ok(());
        }
        let message = self.done;
        let should_deliver = match self.messages.get(message) {
            Some(sent) => sent.should_deliver,
            None => false,
        };
        let piece = Piece {
            message,
            from,
            to,
            rate,
            should_deliver,
        };
        self.add(piece, reading)
    }

    /// Whether the last piece is of the first message that is not done, up to that moment, and at
    /// that rate.
    fn goes_on(&self, from: u64, rate: u128, reading: Option<FullRate>) -> bool {
        let is_last = match self.pieces.last() {
            Some(last) => last.message == self.done && last.to == from && last.rate == rate,
            None => false,
        };
        let is_same = match self.readings.last() {
            Some(before) => *before == reading,
            None => true,
        };
        is_last && is_same
    }

    /// One more piece.
    fn add(&mut self, piece: Piece, reading: Option<FullRate>) -> Result<(), Error> {
        if self.keeps_readings {
            self.readings.push(reading)?;
        }
        self.pieces.push(piece)?;
        Ok(())
    }
}

/// So many millionths of a byte in so many nanoseconds, in millionths of a byte a second.
fn pace(sent: u128, time: u64) -> u128 {
    let time = (time as u128).max(1);
    match sent.checked_mul(BILLION) {
        Some(times) => times / time,
        None => (sent / time).saturating_mul(BILLION),
    }
}

/// An amount in millionths, rounded down.
fn millionths(amount: Ratio) -> u128 {
    let numerator = amount.numerator();
    let denominator = amount.denominator();
    if let Some(times) = numerator.checked_mul(MILLION) {
        return times / denominator;
    }
    (numerator / denominator).saturating_mul(MILLION)
}
