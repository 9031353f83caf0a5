//! What happened in a run.

use crate::caps::{Cap, Side};
use crate::options::Options;
use crate::track::{Seen, Sent, Track};
use fairness::error::Error;
use std::alloc::Global;
use std::collections::BTreeMap;

/// Parts of a byte a second in which rates are drawn.
pub(crate) const MILLION: u128 = 1_000_000;

/// How many colours there are for pairs.
const SHADES: usize = 12;

/// What is in flight at the end is shown for this part of the time before it.
const LATER_PART: u64 = 4;

/// What happened in a run, up to a moment. Who runs it tells it what happens; moments are in
/// nanoseconds since the start.
pub struct History {
    /// Where memory comes from.
    pub(crate) alloc: Global,
    first: Option<u64>,
    now: u64,
    /// The last moment at which something was asked, started, was done or arrives.
    last: u64,
    keeps_readings: bool,
    /// How many pairs have messages that are not done.
    busy: usize,
    pub(crate) tracks: BTreeMap<(u64, u64), Track>,
    pub(crate) caps: BTreeMap<Side, Vec<Cap>>,
    /// How many messages there are.
    pub(crate) messages: usize,
    /// How many calls were refused.
    pub(crate) refused: u64,
    /// Whether what is in flight was looked up after each event.
    pub(crate) is_exact: bool,
}

impl Drop for History {
    /// Lets go of what it holds.
    #[inline(always)]
    fn drop(self) {
        let History {
            alloc: _,
            first: _,
            now: _,
            last: _,
            keeps_readings: _,
            busy: _,
            tracks,
            caps,
            messages: _,
            refused: _,
            is_exact: _,
        } = self;
        drop(tracks);
        drop(caps);
    }
}

impl History {
    /// Nothing has happened. `keeps_readings`: whether rates are kept in full.
    pub fn new(alloc: Global, keeps_readings: bool) -> History {
        History {
            alloc,
            first: None,
            now: 0,
            last: 0,
            keeps_readings,
            busy: 0,
            tracks: BTreeMap::new(alloc),
            caps: BTreeMap::new(alloc),
            messages: 0,
            refused: 0,
            is_exact: true,
        }
    }

    /// The moment to which time has gone on.
    pub fn now(&self) -> u64 {
        self.now
    }

    /// How many pairs have messages that are not done.
    pub fn busy(&self) -> usize {
        self.busy
    }

    /// How many messages there are.
    pub fn messages(&self) -> usize {
        self.messages
    }

    /// So much short of a cap is full: rates are rounded down, and more so where they are means.
    pub(crate) fn short(&self, cap: u128) -> u128 {
        if self.is_exact {
            self.tracks.len() as u128
        } else {
            cap / 1000
        }
    }

    /// The first and the last moment to show. At the end, nothing is to be followed any more.
    pub fn conclude(&mut self, options: &Options) -> Result<(u64, u64), Error> {
        let begin = self.first.unwrap_or(0);
        let first = options.from.unwrap_or(begin);
        let last = options.until.unwrap_or(self.end(begin)).max(first);
        let to = last.min(self.now);
        for track in self.tracks.values_mut() {
            track.go_on(to)?;
        }
        Ok((first, last))
    }

    /// The last moment of the picture. Where a message is still in flight at the last call, that is
    /// shown for a part of the time before it.
    fn end(&self, first: u64) -> u64 {
        let passed = self.last.saturating_sub(first);
        if self.busy == 0 {
            self.last
        } else if passed == 0 {
            self.now.max(self.last)
        } else {
            let more = self.last.saturating_add(passed / LATER_PART);
            self.now.min(more).max(self.last)
        }
    }

    /// A message was sent now.
    pub fn send(
        &mut self,
        pair: (u64, u64),
        channel: u64,
        length: usize,
        should_deliver: bool,
    ) -> Result<(), Error> {
        let sent = Sent {
            channel,
            length,
            should_deliver,
            enqueued: self.now,
            start: None,
            done: None,
            deliver_at: None,
        };
        self.messages = self.messages.saturating_add(1);
        let shade = self.tracks.len() % SHADES;
        let track = Track::new(self.alloc, self.keeps_readings, shade);
        let track = self.tracks.entry(pair)?.or_insert(track);
        let was_idle = track.is_idle();
        track.enqueue(sent)?;
        self.busy = self.busy.saturating_add(usize::from(was_idle));
        Ok(())
    }

    /// Something is asked now.
    pub fn ask(&mut self) {
        self.last = self.last.max(self.now);
    }

    /// A call was refused.
    pub fn refuse(&mut self) {
        self.refused = self.refused.saturating_add(1);
    }

    /// Something happened without a look at what is in flight.
    pub fn skip_a_look(&mut self) {
        self.is_exact = false;
    }

    /// Whether time has yet to go on to that moment. The first that is told begins the run.
    pub fn is_ahead(&mut self, moment: u64) -> bool {
        if self.first.is_none() {
            self.first = Some(moment);
            self.now = moment;
        }
        moment > self.now
    }

    /// Time has gone on to that moment.
    pub fn pass(&mut self, moment: u64) {
        self.now = moment;
    }

    /// The first message of that pair that is not done is done now. `is_exact`: nothing happened
    /// since what is in flight was looked up.
    pub fn finish(
        &mut self,
        pair: (u64, u64),
        deliver_at: Option<u64>,
        is_exact: bool,
    ) -> Result<(), Error> {
        let now = self.now;
        if let Some(track) = self.tracks.get_mut(&pair) {
            track.finish(now, deliver_at, is_exact)?;
            if track.is_idle() {
                self.busy = self.busy.saturating_sub(1);
            }
        }
        self.last = deliver_at.unwrap_or(now).max(self.last);
        Ok(())
    }

    /// The first message of that pair that is not done was seen in flight.
    pub fn see(&mut self, pair: (u64, u64), seen: Seen, is_exact: bool) -> Result<(), Error> {
        match self.tracks.get_mut(&pair) {
            Some(track) => track.see(seen, is_exact),
            None => Ok(()),
        }
    }

    /// A cap is set now. What was never capped is not drawn.
    pub fn set_cap(&mut self, side: Side, cap: Option<usize>) -> Result<(), Error> {
        if cap.is_none() && self.caps.get(&side).is_none() {
            return Ok(());
        }
        let from = self.now;
        let caps = Vec::new(self.alloc);
        self.caps
            .entry(side)?
            .or_insert(caps)
            .push(Cap { from, cap })?;
        Ok(())
    }
}
