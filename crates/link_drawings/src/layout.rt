//! Which rows a picture has, and how high they are.

use crate::caps::Side;
use crate::frame::{Frame, SPAN};
use crate::history::History;
use crate::options::Options;
use crate::track::Track;
use fairness::error::Error;
use std::alloc::Global;
use std::collections::BTreeSet;

/// The most messages that are told one by one.
const MOST_MESSAGES: usize = 2000;

/// The most pairs of a picture that tells messages one by one: 12 peers have so many.
const MOST_TOLD: usize = 132;

/// The most pairs, and the most rows of caps and of peers.
const MOST_PAIRS: usize = 480;

const MOST_SIDES: usize = 130;

/// The most places that a picture has for rates in all.
const MOST_PLACES: u64 = 300_000;

/// The rows of a picture.
pub(crate) struct Layout {
    pub(crate) frame: Frame,
    /// Whether messages are told one by one.
    pub(crate) is_detailed: bool,
    /// Capped sides.
    pub(crate) caps: Vec<Side>,
    /// What peers send and receive.
    pub(crate) peers: Vec<Side>,
    pub(crate) pairs: Vec<(u64, u64)>,
    /// How many of each are left out, since nothing happens there.
    pub(crate) idle: Left,
    /// How many of each are left out for want of room.
    pub(crate) more: Left,
}

impl Drop for Layout {
    /// Lets go of what it holds.
    #[inline(always)]
    fn drop(self) {
        let Layout {
            frame: _,
            is_detailed: _,
            caps,
            peers,
            pairs,
            idle: _,
            more: _,
        } = self;
        drop(caps);
        drop(peers);
        drop(pairs);
    }
}

/// How many rows are left out.
#[derive(Clone, Copy, PartialEq, Eq)]
pub(crate) struct Left {
    pub(crate) caps: usize,
    pub(crate) peers: usize,
    pub(crate) pairs: usize,
}

/// Nothing is left out.
pub(crate) const NONE: Left = Left {
    caps: 0,
    peers: 0,
    pairs: 0,
};

impl Layout {
    /// The rows of what happened from the first to the last moment.
    pub(crate) fn new(
        history: &History,
        options: &Options,
        time: (u64, u64),
    ) -> Result<Layout, Error> {
        let alloc = history.alloc;
        let mut layout = Layout {
            frame: Frame::new(time.0, time.1, 1),
            is_detailed: false,
            caps: Vec::new(alloc),
            peers: Vec::new(alloc),
            pairs: Vec::new(alloc),
            idle: NONE,
            more: NONE,
        };
        let mut sides = BTreeSet::new(alloc);
        layout.add_pairs(history, options, &mut sides)?;
        layout.add_caps(history, options, &sides)?;
        layout.add_peers(alloc, options, &sides)?;
        layout.is_detailed = history.messages <= MOST_MESSAGES && layout.pairs.len() <= MOST_TOLD;
        layout.frame = Frame::new(time.0, time.1, layout.most_columns());
        Ok(layout)
    }

    /// How many columns a row has at most.
    fn most_columns(&self) -> u64 {
        let pairs = self.pairs.len() as u64;
        let stacked = if self.is_detailed {
            pairs.saturating_mul(4)
        } else {
            0
        };
        let rows = self.caps.len().saturating_add(self.peers.len()) as u64;
        let rows = rows.saturating_add(pairs).saturating_add(stacked);
        (MOST_PLACES / rows.max(1)).clamp(100, SPAN)
    }

    /// The pairs in which something happens, and the sides that they take part in.
    fn add_pairs(
        &mut self,
        history: &History,
        options: &Options,
        sides: &mut BTreeSet<Side>,
    ) -> Result<(), Error> {
        let mut found = Vec::new(history.alloc);
        self.find_pairs(history, options, sides, &mut found)?;
        self.more.pairs = found.len().saturating_sub(MOST_PAIRS);
        if self.more.pairs > 0 {
            found.sort_unstable_by(|a, b| b.0.cmp(&a.0));
            found.truncate(MOST_PAIRS);
        }
        for (_, origin, recipient) in &found {
            self.pairs.push((*origin, *recipient))?;
        }
        self.pairs.sort_unstable();
        Ok(())
    }

    /// Finds the pairs in which something happens, each with how much it sends.
    fn find_pairs(
        &mut self,
        history: &History,
        options: &Options,
        sides: &mut BTreeSet<Side>,
        found: &mut Vec<(u128, u64, u64)>,
    ) -> Result<(), Error> {
        for (pair, track) in &history.tracks {
            let (origin, recipient) = *pair;
            if options.shows_pair(origin, recipient) {
                if happens(self.frame, track) {
                    note_sides(sides, origin, recipient, track)?;
                    found.push((sent(self.frame, track), origin, recipient))?;
                } else {
                    self.idle.pairs = self.idle.pairs.saturating_add(1);
                }
            }
        }
        Ok(())
    }

    /// The capped sides on which something is sent.
    fn add_caps(
        &mut self,
        history: &History,
        options: &Options,
        sides: &BTreeSet<Side>,
    ) -> Result<(), Error> {
        for (side, _) in &history.caps {
            if options.shows_side(*side) {
                if !sides.contains(side) {
                    self.idle.caps = self.idle.caps.saturating_add(1);
                } else if self.caps.len() < MOST_SIDES {
                    self.caps.push(*side)?;
                } else {
                    self.more.caps = self.more.caps.saturating_add(1);
                }
            }
        }
        Ok(())
    }

    /// What each peer sends and receives, if anything, by peer.
    fn add_peers(
        &mut self,
        alloc: Global,
        options: &Options,
        sides: &BTreeSet<Side>,
    ) -> Result<(), Error> {
        let mut found = Vec::new(alloc);
        for side in sides {
            if let Side::Egress(peer) | Side::Ingress(peer) = side {
                if options.shows(*peer) {
                    found.push((*peer, *side))?;
                }
            }
        }
        found.sort_unstable();
        self.more.peers = found.len().saturating_sub(MOST_SIDES);
        found.truncate(MOST_SIDES);
        for (_, side) in &found {
            self.peers.push(*side)?;
        }
        Ok(())
    }

    /// How far the rows of caps are apart.
    pub(crate) fn cap_pitch(&self) -> u64 {
        pitch(self.caps.len(), 440, 14, 60)
    }

    /// How far the rows of peers are apart.
    pub(crate) fn peer_pitch(&self) -> u64 {
        pitch(self.peers.len(), 480, 14, 92)
    }

    /// How far the rows of pairs are apart.
    pub(crate) fn pair_pitch(&self) -> u64 {
        pitch(self.pairs.len(), 1060, 8, 92)
    }
}

/// How far so many rows are apart that are to be so high in all.
fn pitch(rows: usize, all: u64, least: u64, most: u64) -> u64 {
    (all / (rows as u64).max(1)).max(least).min(most)
}

/// Whether there is a message in the time that is shown.
fn happens(frame: Frame, track: &Track) -> bool {
    for message in &track.messages {
        let end = match (message.done, message.deliver_at) {
            (Some(_), Some(arrives)) => arrives,
            (Some(done), None) => done,
            _ => u64::MAX,
        };
        if message.enqueued <= frame.last && end >= frame.first {
            return true;
        }
    }
    false
}

/// What is sent in the time that is shown, in some unit.
fn sent(frame: Frame, track: &Track) -> u128 {
    let mut all = 0u128;
    for piece in &track.pieces {
        let (from, to) = frame.cut(piece.from, piece.to);
        let time = to.saturating_sub(from) as u128;
        all = all.saturating_add(piece.rate.saturating_mul(time));
    }
    all
}

/// Notes the sides on which a pair sends.
fn note_sides(
    sides: &mut BTreeSet<Side>,
    origin: u64,
    recipient: u64,
    track: &Track,
) -> Result<(), Error> {
    sides.insert(Side::Egress(origin))?;
    sides.insert(Side::Link(origin, recipient))?;
    let mut delivers = false;
    for message in &track.messages {
        delivers = delivers || message.should_deliver;
    }
    if delivers && origin != recipient {
        sides.insert(Side::Ingress(recipient))?;
    }
    Ok(())
}
