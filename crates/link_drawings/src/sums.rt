//! The rates of all that share a cap, over time.

use crate::caps::{Cap, Side};
use crate::history::{History, MILLION};
use crate::track::Track;
use fairness::error::Error;
use std::alloc::Global;

/// A moment, and by how much the rates grow and shrink at it, in millionths of a byte a second.
type Change = (u64, u128, u128);

/// A time in which the sum of the rates stays, and the cap, in millionths of a byte a second.
#[derive(Clone, Copy)]
pub(crate) struct Stretch {
    pub(crate) from: u64,
    pub(crate) to: u64,
    pub(crate) rate: u128,
    pub(crate) cap: Option<u128>,
}

impl Stretch {
    /// Whether the rates leave nothing of the cap, up to so much.
    pub(crate) fn is_full(&self, short: u128) -> bool {
        match self.cap {
            Some(cap) => self.rate.saturating_add(short) >= cap,
            None => false,
        }
    }
}

/// The stretches of a side with these caps in which something is sent, in order of time.
pub(crate) fn stretches(
    history: &History,
    side: Side,
    caps: &[Cap],
) -> Result<Vec<Stretch>, Error> {
    let mut changes = Vec::new(history.alloc);
    note_all(&mut changes, history, side, caps)?;
    changes.sort_unstable();
    sweep(history.alloc, &changes, caps)
}

/// Notes when the rates of all that share the cap of a side change, and when the cap does.
fn note_all(
    changes: &mut Vec<Change>,
    history: &History,
    side: Side,
    caps: &[Cap],
) -> Result<(), Error> {
    for (pair, track) in &history.tracks {
        if side.holds(pair.0, pair.1) {
            note_changes(changes, track, side)?;
        }
    }
    for cap in caps {
        changes.push((cap.from, 0, 0))?;
    }
    Ok(())
}

/// Notes when the rates of a pair change.
fn note_changes(changes: &mut Vec<Change>, track: &Track, side: Side) -> Result<(), Error> {
    for piece in &track.pieces {
        if piece.rate > 0 && (piece.should_deliver || side.holds_dropped()) {
            changes.push((piece.from, piece.rate, 0))?;
            changes.push((piece.to, 0, piece.rate))?;
        }
    }
    Ok(())
}

/// Goes through the changes in order of time.
fn sweep(alloc: Global, changes: &[Change], caps: &[Cap]) -> Result<Vec<Stretch>, Error> {
    let mut made = Vec::new(alloc);
    let mut rate = 0u128;
    let mut at = 0u64;
    let mut place = 0usize;
    let mut cap = None;
    for (moment, more, less) in changes {
        if *moment > at {
            if rate > 0 {
                made.push(Stretch {
                    from: at,
                    to: *moment,
                    rate,
                    cap,
                })?;
            }
            at = *moment;
        }
        rate = rate.saturating_add(*more).saturating_sub(*less);
        if let Some(next) = caps.get(place) {
            if next.from <= at {
                cap = next.rate();
                place = place.saturating_add(1);
            }
        }
    }
    Ok(made)
}

impl Cap {
    /// The cap in millionths of a byte a second.
    pub(crate) fn rate(&self) -> Option<u128> {
        match self.cap {
            Some(cap) => Some(cap as u128 * MILLION),
            None => None,
        }
    }
}
