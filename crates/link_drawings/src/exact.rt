//! The use of a cap over time, exactly.

use crate::caps::{Cap, Side};
use crate::history::History;
use crate::track::Track;
use fairness::error::Error;
use fairness::ratio::Ratio;
use std::alloc::Global;

/// What changes, in the order in which it counts where it does so at one moment.
#[derive(Clone, Copy, PartialEq, Eq, PartialOrd, Ord)]
enum Kind {
    Ends,
    Cap,
    Begins,
}

/// A rate that begins or ends at a moment, or a cap that changes. A rate that is not known exactly
/// is none.
#[derive(Clone, Copy)]
struct Change {
    moment: u64,
    kind: Kind,
    rate: Option<Ratio>,
}

/// A time in which the use of a cap stays.
#[derive(Clone, Copy)]
pub(crate) struct Used {
    pub(crate) from: u64,
    pub(crate) to: u64,
    /// In bytes a second; none is no cap.
    pub(crate) cap: Option<usize>,
    /// The sum of the rates, in bytes a second; none where 128 bits do not hold it.
    pub(crate) sum: Option<Ratio>,
}

impl Used {
    /// Whether the rates leave nothing of the cap; none where there is no cap, or the sum is not
    /// known.
    pub(crate) fn is_full(&self) -> Option<bool> {
        let cap = Ratio::from_whole(self.cap? as u128);
        Some(self.sum? == cap)
    }
}

/// The use of the caps of a side, in order of time, where something is in flight on it.
pub(crate) fn uses(history: &History, side: Side, caps: &[Cap]) -> Result<Vec<Used>, Error> {
    let mut changes = Vec::new(history.alloc);
    note_all(&mut changes, history, side, caps)?;
    changes.sort_unstable_by_key(|change| (change.moment, change.kind));
    sweep(history.alloc, &changes, caps)
}

/// Notes when the rates of all that share the cap of a side begin and end, and when the cap changes.
fn note_all(
    changes: &mut Vec<Change>,
    history: &History,
    side: Side,
    caps: &[Cap],
) -> Result<(), Error> {
    for (pair, track) in &history.tracks {
        if side.holds(pair.0, pair.1) {
            note_changes(changes, track, side)?;
        }
    }
    for cap in caps {
        changes.push(Change {
            moment: cap.from,
            kind: Kind::Cap,
            rate: None,
        })?;
    }
    Ok(())
}

/// Notes when the rates of a pair begin and end.
fn note_changes(changes: &mut Vec<Change>, track: &Track, side: Side) -> Result<(), Error> {
    for (place, piece) in track.pieces.iter().enumerate() {
        if piece.should_deliver || side.holds_dropped() {
            let rate = match track.reading(place) {
                Some(reading) if reading.is_exact => Some(reading.amount),
                _ => None,
            };
            changes.push(Change {
                moment: piece.from,
                kind: Kind::Begins,
                rate,
            })?;
            changes.push(Change {
                moment: piece.to,
                kind: Kind::Ends,
                rate,
            })?;
        }
    }
    Ok(())
}

/// Goes through the changes in order of time.
fn sweep(alloc: Global, changes: &[Change], caps: &[Cap]) -> Result<Vec<Used>, Error> {
    let mut made = Vec::new(alloc);
    let mut state = Sum::new();
    let mut at = 0u64;
    let mut place = 0usize;
    let mut cap = None;
    for change in changes {
        if change.moment > at {
            if state.flights > 0 {
                made.push(Used {
                    from: at,
                    to: change.moment,
                    cap,
                    sum: state.sum,
                })?;
            }
            at = change.moment;
        }
        match change.kind {
            Kind::Begins => state.begin(change.rate),
            Kind::Ends => state.end(change.rate),
            Kind::Cap => {
                if let Some(next) = caps.get(place) {
                    cap = next.cap;
                }
                place = place.saturating_add(1);
            }
        }
    }
    Ok(made)
}

/// The sum of the rates of what is in flight.
#[derive(Clone, Copy)]
struct Sum {
    flights: u64,
    /// None where it is not known.
    sum: Option<Ratio>,
}

impl Sum {
    fn new() -> Sum {
        Sum {
            flights: 0,
            sum: Some(Ratio::zero()),
        }
    }

    /// One more rate.
    fn begin(&mut self, rate: Option<Ratio>) {
        self.flights = self.flights.saturating_add(1);
        self.sum = match (self.sum, rate) {
            (Some(sum), Some(rate)) => sum.checked_add(rate),
            _ => None,
        };
    }

    /// One rate less. Where there is none left, the sum is known again.
    fn end(&mut self, rate: Option<Ratio>) {
        self.flights = self.flights.saturating_sub(1);
        self.sum = match (self.sum, rate) {
            (Some(sum), Some(rate)) => sum.checked_sub(rate),
            _ => None,
        };
        if self.flights == 0 {
            self.sum = Some(Ratio::zero());
        }
    }
}
