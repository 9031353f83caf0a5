//! Rates by column.

use crate::frame::Frame;
use crate::track::Piece;
use std::alloc::{AllocError, Global};

/// For each column a lower and an upper rate, in millionths of a byte a second, and for how long
/// something is so in it, in nanoseconds. Rates are means over the time of their column.
pub(crate) struct Board {
    pub(crate) low: Vec<u128>,
    pub(crate) high: Vec<u128>,
    pub(crate) held: Vec<u64>,
}

impl Drop for Board {
    /// Lets go of what it holds.
    #[inline(always)]
    fn drop(self) {
        let Board { low, high, held } = self;
        drop(low);
        drop(high);
        drop(held);
    }
}

impl Board {
    /// All is zero.
    pub(crate) fn new(alloc: Global, columns: usize) -> Result<Board, AllocError> {
        Ok(Board {
            low: vec![in alloc; 0u128; columns]?,
            high: vec![in alloc; 0u128; columns]?,
            held: vec![in alloc; 0u64; columns]?,
        })
    }

    /// All is zero.
    pub(crate) fn clear(&mut self) {
        self.low.fill(0);
        self.high.fill(0);
        self.held.fill(0);
    }

    /// What was the upper rate is the lower one, too.
    pub(crate) fn rise(&mut self) {
        if self.low.len() == self.high.len() {
            self.low.copy_from_slice(&self.high);
        }
    }

    /// The upper rates grow by those of the pieces. A message that is to be dropped counts where
    /// that is said.
    pub(crate) fn add(&mut self, frame: Frame, pieces: &[Piece], with_dropped: bool) {
        for piece in pieces {
            if with_dropped || piece.should_deliver {
                self.spread(frame, piece.from, piece.to, piece.rate);
            }
        }
    }

    /// The upper rates grow by that one for a time.
    pub(crate) fn spread(&mut self, frame: Frame, from: u64, to: u64, rate: u128) {
        if rate == 0 {
            return;
        }
        let (from, to) = frame.cut(from, to);
        for column in frame.columns_of(from, to) {
            if let Some(mean) = self.high.get_mut(column) {
                *mean = mean.saturating_add(share(frame, column, from, to, rate));
            }
        }
    }

    /// Something is so for a time.
    pub(crate) fn hold(&mut self, frame: Frame, from: u64, to: u64) {
        let (from, to) = frame.cut(from, to);
        for column in frame.columns_of(from, to) {
            if let Some(time) = self.held.get_mut(column) {
                *time = time.saturating_add(overlap(frame, column, from, to));
            }
        }
    }

    /// The greatest upper rate.
    pub(crate) fn peak(&self) -> u128 {
        let mut peak = 0;
        for rate in &self.high {
            peak = peak.max(*rate);
        }
        peak
    }
}

/// What a rate for a time adds to the mean of a column.
fn share(frame: Frame, column: usize, from: u64, to: u64, rate: u128) -> u128 {
    let begin = frame.edge(column);
    let end = frame.edge(column.saturating_add(1));
    if from <= begin && end <= to {
        return rate;
    }
    let over = overlap(frame, column, from, to) as u128;
    let all = (end.saturating_sub(begin) as u128).max(1);
    match rate.checked_mul(over) {
        Some(times) => times / all,
        None => (rate / all).saturating_mul(over),
    }
}

/// How much of a time is in a column.
fn overlap(frame: Frame, column: usize, from: u64, to: u64) -> u64 {
    let begin = frame.edge(column).max(from);
    let end = frame.edge(column.saturating_add(1)).min(to);
    end.saturating_sub(begin)
}
