//! Where moments stand in a picture.

use std::ops::Range;

/// How wide the picture is. Two units are a pixel at 1000 pixels.
pub(crate) const WIDTH: u64 = 2000;

/// Where time begins.
pub(crate) const LEFT: u64 = 240;

/// How far time goes from there.
pub(crate) const SPAN: u64 = 1600;

/// Where time ends.
pub(crate) const RIGHT: u64 = LEFT + SPAN;

/// The time of a picture, and how finely it is drawn: in so many columns.
#[derive(Clone, Copy)]
pub(crate) struct Frame {
    pub(crate) first: u64,
    pub(crate) last: u64,
    columns: u64,
}

impl Frame {
    /// The time from `first` to `last` in no more than `most` columns, each of which is a nanosecond
    /// and half a pixel at least.
    pub(crate) fn new(first: u64, last: u64, most: u64) -> Frame {
        let last = last.max(first);
        let time = last.saturating_sub(first);
        Frame {
            first,
            last,
            columns: most.min(SPAN).min(time).max(1),
        }
    }

    /// How many columns there are.
    pub(crate) fn columns(&self) -> usize {
        self.columns as usize
    }

    /// How long the picture is. It is never zero.
    pub(crate) fn time(&self) -> u64 {
        self.last.saturating_sub(self.first).max(1)
    }

    /// The part of a time that is in the picture, from and to. It is none where both are one.
    pub(crate) fn cut(&self, from: u64, to: u64) -> (u64, u64) {
        (
            from.max(self.first).min(self.last),
            to.max(self.first).min(self.last),
        )
    }

    /// The column that a moment is in.
    pub(crate) fn column(&self, moment: u64) -> usize {
        let passed = moment.saturating_sub(self.first);
        let column = part(passed, self.columns, self.time());
        column.min(self.columns.saturating_sub(1)) as usize
    }

    /// The columns that have a part of a time, which is in the picture.
    pub(crate) fn columns_of(&self, from: u64, to: u64) -> Range<usize> {
        let first = self.column(from);
        let last = self.column(to.saturating_sub(1));
        let end = if to <= from {
            0
        } else {
            last.saturating_add(1)
        };
        first..end
    }

    /// The moment at which a column begins.
    pub(crate) fn edge(&self, column: usize) -> u64 {
        let columns = self.columns.max(1);
        let times = (self.time() as u128).saturating_mul(column as u128);
        let passed = times.div_ceil(columns as u128);
        let passed = u64::try_from(passed).unwrap_or(u64::MAX);
        self.first.saturating_add(passed).min(self.last)
    }

    /// Where a column begins.
    pub(crate) fn x(&self, column: usize) -> u64 {
        let column = (column as u64).min(self.columns);
        LEFT.saturating_add(part(column, SPAN, self.columns))
    }

    /// Where a moment stands.
    pub(crate) fn at(&self, moment: u64) -> u64 {
        let passed = moment.saturating_sub(self.first).min(self.time());
        LEFT.saturating_add(part(passed, SPAN, self.time()))
    }
}

/// Of `all` parts of `whole` as many as `count`, rounded down.
fn part(count: u64, whole: u64, all: u64) -> u64 {
    let all = all.max(1);
    match count.checked_mul(whole) {
        Some(times) => times / all,
        None => {
            let times = (count as u128).saturating_mul(whole as u128);
            u64::try_from(times / all as u128).unwrap_or(u64::MAX)
        }
    }
}
