//! Areas and lines of a picture.

use crate::board::Board;
use crate::frame::Frame;
use crate::ink::Ink;

/// A band of a picture in which rates are heights.
#[derive(Clone, Copy)]
pub(crate) struct Band {
    /// Where its foot stands.
    pub(crate) foot: u64,
    pub(crate) height: u64,
    /// The rate that takes all of its height.
    pub(crate) full: u128,
}

impl Band {
    /// How high a rate stands above the foot. What is not zero is not zero there.
    pub(crate) fn up(&self, rate: u128) -> u64 {
        let full = self.full.max(1);
        let height = self.height as u128;
        let up = match rate.checked_mul(height) {
            Some(times) => times / full,
            None => rate / (full / height.max(1)).max(1),
        };
        let up = u64::try_from(up).unwrap_or(u64::MAX).min(self.height);
        up.max((rate > 0) as u64)
    }
}

/// The parts of a path that fill the columns up to the upper rates.
pub(crate) fn fill(ink: &mut Ink, frame: Frame, board: &Board, band: Band) {
    let mut height = 0u64;
    for (column, rate) in board.high.iter().enumerate() {
        let up = band.up(*rate);
        if up != height {
            turn(ink, frame.x(column), band.foot, height, up);
            height = up;
        }
    }
    if height > 0 {
        turn(ink, frame.x(frame.columns()), band.foot, height, 0);
    }
}

/// An area goes on with another height from there.
fn turn(ink: &mut Ink, x: u64, foot: u64, before: u64, after: u64) {
    let height = foot.saturating_sub(after);
    if before == 0 {
        ink.put_all("M{} {}V{}", &[x, foot, height]);
    } else if after == 0 {
        ink.put_all("H{}V{}z", &[x, height]);
    } else {
        ink.put_all("H{}V{}", &[x, height]);
    }
}

/// The parts of a path that fill the columns from the lower to the upper rates.
pub(crate) fn fill_between(ink: &mut Ink, frame: Frame, board: &Board, band: Band) {
    let mut begin = 0usize;
    let mut run = (0u64, 0u64);
    for (column, high) in board.high.iter().enumerate() {
        let low = match board.low.get(column) {
            Some(low) => *low,
            None => 0,
        };
        let next = (band.up(low), band.up(*high));
        if next != run {
            fill_run(ink, frame.x(begin), frame.x(column), run, band.foot);
            begin = column;
            run = next;
        }
    }
    let end = frame.x(frame.columns());
    fill_run(ink, frame.x(begin), end, run, band.foot);
}

/// A part of a path: from the lower to the upper height.
fn fill_run(ink: &mut Ink, from: u64, to: u64, run: (u64, u64), foot: u64) {
    let begin = foot.saturating_sub(run.0);
    let height = run.1.saturating_sub(run.0);
    block(ink, (from, to), begin, height);
}

/// A part of a path: an area of that height above its foot.
pub(crate) fn block(ink: &mut Ink, run: (u64, u64), foot: u64, height: u64) {
    let (from, to) = run;
    if to <= from || height == 0 {
        return;
    }
    let width = to.saturating_sub(from);
    ink.put_all("M{} {}v-{}h{}v{}z", &[from, foot, height, width, height]);
}

/// The parts of a path that lie on the columns in which what is held lasts for that quarter of the
/// time: from more than `quarter - 1` quarters up to `quarter` of them.
pub(crate) fn mark_quarter(
    ink: &mut Ink,
    frame: Frame,
    board: &Board,
    quarter: u64,
    foot: u64,
    height: u64,
) {
    let mut begin: Option<usize> = None;
    for (column, held) in board.held.iter().enumerate() {
        let holds = quarter_of(frame, column, *held) == quarter;
        match begin {
            None => {
                if holds {
                    begin = Some(column);
                }
            }
            Some(first) => {
                if !holds {
                    block(ink, (frame.x(first), frame.x(column)), foot, height);
                    begin = None;
                }
            }
        }
    }
    if let Some(first) = begin {
        let end = frame.x(frame.columns());
        block(ink, (frame.x(first), end), foot, height);
    }
}

/// How many quarters of a column are held, rounded up.
pub(crate) fn quarter_of(frame: Frame, column: usize, held: u64) -> u64 {
    let begin = frame.edge(column);
    let end = frame.edge(column.saturating_add(1));
    let all = (end.saturating_sub(begin) as u128).max(1);
    let quarters = (held as u128).saturating_mul(4).div_ceil(all);
    u64::try_from(quarters).unwrap_or(4).min(4)
}

/// A part of a path: a level line.
pub(crate) fn line(ink: &mut Ink, from: u64, to: u64, height: u64) {
    if from < to {
        ink.put_all("M{} {}H{}", &[from, height, to]);
    }
}

/// Level lines of one height, which join where they meet.
#[derive(Clone, Copy)]
pub(crate) struct Lines {
    pub(crate) height: u64,
    from: u64,
    to: u64,
}

impl Lines {
    /// No line yet.
    pub(crate) fn new(height: u64) -> Lines {
        Lines {
            height,
            from: 0,
            to: 0,
        }
    }

    /// One more line, which begins no earlier than those before.
    pub(crate) fn add(&mut self, ink: &mut Ink, from: u64, to: u64) {
        if from <= self.to {
            self.to = self.to.max(to);
            return;
        }
        self.end(ink);
        self.from = from;
        self.to = to;
    }

    /// Draws what is left.
    pub(crate) fn end(&self, ink: &mut Ink) {
        line(ink, self.from, self.to, self.height);
    }
}
