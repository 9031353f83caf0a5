//! The rows of caps, and of what peers send and receive.

use crate::board::Board;
use crate::caps::{Cap, Side};
use crate::frame::{Frame, RIGHT};
use crate::history::History;
use crate::ink::Ink;
use crate::paint::{Band, fill, fill_between, line, mark_quarter};
use crate::rows::draw_foot;
use crate::sums::{Stretch, stretches};
use fairness::error::Error;

/// Parts of a whole cap.
const WHOLE: u128 = 1_000_000;

/// Rows that are at least so high tell the pairs apart.
const STACKED: u64 = 16;

/// Draws the row of a cap, whose top is there: how much of it is used, and when it is full.
pub(crate) fn draw_cap(
    ink: &mut Ink,
    history: &History,
    frame: Frame,
    board: &mut Board,
    place: (u64, u64),
    side: Side,
    caps: &[Cap],
) {
    let band = band_at(place, WHOLE);
    if sum_up(board, history, frame, side, caps).is_err() {
        ink.refuse();
    }
    draw_foot(ink, band.foot);
    draw_sum(ink, frame, board, band, side);
    ink.text(": use of its cap</title></path>\n");
    for quarter in 1u64..5 {
        draw_quarter(ink, frame, board, quarter, band);
    }
}

/// All of a side as one area, up to the end of its name.
fn draw_sum(ink: &mut Ink, frame: Frame, board: &Board, band: Band, side: Side) {
    ink.text("<path class=\"z\" d=\"");
    fill(ink, frame, board, band);
    ink.text("\"><title>");
    ink.side(side);
}

/// The columns in which a cap is full for that quarter of the time.
fn draw_quarter(ink: &mut Ink, frame: Frame, board: &Board, quarter: u64, band: Band) {
    ink.put_all("<path class=\"u{}\" d=\"", &[quarter]);
    mark_quarter(ink, frame, board, quarter, band.foot, band.height);
    ink.text("\"/>\n");
}

/// The band of a row, whose top and pitch are those.
fn band_at(place: (u64, u64), full: u128) -> Band {
    let (top, pitch) = place;
    Band {
        foot: top.saturating_add(pitch).saturating_sub(2),
        height: pitch.saturating_sub(4),
        full,
    }
}

/// The use of a cap in each column, and for how long it is full.
pub(crate) fn sum_up(
    board: &mut Board,
    history: &History,
    frame: Frame,
    side: Side,
    caps: &[Cap],
) -> Result<(), Error> {
    let list = stretches(history, side, caps)?;
    board.clear();
    for stretch in &list {
        add_use(board, history, frame, *stretch);
    }
    Ok(())
}

/// The use of a cap for a time.
fn add_use(board: &mut Board, history: &History, frame: Frame, stretch: Stretch) {
    if let Some(cap) = stretch.cap {
        let used = share(stretch.rate, cap);
        board.spread(frame, stretch.from, stretch.to, used);
        if stretch.is_full(history.short(cap)) {
            board.hold(frame, stretch.from, stretch.to);
        }
    }
}

/// How much of a cap a rate is, in millionths, and no more than all of it.
fn share(rate: u128, cap: u128) -> u128 {
    let cap = cap.max(1);
    let share = match rate.checked_mul(WHOLE) {
        Some(times) => times / cap,
        None => rate / (cap / WHOLE).max(1),
    };
    share.min(WHOLE)
}

/// Sums up the rates of what a peer sends or receives.
pub(crate) fn add_side(board: &mut Board, history: &History, frame: Frame, side: Side) {
    board.clear();
    for (pair, track) in &history.tracks {
        if side.holds(pair.0, pair.1) {
            board.add(frame, &track.pieces, side.holds_dropped());
        }
    }
}

/// Draws the row of what a peer sends or receives, whose top is there.
pub(crate) fn draw_peer(
    ink: &mut Ink,
    history: &History,
    frame: Frame,
    board: &mut Board,
    place: (u64, u64),
    side: Side,
    full: u128,
    is_detailed: bool,
) {
    let band = band_at(place, full);
    let is_high = place.1 >= STACKED;
    draw_foot(ink, band.foot);
    if is_detailed && is_high {
        draw_stack(ink, history, frame, board, band, side);
    } else {
        add_side(board, history, frame, side);
        draw_sum(ink, frame, board, band, side);
        ink.text("</title></path>\n");
    }
    if is_high {
        if let Some(caps) = history.caps.get(&side) {
            draw_caps(ink, frame, band, caps);
        }
    }
}

/// The rates of the pairs, one above the other.
fn draw_stack(
    ink: &mut Ink,
    history: &History,
    frame: Frame,
    board: &mut Board,
    band: Band,
    side: Side,
) {
    board.clear();
    for (pair, track) in &history.tracks {
        if side.holds(pair.0, pair.1) && !track.pieces.is_empty() {
            board.rise();
            board.add(frame, &track.pieces, side.holds_dropped());
            draw_layer(ink, frame, board, band, *pair, track.shade);
        }
    }
}

/// The rates of a pair above those of the pairs before it.
fn draw_layer(
    ink: &mut Ink,
    frame: Frame,
    board: &Board,
    band: Band,
    pair: (u64, u64),
    shade: usize,
) {
    ink.put_all("<path class=\"p{}\" d=\"", &[shade as u64]);
    fill_between(ink, frame, board, band);
    let text = "\"><title>{} → {}</title></path>\n";
    ink.put_all(text, &[pair.0, pair.1]);
}

/// The caps of the side as a line, where it is in the row.
fn draw_caps(ink: &mut Ink, frame: Frame, band: Band, caps: &[Cap]) {
    ink.text("<path class=\"k\" d=\"");
    for (place, cap) in caps.iter().enumerate() {
        let end = match caps.get(place.saturating_add(1)) {
            Some(next) => next.from,
            None => frame.last,
        };
        if let Some(rate) = cap.rate() {
            if rate <= band.full && end >= frame.first {
                let height = band.foot.saturating_sub(band.up(rate));
                line(ink, frame.at(cap.from), frame.at(end), height);
            }
        }
    }
    ink.text("\"/>\n");
}

/// The cap at the right of its row: what it is, or that it changes.
pub(crate) fn draw_cap_name(ink: &mut Ink, caps: &[Cap], middle: u64, pitch: u64) {
    let text = if pitch < 24 {
        "<text x=\"{}\" y=\"{}\" class=\"i\">"
    } else {
        "<text x=\"{}\" y=\"{}\" class=\"r\">"
    };
    ink.put_all(text, &[RIGHT + 10, middle.saturating_add(7)]);
    match only_rate(caps) {
        Some(rate) => ink.pace(rate),
        None => ink.text("changes"),
    }
    ink.text("</text>\n");
}

/// The rate of the caps, in millionths of a byte a second, where all are one.
fn only_rate(caps: &[Cap]) -> Option<u128> {
    let first = caps.first()?;
    for cap in caps {
        if cap.cap != first.cap {
            return None;
        }
    }
    first.rate()
}
