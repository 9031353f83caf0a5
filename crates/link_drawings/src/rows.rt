//! The rows of ordered pairs.

use crate::board::Board;
use crate::caps::Side;
use crate::frame::{Frame, LEFT, RIGHT};
use crate::history::MILLION;
use crate::ink::Ink;
use crate::labels::letters;
use crate::paint::{Band, Lines, block, fill, line};
use crate::track::{Sent, Track};

/// Rows that are at least so far apart have a name each, and lines of messages beside each other.
pub(crate) const WIDE_ROW: u64 = 40;

/// Where the row of a pair stands.
#[derive(Clone, Copy)]
pub(crate) struct Row {
    pub(crate) top: u64,
    pub(crate) pitch: u64,
    /// The rate that takes all of its height.
    pub(crate) full: u128,
    pub(crate) is_detailed: bool,
    /// Whether it is known when messages start.
    pub(crate) is_exact: bool,
}

impl Row {
    /// How high the lines above and below the rates are.
    fn margin(&self) -> u64 {
        (self.pitch / 6).clamp(1, 16)
    }

    /// The band of the rates.
    fn band(&self) -> Band {
        let margin = self.margin();
        let foot = self.top.saturating_add(self.pitch).saturating_sub(margin);
        Band {
            foot,
            height: self
                .pitch
                .saturating_sub(margin.saturating_mul(2))
                .saturating_sub(1),
            full: self.full,
        }
    }

    /// How far the line of a message is from the others.
    fn lane(&self, place: usize) -> u64 {
        if self.pitch < WIDE_ROW {
            return 0;
        }
        (place % 4) as u64 * (self.margin() / 4)
    }

    /// How large the mark is with which a message ends.
    fn end_size(&self) -> u64 {
        (self.margin() / 2).clamp(2, 8)
    }
}

/// Draws the row of a pair.
pub(crate) fn draw_pair(
    ink: &mut Ink,
    frame: Frame,
    board: &mut Board,
    row: Row,
    pair: (u64, u64),
    track: &Track,
) {
    let band = row.band();
    draw_row(ink, row, pair, track);
    board.clear();
    board.add(frame, &track.pieces, true);
    ink.put_all("<path class=\"p{}\" d=\"", &[track.shade as u64]);
    fill(ink, frame, board, band);
    draw_instants(ink, frame, band, track);
    ink.text("\"/>\n");
    draw_stalls(ink, frame, band, track);
    draw_waiting(ink, frame, row, track);
    draw_latency(ink, frame, row, track);
    draw_arrivals(ink, frame, row, track);
    draw_drops(ink, frame, row, track);
    if row.is_detailed {
        for message in &track.messages {
            draw_hover(ink, frame, row, pair, message);
        }
    }
}

/// What is told of a pair where one points at its row, and its foot.
fn draw_row(ink: &mut Ink, row: Row, pair: (u64, u64), track: &Track) {
    let text = "<rect class=\"m\" x=\"0\" y=\"{}\" width=\"2000\" height=\"{}\">";
    ink.put_all(text, &[row.top, row.pitch]);
    tell_all(ink, pair, track);
    ink.text("</rect>\n");
    if row.pitch >= WIDE_ROW {
        draw_foot(ink, row.band().foot);
    }
}

/// How many messages a pair has, and of what size.
fn tell_all(ink: &mut Ink, pair: (u64, u64), track: &Track) {
    let mut all = 0u128;
    for message in &track.messages {
        all = all.saturating_add(message.length as u128);
    }
    ink.put_all("<title>{} → {}", &[pair.0, pair.1]);
    ink.count(": ", track.messages.len() as u64, "message");
    ink.text(", ");
    ink.size(all.saturating_mul(MILLION));
    ink.text("</title>");
}

/// The foot of a row.
pub(crate) fn draw_foot(ink: &mut Ink, foot: u64) {
    let text = "<path class=\"f\" d=\"M{} {}H{}\"/>\n";
    ink.put_all(text, &[LEFT, foot, RIGHT]);
}

/// A name at the left of a row whose middle is there, made narrower where it is long.
pub(crate) fn draw_name(ink: &mut Ink, side: Side, middle: u64, pitch: u64) {
    let text = if pitch < 24 {
        "<text x=\"{}\" y=\"{}\" class=\"n i\""
    } else {
        "<text x=\"{}\" y=\"{}\" class=\"n\""
    };
    ink.put_all(text, &[LEFT - 14, middle.saturating_add(7)]);
    if letters(side) > 17 {
        ink.text(" textLength=\"220\" lengthAdjust=\"spacingAndGlyphs\"");
    }
    ink.text(">");
    ink.side(side);
    ink.text("</text>\n");
}

/// Blocks for messages that take no time to send.
fn draw_instants(ink: &mut Ink, frame: Frame, band: Band, track: &Track) {
    for message in &track.messages {
        if let (Some(start), Some(done)) = (message.start, message.done) {
            if start == done && shows(frame, start, done) {
                let x = frame.at(start);
                block(ink, (x, x.saturating_add(2)), band.foot, band.height);
            }
        }
    }
}

/// Whether a time is partly in the picture.
fn shows(frame: Frame, from: u64, to: u64) -> bool {
    from <= frame.last && to >= frame.first
}

/// The times in which a message is in flight and nothing of it is sent.
fn draw_stalls(ink: &mut Ink, frame: Frame, band: Band, track: &Track) {
    let mut is_open = false;
    for piece in &track.pieces {
        if piece.rate == 0 && shows(frame, piece.from, piece.to) {
            if !is_open {
                ink.text("<path class=\"s\" d=\"");
                is_open = true;
            }
            let x = frame.at(piece.from);
            let end = frame.at(piece.to).max(x.saturating_add(2));
            block(ink, (x, end), band.foot, band.height);
        }
    }
    if is_open {
        ink.text("\"><title>stalls: a rate of 0</title></path>\n");
    }
}

/// The times in which messages wait: lines below the foot.
fn draw_waiting(ink: &mut Ink, frame: Frame, row: Row, track: &Track) {
    let margin = row.margin();
    let height = row
        .band()
        .foot
        .saturating_add(margin.div_ceil(2))
        .saturating_sub(row.lane(1));
    let mut lines = Lines::new(height);
    ink.text("<path class=\"w\" d=\"");
    for (place, message) in track.messages.iter().enumerate() {
        let start = message.start.unwrap_or(frame.last);
        draw_time(
            ink,
            frame,
            row,
            &mut lines,
            place,
            (message.enqueued, start),
        );
    }
    lines.end(ink);
    ink.text("\"/>\n");
}

/// The times in which messages are under way, done and not yet there: lines above the rates.
fn draw_latency(ink: &mut Ink, frame: Frame, row: Row, track: &Track) {
    let height = row.top.saturating_add(row.margin().div_ceil(3));
    let mut lines = Lines::new(height);
    ink.text("<path class=\"l\" d=\"");
    for (place, message) in track.messages.iter().enumerate() {
        if let (Some(done), Some(arrives)) = (message.done, message.deliver_at) {
            draw_time(ink, frame, row, &mut lines, place, (done, arrives));
        }
    }
    lines.end(ink);
    ink.text("\"/>\n");
}

/// The line of a message for a time. In a narrow row it joins those before it.
fn draw_time(
    ink: &mut Ink,
    frame: Frame,
    row: Row,
    lines: &mut Lines,
    place: usize,
    time: (u64, u64),
) {
    let (begin, end) = time;
    if begin < end && shows(frame, begin, end) {
        let (from, to) = (frame.at(begin), frame.at(end));
        if row.pitch < WIDE_ROW {
            lines.add(ink, from, to);
        } else {
            line(ink, from, to, lines.height.saturating_add(row.lane(place)));
        }
    }
}

/// Where messages arrive.
fn draw_arrivals(ink: &mut Ink, frame: Frame, row: Row, track: &Track) {
    let mut before = 0u64;
    ink.text("<path class=\"a\" d=\"");
    for (place, message) in track.messages.iter().enumerate() {
        if let Some(arrives) = message.deliver_at {
            let x = frame.at(arrives);
            if x != before && shows(frame, arrives, arrives) {
                let y = row.top.saturating_add(row.lane(place));
                ink.put_all("M{} {}v{}", &[x, y, row.end_size()]);
                before = if row.pitch < WIDE_ROW { x } else { 0 };
            }
        }
    }
    ink.text("\"/>\n");
}

/// Where messages are dropped.
fn draw_drops(ink: &mut Ink, frame: Frame, row: Row, track: &Track) {
    ink.text("<path class=\"d\" d=\"");
    for message in &track.messages {
        if let (Some(done), None) = (message.done, message.deliver_at) {
            if shows(frame, done, done) {
                draw_cross(ink, frame.at(done), row.top, row.end_size());
            }
        }
    }
    ink.text("\"/>\n");
}

/// A part of a path: a cross of that size below the top.
fn draw_cross(ink: &mut Ink, x: u64, top: u64, size: u64) {
    let x = x.saturating_sub(size / 2);
    let y = top.saturating_add(1);
    let text = "M{} {}l{} {}m0-{}l-{} {}";
    ink.put_all(text, &[x, y, size, size, size, size, size]);
}

/// What is told of a message where one points at it.
fn draw_hover(ink: &mut Ink, frame: Frame, row: Row, pair: (u64, u64), message: &Sent) {
    let Some(start) = message.start else {
        return;
    };
    let end = message.done.unwrap_or(frame.last);
    if !shows(frame, start, end) {
        return;
    }
    let x = frame.at(start);
    let width = frame.at(end).saturating_sub(x).max(2);
    draw_area(ink, row, x, width);
    let text = "<title>{} → {}, channel {}: ";
    ink.put_all(text, &[pair.0, pair.1, message.channel]);
    ink.size((message.length as u128).saturating_mul(MILLION));
    tell_moments(ink, message, if row.is_exact { Some(start) } else { None });
    ink.text("</title></rect>\n");
}

/// The area of a message in the band of its row, which is not closed yet.
fn draw_area(ink: &mut Ink, row: Row, x: u64, width: u64) {
    let band = row.band();
    ink.text(if row.pitch < WIDE_ROW {
        "<rect class=\"m\""
    } else {
        "<rect class=\"m e\""
    });
    let y = band.foot.saturating_sub(band.height);
    let text = " x=\"{}\" y=\"{}\" width=\"{}\" height=\"{}\">";
    ink.put_all(text, &[x, y, width, band.height]);
}

/// When the message was enqueued, starts, where that is known, is done and arrives, on a new line.
fn tell_moments(ink: &mut Ink, message: &Sent, start: Option<u64>) {
    ink.moment("\nenqueued ", message.enqueued);
    if let Some(start) = start {
        ink.moment(", starts ", start);
    }
    let Some(done) = message.done else {
        return;
    };
    ink.moment(", done ", done);
    match message.deliver_at {
        Some(arrives) => ink.moment(", arrives ", arrives),
        None => ink.text(", dropped"),
    }
}
