//! A page with a picture that can be moved and zoomed.

use crate::board::Board;
use crate::caps::{Cap, Side};
use crate::frame::Frame;
use crate::history::{History, MILLION};
use crate::ink::Ink;
use crate::layout::Layout;
use crate::options::Options;
use crate::page_text::{BODY, HEAD, SCRIPT};
use crate::paint::quarter_of;
use crate::stacks::{add_side, sum_up};
use crate::track::{Sent, Track};

/// The most messages that are told one by one.
const MOST_MESSAGES: usize = 20_000;

/// Writes the page: the head, the run as data, and the program that draws it.
pub(crate) fn write(
    ink: &mut Ink,
    history: &History,
    options: &Options,
    layout: &Layout,
    board: &mut Board,
) {
    write_title(ink, options);
    write_head(ink, history, layout);
    for side in &layout.caps {
        if let Some(caps) = history.caps.get(side) {
            write_cap(ink, history, layout.frame, board, *side, caps);
        }
    }
    ink.text("],sides:[\n");
    if !layout.is_detailed {
        for side in &layout.peers {
            write_side(ink, history, layout.frame, board, *side);
        }
    }
    ink.text("],pairs:[\n");
    write_pairs(ink, history, layout, board);
    let left_out = [layout.idle.pairs as u64, layout.more.pairs as u64];
    ink.put_all("],idle:{},more:{}};\n", &left_out);
    ink.text(SCRIPT);
    ink.text("</script></body></html>\n");
}

/// The head of the file, up to the run.
fn write_title(ink: &mut Ink, options: &Options) {
    let title = match options.title.as_str() {
        "" => "Run of a script",
        title => title,
    };
    ink.text(HEAD);
    ink.text("<title>");
    ink.marked(title);
    ink.text("</title>\n");
    ink.text(BODY);
    ink.text("\n<h1>");
    ink.marked(title);
    ink.text("</h1>\n<script>\n");
}

/// What holds for all of the run.
fn write_head(ink: &mut Ink, history: &History, layout: &Layout) {
    let frame = layout.frame;
    let text = "const D={first:{},last:{},cols:{}";
    ink.put_all(text, &[frame.first, frame.last, frame.columns() as u64]);
    ink.flag(",told:", layout.is_detailed);
    ink.put(",refused:", history.refused);
    ink.flag(",exact:", history.is_exact);
    ink.text(",caps:[\n");
}

/// A cap: what it is for, its values, how much of it is used, and what part of the time it is full.
fn write_cap(
    ink: &mut Ink,
    history: &History,
    frame: Frame,
    board: &mut Board,
    side: Side,
    caps: &[Cap],
) {
    if sum_up(board, history, frame, side, caps).is_err() {
        ink.refuse();
    }
    write_kind(ink, side);
    ink.text("\",v:[");
    write_values(ink, frame, caps);
    ink.text("],u:[");
    write_steps(ink, &board.high, 1000);
    ink.text("],f:[");
    write_held(ink, frame, board);
    ink.text("]},\n");
}

/// What a cap is for.
fn write_kind(ink: &mut Ink, side: Side) {
    let (kind, origin, recipient) = match side {
        Side::Egress(peer) => ("{k:\"s\",a:\"{}\",b:\"{}", peer, peer),
        Side::Ingress(peer) => ("{k:\"r\",a:\"{}\",b:\"{}", peer, peer),
        Side::Link(origin, recipient) => ("{k:\"l\",a:\"{}\",b:\"{}", origin, recipient),
    };
    ink.put_all(kind, &[origin, recipient]);
}

/// From when on there is which cap.
fn write_values(ink: &mut Ink, frame: Frame, caps: &[Cap]) {
    for cap in caps {
        ink.put("", cap.from.saturating_sub(frame.first));
        match cap.cap {
            Some(cap) => ink.put(",", cap as u64),
            None => ink.text(",null"),
        }
        ink.text(",");
    }
}

/// What a peer sends or receives.
fn write_side(ink: &mut Ink, history: &History, frame: Frame, board: &mut Board, side: Side) {
    let (kind, peer) = match side {
        Side::Ingress(peer) => ("{k:\"r\",a:\"", peer),
        Side::Egress(peer) | Side::Link(peer, _) => ("{k:\"s\",a:\"", peer),
    };
    add_side(board, history, frame, side);
    ink.put(kind, peer);
    ink.text("\",v:[");
    write_steps(ink, &board.high, MILLION);
    ink.text("]},\n");
}

/// Steps by column: from, to, and the value in parts of so many, rounded up. What is zero is left
/// out.
fn write_steps(ink: &mut Ink, values: &[u128], parts: u128) {
    let parts = parts.max(1);
    let mut begin = 0usize;
    let mut run = 0u128;
    for (column, value) in values.iter().enumerate() {
        let value = value.div_ceil(parts);
        if value != run {
            write_step(ink, begin, column, run);
            begin = column;
            run = value;
        }
    }
    write_step(ink, begin, values.len(), run);
}

/// One step.
fn write_step(ink: &mut Ink, from: usize, to: usize, value: u128) {
    if value > 0 && from < to {
        write_value(ink, from as u64, to as u64, value);
    }
}

/// From when to when something has a value, and the value.
fn write_value(ink: &mut Ink, from: u64, to: u64, value: u128) {
    ink.put_all("{},{}", &[from, to]);
    ink.put_large(",", value);
    ink.text(",");
}

/// For what part of the time a cap is full, by column, in quarters.
fn write_held(ink: &mut Ink, frame: Frame, board: &Board) {
    let mut begin = 0usize;
    let mut run = 0u64;
    for (column, held) in board.held.iter().enumerate() {
        let quarters = quarter_of(frame, column, *held);
        if quarters != run {
            write_step(ink, begin, column, run as u128);
            begin = column;
            run = quarters;
        }
    }
    write_step(ink, begin, board.held.len(), run as u128);
}

/// The pairs, with messages while there is room for them.
fn write_pairs(ink: &mut Ink, history: &History, layout: &Layout, board: &mut Board) {
    let mut room = MOST_MESSAGES;
    for pair in &layout.pairs {
        if let Some(track) = history.tracks.get(pair) {
            write_pair(ink, layout, board, *pair, track);
            write_messages(ink, layout.frame.first, track, room);
            room = room.saturating_sub(track.messages.len());
        }
    }
}

/// A pair and its rates, up to its messages.
fn write_pair(ink: &mut Ink, layout: &Layout, board: &mut Board, pair: (u64, u64), track: &Track) {
    let frame = layout.frame;
    let text = "{a:\"{}\",b:\"{}\",c:{},r:[";
    ink.put_all(text, &[pair.0, pair.1, track.shade as u64]);
    if layout.is_detailed {
        write_pieces(ink, frame, track, true);
        ink.text("],x:[");
        write_pieces(ink, frame, track, false);
    } else {
        board.clear();
        board.add(frame, &track.pieces, true);
        write_steps(ink, &board.high, MILLION);
        ink.text("],x:[");
    }
    ink.text("],m:[");
}

/// The rates of the messages that are not to be dropped, or of those that are: from, to, and
/// millionths of a byte a second.
fn write_pieces(ink: &mut Ink, frame: Frame, track: &Track, should_deliver: bool) {
    for piece in &track.pieces {
        let (from, to) = frame.cut(piece.from, piece.to);
        if piece.should_deliver == should_deliver && from < to {
            let from = from.saturating_sub(frame.first);
            let to = to.saturating_sub(frame.first);
            write_value(ink, from, to, piece.rate);
        }
    }
}

/// The first messages of a pair, no more than so many.
fn write_messages(ink: &mut Ink, first: u64, track: &Track, most: usize) {
    for message in track.messages.iter().take(most) {
        write_message(ink, first, message);
    }
    ink.text("]},\n");
}

/// A message: channel, length, and its moments from the first one that is shown on.
fn write_message(ink: &mut Ink, first: u64, message: &Sent) {
    ink.put_all("{},{}", &[message.channel, message.length as u64]);
    write_moment(ink, first, Some(message.enqueued));
    write_moment(ink, first, message.start);
    write_moment(ink, first, message.done);
    write_moment(ink, first, message.deliver_at);
    ink.text(",");
}

/// A moment from the first one that is shown on.
fn write_moment(ink: &mut Ink, first: u64, moment: Option<u64>) {
    match moment {
        Some(moment) if moment >= first => ink.put(",", moment.saturating_sub(first)),
        Some(moment) => ink.put(",-", first.saturating_sub(moment)),
        None => ink.text(",null"),
    }
}
