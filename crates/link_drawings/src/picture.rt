//! The picture of a run.

use crate::board::Board;
use crate::caps::Side;
use crate::frame::{Frame, LEFT, SPAN, WIDTH};
use crate::head::{LEGEND, STYLE, draw_pair_legend, draw_title, legend_height};
use crate::history::History;
use crate::ink::Ink;
use crate::labels::{digits, tick_step};
use crate::layout::{Layout, NONE};
use crate::options::Options;
use crate::rows::{Row, draw_name, draw_pair};
use crate::stacks::{add_side, draw_cap, draw_cap_name, draw_peer};

/// How high the head is: the title, the legend and the marks of time, without the legend of pairs.
const HEAD: u64 = 176;

/// How high the name of a part is.
const PART: u64 = 44;

/// How far names are apart at least.
const NAMES: u64 = 20;

/// Draws the picture.
pub(crate) fn draw(
    ink: &mut Ink,
    history: &History,
    options: &Options,
    layout: &Layout,
    board: &mut Board,
) {
    let axis = HEAD.saturating_add(legend_height(history, layout));
    let peers = axis.saturating_add(part(layout.caps.len(), layout.cap_pitch()));
    let pairs = peers.saturating_add(part(layout.peers.len(), layout.peer_pitch()));
    let foot = pairs.saturating_add(part(layout.pairs.len(), layout.pair_pitch()));
    let notes = notes_height(history, layout);
    open(ink, foot.saturating_add(80).saturating_add(notes));
    draw_title(ink, history, options, layout.frame);
    ink.text(LEGEND);
    ink.text("\n");
    draw_pair_legend(ink, history, layout);
    draw_axis(ink, layout.frame, axis, foot);
    draw_caps(ink, history, layout, board, axis);
    draw_peers(ink, history, layout, board, peers);
    draw_pairs(ink, history, layout, board, pairs);
    draw_notes(ink, history, layout, foot);
    ink.text("</svg>\n");
}

/// How high a part of so many rows is.
fn part(rows: usize, pitch: u64) -> u64 {
    if rows == 0 {
        return 0;
    }
    (rows as u64).saturating_mul(pitch).saturating_add(PART)
}

/// The head of the file, with the styles.
fn open(ink: &mut Ink, height: u64) {
    ink.text("<svg xmlns=\"http://www.w3.org/2000/svg\" width=\"100%\" ");
    ink.put_all("viewBox=\"0 0 {} {}\">\n", &[WIDTH, height]);
    ink.text(STYLE);
    let text = "\n<rect class=\"b\" width=\"{}\" height=\"{}\"/>\n";
    ink.put_all(text, &[WIDTH, height]);
}

/// The marks of time, from the head to the foot, and the name of the axis.
fn draw_axis(ink: &mut Ink, frame: Frame, top: u64, foot: u64) {
    let letters = digits(frame.last).saturating_add(5);
    let most = (SPAN / letters.saturating_mul(14).max(1)).clamp(1, 8);
    let step = tick_step(frame.last.saturating_sub(frame.first), most);
    let mut moment = frame.first.div_ceil(step.max(1)).saturating_mul(step);
    for _ in 0..12 {
        if moment > frame.last {
            break;
        }
        draw_mark(ink, frame, moment, top, foot);
        let Some(next) = moment.checked_add(step) else {
            break;
        };
        moment = next;
    }
    let text = "<text class=\"t\" x=\"{}\" y=\"{}\">time since the start</text>\n";
    ink.put_all(text, &[LEFT + SPAN / 2, foot.saturating_add(58)]);
}

/// The mark of a moment, from the head to the foot.
fn draw_mark(ink: &mut Ink, frame: Frame, moment: u64, top: u64, foot: u64) {
    let text = "<path class=\"g\" d=\"M{} {}V{}\"/>\n";
    ink.put_all(text, &[frame.at(moment), top, foot]);
    name_mark(ink, frame, moment, top.saturating_sub(14));
    name_mark(ink, frame, moment, foot.saturating_add(28));
}

/// The name of a moment, at that height.
fn name_mark(ink: &mut Ink, frame: Frame, moment: u64, y: u64) {
    let text = "<text class=\"t\" x=\"{}\" y=\"{}\">";
    ink.put_all(text, &[frame.at(moment), y]);
    ink.tick(moment, frame.last);
    ink.text("</text>\n");
}

/// Names a part, whose top is there, and answers where its rows begin.
fn draw_part(ink: &mut Ink, top: u64, name: &str, full: Option<u128>) -> u64 {
    let text = "<text class=\"h\" x=\"{}\" y=\"{}\">";
    ink.put_all(text, &[LEFT, top.saturating_add(34)]);
    ink.text(name);
    if let Some(full) = full {
        ink.text(" (full height: ");
        ink.pace(full);
        ink.text(")");
    }
    ink.text("</text>\n");
    top.saturating_add(PART)
}

/// Of each cap, how much of it is used.
fn draw_caps(ink: &mut Ink, history: &History, layout: &Layout, board: &mut Board, top: u64) {
    if layout.caps.is_empty() {
        return;
    }
    let mut top = draw_part(ink, top, "Use of each cap (full height: all of it)", None);
    let pitch = layout.cap_pitch();
    let mut named = 0u64;
    for side in &layout.caps {
        if let Some(caps) = history.caps.get(side) {
            let place = (top, pitch);
            draw_cap(ink, history, layout.frame, board, place, *side, caps);
            if top >= named {
                let middle = top.saturating_add(pitch / 2);
                draw_name(ink, *side, middle, pitch);
                draw_cap_name(ink, caps, middle, pitch);
                named = top.saturating_add(NAMES).saturating_sub(2);
            }
            top = top.saturating_add(pitch);
        }
    }
}

/// What each peer sends and receives, on one scale.
fn draw_peers(ink: &mut Ink, history: &History, layout: &Layout, board: &mut Board, top: u64) {
    if layout.peers.is_empty() {
        return;
    }
    let full = greatest_side(history, layout, board);
    let mut top = draw_part(ink, top, "What each peer sends and receives", Some(full));
    let pitch = layout.peer_pitch();
    let mut named = 0u64;
    for side in &layout.peers {
        let is_detailed = layout.is_detailed;
        let place = (top, pitch);
        draw_peer(
            ink,
            history,
            layout.frame,
            board,
            place,
            *side,
            full,
            is_detailed,
        );
        if top >= named {
            draw_name(ink, *side, top.saturating_add(pitch / 2), pitch);
            named = top.saturating_add(NAMES).saturating_sub(2);
        }
        top = top.saturating_add(pitch);
    }
}

/// The greatest rate of what a peer sends or receives, as it is drawn.
fn greatest_side(history: &History, layout: &Layout, board: &mut Board) -> u128 {
    let mut full = 1u128;
    for side in &layout.peers {
        add_side(board, history, layout.frame, *side);
        full = board.peak().max(full);
    }
    full
}

/// The messages of each pair, on one scale.
fn draw_pairs(ink: &mut Ink, history: &History, layout: &Layout, board: &mut Board, top: u64) {
    if layout.pairs.is_empty() {
        return;
    }
    let full = greatest(history, layout, board);
    let mut top = draw_part(ink, top, "Messages of each pair", Some(full));
    let mut named = 0u64;
    for pair in &layout.pairs {
        if let Some(track) = history.tracks.get(pair) {
            let row = Row {
                top,
                pitch: layout.pair_pitch(),
                full,
                is_detailed: layout.is_detailed,
                is_exact: history.is_exact,
            };
            draw_pair(ink, layout.frame, board, row, *pair, track);
            if top >= named {
                let side = Side::Link(pair.0, pair.1);
                draw_name(ink, side, top.saturating_add(row.pitch / 2), row.pitch);
                named = top.saturating_add(NAMES);
            }
            top = top.saturating_add(row.pitch);
        }
    }
}

/// The greatest rate of a pair, as it is drawn.
fn greatest(history: &History, layout: &Layout, board: &mut Board) -> u128 {
    let mut full = 1u128;
    for pair in &layout.pairs {
        if let Some(track) = history.tracks.get(pair) {
            board.clear();
            board.add(layout.frame, &track.pieces, true);
            full = board.peak().max(full);
        }
    }
    full
}

/// How high the lines are that say what the picture does not show.
fn notes_height(history: &History, layout: &Layout) -> u64 {
    let mut lines = 0u64;
    for is_said in [layout.idle != NONE, layout.more != NONE, !history.is_exact] {
        if is_said {
            lines = lines.saturating_add(30);
        }
    }
    lines
}

/// What the picture does not show.
fn draw_notes(ink: &mut Ink, history: &History, layout: &Layout, foot: u64) {
    let mut y = foot.saturating_add(92);
    if layout.idle != NONE {
        draw_idle(ink, layout, y);
        y = y.saturating_add(30);
    }
    if layout.more != NONE {
        draw_more(ink, layout, y);
        y = y.saturating_add(30);
    }
    if !history.is_exact {
        begin_note(ink, y, "A rate is a mean over a few events; ");
        ink.text("a cap counts as full where it is for all of these.</text>\n");
    }
}

/// The begin of a note, at that height.
fn begin_note(ink: &mut Ink, y: u64, text: &str) {
    ink.put_all("<text x=\"{}\" y=\"{}\">", &[LEFT, y]);
    ink.text(text);
}

/// How many rows are left out since nothing happens there.
fn draw_idle(ink: &mut Ink, layout: &Layout, y: u64) {
    begin_note(ink, y, "Left out, since nothing happens there: ");
    ink.count("", layout.idle.caps as u64, "cap");
    ink.count(", ", layout.idle.pairs as u64, "pair");
    ink.text(".</text>\n");
}

/// How many rows are left out for want of room.
fn draw_more(ink: &mut Ink, layout: &Layout, y: u64) {
    let text = "Left out for want of room (--peers shows those of some): ";
    begin_note(ink, y, text);
    ink.count("", layout.more.caps as u64, "cap");
    ink.count(", ", layout.more.peers as u64, "row");
    ink.count(" of peers, and ", layout.more.pairs as u64, "pair");
    ink.text(" that send least.</text>\n");
}
