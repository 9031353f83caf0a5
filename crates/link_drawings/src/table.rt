//! What happened in a run, as tables.

use crate::caps::{Cap, Side};
use crate::exact::{Used, uses};
use crate::field::{Field, Line, Lines};
use crate::history::History;
use crate::ink::Ink;
use crate::options::Options;
use crate::track::{Piece, Sent, Track};
use fairness::error::Error;
use std::io;
use std::io::Write;

/// What a table has.
#[derive(Clone, Copy, Debug, PartialEq, Eq)]
pub enum Table {
    /// A line for each message.
    Messages,
    /// A line for each time in which a message is in flight at one rate.
    Rates,
    /// A line for each time in which the use of a cap stays.
    Caps,
    /// A line for all messages that arrive and for those of each channel: how long they take from
    /// their enqueue to their arrival.
    Latencies,
}

/// The columns of each table.
const MESSAGES: &[&str] = &[
    "origin",
    "recipient",
    "channel",
    "bytes",
    "enqueued_ns",
    "enqueued_s",
    "started_ns",
    "started_s",
    "done_ns",
    "done_s",
    "arrives_ns",
    "arrives_s",
    "dropped",
    "latency_ns",
    "latency_s",
];

const RATES: &[&str] = &[
    "origin",
    "recipient",
    "channel",
    "from_ns",
    "from_s",
    "to_ns",
    "to_s",
    "rate",
    "rate_decimal",
    "exact",
];

const CAPS: &[&str] = &[
    "side",
    "origin",
    "recipient",
    "from_ns",
    "from_s",
    "to_ns",
    "to_s",
    "cap",
    "used",
    "used_decimal",
    "full",
];

const LATENCIES: &[&str] = &[
    "channel",
    "count",
    "least_ns",
    "least_s",
    "p50_ns",
    "p50_s",
    "p90_ns",
    "p90_s",
    "p99_ns",
    "p99_s",
    "greatest_ns",
    "greatest_s",
];

/// Writes a table. What `ink` still has at the end is its last part.
pub(crate) fn write<W: Write>(
    out: &mut W,
    ink: &mut Ink,
    history: &History,
    options: &Options,
    table: Table,
    lines: Lines,
) -> io::Result<()> {
    let names = match table {
        Table::Messages => MESSAGES,
        Table::Rates => RATES,
        Table::Caps => CAPS,
        Table::Latencies => LATENCIES,
    };
    let mut sheet = Line::begin(ink, lines, names);
    match table {
        Table::Messages | Table::Rates => {
            let with_rates = table == Table::Rates;
            write_pairs(out, ink, &mut sheet, history, options, with_rates)
        }
        Table::Caps => write_caps(out, ink, &mut sheet, history, options),
        Table::Latencies => {
            write_latencies(ink, &mut sheet, history, options);
            Ok(())
        }
    }
}

/// Whether a time is partly in what is asked for.
fn shows(options: &Options, from: u64, to: u64) -> bool {
    let until = options.until.unwrap_or(u64::MAX);
    from <= until && to >= options.from.unwrap_or(0)
}

/// Whether a message is partly in the time that is asked for.
fn shows_message(options: &Options, message: &Sent) -> bool {
    let end = match message.deliver_at {
        Some(arrives) => arrives,
        None => message.done.unwrap_or(u64::MAX),
    };
    shows(options, message.enqueued, end)
}

/// The lines of the messages of each pair, in order of enqueue, or those of its rates.
fn write_pairs<W: Write>(
    out: &mut W,
    ink: &mut Ink,
    sheet: &mut Line,
    history: &History,
    options: &Options,
    with_rates: bool,
) -> io::Result<()> {
    for (pair, track) in &history.tracks {
        if options.shows_pair(pair.0, pair.1) {
            if with_rates {
                write_pieces(ink, sheet, options, *pair, track);
            } else {
                write_sent(ink, sheet, options, *pair, track);
            }
            ink.write_to(out)?;
        }
    }
    Ok(())
}

/// A line for each message of a pair.
fn write_sent(ink: &mut Ink, sheet: &mut Line, options: &Options, pair: (u64, u64), track: &Track) {
    for message in &track.messages {
        if shows_message(options, message) {
            write_message(ink, sheet, pair, message);
        }
    }
}

/// The line of a message.
fn write_message(ink: &mut Ink, sheet: &mut Line, pair: (u64, u64), message: &Sent) {
    let length = message.length as u64;
    let (channel, enqueued) = (Some(message.channel), Some(message.enqueued));
    let (start, done, arrives) = (message.start, message.done, message.deliver_at);
    sheet.put_numbers(ink, &[Some(pair.0), Some(pair.1), channel, Some(length)]);
    sheet.put_moments(ink, &[enqueued, start, done, arrives]);
    let is_dropped = message.done.is_some() && message.deliver_at.is_none();
    sheet.put(ink, Field::Flag(is_dropped));
    sheet.put_moments(ink, &[latency(message)]);
    sheet.end(ink);
}

/// The time from the enqueue of a message to its arrival.
fn latency(message: &Sent) -> Option<u64> {
    message.deliver_at?.checked_sub(message.enqueued)
}

/// A line for each time in which a message of a pair has one rate.
fn write_pieces(
    ink: &mut Ink,
    sheet: &mut Line,
    options: &Options,
    pair: (u64, u64),
    track: &Track,
) {
    for (place, piece) in track.pieces.iter().enumerate() {
        if shows(options, piece.from, piece.to) {
            write_rate(ink, sheet, pair, track, place, *piece);
        }
    }
}

/// The line of a rate.
fn write_rate(
    ink: &mut Ink,
    sheet: &mut Line,
    pair: (u64, u64),
    track: &Track,
    place: usize,
    piece: Piece,
) {
    let channel = match track.messages.get(piece.message) {
        Some(message) => Some(message.channel),
        None => None,
    };
    sheet.put_numbers(ink, &[Some(pair.0), Some(pair.1), channel]);
    sheet.put_moments(ink, &[Some(piece.from), Some(piece.to)]);
    let (rate, is_exact) = match track.reading(place) {
        Some(reading) => (Some(reading.amount), reading.is_exact),
        None => (None, false),
    };
    sheet.put_rate(ink, rate);
    sheet.put(ink, Field::Flag(is_exact));
    sheet.end(ink);
}

/// A line for each time in which the use of a cap stays.
fn write_caps<W: Write>(
    out: &mut W,
    ink: &mut Ink,
    sheet: &mut Line,
    history: &History,
    options: &Options,
) -> io::Result<()> {
    for (side, caps) in &history.caps {
        if options.shows_side(*side) {
            if write_uses(ink, sheet, history, options, *side, caps).is_err() {
                ink.refuse();
            }
            ink.write_to(out)?;
        }
    }
    Ok(())
}

/// The lines of the caps of a side.
fn write_uses(
    ink: &mut Ink,
    sheet: &mut Line,
    history: &History,
    options: &Options,
    side: Side,
    caps: &[Cap],
) -> Result<(), Error> {
    let list = uses(history, side, caps)?;
    for used in &list {
        if shows(options, used.from, used.to) {
            write_use(ink, sheet, side, used);
        }
    }
    Ok(())
}

/// The line of the use of a cap.
fn write_use(ink: &mut Ink, sheet: &mut Line, side: Side, used: &Used) {
    write_side(ink, sheet, side);
    sheet.put_moments(ink, &[Some(used.from), Some(used.to)]);
    let cap = match used.cap {
        Some(cap) => Some(cap as u64),
        None => None,
    };
    sheet.put_numbers(ink, &[cap]);
    sheet.put_rate(ink, used.sum);
    sheet.put(ink, Field::flag(used.is_full()));
    sheet.end(ink);
}

/// What a cap holds for, and for whom.
fn write_side(ink: &mut Ink, sheet: &mut Line, side: Side) {
    let (name, origin, recipient) = match side {
        Side::Egress(peer) => ("egress", Some(peer), None),
        Side::Ingress(peer) => ("ingress", None, Some(peer)),
        Side::Link(origin, recipient) => ("link", Some(origin), Some(recipient)),
    };
    sheet.put(ink, Field::Word(name));
    sheet.put_numbers(ink, &[origin, recipient]);
}

/// A line for all messages that arrive, and one for those of each channel.
fn write_latencies(ink: &mut Ink, sheet: &mut Line, history: &History, options: &Options) {
    let mut found = Vec::new(history.alloc);
    if note_all(&mut found, history, options).is_err() {
        ink.refuse();
    }
    found.sort_unstable_by_key(|one| one.1);
    write_quantiles(ink, sheet, Field::Word("all"), &found);
    found.sort_unstable();
    write_channels(ink, sheet, &found);
}

/// A line for the messages of each channel, which are in order.
fn write_channels(ink: &mut Ink, sheet: &mut Line, found: &[(u64, u64)]) {
    let mut rest = found;
    for _ in 0..found.len() {
        let Some((channel, _)) = rest.first() else {
            break;
        };
        let count = front(rest, *channel);
        let Some((these, others)) = rest.split_at_checked(count) else {
            break;
        };
        write_quantiles(ink, sheet, Field::Whole(*channel), these);
        rest = others;
    }
}

/// How many at the front are of that channel.
fn front(found: &[(u64, u64)], channel: u64) -> usize {
    let mut count = 0usize;
    for one in found {
        if one.0 != channel {
            break;
        }
        count = count.saturating_add(1);
    }
    count
}

/// Notes the channel and the latency of each message that arrives.
fn note_all(
    found: &mut Vec<(u64, u64)>,
    history: &History,
    options: &Options,
) -> Result<(), Error> {
    for (pair, track) in &history.tracks {
        if options.shows_pair(pair.0, pair.1) {
            note_latencies(found, options, track)?;
        }
    }
    Ok(())
}

/// Notes the channel and the latency of each message of a pair that arrives.
fn note_latencies(
    found: &mut Vec<(u64, u64)>,
    options: &Options,
    track: &Track,
) -> Result<(), Error> {
    for message in &track.messages {
        if shows_message(options, message) {
            if let Some(time) = latency(message) {
                found.push((message.channel, time))?;
            }
        }
    }
    Ok(())
}

/// The line of the latencies of a channel, which are in order.
fn write_quantiles(ink: &mut Ink, sheet: &mut Line, channel: Field, found: &[(u64, u64)]) {
    sheet.put(ink, channel);
    sheet.put(ink, Field::Whole(found.len() as u64));
    for percent in [0u64, 50, 90, 99, 100] {
        let time = match found.get(rank(found.len(), percent)) {
            Some(one) => Some(one.1),
            None => None,
        };
        sheet.put_moments(ink, &[time]);
    }
    sheet.end(ink);
}

/// The place, in order, of the first number that so many per cent of all do not exceed.
fn rank(count: usize, percent: u64) -> usize {
    let parts = (count as u128).saturating_mul(percent as u128);
    let place = parts.div_ceil(100).saturating_sub(1);
    usize::try_from(place).unwrap_or(usize::MAX)
}
