//! The columns of each line, and what may stand in them.
use link_scripts::linkrun::word::Words;

/// What may stand in a column.
#[derive(Clone, Copy)]
pub(crate) enum Kind {
    /// A number of 64 bits.
    Number,
    /// The length of a message.
    Length,
    /// A cap or a moment of 64 bits, or `-`.
    Small,
    /// A cap of 128 bits, or `-`.
    Wide,
    /// `0` or `1`.
    Flag,
    /// A number of 64 bits, and not zero.
    Weight,
}

impl Kind {
    /// What stands in the column of that name, in lines with that first word. A message that is
    /// sent has a length that scripts allow, and caps of the scheduler have 64 bits.
    pub(crate) fn of(first: &[u8], column: &[u8]) -> Kind {
        match find(&KINDS, column) {
            Some(Kind::Length) if first == b"done".as_slice() => Kind::Number,
            Some(Kind::Wide) if first == b"limitlink".as_slice() => Kind::Small,
            Some(kind) => kind,
            None => Kind::Number,
        }
    }

    /// Whether a word may stand there.
    pub(crate) fn fits(self, word: &[u8]) -> bool {
        let mut words = Words::of(word);
        match self {
            Kind::Number => words.number().is_some(),
            Kind::Length => words.length().is_some(),
            Kind::Small => words.small_cap().is_some(),
            Kind::Wide => words.cap().is_some(),
            Kind::Flag => words.flag().is_some(),
            Kind::Weight => matches!(words.number(), Some(weight) if weight > 0),
        }
    }

    /// What may stand there, in words.
    pub(crate) fn text(self) -> &'static str {
        match self {
            Kind::Number => "a number from 0 to 18446744073709551615",
            Kind::Length => "a number from 0 to 67108864",
            Kind::Small => "a number from 0 to 18446744073709551615, or -",
            Kind::Wide => "a number from 0 to 340282366920938463463374607431768211455, or -",
            Kind::Flag => "0 or 1",
            Kind::Weight => "a number from 1 to 18446744073709551615",
        }
    }
}

/// The columns in which other things than numbers of 64 bits stand.
const KINDS: [(&str, Kind); 7] = [
    ("D", Kind::Flag),
    ("LENGTH", Kind::Length),
    ("EGRESS", Kind::Small),
    ("INGRESS", Kind::Small),
    ("AT", Kind::Small),
    ("CAP", Kind::Wide),
    ("WEIGHT", Kind::Weight),
];

/// The first words of the lines of a script.
pub(crate) const COMMANDS: &str =
    "flow, egress, ingress, link, rates, hop, cap, weight, routes, limit, limitlink, enqueue, advance or next";

/// The columns of the lines of a script that say no moment, by their first words.
const SCRIPT_LINES: [(&str, &str); 10] = [
    ("flow", "ID ORIGIN RECIPIENT D"),
    ("egress", "PEER CAP"),
    ("ingress", "PEER CAP"),
    ("link", "ORIGIN RECIPIENT CAP"),
    ("rates", ""),
    ("hop", "FLOW LINK"),
    ("cap", "LINK CAP"),
    ("weight", "FLOW WEIGHT"),
    ("routes", ""),
    ("next", ""),
];

/// The columns of the calls with a moment, by their first words.
const CALL_LINES: [(&str, &str); 4] = [
    ("limit", "NOW PEER EGRESS INGRESS"),
    ("limitlink", "NOW ORIGIN RECIPIENT CAP"),
    ("enqueue", "NOW ORIGIN RECIPIENT CHANNEL LENGTH LATENCY D"),
    ("advance", "NOW"),
];

/// The columns of the lines of a trace that say no call, by their first words, but for `refused`.
const ANSWER_LINES: [(&str, &str); 3] = [
    ("done", "ORIGIN RECIPIENT CHANNEL LENGTH AT"),
    ("next", "AT"),
    ("tolerance", "N"),
];

/// The columns of a line of a script by its first word.
pub(crate) fn of_command(first: &[u8]) -> Option<&'static str> {
    find(&SCRIPT_LINES, first).or(find(&CALL_LINES, first))
}

/// The first words of the lines of a trace.
pub(crate) const OF_TRACES: &str = "limit, limitlink, enqueue, advance, next, done or refused";

/// The columns of a line of a trace by its first word, but for `refused`.
pub(crate) fn of_trace(first: &[u8]) -> Option<&'static str> {
    find(&ANSWER_LINES, first).or(find(&CALL_LINES, first))
}

/// What a table has beside a word.
fn find<T: Copy>(table: &[(&str, T)], word: &[u8]) -> Option<T> {
    for (name, found) in table {
        if name.as_bytes() == word {
            return Some(*found);
        }
    }
    None
}
