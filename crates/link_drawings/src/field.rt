//! Lines of a table, as CSV or as JSON.

use crate::ink::Ink;
use fairness::ratio::Ratio;

/// How the lines of a table are written.
#[derive(Clone, Copy, Debug, PartialEq, Eq)]
pub enum Lines {
    /// Values with commas between them, after a line with the names of the columns.
    Csv,
    /// An object of JSON on each line.
    Json,
}

/// Decimal places of a number that is no whole one.
const PLACES: u32 = 9;

/// A value of a table.
#[derive(Clone, Copy)]
pub(crate) enum Field {
    /// There is none.
    None,
    Word(&'static str),
    Whole(u64),
    /// Nanoseconds, in seconds.
    Seconds(u64),
    /// A numerator and a denominator.
    Fraction(u128, u128),
    /// The same with nine places, rounded down.
    Decimal(u128, u128),
    Flag(bool),
}

impl Field {
    /// A whole number, if there is one.
    pub(crate) fn whole(number: Option<u64>) -> Field {
        match number {
            Some(number) => Field::Whole(number),
            None => Field::None,
        }
    }

    /// Whether something holds, where that is known.
    pub(crate) fn flag(holds: Option<bool>) -> Field {
        match holds {
            Some(holds) => Field::Flag(holds),
            None => Field::None,
        }
    }

    /// Writes it without quotes.
    fn write(self, ink: &mut Ink) {
        match self {
            Field::None => {}
            Field::Word(word) => ink.text(word),
            Field::Whole(number) => ink.put("", number),
            Field::Seconds(time) => ink.put_seconds(time),
            Field::Fraction(numerator, denominator) => {
                ink.put_large("", numerator);
                ink.put_large("/", denominator);
            }
            Field::Decimal(numerator, denominator) => write_decimal(ink, numerator, denominator),
            Field::Flag(holds) => ink.text(if holds { "1" } else { "0" }),
        }
    }

    /// Writes it as a value of JSON.
    fn write_json(self, ink: &mut Ink) {
        match self {
            Field::None => ink.text("null"),
            Field::Word(_) | Field::Fraction(_, _) => {
                ink.text("\"");
                self.write(ink);
                ink.text("\"");
            }
            Field::Flag(holds) => ink.flag("", holds),
            _ => self.write(ink),
        }
    }
}

/// A fraction with nine places, rounded down.
fn write_decimal(ink: &mut Ink, numerator: u128, denominator: u128) {
    let denominator = denominator.max(1);
    ink.put_large("", numerator / denominator);
    ink.text(".");
    let mut rest = numerator % denominator;
    for _ in 0..PLACES {
        let (digit, next) = next_digit(rest, denominator);
        ink.put("", digit as u64);
        rest = next;
    }
}

/// The next digit of `rest / denominator`, and what is left of ten times the rest: found by adding
/// the rest ten times, which 128 bits hold where it is taken out as soon as it is too large.
fn next_digit(rest: u128, denominator: u128) -> (u8, u128) {
    let mut digit = 0u8;
    let mut left = 0u128;
    for _ in 0..10u8 {
        let room = denominator.saturating_sub(left);
        if rest >= room {
            left = rest.saturating_sub(room);
            digit = digit.saturating_add(1);
        } else {
            left = left.saturating_add(rest);
        }
    }
    (digit, left)
}

/// A line that is being written.
#[derive(Clone, Copy)]
pub(crate) struct Line {
    lines: Lines,
    names: &'static [&'static str],
    /// How many values stand in it.
    count: usize,
}

impl Line {
    /// The first line. For CSV the names of the columns stand before it.
    pub(crate) fn begin(ink: &mut Ink, lines: Lines, names: &'static [&'static str]) -> Line {
        if lines == Lines::Csv {
            for (place, name) in names.iter().enumerate() {
                ink.text(if place == 0 { "" } else { "," });
                ink.text(name);
            }
            ink.text("\n");
        }
        Line {
            lines,
            names,
            count: 0,
        }
    }

    /// One more value.
    pub(crate) fn put(&mut self, ink: &mut Ink, field: Field) {
        let place = self.count;
        self.count = place.saturating_add(1);
        match self.lines {
            Lines::Csv => {
                ink.text(if place == 0 { "" } else { "," });
                field.write(ink);
            }
            Lines::Json => {
                self.name(ink, place);
                field.write_json(ink);
            }
        }
    }

    /// The name of the value at that place, in an object of JSON.
    fn name(&self, ink: &mut Ink, place: usize) {
        ink.text(if place == 0 { "{\"" } else { ",\"" });
        ink.text(match self.names.get(place) {
            Some(name) => name,
            None => "",
        });
        ink.text("\":");
    }

    /// A rate, as a fraction and with nine places.
    pub(crate) fn put_rate(&mut self, ink: &mut Ink, rate: Option<Ratio>) {
        let (fraction, decimal) = match rate {
            Some(rate) => (
                Field::Fraction(rate.numerator(), rate.denominator()),
                Field::Decimal(rate.numerator(), rate.denominator()),
            ),
            None => (Field::None, Field::None),
        };
        self.put(ink, fraction);
        self.put(ink, decimal);
    }

    /// Whole numbers, where there are some.
    pub(crate) fn put_numbers(&mut self, ink: &mut Ink, numbers: &[Option<u64>]) {
        for number in numbers {
            self.put(ink, Field::whole(*number));
        }
    }

    /// Moments or times, each in nanoseconds and in seconds.
    pub(crate) fn put_moments(&mut self, ink: &mut Ink, moments: &[Option<u64>]) {
        for moment in moments {
            let (whole, seconds) = match *moment {
                Some(moment) => (Field::Whole(moment), Field::Seconds(moment)),
                None => (Field::None, Field::None),
            };
            self.put(ink, whole);
            self.put(ink, seconds);
        }
    }

    /// The end of the line. The next value is the first of another.
    pub(crate) fn end(&mut self, ink: &mut Ink) {
        self.count = 0;
        match self.lines {
            Lines::Csv => ink.text("\n"),
            Lines::Json => ink.text("}\n"),
        }
    }
}
