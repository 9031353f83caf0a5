//! Moments, rates and sides in words.

use crate::caps::Side;
use crate::history::MILLION;
use crate::ink::Ink;

impl Ink {
    /// A number and its unit, to three places, with no zeros at its end.
    fn amount(&mut self, parts: u128, unit: u128, name: &str) {
        let unit = unit.max(1);
        self.put_large("", parts / unit);
        self.places(thousandths(parts % unit, unit), 100);
        self.text(" ");
        self.text(name);
    }

    /// The places behind the point, with no zeros at their end. The first of them tells how many
    /// times the rest has that tenth.
    fn places(&mut self, rest: u128, tenth: u128) {
        if rest == 0 {
            return;
        }
        self.text(".");
        let mut rest = rest;
        let mut part = tenth;
        for _ in 0..9 {
            if rest > 0 {
                self.put_large("", rest / part.max(1));
                rest %= part.max(1);
                part /= 10;
            }
        }
    }

    /// A text, and behind it a moment or a time in nanoseconds, in the greatest unit that it fills.
    pub(crate) fn moment(&mut self, text: &str, time: u64) {
        self.text(text);
        if time == 0 {
            self.text("0 s");
            return;
        }
        let (unit, name) = unit_of(time);
        self.amount(time as u128, unit as u128, name);
    }

    /// A moment in nanoseconds, in the unit that suits the greatest moment of its axis.
    pub(crate) fn tick(&mut self, moment: u64, greatest: u64) {
        let (unit, name) = unit_of(greatest);
        let unit = unit.max(1);
        self.put("", moment / unit);
        self.places((moment % unit) as u128, (unit / 10) as u128);
        self.text(" ");
        self.text(name);
    }

    /// A rate in millionths of a byte a second, in the greatest unit that it fills.
    pub(crate) fn pace(&mut self, rate: u128) {
        self.size(rate);
        self.text("/s");
    }

    /// Millionths of a byte, in the greatest unit that they fill.
    pub(crate) fn size(&mut self, parts: u128) {
        let (unit, name) = if parts >= 1_000_000_000 * MILLION {
            (1_000_000_000 * MILLION, "GB")
        } else if parts >= 1_000_000 * MILLION {
            (1_000_000 * MILLION, "MB")
        } else if parts >= 1000 * MILLION {
            (1000 * MILLION, "kB")
        } else {
            (MILLION, "B")
        };
        self.amount(parts, unit, name);
    }

    /// What a cap holds for.
    pub(crate) fn side(&mut self, side: Side) {
        match side {
            Side::Egress(peer) => {
                self.put("", peer);
                self.text(" sends");
            }
            Side::Ingress(peer) => {
                self.put("", peer);
                self.text(" receives");
            }
            Side::Link(origin, recipient) => self.pair(origin, recipient),
        }
    }

    /// An ordered pair.
    pub(crate) fn pair(&mut self, origin: u64, recipient: u64) {
        self.put_all("{} → {}", &[origin, recipient]);
    }

    /// A text, and so many of something behind it: `1 message`, `2 messages`.
    pub(crate) fn count(&mut self, text: &str, count: u64, word: &str) {
        self.put(text, count);
        self.text(" ");
        self.text(word);
        if count != 1 {
            self.text("s");
        }
    }

    /// A text that stands in a file of marks, as SVG and HTML are.
    pub(crate) fn marked(&mut self, text: &str) {
        for letter in text.chars() {
            match mark_of(letter) {
                Some(mark) => self.text(mark),
                None => self.letter(letter),
            }
        }
    }
}

/// What stands for a letter in a file of marks; none where it stands for itself.
fn mark_of(letter: char) -> Option<&'static str> {
    match letter {
        '<' => Some("&lt;"),
        '>' => Some("&gt;"),
        '&' => Some("&amp;"),
        '"' => Some("&quot;"),
        other if other.is_control() => Some(" "),
        _ => None,
    }
}

/// How many thousandths of a unit a rest is.
fn thousandths(rest: u128, unit: u128) -> u128 {
    match rest.checked_mul(1000) {
        Some(times) => times / unit.max(1),
        None => rest / (unit / 1000).max(1),
    }
}

/// The greatest unit of time that so many nanoseconds fill, and its name.
fn unit_of(time: u64) -> (u64, &'static str) {
    if time >= 1_000_000_000 {
        (1_000_000_000, "s")
    } else if time >= 1_000_000 {
        (1_000_000, "ms")
    } else if time >= 1000 {
        (1000, "µs")
    } else {
        (1, "ns")
    }
}

/// How many letters a number takes.
pub(crate) fn digits(number: u64) -> u64 {
    let mut rest = number / 10;
    let mut count = 1u64;
    for _ in 0..20 {
        if rest > 0 {
            rest /= 10;
            count = count.saturating_add(1);
        }
    }
    count
}

/// How many letters the name of a side takes.
pub(crate) fn letters(side: Side) -> u64 {
    match side {
        Side::Egress(peer) => digits(peer).saturating_add(6),
        Side::Ingress(peer) => digits(peer).saturating_add(9),
        Side::Link(origin, recipient) => digits(origin)
            .saturating_add(digits(recipient))
            .saturating_add(3),
    }
}

/// The time between two marks of an axis, so that there are about so many of them at most.
pub(crate) fn tick_step(time: u64, most: u64) -> u64 {
    let mut step = 1u64;
    for _ in 0..19 {
        for times in [1u64, 2, 5] {
            let wide = step.saturating_mul(times);
            if time / wide.max(1) <= most {
                return wide;
            }
        }
        step = step.saturating_mul(10);
    }
    step
}
