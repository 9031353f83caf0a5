//! Text that is being made.

use std::alloc::Global;
use std::io;
use std::io::{ErrorKind, Write};

/// Text that is being made, part by part. Once memory was refused, nothing more is added, and who
/// writes the text out is told.
pub(crate) struct Ink {
    text: String,
    is_whole: bool,
}

impl Drop for Ink {
    /// Lets go of what it holds.
    #[inline(always)]
    fn drop(self) {
        let Ink { text, is_whole: _ } = self;
        drop(text);
    }
}

impl Ink {
    /// No text.
    pub(crate) fn new(alloc: Global) -> Ink {
        Ink {
            text: String::new(alloc),
            is_whole: true,
        }
    }

    /// Memory was refused for what was to follow.
    pub(crate) fn refuse(&mut self) {
        self.is_whole = false;
    }

    /// One more text.
    pub(crate) fn text(&mut self, text: &str) {
        if self.is_whole {
            self.is_whole = self.text.push_str(text).is_ok();
        }
    }

    /// One more letter.
    pub(crate) fn letter(&mut self, letter: char) {
        if self.is_whole {
            self.is_whole = self.text.push(letter).is_ok();
        }
    }

    /// A text, and a number behind it.
    pub(crate) fn put(&mut self, text: &str, number: u64) {
        if self.is_whole {
            self.is_whole = write!(self.text, "{text}{number}").is_ok();
        }
    }

    /// A text, and a large number behind it.
    pub(crate) fn put_large(&mut self, text: &str, number: u128) {
        if self.is_whole {
            self.is_whole = write!(self.text, "{text}{number}").is_ok();
        }
    }

    /// A text in which each `{}` stands for the next of the numbers.
    pub(crate) fn put_all(&mut self, text: &str, numbers: &[u64]) {
        let mut rest = text;
        for number in numbers {
            if let Some((before, after)) = rest.split_once("{}") {
                self.put(before, *number);
                rest = after;
            }
        }
        self.text(rest);
    }

    /// A text, and whether something holds behind it.
    pub(crate) fn flag(&mut self, text: &str, holds: bool) {
        self.text(text);
        self.text(if holds { "true" } else { "false" });
    }

    /// Nanoseconds, in seconds with nine places.
    pub(crate) fn put_seconds(&mut self, time: u64) {
        let whole = time / 1_000_000_000;
        let rest = time % 1_000_000_000;
        if self.is_whole {
            self.is_whole = write!(self.text, "{whole}.{rest:09}").is_ok();
        }
    }

    /// Writes the text out, and begins another.
    pub(crate) fn write_to<W: Write>(&mut self, out: &mut W) -> io::Result<()> {
        if !self.is_whole {
            return Err(io::Error::from(ErrorKind::OutOfMemory));
        }
        out.write_all(self.text.as_bytes())?;
        self.text.clear();
        Ok(())
    }
}
