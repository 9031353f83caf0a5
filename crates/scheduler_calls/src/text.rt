//! Lists of calls as text. Each line is a call, or says what the call before it is answered:
//!
//!     limit NOW PEER EGRESS INGRESS           the caps of a peer
//!     link NOW ORIGIN RECIPIENT CAP           the cap of a link
//!     send NOW ORIGIN RECIPIENT LENGTH LATENCY
//!     drop NOW ORIGIN RECIPIENT LENGTH LATENCY     the same, of a message that is to be dropped
//!     list NOW COUNT                          the next COUNT messages are sent as a list
//!     advance NOW
//!     next MOMENT                             that moment is next
//!     event MOMENT                            that moment is next, and then an advance to it
//!     done PLACE ARRIVAL                      of the message at that place among all that are sent
//!     sent MOMENT                             that message is done, all of it sent, at that moment
//!     events COUNT                            the advance goes through so many events
//!     flying COUNT                            so many messages are then in flight
//!     rated COUNT                             so many messages in flight were rated anew
//!     refused late|ids|memory
//!
//! Moments and latencies are in nanoseconds, caps in bytes a second and lengths in bytes. A moment or
//! a cap that there is not is `-`. `ms` and `s` after a number are milliseconds and seconds, `last` is
//! the last moment, and `+` and `-` stand between two of these.
use crate::calls::{Calls, Parcel};
use fairness::error::Error;
use numbered_peers::Numbered;
use std::str::SplitWhitespace;
use std::test::Fail;

/// Nanoseconds in a second and in a millisecond.
const SECOND: u64 = 1_000_000_000;

pub const MILLI: u64 = 1_000_000;

/// Makes the calls of a text on a scheduler whose flow ids begin at `first`, as a list and one by one,
/// and compares each answer with the wanted one.
pub fn play<P: Numbered>(rt: &impl AllocGlobal, first: u64, text: &str) -> Result<(), Fail> {
    let mut calls = Calls::<P>::new(rt.alloc(), first, true);
    calls.read(text)?;
    calls.expect()
}

/// The same with flow ids from 0 on, and then once more with each list of messages sent one by one.
pub fn play_both<P: Numbered>(rt: &impl AllocGlobal, text: &str) -> Result<(), Fail> {
    play::<P>(rt, 0, text)?;
    let mut calls = Calls::<P>::new(rt.alloc(), 0, false);
    calls.read(text)?;
    calls.expect()
}

/// Makes the calls of a text as a list alone.
pub fn play_list<P: Numbered>(rt: &impl AllocGlobal, text: &str) -> Result<(), Fail> {
    let mut calls = Calls::<P>::new(rt.alloc(), 0, true);
    calls.read(text)?;
    calls.expect_list()
}

/// The words of a line that are not read yet.
#[derive(Drop)]
struct Words<'a> {
    rest: SplitWhitespace<'a>,
}

impl<'a> Words<'a> {
    /// The next word.
    fn word(&mut self) -> Result<&'a str, Fail> {
        match self.rest.next() {
            Some(word) => Ok(word),
            None => Err(Fail::new("too few words")),
        }
    }

    /// The next word, a number.
    fn number(&mut self) -> Result<u64, Fail> {
        number(self.word()?)
    }

    /// The next word, the number of a peer.
    fn peer(&mut self) -> Result<u8, Fail> {
        Ok(u8::try_from(self.number()?)?)
    }

    /// The next word, a length or a place.
    fn size(&mut self) -> Result<usize, Fail> {
        Ok(usize::try_from(self.number()?)?)
    }

    /// The next word, a moment or none.
    fn moment(&mut self) -> Result<Option<u64>, Fail> {
        match self.word()? {
            "-" => Ok(None),
            word => Ok(Some(number(word)?)),
        }
    }

    /// The next word, a cap or none.
    fn cap(&mut self) -> Result<Option<usize>, Fail> {
        match self.moment()? {
            None => Ok(None),
            Some(cap) => Ok(Some(usize::try_from(cap)?)),
        }
    }

    /// There are no more words.
    fn end(&mut self) -> Result<(), Fail> {
        if self.rest.next().is_some() {
            return Err(Fail::new("too many words"));
        }
        Ok(())
    }
}

/// One number, or two with `+` or `-` between them.
fn number(word: &str) -> Result<u64, Fail> {
    if let Some((one, other)) = word.split_once('+') {
        return fitting(term(one)?.checked_add(term(other)?));
    }
    if let Some((one, other)) = word.split_once('-') {
        return fitting(term(one)?.checked_sub(term(other)?));
    }
    term(word)
}

/// A number with its unit.
fn term(word: &str) -> Result<u64, Fail> {
    if word == "last" {
        return Ok(u64::MAX);
    }
    if let Some(digits) = word.strip_suffix("ms") {
        return times(digits, MILLI);
    }
    match word.strip_suffix('s') {
        Some(digits) => times(digits, SECOND),
        None => times(word, 1),
    }
}

/// So many times a unit.
fn times(digits: &str, unit: u64) -> Result<u64, Fail> {
    fitting(digits.parse::<u64>()?.checked_mul(unit))
}

/// A number, where it is one of 64 bits.
fn fitting(number: Option<u64>) -> Result<u64, Fail> {
    match number {
        Some(number) => Ok(number),
        None => Err(Fail::new("a number below zero or past the last moment")),
    }
}

impl<P: Numbered> Calls<P> {
    /// Goes on with the calls of a text.
    pub fn read(&mut self, text: &str) -> Result<(), Fail> {
        let mut is_empty = true;
        for line in text.lines() {
            let mut words = Words {
                rest: line.split_whitespace(),
            };
            self.read_line(&mut words)?;
            words.end()?;
            is_empty = false;
        }
        if is_empty {
            return Err(Fail::new("no line"));
        }
        Ok(())
    }

    fn read_line(&mut self, words: &mut Words<'_>) -> Result<(), Fail> {
        match words.word()? {
            "limit" => self.read_limit(words),
            "link" => self.read_link(words),
            "send" => self.read_message(words, false),
            "drop" => self.read_message(words, true),
            "list" => self.read_list(words),
            "advance" => self.advance(words.number()?),
            "next" => self.next(words.moment()?),
            "event" => self.read_event(words),
            "done" => self.read_done(words),
            "sent" => self.done_at(words.number()?),
            "events" => self.events(words.number()?),
            "flying" => self.flying(words.size()?),
            "rated" => self.rated(words.size()?),
            "refused" => self.refused(error(words.word()?)?),
            _ => Err(Fail::new("a line of no kind")),
        }
    }

    fn read_limit(&mut self, words: &mut Words<'_>) -> Result<(), Fail> {
        let now = words.number()?;
        let peer = words.peer()?;
        let egress = words.cap()?;
        let ingress = words.cap()?;
        self.limit(now, peer, egress, ingress)
    }

    fn read_link(&mut self, words: &mut Words<'_>) -> Result<(), Fail> {
        let now = words.number()?;
        let origin = words.peer()?;
        let recipient = words.peer()?;
        let cap = words.cap()?;
        self.link(now, origin, recipient, cap)
    }

    fn read_message(&mut self, words: &mut Words<'_>, is_dropped: bool) -> Result<(), Fail> {
        let parcel = Parcel {
            now: words.number()?,
            origin: words.peer()?,
            recipient: words.peer()?,
            length: words.size()?,
            latency: words.number()?,
            is_dropped,
        };
        self.send(parcel)
    }

    fn read_list(&mut self, words: &mut Words<'_>) -> Result<(), Fail> {
        let now = words.number()?;
        let messages = words.number()?;
        self.list(now, messages)
    }

    fn read_event(&mut self, words: &mut Words<'_>) -> Result<(), Fail> {
        let moment = words.number()?;
        self.next(Some(moment))?;
        self.advance(moment)
    }

    fn read_done(&mut self, words: &mut Words<'_>) -> Result<(), Fail> {
        let place = words.size()?;
        let deliver_at = words.moment()?;
        self.done(place, deliver_at)
    }
}

/// The error of that name.
fn error(name: &str) -> Result<Error, Fail> {
    match name {
        "late" => Ok(Error::MomentTooLate),
        "ids" => Ok(Error::FlowIdsUsedUp),
        "memory" => Ok(Error::OutOfMemory),
        _ => Err(Fail::new("an error of no kind")),
    }
}
