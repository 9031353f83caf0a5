//! A reader that tells on the way how far a run is.
ghost use Rattle.std.specs.Prelude.{◌≡◌, ◌<◌, IfSome, length};

use link_scheduler::call::Call;
use link_scripts::linkrun::command::Command;
use std::io;
use std::io::{Read, Write};
use std::time::{Clock, Instant};

/// The byte that ends a line.
const NEWLINE: u8 = b'\n';

/// The seconds between two notes.
const PAUSE: u64 = 1;

/// A reader of a script or of a trace that says, once a second, how many lines were read, and which
/// moment their calls have reached. It gives the bytes that the reader behind it gives.
///
/// It can say so only when it is asked for more, which is once for some hundred lines. What was read
/// before is done then.
pub struct Watched<R, C, W> {
    input: R,
    clock: C,
    output: W,
    name: &'static str,
    /// Whether it says anything.
    tells: bool,
    lines: u64,
    moment: Option<u64>,
    /// When it said something last, or was asked first.
    told: Option<Instant>,
}

impl<R: Drop, C: Drop, W: Drop> Drop for Watched<R, C, W> {
    /// Lets go of what it holds.
    fn drop(self) {
        let Watched {
            input,
            clock,
            output,
            name,
            tells: _,
            lines: _,
            moment: _,
            told,
        } = self;
        drop(input);
        drop(clock);
        drop(output);
        drop(name);
        drop(told);
    }
}

impl<R: Read, C: Clock, W: Write> Watched<R, C, W> {
    /// A reader of the bytes of `input`. Where `tells`, it writes on `output`, after a name.
    pub fn new(input: R, clock: C, output: W, name: &'static str, tells: bool) -> Self
        ensures { R.remaining result.input ≡ R.remaining input }
    {
        Watched {
            input,
            clock,
            output,
            name,
            tells,
            lines: 0,
            moment: None,
            told: None,
        }
    }

    /// Says how far the run is, where a second has gone by.
    fn tell(&mut self)
        ensures { self.new.input ≡ self.old.input }
    {
        if !self.tells {
            return;
        }
        let Ok(now) = Instant::now(&self.clock) else {
            return;
        };
        match self.told {
            None => self.told = Some(now),
            Some(before) => {
                if now.duration_since(before).as_secs() >= PAUSE {
                    self.told = Some(now);
                    let _ = self.print();
                }
            }
        }
    }

    /// Prints how far the run is, a line.
    fn print(&mut self) -> io::Result<()>
        ensures { self.new.input ≡ self.old.input }
    {
        let name = self.name;
        let lines = self.lines;
        match self.moment {
            None => writeln!(self.output, "{name}: {lines} lines"),
            Some(moment) => writeln!(self.output, "{name}: {lines} lines, moment {moment}"),
        }
    }

    /// Takes note of bytes that were read.
    fn note(&mut self, bytes: &[u8])
        ensures { self.new.input ≡ self.old.input }
    {
        let lines = bytes.iter().filter(|byte| **byte == NEWLINE).count();
        self.lines = self.lines.saturating_add(lines as u64);
        if let Some(moment) = last_moment(bytes) {
            self.moment = Some(moment);
        }
    }
}

impl<R: Read, C: Clock, W: Write> Read for Watched<R, C, W> {
    ghost remaining = { λ watched. R.remaining watched.input };

    fn read(&mut self, buf: &mut [u8]) -> io::Result<usize> {
        self.tell();
        let count = self.input.read(buf)?;
        if self.tells {
            self.note(&buf[..count]);
        }
        Ok(count)
    }
}

/// The moment of the last call in these lines, if one of them has a moment.
fn last_moment(bytes: &[u8]) -> Option<u64> {
    let mut until = last_end(bytes)?;
    for _ in 0..bytes.len() {
        let (before, _) = bytes.split_at(until);
        let Some(at) = last_end(before) else {
            return moment_of(before);
        };
        if let Some(moment) = moment_of(&before[at + 1..]) {
            return Some(moment);
        }
        until = at;
    }
    None
}

/// Where the last end byte stands, if there is one.
fn last_end(bytes: &[u8]) -> Option<usize>
    ensures { IfSome result (λ at. at < length bytes.now) }
{
    bytes.iter().rposition(|byte| *byte == NEWLINE)
}

/// The moment of the call that a line says.
fn moment_of(line: &[u8]) -> Option<u64> {
    let Some(Command::Schedule(call)) = Command::parse(line) else {
        return None;
    };
    match call {
        Call::Limit { now, .. } => Some(now),
        Call::LimitLink { now, .. } => Some(now),
        Call::Enqueue { now, .. } => Some(now),
        Call::Advance { now } => Some(now),
        Call::EnqueueAll { now, .. } => Some(now),
        Call::Next => None,
    }
}
