//! A writer that counts the commands that were refused for want of memory.
ghost use Rattle.std.specs.Prelude.{◌≡◌};

use memchr::memchr;
use std::io;
use std::io::Write;

/// The byte that ends a line.
const NEWLINE: u8 = b'\n';

/// How the line of a command begins that was refused for want of memory.
const REFUSED: &[u8; 10] = b"refused 1 ";

/// A writer of what a script prints, that counts the lines `refused 1 out of memory`. It writes the
/// bytes that it is given on the writer behind it.
#[derive(Drop)]
pub struct Tally<W> {
    output: W,
    refused: u64,
    /// How many bytes of the line stand as `REFUSED` has them, or `None` where one does not.
    matched: Option<usize>,
}

impl<W: Write> Tally<W> {
    /// A writer on `output`, at the beginning of a line.
    pub fn new(output: W) -> Self
        ensures { W.contents result.output ≡ W.contents output }
    {
        Tally {
            output,
            refused: 0,
            matched: Some(0),
        }
    }

    /// How many commands were refused for want of memory so far.
    pub fn refused(&self) -> u64 {
        self.refused
    }

    /// Takes note of a byte that was written.
    fn note(&mut self, byte: u8)
        ensures { self.new.output ≡ self.old.output }
    {
        if byte == NEWLINE {
            self.matched = Some(0);
            return;
        }
        let Some(matched) = self.matched else {
            return;
        };
        if REFUSED.get(matched) != Some(&byte) {
            self.matched = None;
            return;
        }
        if matched + 1 == REFUSED.len() {
            self.refused = self.refused.saturating_add(1);
            self.matched = None;
        } else {
            self.matched = Some(matched + 1);
        }
    }

    /// Takes note of bytes that were written. What is no line's beginning is passed over up to the
    /// next byte that `REFUSED` begins with: it begins a line where it follows an end byte.
    fn note_all(&mut self, bytes: &[u8])
        ensures { self.new.output ≡ self.old.output }
    {
        let mut rest = bytes;
        while let Some((byte, behind)) = rest.split_first() {
            if let Some(1..) = self.matched {
                self.note(*byte);
                rest = behind;
                continue;
            }
            let Some(at) = memchr(REFUSED[0], rest) else {
                self.matched = if rest.ends_with(&[NEWLINE]) {
                    Some(0)
                } else {
                    None
                };
                return;
            };
            let begins = if at == 0 {
                self.matched.is_some()
            } else {
                rest[at - 1] == NEWLINE
            };
            self.matched = if begins { Some(1) } else { None };
            rest = &rest[at + 1..];
        }
    }
}

impl<W: Write> Write for Tally<W> {
    ghost contents = { λ tally. W.contents tally.output };

    fn write(&mut self, bytes: &[u8]) -> io::Result<usize> {
        let count = self.output.write(bytes)?;
        self.note_all(&bytes[..count]);
        Ok(count)
    }

    fn flush(&mut self) -> io::Result<()> {
        self.output.flush()
    }
}
