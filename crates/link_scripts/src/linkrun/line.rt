//! The lines of a script, read as a stream.
ghost use Rattle.std.specs.Prelude.{◌≡◌, ◌⊎◌, [], Contains, IfOk, IfSome, IfNone, OnOk, length};
ghost use Rattle.std.specs.Io.Buffered.{reader_buffer, reader_remaining, writer_buffer, writer_contents};
ghost use Rattle.std.specs.Io.KnownBytes.{Keeps};
ghost use Rattle.link_scripts.specs.Lines.{IsLengthOf, LacksEndByte, IsFrontOf, IsCut, IsTaken, AsksAfterWriting};
ghost use Rattle.link_scripts.specs.Lines.{IsLineAhead};

use memchr::memchr;
use std::io;
use std::io::{BufRead, BufReader, BufWriter, Read, Write};

/// The most bytes that a line has, its end byte not counted.
pub(crate) const MOST_BYTES: usize = 256;

/// The most bytes that are read of a line.
pub const MOST_READ: usize = MOST_BYTES + 1;

/// The byte that ends a line.
const NEWLINE: u8 = b'\n';

/// What ended a line.
#[derive(Clone, Copy, Debug, PartialEq, Eq)]
pub enum LineEnd {
    /// The end byte.
    Newline,
    /// The end of the input.
    Input,
    /// The line is longer than a line may be, and its rest is not read.
    TooLong,
}

/// How many bytes the next line has, where its end byte was read ahead.
#[tactic(auto, using(crate::proofs::Reading::first_line, crate::proofs::Reading::no_line))]
pub(crate) fn length_ahead<R: Read>(input: &BufReader<R>) -> Option<usize>
    ensures ahead { IfSome result (IsLineAhead (reader_buffer input.now)) }
    ensures none { IfNone result (¬ (Contains (reader_buffer input.now) 10)) }
{
    memchr(NEWLINE, input.buffer())
}

/// Reads the next line as `read_line` does. `ahead` is its length, where its end byte was read
/// ahead. Before the reader behind `input` is asked for more, which is where no whole line was read
/// ahead, `output` is flushed.
pub(crate) fn next_line<R: Read, W: Write + Drop>(
    input: &mut BufReader<R>,
    ahead: Option<usize>,
    output: &mut BufWriter<W>,
    line: &mut Vec<u8>,
) -> io::Result<LineEnd>
    requires { IfSome ahead (IsLineAhead (reader_buffer input.old)) }
    ensures length { IfOk result (λ end. IsLengthOf end (length line.new.items)) }
    ensures one_line { IfOk result (λ _. LacksEndByte line.new.items) }
    ensures front { IfOk result (λ end. IfSome (reader_remaining R.remaining input.old)
        (IsFrontOf end line.new.items)) }
    ensures taken { OnOk result
        (IsTaken input.old line.new.items input.new ⊎ (writer_buffer output.new ≡ [])) }
    ensures written { AsksAfterWriting input.old input.new output.new }
    ensures contents { Keeps (writer_contents W.contents output.old) (writer_contents W.contents output.new) }
{
    if let Some(length) = ahead {
        if length <= MOST_BYTES {
            line.clear();
            line.extend_from_slice(&input.buffer()[..length])?;
            input.consume(length + 1);
            return Ok(LineEnd::Newline);
        }
    }
    output.flush()?;
    read_line(input, line)
}

/// Reads the next line, without its end byte, in the place of what `line` held. It takes memory
/// only where `line` has no room for 257 bytes.
pub fn read_line<B: BufRead>(input: &mut B, line: &mut Vec<u8>) -> io::Result<LineEnd>
    ensures length { IfOk result (λ end. IsLengthOf end (length line.new.items)) }
    ensures one_line { IfOk result (λ _. LacksEndByte line.new.items) }
    ensures front { IfOk result (λ end. IfSome (B.remaining input.old) (IsFrontOf end line.new.items)) }
{
    line.clear();
    let mut front = (&mut *input).take(MOST_READ as u64);
    front.read_until(NEWLINE, line)?;
    let end = cut_end(line);
    if line.len() > MOST_BYTES {
        Ok(LineEnd::TooLong)
    } else {
        Ok(end)
    }
}

/// Takes the end byte off what was read of a line, if it is there.
fn cut_end(line: &mut Vec<u8>) -> LineEnd
    ensures { IsCut result line.old.items line.new.items }
{
    if line.ends_with(&[NEWLINE]) {
        line.pop();
        LineEnd::Newline
    } else {
        LineEnd::Input
    }
}
