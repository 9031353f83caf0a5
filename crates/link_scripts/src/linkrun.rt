//! Scripts of flows and caps, run line by line.
ghost use Rattle.std.specs.Prelude.{◌≡◌, ◌<◌, Some, IfOk, IfSome, IsTrue, false, length, take};
ghost use Rattle.link_scripts.specs.BadLines.{Blames};
ghost use Rattle.std.specs.Io.Buffered.{reader_buffer};
ghost use Rattle.link_scripts.specs.Lines.{IsLengthOf, IsLineAhead, IsTaken};
ghost use Rattle.link_scripts.specs.Outcome.{status_of, outcome_text, CountsFromOne};

pub mod answer;
pub mod command;
mod ending;
pub mod fill;
mod gathered;
pub mod line;
pub mod schedule;
mod session;
pub mod word;

use crate::linkrun::command::Command;
use crate::linkrun::gathered::Gathered;
use crate::linkrun::line::LineEnd;
use crate::linkrun::session::Session;
use std::alloc::Global;
use std::io::{BufRead, BufReader, BufWriter, Read, Write};
use std::{fmt, io};

/// How the run of a script came to its end.
#[derive(Clone, Copy, Debug, PartialEq, Eq)]
pub enum Outcome {
    /// The script was read to its end.
    Whole,
    /// The line of that number, counted from 1, is not of the language. Nothing of it was done, and
    /// nothing after it was read as a command. The number stays at 18446744073709551615 once it is
    /// reached.
    BadLine(u64),
    /// A read or a write failed.
    InputOutput,
    /// No memory was left outside a command.
    NoMemory,
}

impl Outcome {
    /// The status with which a program ends after this outcome.
    pub fn status(self) -> u8
        ensures { result ≡ status_of self }
    {
        match self {
            Outcome::Whole => 0,
            Outcome::InputOutput | Outcome::NoMemory => 1,
            Outcome::BadLine(_) => 2,
        }
    }
}

/// What a program says of the outcome, without a byte at its end, and nothing after a whole script.
impl fmt::Display for Outcome {
    ghost output = { λ outcome. Some (outcome_text outcome) };

    fn fmt<W: fmt::Write>(&self, f: &mut fmt::Formatter<W>) -> fmt::Result {
        match self {
            Outcome::Whole => Ok(()),
            Outcome::BadLine(number) => write!(f, "bad line {number}"),
            Outcome::InputOutput => f.write_str("input or output fault"),
            Outcome::NoMemory => f.write_str("out of memory"),
        }
    }
}

/// Runs the script that `input` gives, and prints its answers on `output`.
///
/// The script is read as a stream. What is kept of it are its flows, its caps and its network, the
/// scheduler, and the messages of one moment that are yet to be sent together. What is printed is written to `output`
/// and flushed before `input` is asked for more, and before this returns, whatever the outcome. So who asks line by line has
/// each answer before the next line.
///
/// - `Whole` where the script was read to its end.
/// - `BadLine` where a line is not of the language.
/// - `InputOutput` where a read, a write or the flush failed. A read that was interrupted is made
///   again. It comes also after 2^128 - 1 lines, which no reader gives.
/// - `NoMemory` where there is none for a line, for reading ahead or for printing. Nothing is read
///   or printed then. A command that finds no memory is refused, and the script goes on.
pub fn run<R: Read, W: Write>(alloc: Global, input: &mut R, output: &mut W) -> Outcome
    ensures { CountsFromOne result }
{
    let mut line = Vec::new(alloc);
    run_keeping_line(alloc, input, output, &mut line)
}

/// Does what `run` does. Where the outcome is `BadLine`, the bad line is left in `line`, without its
/// end byte, or its first 257 bytes. Else what `line` holds is of no meaning.
pub fn run_keeping_line<R: Read, W: Write>(
    alloc: Global,
    input: &mut R,
    output: &mut W,
    line: &mut Vec<u8>,
) -> Outcome
    ensures counted { CountsFromOne result }
    ensures bad { Blames result line.new.items }
{
    line.clear();
    if line.reserve(line::MOST_READ).is_err() {
        return Outcome::NoMemory;
    }
    let Ok(mut reader) = BufReader::new(alloc, input) else {
        return Outcome::NoMemory;
    };
    let Ok(mut writer) = BufWriter::new(alloc, output) else {
        return Outcome::NoMemory;
    };
    let outcome = run_session(alloc, &mut reader, &mut writer, line);
    match writer.flush() {
        Ok(()) => outcome.unwrap_or(Outcome::InputOutput),
        Err(_) => Outcome::InputOutput,
    }
}

/// Runs the lines of `input` from a new session on.
fn run_session<R: Read, W: Write + Drop>(
    alloc: Global,
    input: &mut BufReader<R>,
    output: &mut BufWriter<W>,
    line: &mut Vec<u8>,
) -> io::Result<Outcome>
    ensures counted { IfOk result CountsFromOne }
    ensures bad { IfOk result (λ outcome. Blames outcome line.new.items) }
{
    let mut session = Session::new(alloc);
    let mut gathered = Gathered::new(alloc);
    let outcome = run_lines(&mut session, &mut gathered, input, output, line)?;
    gathered.send(&mut session, output)?;
    Ok(outcome)
}

/// Runs the lines of `input` in order, up to its end or to a bad line. `line` is room for one.
fn run_lines<R: Read, W: Write + Drop>(
    session: &mut Session,
    gathered: &mut Gathered,
    input: &mut BufReader<R>,
    output: &mut BufWriter<W>,
    line: &mut Vec<u8>,
) -> io::Result<Outcome>
    ensures counted { IfOk result CountsFromOne }
    ensures bad { IfOk result (λ outcome. Blames outcome line.new.items) }
{
    let mut number = 0u64;
    for _ in 0..u128::MAX {
        number = number.saturating_add(1);
        if let Some(outcome) = run_line(session, gathered, input, output, line, number)? {
            return Ok(outcome);
        }
    }
    Ok(Outcome::InputOutput)
}

/// Runs the next line, which has that number. Answers the outcome, if the run ends with it.
fn run_line<R: Read, W: Write + Drop>(
    session: &mut Session,
    gathered: &mut Gathered,
    input: &mut BufReader<R>,
    output: &mut BufWriter<W>,
    line: &mut Vec<u8>,
    number: u64,
) -> io::Result<Option<Outcome>>
    requires { 0 < number }
    ensures counted { IfOk result (λ outcome. IfSome outcome CountsFromOne) }
    ensures bad { IfOk result (λ outcome. IfSome outcome (λ outcome. Blames outcome line.new.items)) }
{
    if let Some(length) = line::length_ahead(input) {
        if length <= line::MOST_BYTES && run_ahead(session, gathered, input, output, length)? {
            return Ok(None);
        }
    }
    let end = read_next(session, gathered, input, output, line)?;
    if end == LineEnd::TooLong {
        return Ok(Some(Outcome::BadLine(number)));
    }
    if !line.is_empty() {
        let Some(command) = Command::parse(line) else {
            return Ok(Some(Outcome::BadLine(number)));
        };
        gathered.perform(session, output, command)?;
    }
    if end == LineEnd::Input {
        return Ok(Some(Outcome::Whole));
    }
    Ok(None)
}

/// Runs the next line, which has so many bytes and was read ahead with its end byte, and answers
/// whether it is of the language. If it is not, nothing is done.
fn run_ahead<R: Read, W: Write + Drop>(
    session: &mut Session,
    gathered: &mut Gathered,
    input: &mut BufReader<R>,
    output: &mut BufWriter<W>,
    length: usize,
) -> io::Result<bool>
    requires { IsLineAhead (reader_buffer input.old) length }
    ensures taken { IfOk result (λ is_run. IsTrue is_run
        → IsTaken input.old (take length (reader_buffer input.old)) input.new) }
    ensures bad { IfOk result (λ is_run. is_run ≡ false → input.new ≡ input.old) }
{
    if length > 0 {
        let Some(command) = Command::parse(&input.buffer()[..length]) else {
            return Ok(false);
        };
        gathered.perform(session, output, command)?;
    }
    input.consume(length + 1);
    Ok(true)
}

/// Reads the next line. What is gathered is sent before `input` is asked for more.
fn read_next<R: Read, W: Write + Drop>(
    session: &mut Session,
    gathered: &mut Gathered,
    input: &mut BufReader<R>,
    output: &mut BufWriter<W>,
    line: &mut Vec<u8>,
) -> io::Result<LineEnd>
    ensures length { IfOk result (λ end. IsLengthOf end (length line.new.items)) }
{
    let ahead = line::length_ahead(input);
    if ahead.is_none() {
        gathered.send(session, output)?;
    }
    line::next_line(input, ahead, output, line)
}
