//! Whether a trace is what the simulation does: the calls of a scheduler, and the lines that
//! another simulator answered to each.
ghost use Rattle.std.specs.Prelude.{◌≡◌, ℕ, [], IfOk, IfSome, Some, None, Ok};
ghost use Rattle.std.specs.Io.Buffered.{reader_remaining};
ghost use Rattle.std.specs.Io.KnownBytes.{Consumes, IsAtEnd};
ghost use Rattle.link_traces.specs.Lines.{taken};
ghost use Rattle.link_traces.specs.Checker.{IsUnderway, IsTakenOf};
ghost use Rattle.link_traces.specs.Trace.{EndsEarly, IsAgreed, IsAllowed, fault_text, verdict_status};

mod asked;
mod batch;
mod checker;
pub mod difference;
pub mod in_turn;
mod lines;
mod progress;
pub mod report;
mod said;
mod tolerance;

use crate::linkcheck::batch::{Batch, Sent};
use crate::linkcheck::checker::Checker;
use crate::linkcheck::report::{Report, Verdict};
use link_scripts::linkrun::line::{LineEnd, MOST_READ};
use std::alloc::Global;
use std::io::{BufRead, BufReader, Read, Write};
use std::{fmt, io};

/// Which calls a trace may have.
#[derive(Clone, Copy, Debug, PartialEq, Eq)]
pub enum Turns {
    /// Calls at any moments. From the first one out of turn on the event rule says what is right.
    Any,
    /// Calls in turn alone.
    InTurn,
}

/// Why there is no verdict.
#[derive(Clone, Copy, Debug, PartialEq, Eq)]
pub enum Fault {
    /// The line of that number, counted from 1, is neither a call nor an answer.
    BadLine(u64),
    /// A read or a write failed.
    InputOutput,
    /// No memory was left.
    NoMemory,
}

/// What a program says of the fault, without a byte at its end.
impl fmt::Display for Fault {
    ghost output = { λ fault. Some (fault_text fault) };

    fn fmt<W: fmt::Write>(&self, f: &mut fmt::Formatter<W>) -> fmt::Result {
        match self {
            Fault::BadLine(number) => write!(f, "bad line {number}"),
            Fault::InputOutput => f.write_str("input or output fault"),
            Fault::NoMemory => f.write_str("out of memory"),
        }
    }
}

/// The status with which a program ends.
pub fn status(report: &Result<Report, Fault>) -> u8
    ensures { result ≡ verdict_status report.now }
{
    match report {
        Ok(report) => report.verdict.status(),
        Err(Fault::InputOutput | Fault::NoMemory) => 1,
        Err(Fault::BadLine(_)) => 2,
    }
}

/// Compares the trace that `input` gives with what the simulation does, line by line.
///
/// Each call of the trace is made in its order on a new scheduler, and the lines after it have to be
/// what the simulation answers. Its first line may be `tolerance N`, with a number N of nanoseconds:
/// a moment that is said may be off by so much, and without that line none may. The last line may lack
/// its end byte. Of the trace no more is kept than a line and the messages of one moment whose lines
/// were read ahead, of the simulation its scheduler and what one call is answered.
///
/// The verdict is `Agrees` or `Within` only where there is a call, and the trace says all that its
/// calls are answered. `calls` and `completions` of the report say how much that is.
///
/// - `BadLine` where a line is neither a call of the scheduler nor a line that answers one.
/// - `InputOutput` where a read failed. A read that was interrupted is made again. It comes also after
///   2^64 - 1 lines or completions, which no trace has.
/// - `NoMemory` where there is none for a line or for what a call is answered, or where the simulation
///   was refused a call for want of memory and the trace says something else.
pub fn check<R: Read>(alloc: Global, input: &mut R, turns: Turns) -> Result<Report, Fault>
    ensures agrees { IfOk result (λ report. report.verdict ≡ Verdict.Agrees
        → IfSome (R.remaining input.old) (λ bytes. IsAgreed bytes report)) }
    ensures within { IfOk result (λ report. (off : ℕ) → report.verdict ≡ Verdict.Within off
        → IfSome (R.remaining input.old) (λ bytes. IsAllowed bytes off)) }
    ensures in_turn { IfOk result (λ report. turns ≡ Turns.InTurn → report.verdict ≡ Verdict.Agrees
        → report.out_of_turn ≡ None) }
{
    let mut line = Vec::new(alloc);
    check_keeping_line(alloc, input, turns, &mut line)
}

/// Does what `check` does, and leaves in `line` the line that was read last, without its end byte, in
/// the place of what it held: the one that a `BadLine` tells of, or its first 257 bytes.
pub fn check_keeping_line<R: Read>(
    alloc: Global,
    input: &mut R,
    turns: Turns,
    line: &mut Vec<u8>,
) -> Result<Report, Fault>
    ensures agrees { IfOk result (λ report. report.verdict ≡ Verdict.Agrees
        → IfSome (R.remaining input.old) (λ bytes. IsAgreed bytes report)) }
    ensures within { IfOk result (λ report. (off : ℕ) → report.verdict ≡ Verdict.Within off
        → IfSome (R.remaining input.old) (λ bytes. IsAllowed bytes off)) }
    ensures in_turn { IfOk result (λ report. turns ≡ Turns.InTurn → report.verdict ≡ Verdict.Agrees
        → report.out_of_turn ≡ None) }
{
    line.clear();
    if line.reserve(MOST_READ).is_err() {
        return Err(Fault::NoMemory);
    }
    let Ok(mut reader) = BufReader::new(alloc, input) else {
        return Err(Fault::NoMemory);
    };
    let mut checker = Checker::new(alloc, turns);
    check_lines(&mut checker, &mut reader, line)
}

/// Compares the lines of a trace up to its end, or to the first that differs. `line` is room for one.
fn check_lines<R: Read>(
    checker: &mut Checker,
    input: &mut BufReader<R>,
    line: &mut Vec<u8>,
) -> Result<Report, Fault>
    requires { IsUnderway [] checker.old }
    ensures agrees { IfOk result (λ report. report.verdict ≡ Verdict.Agrees
        → IfSome (reader_remaining R.remaining input.old) (λ bytes. IsAgreed bytes report)) }
    ensures within { IfOk result (λ report. (off : ℕ) → report.verdict ≡ Verdict.Within off
        → IfSome (reader_remaining R.remaining input.old) (λ bytes. IsAllowed bytes off)) }
    ensures in_turn { IfOk result (λ report. checker.old.turns ≡ Turns.InTurn → report.verdict ≡ Verdict.Agrees
        → report.out_of_turn ≡ None) }
{
    let mut batch = Batch::new(checker.progress.alloc);
    let mut alone = 0;
    for _ in 0..u64::MAX {
        if let Some(early) = take_batch(checker, input, line, &mut batch, &mut alone)? {
            return Ok(early);
        }
        let end = read(input, line)?;
        if end == LineEnd::TooLong {
            return Err(Fault::BadLine(checker.next_number()));
        }
        if end == LineEnd::Input && line.is_empty() {
            return checker.conclude();
        }
        if let Some(report) = checker.take(line)? {
            return Ok(report);
        }
        if end == LineEnd::Input {
            return checker.conclude();
        }
    }
    Err(Fault::InputOutput)
}

/// Takes the lines of the next batch, where one was read ahead and is sent at once. `alone` is how many
/// calls are to be made one by one before that is tried.
fn take_batch<R: Read>(
    checker: &mut Checker,
    input: &mut BufReader<R>,
    line: &mut Vec<u8>,
    batch: &mut Batch,
    alone: &mut usize,
) -> Result<Option<Report>, Fault>
    ensures taken { result ≡ Ok None → IsTakenOf (reader_remaining R.remaining input.old)
        (reader_remaining R.remaining input.new) checker.old checker.new }
    ensures ends { IfOk result (λ report. IfSome report (λ r. EndsEarly r.verdict)) }
{
    if !checker.progress.is_all_said() {
        return Ok(None);
    }
    if *alone > 0 {
        *alone -= 1;
        return Ok(None);
    }
    batch.gather(input.buffer());
    let count = batch.messages.len();
    if count == 0 {
        return Ok(None);
    }
    match checker.send(batch)? {
        Sent::Silently => {
            input.consume(batch.length);
            Ok(None)
        }
        Sent::NotAtOnce => {
            *alone = count - 1;
            Ok(None)
        }
        Sent::Done(place) => Ok(Some(differ(checker, input, line, place)?)),
    }
}

/// The report that the line after the message of that place says another thing than that it is done.
fn differ<R: Read>(
    checker: &mut Checker,
    input: &mut BufReader<R>,
    line: &mut Vec<u8>,
    place: usize,
) -> Result<Report, Fault>
    ensures ends { IfOk result (λ r. EndsEarly r.verdict) }
{
    for _ in 0..=place {
        read(input, line)?;
        checker.lines = checker.next_number();
    }
    if read(input, line)? == LineEnd::TooLong {
        return Err(Fault::BadLine(checker.next_number()));
    }
    checker.lines = checker.next_number();
    checker.difference(line)
}

/// Reads the next line.
fn read<R: Read>(input: &mut BufReader<R>, line: &mut Vec<u8>) -> Result<LineEnd, Fault>
    ensures taken { IfOk result (λ end. Consumes (reader_remaining R.remaining input.old)
        (reader_remaining R.remaining input.new) (taken end line.new.items)) }
    ensures end { result ≡ Ok LineEnd.Input → IsAtEnd (reader_remaining R.remaining input.new) }
{
    match lines::next_line(input, line) {
        Ok(end) => Ok(end),
        Err(error) => Err(fault_of(&error)),
    }
}

/// The fault of a read.
fn fault_of(error: &io::Error) -> Fault {
    match error.kind() {
        io::ErrorKind::OutOfMemory => Fault::NoMemory,
        _ => Fault::InputOutput,
    }
}

/// Does what `check` does, and prints the report on `output`: one line, and before it one that names
/// the first call out of turn, if there is one.
///
/// Its errors are those of `check`, and `InputOutput` where a write or the flush failed.
pub fn run<R: Read, W: Write>(
    alloc: Global,
    input: &mut R,
    output: &mut W,
    turns: Turns,
) -> Result<Report, Fault>
    ensures agrees { IfOk result (λ report. report.verdict ≡ Verdict.Agrees
        → IfSome (R.remaining input.old) (λ bytes. IsAgreed bytes report)) }
    ensures within { IfOk result (λ report. (off : ℕ) → report.verdict ≡ Verdict.Within off
        → IfSome (R.remaining input.old) (λ bytes. IsAllowed bytes off)) }
    ensures in_turn { IfOk result (λ report. turns ≡ Turns.InTurn → report.verdict ≡ Verdict.Agrees
        → report.out_of_turn ≡ None) }
{
    let mut line = Vec::new(alloc);
    run_keeping_line(alloc, input, output, turns, &mut line)
}

/// Does what `run` does, and leaves in `line` the line that was read last, as `check_keeping_line` does.
pub fn run_keeping_line<R: Read, W: Write>(
    alloc: Global,
    input: &mut R,
    output: &mut W,
    turns: Turns,
    line: &mut Vec<u8>,
) -> Result<Report, Fault>
    ensures agrees { IfOk result (λ report. report.verdict ≡ Verdict.Agrees
        → IfSome (R.remaining input.old) (λ bytes. IsAgreed bytes report)) }
    ensures within { IfOk result (λ report. (off : ℕ) → report.verdict ≡ Verdict.Within off
        → IfSome (R.remaining input.old) (λ bytes. IsAllowed bytes off)) }
    ensures in_turn { IfOk result (λ report. turns ≡ Turns.InTurn → report.verdict ≡ Verdict.Agrees
        → report.out_of_turn ≡ None) }
{
    let report = check_keeping_line(alloc, input, turns, line)?;
    match report.print(output) {
        Ok(()) => Ok(report),
        Err(_) => Err(Fault::InputOutput),
    }
}
