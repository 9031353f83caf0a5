//! Where a trace and the simulation differ.
use crate::linkcheck::Fault;
use crate::linkcheck::said::Said;
use std::alloc::Global;
use std::io;
use std::io::Write;

/// The first line on which a trace and the simulation differ.
#[derive(Drop)]
pub struct Difference {
    /// The number of the line in the trace, counted from 1. Where the trace ends too early, it is
    /// one past its last line.
    pub line: u64,
    /// What was said, without an end byte, or `None` where the call before it has no more answers.
    pub said: Option<Vec<u8>>,
    /// What the simulation says there, in the same way.
    pub simulated: Option<Vec<u8>>,
    /// By how many nanoseconds the moment is off, where all else is the same.
    pub off: Option<u64>,
}

impl Difference {
    /// Prints the difference, a line.
    pub(crate) fn print<W: Write>(&self, output: &mut W) -> io::Result<()> {
        let line = self.line;
        write!(output, "line {line} says ")?;
        print_line(output, &self.said)?;
        output.write_all(b", the simulation says ")?;
        print_line(output, &self.simulated)?;
        match self.off {
            Some(off) => writeln!(output, ", off by {off}"),
            None => writeln!(output),
        }
    }
}

/// What a trace lacks at its end.
#[derive(Drop)]
pub struct Missing {
    /// The number of the line that is missing, counted from 1.
    pub line: u64,
    /// What the simulation says there, without an end byte, or `None` where a call is missing.
    pub simulated: Option<Vec<u8>>,
}

impl Missing {
    /// Prints what is missing, a line.
    pub(crate) fn print<W: Write>(&self, output: &mut W) -> io::Result<()> {
        let line = self.line;
        if self.simulated.is_none() {
            return writeln!(output, "line {line} is missing: there is no call");
        }
        write!(output, "line {line} is missing: the simulation says ")?;
        print_line(output, &self.simulated)?;
        writeln!(output)
    }
}

/// Prints a line, or that there is none.
fn print_line<W: Write>(output: &mut W, line: &Option<Vec<u8>>) -> io::Result<()> {
    match line {
        Some(line) => {
            output.write_all(b"`")?;
            output.write_all(line)?;
            output.write_all(b"`")
        }
        None => output.write_all(b"nothing"),
    }
}

/// By how many nanoseconds two lines are apart, where all else in them is the same.
pub(crate) fn off_by(first: &[u8], second: &[u8]) -> Option<u64> {
    Said::of(first)?.off_by(Said::of(second)?)
}

/// A copy of a line.
pub(crate) fn copy(alloc: Global, line: &[u8]) -> Result<Vec<u8>, Fault> {
    let mut copy = Vec::new(alloc);
    match copy.extend_from_slice(line) {
        Ok(()) => Ok(copy),
        Err(_) => Err(Fault::NoMemory),
    }
}
