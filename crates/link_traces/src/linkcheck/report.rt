//! What is said of a trace.
ghost use Rattle.std.specs.Prelude.{◌≡◌};
ghost use Rattle.link_traces.specs.Trace.{status_of};

use crate::linkcheck::difference::{Difference, Missing};
use crate::linkcheck::in_turn::OutOfTurn;
use std::io;
use std::io::Write;

/// What is said of a trace, and how much of it was checked.
#[derive(Drop)]
pub struct Report {
    pub verdict: Verdict,
    /// How many calls were made.
    pub calls: u64,
    /// How many messages these calls were answered to be done.
    pub completions: u64,
    /// The first call that is out of turn.
    pub out_of_turn: Option<OutOfTurn>,
}

/// What is said of a trace.
#[derive(Drop)]
pub enum Verdict {
    /// Each line that was said is what the simulation says.
    Agrees,
    /// Each is so, but that moments are off, by no more than so many nanoseconds.
    Within(u64),
    /// The trace ends without a call, or before all was said that its last call is answered.
    Missing(Missing),
    /// The first line that is off by more than the tolerance, or that is not said by both.
    Differs(Difference),
    /// A call is out of turn, where all have to be in turn.
    OutOfTurn,
}

impl Verdict {
    /// The status with which a program ends after this verdict.
    pub fn status(&self) -> u8
        ensures { result ≡ status_of self.now }
    {
        match self {
            Verdict::Agrees | Verdict::Within(_) => 0,
            Verdict::Missing(_) => 1,
            Verdict::Differs(_) | Verdict::OutOfTurn => 3,
        }
    }
}

impl Report {
    /// Prints the report: a line for a call out of turn, and a line for the verdict.
    pub(crate) fn print<W: Write>(&self, output: &mut W) -> io::Result<()> {
        if let Some(turn) = self.out_of_turn {
            writeln!(output, "{turn}")?;
        }
        match &self.verdict {
            Verdict::Agrees => {
                output.write_all(b"agrees")?;
                self.print_extent(output)?;
            }
            Verdict::Within(off) => {
                write!(output, "agrees within {off}")?;
                self.print_extent(output)?;
            }
            Verdict::Missing(missing) => missing.print(output)?,
            Verdict::Differs(difference) => difference.print(output)?,
            Verdict::OutOfTurn => (),
        }
        output.flush()
    }

    /// Prints how much was checked, and by what.
    fn print_extent<W: Write>(&self, output: &mut W) -> io::Result<()> {
        if self.out_of_turn.is_some() {
            output.write_all(b" by the event rule")?;
        }
        let calls = self.calls;
        let completions = self.completions;
        writeln!(output, ": {calls} calls, {completions} completions")
    }
}
