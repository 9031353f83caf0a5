//! A trace on its way: line after line is compared with what the simulation answers.
ghost use Rattle.std.specs.Prelude.{◌≡◌, ◌<◌, ◌≤◌, ◌++◌, ◌∷◌, ℕ, All, List, [], None, Ok, IfOk, IfSome};
ghost use Rattle.std.specs.Prelude.{vec_len};
ghost use Rattle.link_scripts.specs.Script.{IsCallOfScriptInRange};
ghost use Rattle.link_traces.specs.Batches.{batch_calls, batch_lines};
ghost use Rattle.link_traces.specs.Checker.{IsUnderway, IsSameTrace, GoesOn};
ghost use Rattle.link_traces.specs.Progress.{due};
ghost use Rattle.std.specs.Option.{unwrap_or};
ghost use Rattle.link_traces.specs.Trace.{EndsEarly, IsHeadedTranscript, tolerance_line};

use crate::linkcheck::batch::{Batch, Sent};
use crate::linkcheck::difference::{Difference, Missing, copy, off_by};
use crate::linkcheck::progress::Progress;
use crate::linkcheck::report::{Report, Verdict};
use crate::linkcheck::said::Said;
use crate::linkcheck::{Fault, Turns, asked, tolerance};
use std::alloc::Global;

/// What is kept of a trace.
pub(crate) struct Checker {
    pub(crate) turns: Turns,
    /// How many lines were taken.
    pub(crate) lines: u64,
    /// The tolerance that the first line sets.
    pub(crate) tolerance: Option<u64>,
    pub(crate) progress: Progress,
}

impl Drop for Checker {
    /// Lets go of what it holds.
    fn drop(self) {
        let Checker {
            turns,
            lines: _,
            tolerance: _,
            progress,
        } = self;
        drop(turns);
        drop(progress);
    }
}

impl Checker {
    /// No line is taken.
    pub(crate) fn new(alloc: Global, turns: Turns) -> Checker
        ensures new { IsUnderway [] result }
        ensures turns { result.turns ≡ turns }
    {
        Checker {
            turns,
            lines: 0,
            tolerance: None,
            progress: Progress::new(alloc),
        }
    }

    /// The number of the next line. It stays at the last number once that is reached.
    pub(crate) fn next_number(&self) -> u64
        ensures { 0 < result }
    {
        self.lines.saturating_add(1)
    }

    /// Takes the next line, and answers a report where nothing after it has to be read.
    pub(crate) fn take(&mut self, line: &[u8]) -> Result<Option<Report>, Fault>
        ensures goes_on { result ≡ Ok None → (text : List ℕ) → IsUnderway text self.old
            → IsUnderway (text ++ (line.now ++ 10 ∷ [])) self.new }
        ensures turns { self.new.turns ≡ self.old.turns }
        ensures ends { IfOk result (λ report. IfSome report (λ r. EndsEarly r.verdict)) }
    {
        let first = self.lines == 0;
        self.lines = self.next_number();
        if first {
            if let Some(tolerance) = self.tolerance_of(line)? {
                self.tolerance = Some(tolerance);
                return Ok(None);
            }
        }
        self.compare(line)
    }

    /// Takes the lines of a batch at once, where it is sent at once and silently.
    pub(crate) fn send(&mut self, batch: &Batch) -> Result<Sent, Fault>
        requires in_range { All IsCallOfScriptInRange (batch_calls batch.now) }
        requires some { 0 < vec_len batch.now.messages }
        requires none_due { due self.old.progress ≡ [] }
        ensures silent { result ≡ Ok Sent.Silently → (text : List ℕ) → IsUnderway text self.old
            → IsUnderway (text ++ batch_lines batch.now) self.new }
        ensures kept { result ≡ Ok Sent.NotAtOnce → (text : List ℕ) → IsUnderway text self.old
            → IsUnderway text self.new }
        ensures turns { self.new.turns ≡ self.old.turns }
    {
        let sent = self.progress.send(batch)?;
        if sent == Sent::Silently {
            self.lines = self.lines.saturating_add(batch.messages.len() as u64);
        }
        Ok(sent)
    }

    /// The tolerance that a line sets.
    fn tolerance_of(&self, line: &[u8]) -> Result<Option<u64>, Fault>
        ensures { IfOk result (λ answer. IfSome answer (λ n. line.now ++ 10 ∷ [] ≡ tolerance_line n)) }
    {
        match tolerance::of(self.progress.alloc, line) {
            Ok(answer) => Ok(answer),
            Err(_) => Err(Fault::NoMemory),
        }
    }

    /// Compares a line with what is due, or makes the call that it asks.
    fn compare(&mut self, line: &[u8]) -> Result<Option<Report>, Fault>
        ensures goes_on { result ≡ Ok None → GoesOn self.old line.now self.new }
        ensures same { IsSameTrace self.old self.new }
        ensures ends { IfOk result (λ report. IfSome report (λ r. EndsEarly r.verdict)) }
    {
        if self.progress.is_all_said() {
            return self.ask(line);
        }
        if self.progress.hear(line) {
            return Ok(None);
        }
        if self.progress.hear_nearly(line, self.tolerance.unwrap_or(0)) {
            return Ok(None);
        }
        Ok(Some(self.difference(line)?))
    }

    /// Makes the call that a line asks.
    fn ask(&mut self, line: &[u8]) -> Result<Option<Report>, Fault>
        requires { due self.old.progress ≡ [] }
        ensures goes_on { result ≡ Ok None → GoesOn self.old line.now self.new }
        ensures same { IsSameTrace self.old self.new }
        ensures ends { IfOk result (λ report. IfSome report (λ r. EndsEarly r.verdict)) }
    {
        let Some(call) = asked::call(line) else {
            return Ok(Some(self.difference(line)?));
        };
        self.progress.ask(&call, self.lines)?;
        if self.turns == Turns::InTurn && self.progress.out_of_turn.is_some() {
            return Ok(Some(self.report(Verdict::OutOfTurn)));
        }
        Ok(None)
    }

    /// The report that a line is another than the simulation says, where it is one of a trace.
    pub(crate) fn difference(&self, line: &[u8]) -> Result<Report, Fault>
        ensures ends { IfOk result (λ r. EndsEarly r.verdict) }
    {
        let is_answer = Said::of(line).is_some();
        if !is_answer && asked::call(line).is_none() {
            return Err(Fault::BadLine(self.lines));
        }
        let simulated = self.due_line()?;
        let off = match &simulated {
            Some(due) => off_by(line, due),
            None => None,
        };
        let said = if is_answer {
            Some(copy(self.progress.alloc, line)?)
        } else {
            None
        };
        Ok(self.report(Verdict::Differs(Difference {
            line: self.lines,
            said,
            simulated,
            off,
        })))
    }

    /// A copy of the line that is due, if one is. A call that was refused for want of memory has none.
    fn due_line(&self) -> Result<Option<Vec<u8>>, Fault> {
        let Some((due, _)) = self.progress.due_line() else {
            return Ok(None);
        };
        if self.progress.lacked_memory {
            return Err(Fault::NoMemory);
        }
        Ok(Some(copy(self.progress.alloc, due)?))
    }

    /// The report at the end of the trace.
    pub(crate) fn conclude(&self) -> Result<Report, Fault>
        ensures agrees { IfOk result (λ report. report.verdict ≡ Verdict.Agrees → (text : List ℕ)
            → IsUnderway text self.now → IsHeadedTranscript text report) }
        ensures within { IfOk result (λ report. (off : ℕ) → report.verdict ≡ Verdict.Within off
            → off ≤ unwrap_or self.now.tolerance 0) }
        ensures turn { IfOk result (λ report. report.out_of_turn ≡ self.now.progress.out_of_turn) }
    {
        if !self.progress.is_all_said() || self.progress.calls == 0 {
            let missing = Missing {
                line: self.next_number(),
                simulated: self.due_line()?,
            };
            return Ok(self.report(Verdict::Missing(missing)));
        }
        let tolerance = self.tolerance.unwrap_or(0);
        Ok(self.report(match self.progress.off {
            None => Verdict::Agrees,
            Some(off) => Verdict::Within(off.min(tolerance)),
        }))
    }

    /// The report with a verdict.
    fn report(&self, verdict: Verdict) -> Report
        ensures { result ≡ record {
          verdict = verdict;
          calls = self.now.progress.calls;
          completions = self.now.progress.completions;
          out_of_turn = self.now.progress.out_of_turn;
        } }
    {
        Report {
            verdict,
            calls: self.progress.calls,
            completions: self.progress.completions,
            out_of_turn: self.progress.out_of_turn,
        }
    }
}
