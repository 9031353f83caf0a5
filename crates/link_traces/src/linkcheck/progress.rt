//! A simulation that is asked the calls of a trace one by one, and how far the trace has said what
//! it answers.
ghost use Rattle.std.specs.Prelude.{◌≡◌, ◌↔◌, ◌<◌, ◌+◌, ◌++◌, ◌∷◌, ℕ, All, List, [], None, Ok};
ghost use Rattle.std.specs.Prelude.{drop, length, false, IsTrue, IfOk, IfSome, OnOk, vec_len};
ghost use Rattle.std.specs.Ordering.{nat_cmp};
ghost use Rattle.link_scheduler.specs.Calls.Replay.{reply_of, IsReplyTo};
ghost use Rattle.link_scheduler.specs.Calls.State.{planned_of};
ghost use Rattle.link_scripts.specs.Schedule.{world_call};
ghost use Rattle.link_scripts.specs.Script.{IsCallOfScriptInRange};
ghost use Rattle.link_simulation.specs.Rule.StandsFor.{StandsFor};
ghost use Rattle.link_simulation.specs.Simulation.Calls.{IsInTurn, call_enqueue};
ghost use Rattle.link_simulation.specs.Simulation.Messages.{Message};
ghost use Rattle.link_simulation.specs.Simulation.World.{World};
ghost use Rattle.link_traces.specs.Batches.{batch_calls, batch_lines};
ghost use Rattle.link_traces.specs.Progress.{due, IsTold};
ghost use Rattle.link_traces.specs.Trace.{call_line, done_in};
ghost use Rattle.link_traces.specs.Turns.{IsSimulatedReply};

use crate::linkcheck::batch::{Batch, Sent};
use crate::linkcheck::difference::off_by;
use crate::linkcheck::in_turn::OutOfTurn;
use crate::linkcheck::lines::NEWLINE;
use crate::linkcheck::{Fault, in_turn};
use fairness::error::Error;
use link_scheduler::call::{Call, Reply};
use link_scheduler::transmitter::{Contents, State};
use link_scripts::linkrun::fill::fill;
use link_scripts::linkrun::{answer, schedule};
use std::alloc::Global;

/// The simulation, and what of its answers the trace has said.
pub(crate) struct Progress {
    pub(crate) alloc: Global,
    pub(crate) scheduler: State<u64, Contents>,
    /// The lines that answer the last call.
    pub(crate) answers: Vec<u8>,
    /// How many bytes of them were said.
    pub(crate) said: usize,
    /// Whether that call was refused for want of memory.
    pub(crate) lacked_memory: bool,
    /// By how many nanoseconds the moment that is off by most is off, if one is.
    pub(crate) off: Option<u64>,
    /// The moment of the last call that was made.
    pub(crate) reached: u64,
    pub(crate) calls: u64,
    pub(crate) completions: u64,
    pub(crate) out_of_turn: Option<OutOfTurn>,
}

impl Drop for Progress {
    /// Lets go of what it holds.
    fn drop(self) {
        let Progress {
            alloc: _,
            scheduler,
            answers,
            said: _,
            lacked_memory: _,
            off: _,
            reached: _,
            calls: _,
            completions: _,
            out_of_turn,
        } = self;
        drop(scheduler);
        drop(answers);
        drop(out_of_turn);
    }
}

impl Progress {
    /// Nothing is asked.
    pub(crate) fn new(alloc: Global) -> Progress
        ensures told { IsTold [] result }
        ensures in_turn { result.out_of_turn ≡ None }
    {
        Progress {
            alloc,
            scheduler: State::with_payload(alloc, 0),
            answers: Vec::new(alloc),
            said: 0,
            lacked_memory: false,
            off: None,
            reached: 0,
            calls: 0,
            completions: 0,
            out_of_turn: None,
        }
    }

    /// Asks the call of a line, once all that was due before it was said.
    pub(crate) fn ask(&mut self, call: &Call<u64, usize>, line: u64) -> Result<(), Fault>
        requires { IsCallOfScriptInRange call.now }
        ensures { OnOk result ((said : List ℕ) → IsTold said self.old → due self.old ≡ []
            → IsTold (said ++ call_line call.now) self.new) }
    {
        self.out_of_turn = self.turn(call, line);
        let reply = reply_to(self.alloc, &mut self.scheduler, call);
        self.reached = in_turn::reached_after(self.reached, call, &reply);
        (self.calls, self.completions) = self.counts_with(&reply)?;
        self.answers.clear();
        self.said = 0;
        self.lacked_memory = matches!(reply, Reply::Refused(Error::OutOfMemory));
        match answer::print_reply(&mut self.answers, &reply) {
            Ok(()) => Ok(()),
            Err(_) => Err(Fault::NoMemory),
        }
    }

    /// Sends the messages of a batch at once, once all that was due before it was said, where the calls
    /// are in turn. Where one of them is done at once, what is due is what is then said.
    pub(crate) fn send(&mut self, batch: &Batch) -> Result<Sent, Fault>
        requires in_range { All IsCallOfScriptInRange (batch_calls batch.now) }
        requires some { 0 < vec_len batch.now.messages }
        ensures silent { result ≡ Ok Sent.Silently → (said : List ℕ) → IsTold said self.old → due self.old ≡ []
            → IsTold (said ++ batch_lines batch.now) self.new }
        ensures kept { result ≡ Ok Sent.NotAtOnce → (said : List ℕ) → IsTold said self.old → IsTold said self.new }
        ensures turn { self.new.out_of_turn ≡ self.old.out_of_turn }
    {
        if !self.sends_in_turn(batch.moment) {
            return Ok(Sent::NotAtOnce);
        }
        let Ok(reply) = schedule::send_all(
            self.alloc,
            &mut self.scheduler,
            batch.moment,
            &batch.messages,
        ) else {
            return Ok(Sent::NotAtOnce);
        };
        if let Some(place) = batch.first_done(&reply) {
            self.answer_with(&reply, place)?;
            return Ok(Sent::Done(place));
        }
        let Some(calls) = self.calls.checked_add(batch.messages.len() as u64) else {
            return Err(Fault::InputOutput);
        };
        self.calls = calls;
        self.reached = batch.moment;
        Ok(Sent::Silently)
    }

    /// What is due is from now on the reply to a batch of which the message of that place is done
    /// first.
    fn answer_with(&mut self, reply: &Reply<u64, Contents>, place: usize) -> Result<(), Fault>
        ensures turn { self.new.out_of_turn ≡ self.old.out_of_turn }
    {
        self.calls = self.calls.saturating_add(place as u64).saturating_add(1);
        self.completions = self.completions.saturating_add(1);
        self.answers.clear();
        self.said = 0;
        self.lacked_memory = false;
        match answer::print_reply(&mut self.answers, reply) {
            Ok(()) => Ok(()),
            Err(_) => Err(Fault::NoMemory),
        }
    }

    /// Whether no call was out of turn, and calls that send messages at that moment are in turn, too.
    fn sends_in_turn(&self, now: u64) -> bool
        ensures before { IsTrue result → self.now.out_of_turn ≡ None }
        ensures turn { IsTrue result → (w : World ℕ) → w.moment ≡ self.now.reached
            → StandsFor nat_cmp (planned_of self.now.scheduler) w → (m : Message ℕ)
            → IsInTurn nat_cmp w (call_enqueue now m) }
    {
        if self.out_of_turn.is_some() {
            return false;
        }
        in_turn::cause_of_change(now, self.reached, self.scheduler.next()).is_none()
    }

    /// The first call out of turn up to the call of that line.
    fn turn(&self, call: &Call<u64, usize>, line: u64) -> Option<OutOfTurn>
        ensures before { result ≡ None → self.now.out_of_turn ≡ None }
        ensures turn { result ≡ None → (w : World ℕ) → w.moment ≡ self.now.reached
            → StandsFor nat_cmp (planned_of self.now.scheduler) w → IsInTurn nat_cmp w (world_call call.now) }
    {
        if self.out_of_turn.is_some() {
            return self.out_of_turn;
        }
        let cause = in_turn::cause_of(call, self.reached, self.scheduler.next())?;
        Some(OutOfTurn { line, cause })
    }

    /// How many calls and completions there are with one call more and what it is answered. The
    /// numbers go up to 2^64 - 1, which no trace reaches.
    fn counts_with(&self, reply: &Reply<u64, Contents>) -> Result<(u64, u64), Fault>
        ensures calls { IfOk result (λ n. n.0 ≡ self.now.calls + 1) }
        ensures completions { IfOk result (λ n. n.1 ≡ self.now.completions + length (done_in (reply_of reply.now))) }
    {
        let Some(calls) = self.calls.checked_add(1) else {
            return Err(Fault::InputOutput);
        };
        let Some(completions) = self.completions.checked_add(count_done(reply) as u64) else {
            return Err(Fault::InputOutput);
        };
        Ok((calls, completions))
    }

    /// The line that is due, if one is, without its end byte, and how many bytes are said after it.
    pub(crate) fn due_line(&self) -> Option<(&[u8], usize)>
        ensures due { IfSome result (λ d. due self.now ≡ d.0.now ++ 10 ∷ drop d.1 self.now.answers.items) }
    {
        let due = self.answers.get(self.said..)?;
        let end = due.iter().position(|byte| *byte == NEWLINE)?;
        Some((&due[..end], self.said + end + 1))
    }

    /// Whether all that the last call is answered was said.
    pub(crate) fn is_all_said(&self) -> bool
        ensures { IsTrue result ↔ (due self.now ≡ []) }
    {
        self.answers.as_slice().len() <= self.said
    }

    /// Takes the line that is due, where the trace says just that. Answers whether it does.
    pub(crate) fn hear(&mut self, line: &[u8]) -> bool
        ensures heard { IsTrue result → (said : List ℕ) → IsTold said self.old
            → IsTold (said ++ (line.now ++ 10 ∷ [])) self.new }
        ensures turn { self.new.out_of_turn ≡ self.old.out_of_turn }
        ensures kept { result ≡ false → self.new ≡ self.old }
    {
        let Some((due, after)) = self.due_line() else {
            return false;
        };
        if due != line {
            return false;
        }
        self.said = after;
        true
    }

    /// Takes the line that is due, where the trace says another moment there that is off by no more
    /// than so many nanoseconds. Answers whether it does.
    pub(crate) fn hear_nearly(&mut self, line: &[u8], tolerance: u64) -> bool
        ensures heard { IsTrue result → (said : List ℕ) → IsTold said self.old
            → IsTold (said ++ (line.now ++ 10 ∷ [])) self.new }
        ensures turn { self.new.out_of_turn ≡ self.old.out_of_turn }
        ensures kept { result ≡ false → self.new ≡ self.old }
    {
        let Some((due, after)) = self.due_line() else {
            return false;
        };
        let Some(off) = off_by(line, due) else {
            return false;
        };
        if off > tolerance {
            return false;
        }
        self.off = Some(off.max(self.off.unwrap_or(0)));
        self.said = after;
        true
    }
}

/// How many messages a reply says are done.
fn count_done(reply: &Reply<u64, Contents>) -> usize
    ensures { result ≡ length (done_in (reply_of reply.now)) }
{
    match reply {
        Reply::Done(completions) => completions.len(),
        Reply::Next(_) | Reply::Refused(_) => 0,
    }
}

/// Makes a call of the scheduler. A call that is refused changes nothing, and is replied to so.
fn reply_to(
    alloc: Global,
    scheduler: &mut State<u64, Contents>,
    call: &Call<u64, usize>,
) -> Reply<u64, Contents>
    ensures by_rule { IsReplyTo nat_cmp (planned_of scheduler.old) (world_call call.now) (reply_of result)
        (planned_of scheduler.new) }
    ensures simulated { (w : World ℕ) → StandsFor nat_cmp (planned_of scheduler.old) w
        → IsInTurn nat_cmp w (world_call call.now)
        → IsSimulatedReply nat_cmp w (world_call call.now) (reply_of result) (planned_of scheduler.new) }
{
    match fill(alloc, call) {
        Err(error) => Reply::Refused(error),
        Ok(call) => match call.make(scheduler) {
            Err(error) => Reply::Refused(error),
            Ok(reply) => reply,
        },
    }
}
