//! Calls out of turn.
ghost use Rattle.std.specs.Prelude.{◌≡◌, ◌<◌, ◌≤◌, IfSome, MatchOption};
ghost use Rattle.link_scheduler.specs.Calls.Replay.{reply_of};
ghost use Rattle.link_scripts.specs.Schedule.{world_call};
ghost use Rattle.link_traces.specs.Turns.{IsTimely, reached_after};

use link_scheduler::call::{Call, Reply};
use link_scheduler::transmitter::Contents;
use std::fmt;

/// The first call of a trace that comes out of turn. Of what calls in turn are answered, the
/// simulation and the event rule say the same; from this one on only the event rule speaks.
#[derive(Clone, Copy, Debug, PartialEq, Eq)]
pub struct OutOfTurn {
    /// The number of its line, counted from 1.
    pub line: u64,
    /// Why it is.
    pub cause: Cause,
}

/// Why a call is out of turn. Moments are in nanoseconds since the start.
#[derive(Clone, Copy, Debug, PartialEq, Eq)]
pub enum Cause {
    /// It changes caps or sends a message at the moment of the next event or later.
    Due(u64),
    /// It comes earlier than a call before it, which reached that moment.
    Back(u64),
}

impl fmt::Display for OutOfTurn {
    fn fmt<W: fmt::Write>(&self, f: &mut fmt::Formatter<W>) -> fmt::Result {
        let line = self.line;
        match self.cause {
            Cause::Due(moment) => write!(
                f,
                "line {line} is out of turn: an event is due at {moment}"
            ),
            Cause::Back(moment) => write!(
                f,
                "line {line} is out of turn: {moment} was reached before"
            ),
        }
    }
}

/// Why a call is out of turn, if it is, with that moment reached and that next event to come.
pub(crate) fn cause_of(call: &Call<u64, usize>, reached: u64, next: Option<u64>) -> Option<Cause>
    ensures { MatchOption result (IsTimely reached next (world_call call.now))
        (λ _. ¬ IsTimely reached next (world_call call.now)) }
{
    match call {
        Call::Limit { now, .. } => cause_of_change(*now, reached, next),
        Call::LimitLink { now, .. } => cause_of_change(*now, reached, next),
        Call::Enqueue { now, .. } => cause_of_change(*now, reached, next),
        Call::EnqueueAll { now, .. } => cause_of_change(*now, reached, next),
        Call::Advance { now } => cause_of_advance(*now, reached),
        Call::Next => None,
    }
}

/// Why a call that changes caps or sends a message is out of turn.
pub(crate) fn cause_of_change(now: u64, reached: u64, next: Option<u64>) -> Option<Cause>
    ensures { MatchOption result ((reached ≤ now) × IfSome next (λ t. now < t))
        (λ _. ¬ ((reached ≤ now) × IfSome next (λ t. now < t))) }
{
    if now < reached {
        return Some(Cause::Back(reached));
    }
    match next {
        None => None,
        Some(moment) => {
            if moment <= now {
                Some(Cause::Due(moment))
            } else {
                None
            }
        }
    }
}

/// Why an advance is out of turn.
fn cause_of_advance(now: u64, reached: u64) -> Option<Cause>
    ensures { MatchOption result (reached ≤ now) (λ _. ¬ (reached ≤ now)) }
{
    if now < reached {
        Some(Cause::Back(reached))
    } else {
        None
    }
}

/// The moment that is reached after a call with that reply.
pub(crate) fn reached_after(
    reached: u64,
    call: &Call<u64, usize>,
    reply: &Reply<u64, Contents>,
) -> u64
    ensures { result ≡ reached_after reached (world_call call.now) (reply_of reply.now) }
{
    let Reply::Done(_) = reply else {
        return reached;
    };
    match call {
        Call::Limit { now, .. } => *now,
        Call::LimitLink { now, .. } => *now,
        Call::Enqueue { now, .. } => *now,
        Call::EnqueueAll { now, .. } => *now,
        Call::Advance { now } => *now,
        Call::Next => reached,
    }
}
