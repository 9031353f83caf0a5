//! A scheduler that stands for a world of the simulation.
ghost use Rattle.std.specs.Prelude.{IfOk};
ghost use Rattle.std.specs.Ordering.{nat_cmp};
ghost use Rattle.p2p_simulated.specs.Calls.State.{planned_of};
ghost use Rattle.uses.specs.Worlds.{IsAWorldAt};

use p2p_simulated::error::Error;
use p2p_simulated::model::simulated::calls_before_the_next_event_are_in_turn;
use p2p_simulated::transmitter::{Payload, State};
use std::alloc::Global;

/// A new scheduler in which peer 1 is limited and has sent a message to peer 2, which may be `Bytes`, or
/// `Contents`, a length alone: both calls came in turn, so it stands for a world of the simulation, and
/// its next calls answer what that does.
///
/// # Errors
///
/// As of `State::limit` and `State::enqueue`.
pub fn with_one_message<M: Payload>(
    alloc: Global,
    cap: usize,
    message: M,
) -> Result<State<u64, M>, Error>
    ensures stands { IfOk result (λ state. IsAWorldAt nat_cmp (planned_of state) 0) }
{
    calls_before_the_next_event_are_in_turn::<u64>();
    let mut state = State::with_payload(alloc, 0);
    state.limit(0, &1, Some(cap), None)?;
    state.enqueue(0, 1, 2, 0, message, 0, true)?;
    Ok(state)
}

/// That scheduler after its first event, with the moment of it: to advance to what `next` answers is
/// in turn. Where nothing ever comes, it is the scheduler at the start, with moment 0.
///
/// # Errors
///
/// As of `with_one_message` and `State::advance`.
pub fn at_the_first_event<M: Payload>(
    alloc: Global,
    cap: usize,
    message: M,
) -> Result<(State<u64, M>, u64), Error>
    ensures stands { IfOk result (λ answer. IsAWorldAt nat_cmp (planned_of answer.0) answer.1) }
{
    let mut state = with_one_message(alloc, cap, message)?;
    let Some(now) = state.next() else {
        return Ok((state, 0));
    };
    state.advance(now)?;
    Ok((state, now))
}
