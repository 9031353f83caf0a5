//! A scheduler that is run from event to event.
ghost use Rattle.std.specs.Prelude.{◌≡◌, [], None, IfOk, map};
ghost use Rattle.p2p_simulated.specs.Laws.Conserved.{IsConserved};
ghost use Rattle.p2p_simulated.specs.Pairs.Messages.{completed_of};
ghost use Rattle.p2p_simulated.specs.Rule.Planned.{next_event};
ghost use Rattle.p2p_simulated.specs.Calls.State.{planned_of};

use p2p_simulated::error::Error;
use p2p_simulated::model::orderly::calls_lose_no_message;
use p2p_simulated::model::progress::events_end;
use p2p_simulated::peer::Peer;
use p2p_simulated::transmitter::{Completion, State};
use std::alloc::Global;

/// Runs a scheduler from event to event until none comes, and answers all that completes on the
/// way, in order. No message is lost: each one that was in flight or waited is in the answer, or
/// stays where it can never be done.
///
/// # Errors
///
/// As of `State::advance`, and `OutOfMemory` for the list. The scheduler is then where the events
/// before have led it.
pub fn finish<P: Peer>(alloc: Global, state: &mut State<P>) -> Result<Vec<Completion<P>>, Error>
    ensures finished { IfOk result (λ completions. next_event (planned_of state.new) ≡ None) }
    ensures conserved { IfOk result (λ completions. ∥ IsConserved P.cmp (planned_of state.old) []
        (map completed_of completions.items) (planned_of state.new) ∥₁) }
{
    events_end::<P>();
    calls_lose_no_message::<P>();
    let mut completions = Vec::new(alloc);
    while let Some(now) = state.next() {
        let mut done = state.advance(now)?;
        completions.append(&mut done)?;
    }
    Ok(completions)
}
