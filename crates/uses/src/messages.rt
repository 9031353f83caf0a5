//! Two messages at once, of which none is lost.
ghost use Rattle.std.specs.Prelude.{[], ◌∷◌, true, map, IfOk};
ghost use Rattle.std.specs.Ordering.{nat_cmp};
ghost use Rattle.p2p_simulated.specs.Laws.Conserved.{IsConserved};
ghost use Rattle.p2p_simulated.specs.Pairs.Messages.{completed_of};
ghost use Rattle.p2p_simulated.specs.Calls.State.{planned_of, sent};

use bytes::Bytes;
use p2p_simulated::error::Error;
use p2p_simulated::model::orderly::calls_lose_no_message;
use p2p_simulated::transmitter::{Completion, State};

/// Sends a question and a reply at one moment, and answers what completes at once. Each of the two
/// is done, in flight or waiting, and just one of these, as is all that was there before.
///
/// # Errors
///
/// As of `State::enqueue`. The question may have been sent then.
pub fn ask_and_answer(
    state: &mut State<u64>,
    now: u64,
    client: u64,
    server: u64,
    question: Bytes,
    reply: Bytes,
) -> Result<Vec<Completion<u64>>, Error>
    ensures conserved { IfOk result (λ done. ∥ IsConserved nat_cmp (planned_of state.old)
        (sent client server 0 question 0 true ∷ sent server client 0 reply 0 true ∷ [])
        (map completed_of done.items) (planned_of state.new) ∥₁) }
{
    calls_lose_no_message::<u64>();
    let mut done = state.enqueue(now, client, server, 0, question, 0, true)?;
    let mut more = state.enqueue(now, server, client, 0, reply, 0, true)?;
    done.append(&mut more)?;
    Ok(done)
}
