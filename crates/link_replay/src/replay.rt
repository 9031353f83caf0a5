//! A list of calls on a new scheduler, and what each is answered.
ghost use Rattle.std.specs.Prelude.{◌≡◌, length, map, [], ◌∷◌, IfOk, IfErr};
ghost use Rattle.link_simulation.specs.Simulation.World.{new_world};
ghost use Rattle.link_simulation.specs.Laws.Isolation.{InTime};
ghost use Rattle.link_simulation.specs.Rule.Planned.{new_planned};
ghost use Rattle.link_simulation.specs.Rule.Refusals.{Obeyed};
ghost use Rattle.link_simulation.specs.Simulation.Replies.{Agrees};
ghost use Rattle.link_scheduler.specs.Calls.State.{planned_of};
ghost use Rattle.link_simulation.specs.Laws.Conserved.{AreConserved};
ghost use Rattle.link_simulation.specs.Laws.Replies.{AlwaysSoFar, RefusesForMemoryAlone, CompletePairsInOrder};
ghost use Rattle.link_simulation.specs.Laws.Replies.{IsolateSets};
ghost use Rattle.link_scheduler.specs.Calls.Replay.{call_of, reply_of, IsReplyTo};

use crate::copies::copy;
use fairness::error::Error;
use fairness::peer::Peer;
pub use link_scheduler::call::{Call, Reply};
use link_scheduler::transmitter::State;
use std::alloc::Global;

/// Makes a new scheduler, makes the calls in order, and answers one reply for each.
///
/// Room for the replies is reserved first: its only error is `OutOfMemory`, and it comes only
/// there. A call that is refused is answered `Refused` and changes nothing, and the calls after it
/// are made. So is one whose arguments cannot be cloned, which is not made at all.
pub fn replay<P: Peer>(alloc: Global, calls: &[Call<P>]) -> Result<Vec<Reply<P>>, Error>
    ensures agrees { IfOk result (λ replies. Agrees P.cmp (new_world 0) (map call_of calls.now)
        (map reply_of replies.items)) }
    ensures obeyed { IfOk result (λ replies. Obeyed P.cmp (new_planned 0) (map call_of calls.now)
        (map reply_of replies.items)) }
    ensures one_each { IfOk result (λ replies. length replies.items ≡ length calls.now) }
    ensures in_range { IfOk result (λ replies. RefusesForMemoryAlone [] (map call_of calls.now)
        (map reply_of replies.items)) }
    ensures conserved { IfOk result (λ replies. AlwaysSoFar (AreConserved P.cmp (new_planned 0))
        (map call_of calls.now) (map reply_of replies.items)) }
    ensures order { IfOk result (λ replies. AlwaysSoFar (CompletePairsInOrder P.cmp) (map call_of calls.now)
        (map reply_of replies.items)) }
    ensures isolation { IfOk result (λ replies. AlwaysSoFar (IsolateSets P.cmp) (map call_of calls.now)
        (map reply_of replies.items)) }
    ensures refused { IfErr result (λ e. e ≡ Error.OutOfMemory) }
{
    let mut replies = Vec::with_capacity(alloc, calls.len())?;
    let mut state = State::new(alloc);
    for call in calls {
        replies.push(answer(call, alloc, &mut state)).unwrap();
    }
    Ok(replies)
}

/// Makes the call, unless it is refused.
fn answer<P: Peer>(call: &Call<P>, alloc: Global, state: &mut State<P>) -> Reply<P>
    ensures in_time { InTime (call_of call.now ∷ []) }
    ensures reply { IsReplyTo P.cmp (planned_of state.old) (call_of call.now) (reply_of result)
        (planned_of state.new) }
{
    match copy(call, alloc) {
        Err(error) => Reply::Refused(error),
        Ok(call) => match call.make(state) {
            Err(error) => Reply::Refused(error),
            Ok(reply) => reply,
        },
    }
}
