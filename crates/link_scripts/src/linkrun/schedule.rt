//! What a script asks of its scheduler.
ghost use Rattle.std.specs.Prelude.{◌≡◌, map, IfOk, IfErr, OnErr};
ghost use Rattle.link_scripts.specs.Schedule.{world_call, zeroed, zeroed_sends, AnswersEach};
ghost use Rattle.link_scheduler.specs.Calls.Replay.{IsAnswered, MayRefuseCall};
ghost use Rattle.link_scheduler.specs.Calls.State.{planned_of};
ghost use Rattle.link_simulation.specs.Simulation.Calls.{call_enqueue_all};

use crate::linkrun::fill::{fill, fill_all};
use fairness::error::Error;
use link_scheduler::call::{Call, Reply};
use link_scheduler::transmitter::{Contents, Outgoing, State};
use std::alloc::Global;

/// Makes a call of the scheduler. A call that is refused changes nothing.
#[tactic(auto, using(crate::proofs::Scheduling::may_refuse_for_memory))]
pub(crate) fn make(
    alloc: Global,
    scheduler: &mut State<u64, Contents>,
    call: &Call<u64, usize>,
) -> Result<Reply<u64, Contents>, Error>
    ensures answer { IfOk result (λ reply. IsAnswered scheduler.old (world_call call.now) reply scheduler.new) }
    ensures refused { IfErr result (MayRefuseCall scheduler.old (world_call call.now)) }
    ensures unchanged { OnErr result (planned_of scheduler.new ≡ planned_of scheduler.old) }
{
    let call = fill(alloc, call)?;
    call.make(scheduler)
}

/// Sends messages at one moment, in order, as a whole or not at all. A refusal changes nothing.
#[tactic(auto, using(crate::proofs::Scheduling::may_refuse_for_memory))]
pub fn send_all(
    alloc: Global,
    scheduler: &mut State<u64, Contents>,
    now: u64,
    messages: &[Outgoing<u64, usize>],
) -> Result<Reply<u64, Contents>, Error>
    ensures one_by_one { IfOk result (λ reply. AnswersEach (zeroed_sends now messages.now) scheduler.old reply
        scheduler.new) }
    ensures at_once { IfOk result (λ reply. IsAnswered scheduler.old (call_enqueue_all now (map zeroed messages.now))
        reply scheduler.new) }
    ensures refused { IfErr result (MayRefuseCall scheduler.old (call_enqueue_all now (map zeroed messages.now))) }
    ensures unchanged { OnErr result (planned_of scheduler.new ≡ planned_of scheduler.old) }
{
    let messages = fill_all(alloc, messages)?;
    Ok(Reply::Done(scheduler.enqueue_all(now, messages)?))
}
