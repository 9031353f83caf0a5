//! Whether a call would come in its turn.
ghost use Rattle.std.specs.Prelude.{◌≡◌, ℕ, Bool, Some, map};
ghost use Rattle.std.specs.Ordering.{nat_cmp};
ghost use Rattle.fairness.specs.declared.error.Error.{Error as AnyError};
ghost use Rattle.link_pairs.specs.Pairs.Messages.{completed_of};
ghost use Rattle.link_scheduler.specs.Calls.State.{planned_of};
ghost use Rattle.link_simulation.specs.Rule.Simulated.{IsRun};
ghost use Rattle.link_simulation.specs.Simulation.Calls.{Call, moment_of};
ghost use Rattle.link_simulation.specs.Simulation.World.{World, new_world};
ghost use Rattle.p2p_simulated_c.specs.Asked.{OnHandle, Made, Refused};
ghost use Rattle.p2p_simulated_c.specs.Opening.{IsOpened};
ghost use Rattle.p2p_simulated_c.specs.Records.{is_set};
ghost use Rattle.p2p_simulated_c.specs.Turns.{is_act, IsTold, StandsAtLast, TellsTurn};
ghost use Rattle.p2p_simulated_c.specs.declared.opened.Opened.{Opened as AnyOpened};

use super::handle::Scheduler;
use super::opened::Opened;
use super::status::{CLOSED, EVENT_DUE, GONE_BY, MADE};
use std::alloc::Global;

impl Opened {
    /// Whether a call at `now` would come in its turn: `MADE` where it would, `GONE_BY` where the last
    /// call was later, and `EVENT_DUE` where the call sets caps or sends, as `acts` says, and an event
    /// is due. `at` is then `now`, the moment of the last call, or that of the event.
    pub fn turn(&self, now: u64, acts: bool, at: &mut u64) -> u32
        ensures { TellsTurn self.now now acts result at.new }
    {
        tell(self.last, self.state.next(), now, acts, at)
    }
}

/// The same after a call at `last` and before an event at `next`.
fn tell(last: u64, next: Option<u64>, now: u64, acts: bool, at: &mut u64) -> u32
    ensures { IsTold last next now acts result at.new }
{
    if now < last {
        *at = last;
        return GONE_BY;
    }
    if let Some(due) = next {
        if acts && due <= now {
            *at = due;
            return EVENT_DUE;
        }
    }
    *at = now;
    MADE
}

/// A scheduler that was just opened stands for the new world of the simulation. From a world that it stands for at the
/// moment of its last call, a call that is told to be in its turn runs as it was made, and then it stands for the world
/// that this leads to; after a refusal it stands for the same one.
pub fn calls_in_turn_keep_to_the_simulation()
    ensures opened { (first_id : ℕ) (s : AnyOpened) → IsOpened first_id 0 (Some s) →
        StandsAtLast s (new_world first_id) }
    ensures made { (old new : AnyOpened) (w : World ℕ) (call : Call ℕ) (now count at : ℕ) (acts : Bool) →
        StandsAtLast old w → moment_of call ≡ Some now → is_act call ≡ acts → TellsTurn old now acts 0 at →
        Made call count old new →
        (run : IsRun nat_cmp w call now (map completed_of new.completed.items) (planned_of new.state))
        × StandsAtLast new run.after }
    ensures refused { (old new : AnyOpened) (w : World ℕ) (call : Call ℕ) (why : AnyError) (count : ℕ) →
        StandsAtLast old w → Refused call why count old new → StandsAtLast new w }
{}

/// Whether a call at `now` would come in its turn, and else the moment that stands in its way: that of
/// the last call, or of an event. `acts` is not 0 for a call that sets caps or sends.
#[unsafe(no_mangle)]
pub extern "C" fn p2p_in_turn(
    alloc: Global,
    scheduler: &mut Scheduler,
    now: u64,
    acts: u8,
    at: &mut u64,
) -> u32
    ensures { OnHandle ((result ≡ 5) × (at.new ≡ now))
        (λ old new. (new ≡ old) × TellsTurn old now (is_set acts) result at.new)
        scheduler.old.place.opened scheduler.new.place.opened }
{
    *at = now;
    let Some(opened) = scheduler.take(alloc) else {
        return CLOSED;
    };
    let status = opened.turn(now, acts != 0, at);
    *scheduler = Scheduler::of(opened);
    status
}
