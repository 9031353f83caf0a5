//! What a call that goes by the event rule, or is refused by it, does in the simulation.
ghost use Rattle.std.specs.Prelude.{◌≡◌, ℕ, ◌<◌, ◌≤◌, List, ◌∷◌, Some, IfSome};
ghost use Rattle.fairness.specs.declared.error.Error.{Error as AnyError};
ghost use Rattle.link_simulation.specs.Simulation.Messages.{Message};
ghost use Rattle.link_simulation.specs.Simulation.World.{World, Completed, last_moment, new_world, IsQuiet, Course};
ghost use Rattle.link_simulation.specs.Simulation.World.{goes, preceded};
ghost use Rattle.link_simulation.specs.Simulation.Calls.{Call, call_enqueue, call_enqueue_all, call_advance};
ghost use Rattle.link_simulation.specs.Simulation.Calls.{moment_of, IsInTurn, Runs};
ghost use Rattle.link_simulation.specs.Rule.Planned.{Planned, next_event, new_planned};
ghost use Rattle.link_simulation.specs.Rule.Refusals.{MayBeRefused};
ghost use Rattle.link_simulation.specs.Rule.StandsFor.{StandsFor};
ghost use Rattle.link_simulation.specs.Rule.SamePlanned.{GoesByRule};
ghost use Rattle.link_simulation.specs.Rule.Simulated.{IsCalled, IsRun, IsSimulated, IsNextInSimulation, KeepsRange};
ghost use Rattle.link_simulation.specs.Rule.Simulated.{IsRefusedInSimulation, IsSplitAnywhere, KeepsToCaps};

/// A call that goes by the event rule runs in the simulation with the same completions and without a fault, and
/// leaves the next event later than its moment. In the range it stays in the range. The next event is that of the
/// simulation.
pub fn calls_that_go_are_simulated<P: Ord>()
    ensures calls { (p q : Planned P) (call : Call P) (completions : List (Completed P)) →
        ((now : ℕ) → moment_of call ≡ Some now → now ≤ last_moment) →
        GoesByRule P.cmp p call completions q → IsSimulated P.cmp p call completions q }
    ensures range { (p q : Planned P) (call : Call P) (completions : List (Completed P)) →
        GoesByRule P.cmp p call completions q → KeepsRange P.cmp p call q }
    ensures next { (p : Planned P) → IsNextInSimulation P.cmp p (next_event p) }
{}

/// A call that the event rule refuses is refused for memory or for a fault that the simulation meets. In the range it
/// is refused for memory alone.
pub fn refusals_are_simulated<P: Ord>()
    ensures { (p : Planned P) (call : Call P) (why : AnyError) →
        ((now : ℕ) → moment_of call ≡ Some now → now ≤ last_moment) → MayBeRefused P.cmp p call why →
        IsRefusedInSimulation P.cmp p call why }
{}

/// An advance may be split at any moment on the way.
pub fn an_advance_is_split_anywhere<P: Ord>()
    ensures { (p q : Planned P) (now : ℕ) (completions : List (Completed P)) → now ≤ last_moment →
        GoesByRule P.cmp p (call_advance now) completions q → IsSplitAnywhere P.cmp p now completions q }
{}

/// In an advance the bytes that an origin still has to send go down by no more than its egress cap lets go.
pub fn an_advance_keeps_to_caps<P: Ord>()
    ensures { (p q : Planned P) (now : ℕ) (completions : List (Completed P)) → now ≤ last_moment →
        GoesByRule P.cmp p (call_advance now) completions q → KeepsToCaps P.cmp p now q }
{}

/// A call before the planned next event comes in its turn, so it is known from what `next` answers. So does any first
/// call, an advance to any later moment, and a call at the moment of one that has just run: after it the next event is
/// later.
pub fn calls_before_the_next_event_are_in_turn<P: Ord>()
    ensures before { (p : Planned P) (w : World P) (call : Call P) (now : ℕ) → StandsFor P.cmp p w →
        moment_of call ≡ Some now → w.moment ≤ now → IfSome (next_event p) (λ t. now < t) → IsInTurn P.cmp w call }
    ensures called { (p : Planned P) (w : World P) (call : Call P) (now : ℕ) → StandsFor P.cmp p w →
        moment_of call ≡ Some now → w.moment ≤ now → IfSome (next_event p) (λ t. now < t) →
        IsCalled P.cmp p call now w }
    ensures first { (p : Planned P) (id now : ℕ) (call : Call P) → p ≡ new_planned id →
        StandsFor P.cmp p (new_world id) → moment_of call ≡ Some now → IsCalled P.cmp p call now (new_world id) }
    ensures advance { (p : Planned P) (w : World P) (now : ℕ) → StandsFor P.cmp p w → w.moment ≤ now →
        IsCalled P.cmp p (call_advance now) now w }
    ensures at_once { (w : World P) (q : Planned P) (call other : Call P) (now : ℕ) (completions : List (Completed P)) →
        moment_of other ≡ Some now → (run : IsRun P.cmp w call now completions q) →
        IsCalled P.cmp q other now run.after }
{}

/// Of a list of messages in turn the first is in turn, and after it the rest is. The list runs as the first one, and
/// then as the rest.
pub fn a_list_in_turn_goes_message_by_message<P: Ord>()
    ensures first { (w : World P) (now : ℕ) (m : Message P) (ms : List (Message P)) →
        IsInTurn P.cmp w (call_enqueue_all now (m ∷ ms)) → IsInTurn P.cmp w (call_enqueue now m) }
    ensures rest { (w v : World P) (now : ℕ) (m : Message P) (ms : List (Message P)) (cs : List (Completed P)) →
        IsQuiet P.cmp w.moment w → IsInTurn P.cmp w (call_enqueue_all now (m ∷ ms)) →
        Runs P.cmp w (call_enqueue now m) now (goes cs v) → IsInTurn P.cmp v (call_enqueue_all now ms) }
    ensures runs { (w v : World P) (now : ℕ) (m : Message P) (ms : List (Message P)) (cs : List (Completed P))
        (course : Course (Completed P) (World P)) →
        Runs P.cmp w (call_enqueue now m) now (goes cs v) → v.moment ≡ now →
        Runs P.cmp v (call_enqueue_all now ms) now course →
        Runs P.cmp w (call_enqueue_all now (m ∷ ms)) now (preceded cs course) }
{}
