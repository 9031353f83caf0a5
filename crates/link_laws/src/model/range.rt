//! In the range a call meets no fault, and the range is kept.
ghost use Rattle.std.specs.Prelude.{◌≡◌, ℕ, ◌<◌, ◌^◌, List, [], ◌∷◌, None, replicate};
ghost use Rattle.std.specs.Ordering.{nat_cmp};
ghost use Rattle.link_simulation.specs.Simulation.World.{Completed, Course, goes, new_world};
ghost use Rattle.link_simulation.specs.Simulation.Calls.{Call, call_limit, call_limit_link, call_enqueue, call_advance};
ghost use Rattle.link_simulation.specs.Simulation.Calls.{call_next};
ghost use Rattle.fairness.specs.declared.error.Error.{Error as AnyError};
ghost use Rattle.fairness.specs.declared.error.Error.TheVariants.{OutOfMemory, MomentTooLate};
ghost use Rattle.link_simulation.specs.Rule.Planned.{Planned, new_planned};
ghost use Rattle.link_simulation.specs.Rule.Events.{Obeys};
ghost use Rattle.link_simulation.specs.Rule.Range.{AreInRange, IsInRange, IsCallInRange};
ghost use Rattle.link_simulation.specs.Rule.Refusals.{MayBeRefused};
ghost use Rattle.link_simulation.specs.Simulation.Replies.{reply_done, reply_refused, Agrees};
ghost use Rattle.link_laws.specs.Examples.Rows.{message};
ghost use Rattle.link_simulation.specs.Laws.Replies.{RefusesForMemoryAlone};

/// A call in the range on a planned world in the range, its own message counted, goes and leaves it in the range, and
/// may be refused for want of memory alone. A new planned world is in the range.
pub fn calls_in_the_range_are_not_refused<P: Ord>()
    ensures new { (id : ℕ) → id < 2 ^ 64 → IsInRange {P = P} (new_planned id) }
    ensures kept { (p : Planned P) (call : Call P) (course : Course (Completed P) (Planned P)) → IsCallInRange p call →
        Obeys P.cmp p call course → (cs : List (Completed P)) × (q : Planned P) × (course ≡ goes cs q) × IsInRange q }
    ensures refused { (p : Planned P) (call : Call P) (why : AnyError) → IsCallInRange p call →
        MayBeRefused P.cmp p call why → why ≡ OutOfMemory }
{}

/// The range reaches to the last nanosecond before 2^63, to as many messages as there are flow ids, and to the last id.
pub fn the_range_reaches_so_far()
    ensures calls { AreInRange (call_limit 9_223_372_036_854_775_807 1 None None
        ∷ call_limit_link 9_223_372_036_854_775_807 1 2 None
        ∷ call_enqueue 9_223_372_036_854_775_807 (message 1 2 0 9_223_372_036_854_775_807)
        ∷ call_advance 9_223_372_036_854_775_807 ∷ call_next ∷ []) }
    ensures messages { (n : ℕ) → n < 2 ^ 64 → AreInRange (replicate n (call_enqueue 0 (message 1 2 0 0))) }
    ensures planned { IsCallInRange (new_planned 18_446_744_073_709_551_614)
        (call_enqueue 9_223_372_036_854_775_807 (message 1 2 0 9_223_372_036_854_775_807)) }
    ensures held { (p : Planned ℕ) → p.sending ≡ [] → p.waiting ≡ message 1 2 0 9_223_372_036_854_775_807 ∷ [] →
        p.next_id ≡ 18_446_744_073_709_551_614 → IsInRange p }
{}

/// One nanosecond further a call may be refused.
pub fn outside_the_range_a_moment_is_too_late()
    ensures { Agrees nat_cmp (new_world 0)
        (call_enqueue 9_223_372_036_854_775_808 (message 1 2 0 9_223_372_036_854_775_808) ∷ [])
        (reply_refused MomentTooLate ∷ []) }
{}

/// Calls are judged one by one: one that is in the range is refused for memory alone, though a later one is outside,
/// and though calls before it were made or refused.
pub fn a_later_call_excuses_no_refusal()
    ensures after_done { ¬ RefusesForMemoryAlone {P = ℕ} [] (call_advance 0 ∷ call_advance 0 ∷ [])
        (reply_done [] ∷ reply_refused MomentTooLate ∷ []) }
    ensures after_refusal { ¬ RefusesForMemoryAlone {P = ℕ} [] (call_advance 0 ∷ call_advance 0 ∷ [])
        (reply_refused OutOfMemory ∷ reply_refused MomentTooLate ∷ []) }
    ensures later { ¬ RefusesForMemoryAlone {P = ℕ} [] (call_advance 0 ∷ call_advance 18_446_744_073_709_551_615 ∷ [])
        (reply_refused MomentTooLate ∷ reply_done [] ∷ []) }
{}
