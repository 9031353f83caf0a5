//! What follows for a list of calls and the replies to it.
ghost use Rattle.std.specs.Prelude.{[], ◌∷◌, List, Some, None};
ghost use Rattle.std.specs.Ordering.{nat_cmp};
ghost use Rattle.std.specs.List.{Contains};
ghost use Rattle.fairness.specs.declared.error.Error.TheVariants.{OutOfMemory, NumberTooLarge};
ghost use Rattle.link_simulation.specs.Simulation.World.{new_world};
ghost use Rattle.link_simulation.specs.Simulation.Calls.{Call, call_limit, call_limit_link, call_enqueue, call_advance};
ghost use Rattle.link_simulation.specs.Simulation.Calls.{call_next};
ghost use Rattle.link_simulation.specs.Rule.Planned.{Planned, new_planned};
ghost use Rattle.link_simulation.specs.Rule.Refusals.{Obeyed};
ghost use Rattle.link_simulation.specs.Simulation.Replies.{Reply, reply_done, reply_next, reply_refused, Agrees};
ghost use Rattle.link_laws.specs.Examples.Rows.{message, arrives, a_byte_a_nanosecond};
ghost use Rattle.link_simulation.specs.Laws.Isolation.{InTime};
ghost use Rattle.link_simulation.specs.Laws.Replies.{AlwaysSoFar, RefusesForMemoryAlone, AreInTurn, AreAdvancedFirst};
ghost use Rattle.link_simulation.specs.Laws.Replies.{GoByNext, CompletesInOrder, CompletePairsInOrder, IsolateSets};

/// Replies by the event rule refuse a call for memory alone where it is in the range, with the calls that were made
/// before it.
pub fn calls_in_the_range_are_answered<P: Ord>()
    ensures { (calls : List (Call P)) (replies : List (Reply P)) → Obeyed P.cmp (new_planned 0) calls replies →
        RefusesForMemoryAlone [] calls replies }
{}

/// By the event rule no call is refused for a number, at any moments.
pub fn no_call_is_refused_for_a_number<P: Ord>()
    ensures { (p : Planned P) (calls : List (Call P)) (replies : List (Reply P)) → Obeyed P.cmp p calls replies →
        ¬ Contains replies (reply_refused NumberTooLarge) }
{}

/// Calls that come after time is advanced are in turn.
pub fn calls_are_in_turn_after_an_advance<P: Ord>()
    ensures { (calls : List (Call P)) (replies : List (Reply P)) → AreAdvancedFirst 0 calls replies →
        AreInTurn P.cmp (new_world 0) calls replies }
{}

/// Of replies that agree with the simulation: calls that go by what `next` answers are in turn.
pub fn calls_by_next_are_in_turn<P: Ord>()
    ensures { (calls : List (Call P)) (replies : List (Reply P)) → Agrees P.cmp (new_world 0) calls replies →
        GoByNext 0 (Some 1) calls replies → AreInTurn P.cmp (new_world 0) calls replies }
{}

/// In replies that agree with the simulation, as long as the calls are in turn, the messages of each pair complete in
/// the order of their `enqueue` calls, and the delivery moments of a pair never go down.
pub fn replies_keep_pairs_in_order<P: Ord>()
    ensures { (calls : List (Call P)) (replies : List (Reply P)) → Agrees P.cmp (new_world 0) calls replies →
        AlwaysSoFar (CompletePairsInOrder P.cmp) calls replies }
{}

/// In replies that agree with the simulation, as long as the calls are in turn, a set of peers that keeps to itself
/// completes what it completes alone. A refused call counts as not made.
pub fn replies_isolate_sets<P: Ord>()
    ensures { (calls : List (Call P)) (replies : List (Reply P)) → InTime calls →
        Agrees P.cmp (new_world 0) calls replies → AlwaysSoFar (IsolateSets P.cmp) calls replies }
{}

/// A pair whose arrivals go down is not in order, and neither is one whose second message comes first.
pub fn a_pair_out_of_order_is_told()
    ensures arrivals { ¬ CompletesInOrder nat_cmp (message 1 2 1 0) (message 1 2 1 2 ∷ message 1 2 1 0 ∷ [])
        (arrives (message 1 2 1 2) 3 5 ∷ arrives (message 1 2 1 0) 4 4 ∷ []) }
    ensures messages { ¬ CompletesInOrder nat_cmp (message 1 2 1 0) (message 1 2 1 0 ∷ message 1 2 2 0 ∷ [])
        (arrives (message 1 2 2 0) 5 5 ∷ []) }
{}

/// These calls go by what `next` answers: half of the cap is taken before the event that it told, and another message
/// is sent at the moment of an advance. In the others a call is refused, a message and the cap of a link come before
/// the event, and another message comes at the moment of that call.
pub fn calls_may_go_by_next()
    ensures others { GoByNext 0 (Some 1)
        (call_limit 0 1 a_byte_a_nanosecond None ∷ call_enqueue 0 (message 1 2 4 0) ∷ call_next ∷ call_advance 2
        ∷ call_enqueue 3 (message 1 3 1 0) ∷ call_next ∷ call_limit_link 4 1 2 a_byte_a_nanosecond
        ∷ call_enqueue 4 (message 1 4 1 0) ∷ [])
        (reply_done [] ∷ reply_done [] ∷ reply_next (Some 4) ∷ reply_refused OutOfMemory
        ∷ reply_done [] ∷ reply_next (Some 5) ∷ reply_done [] ∷ reply_done [] ∷ []) }
    ensures limits { GoByNext 0 (Some 1)
        (call_limit 0 1 a_byte_a_nanosecond None ∷ call_enqueue 0 (message 1 2 4 0) ∷ call_next
        ∷ call_limit 3 1 (Some 500_000_000) None ∷ call_next ∷ call_advance 5 ∷ call_enqueue 5 (message 1 2 1 0) ∷ [])
        (reply_done [] ∷ reply_done [] ∷ reply_next (Some 4)
        ∷ reply_done [] ∷ reply_next (Some 5) ∷ reply_done (arrives (message 1 2 4 0) 5 5 ∷ []) ∷ reply_done [] ∷ []) }
{}

/// These advance first. In the others an advance is refused and so is a message, and a link has a cap.
pub fn calls_may_advance_first()
    ensures others { AreAdvancedFirst 0
        (call_limit_link 0 1 2 a_byte_a_nanosecond ∷ call_enqueue 0 (message 1 2 4 0) ∷ call_advance 3 ∷ call_next
        ∷ call_advance 2 ∷ call_enqueue 2 (message 1 3 1 0) ∷ call_limit_link 2 1 2 None ∷ [])
        (reply_done [] ∷ reply_done [] ∷ reply_refused OutOfMemory ∷ reply_next (Some 4)
        ∷ reply_done [] ∷ reply_refused OutOfMemory ∷ reply_done (arrives (message 1 2 4 0) 2 2 ∷ []) ∷ []) }
    ensures limits { AreAdvancedFirst 0
        (call_limit 0 1 a_byte_a_nanosecond None ∷ call_enqueue 0 (message 1 2 4 0) ∷ call_advance 3
        ∷ call_limit 3 1 (Some 500_000_000) None ∷ [])
        (reply_done [] ∷ reply_done [] ∷ reply_done [] ∷ reply_done [] ∷ []) }
{}
