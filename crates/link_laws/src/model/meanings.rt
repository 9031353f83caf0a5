//! What the words of the promises mean: what follows from each, and what it excludes.
//!
//! In the examples peers are numbers, and no limit holds unless one is named.
ghost use Rattle.std.specs.Prelude.{◌≡◌, ℕ, ◌+◌, ◌-◌, ◌*◌, ◌≤◌, ◌==◌, if◌then◌else◌, List, []};
ghost use Rattle.std.specs.Prelude.{◌∷◌, Bool, true, Option, Some, None, nat_lt, take};
ghost use Rattle.std.specs.List.{AllZip, filter};
ghost use Rattle.std.specs.Ordering.{nat_cmp};
ghost use Rattle.fairness.specs.Numbers.Amount.{Amount, whole, parts_over};
ghost use Rattle.fairness.specs.declared.error.Error.{Error as AnyError};
ghost use Rattle.fairness.specs.declared.error.Error.TheVariants.{NumberTooLarge, MomentTooLate, FlowIdsUsedUp};
ghost use Rattle.link_simulation.specs.Laws.Alone.{IsTimeFor, IsLeastCap, MayGoAlone, IsDoneAfter};
ghost use Rattle.link_simulation.specs.Simulation.World.{World, Completed, new_world, completed, completion_of, goes};
ghost use Rattle.link_simulation.specs.Simulation.World.{flight_of, EndsWith};
ghost use Rattle.link_simulation.specs.Laws.Bytes.{bytes_from};
ghost use Rattle.link_simulation.specs.Simulation.Time.{NextIs, ArePositive, IsSound};
ghost use Rattle.link_simulation.specs.Simulation.Calls.{Call, call_limit, call_limit_link, call_enqueue, call_advance};
ghost use Rattle.link_simulation.specs.Simulation.Calls.{call_enqueue_all, call_next, Runs, limited_by};
ghost use Rattle.link_simulation.specs.Simulation.Messages.{Message, no_caps};
ghost use Rattle.link_simulation.specs.Simulation.Rates.{drained_by, IsLowest};
ghost use Rattle.link_simulation.specs.Rule.Planned.{Planned, new_planned, left_at, rated_messages, drained_to};
ghost use Rattle.link_simulation.specs.Rule.Planned.{SomeSpentAt, SomeReadyAt, next_of};
ghost use Rattle.link_simulation.specs.Simulation.Replies.{Reply, reply_done, SameCompletion, Faults, made};
ghost use Rattle.link_simulation.specs.Simulation.Replies.{completions_in};
ghost use Rattle.link_laws.specs.Examples.Rows.{message, arrives, rated_flight, flying, all_equal, below_three};
ghost use Rattle.link_laws.specs.Examples.Rows.{five_messages, two_of_a_pair, calls_with_a_refusal};
ghost use Rattle.link_laws.specs.Examples.Rows.{replies_with_a_refusal};
ghost use Rattle.link_simulation.specs.Rule.StandsFor.{StandsFor};
ghost use Rattle.link_simulation.specs.Laws.Conserved.{held_of, IsConserved, AreConserved};
ghost use Rattle.link_simulation.specs.Laws.Isolation.{IsSet, KeepsApart, kept_calls, kept_completions, NothingElse};
ghost use Rattle.link_simulation.specs.Laws.MostEvents.{most_events};
ghost use Rattle.link_simulation.specs.Laws.PairCompletions.{enqueued, answered, completes_pair};
ghost use Rattle.link_simulation.specs.Laws.Orderly.{IsOrderly};
ghost use Rattle.link_simulation.specs.Laws.Replies.{AlwaysSoFar, CompletePairsInOrder, IsIsolated, IsolateSets};
ghost use Rattle.link_simulation.specs.Rule.SamePlanned.{GoesByRule, AdvancesByRule};
ghost use Rattle.link_simulation.specs.Rule.Simulated.{IsCalled, IsSimulated, IsNextInSimulation, KeepsRange};
ghost use Rattle.link_simulation.specs.Rule.Simulated.{IsRefusedInSimulation, IsSplitAnywhere, KeepsToCaps};

/// However a call runs in the simulation, it has the completions that were answered, leads to a world that the new
/// planned world stands for, and meets no fault. So does an advance that is split. And the next event is the one that
/// was told.
pub fn what_is_simulated_is_the_one_course<P: Ord>()
    ensures runs { (p q : Planned P) (w v : World P) (call : Call P) (now : ℕ) (cs ds : List (Completed P)) →
        IsSimulated P.cmp p call cs q → IsCalled P.cmp p call now w → Runs P.cmp w call now (goes ds v) →
        AllZip (SameCompletion P.cmp) cs ds × StandsFor P.cmp q v }
    ensures no_fault { (p q : Planned P) (w : World P) (call : Call P) (now : ℕ) (cs : List (Completed P)) →
        IsSimulated P.cmp p call cs q → IsCalled P.cmp p call now w → (fault : AnyError) → ¬ Faults P.cmp w call fault }
    ensures split { (p q : Planned P) (w v : World P) (between now : ℕ) (cs ds : List (Completed P)) →
        IsSplitAnywhere P.cmp p now cs q → StandsFor P.cmp p w → w.moment ≤ between → between ≤ now →
        Runs P.cmp w (call_advance now) now (goes ds v) →
        AllZip (SameCompletion P.cmp) cs ds × StandsFor P.cmp q v }
    ensures next { (p : Planned P) (w : World P) (told next : Option ℕ) →
        IsNextInSimulation P.cmp p told → StandsFor P.cmp p w → NextIs P.cmp w next → told ≡ next }
{}

/// An advance that is counted goes by the event rule, and has that one number of events.
pub fn a_counted_advance_goes<P: Ord>()
    ensures goes { (p q : Planned P) (now events : ℕ) (cs : List (Completed P))
        → AdvancesByRule P.cmp now p events cs q →
        GoesByRule P.cmp p (call_advance now) cs q }
    ensures one { (p q r : Planned P) (now events other : ℕ) (cs ds : List (Completed P)) →
        AdvancesByRule P.cmp now p events cs q → AdvancesByRule P.cmp now p other ds r → events ≡ other }
{}

/// A message that is done after a time is so however the simulation runs: nothing completes as it is sent, the next
/// event is the one at which it is done, and there it alone completes.
pub fn what_is_done_after_a_time_is_done_alone<P: Ord>()
    ensures sent { (w v : World P) (m : Message P) (now time : ℕ) (cs : List (Completed P)) → IsSound P.cmp w →
        IsDoneAfter P.cmp w now m time → Runs P.cmp w (call_enqueue now m) now (goes cs v) →
        (cs ≡ []) × ((next : Option ℕ) → NextIs P.cmp v next → next ≡ Some (now + time)) }
    ensures done { (w v u : World P) (m : Message P) (now time : ℕ) (cs ds : List (Completed P)) → IsSound P.cmp w →
        IsDoneAfter P.cmp w now m time → Runs P.cmp w (call_enqueue now m) now (goes cs v) →
        Runs P.cmp v (call_advance (now + time)) (now + time) (goes ds u) →
        ds ≡ completed P.cmp (now + time) m ∷ [] }
{}

/// A message may go alone also where its pair had an arrival before and one flow id is left. The least of two caps
/// counts, and a byte takes a third of a second, rounded up, at three bytes a second.
pub fn a_message_may_go_alone()
    ensures alone { MayGoAlone nat_cmp (record (new_world 18_446_744_073_709_551_614) {
      limited = true;
      last_arrival = λ p q. Some 5;
    }) 3 (message 1 2 1 2) }
    ensures least { IsLeastCap nat_cmp
        (limited_by nat_cmp (limited_by nat_cmp no_caps 1 (Some 3) None) 2 None (Some 7)) (message 1 2 1 2) 3 }
    ensures time { IsTimeFor 1 3 333_333_334 }
{}

/// An origin that keeps to its cap, has so many bytes to send, and then has none left, took as long as the cap needs
/// for them.
pub fn sending_takes_its_time<P: Ord>()
    ensures { (p q : Planned P) (w v : World P) (origin : P) (bytes cap now : ℕ) → KeepsToCaps P.cmp p now q →
        StandsFor P.cmp p w → StandsFor P.cmp q v → w.moment ≤ now → v.moment ≡ now →
        p.caps.egress origin ≡ Some cap → bytes_from P.cmp origin w ≡ whole bytes →
        bytes_from P.cmp origin v ≡ whole 0 → bytes * 1_000_000_000 ≤ cap * (now - w.moment) }
{}

/// Of an origin all that is in flight and all that waits counts, and of others nothing.
pub fn all_that_an_origin_has_to_send_counts()
    ensures { bytes_from nat_cmp 1 (record (flying 3 (message 1 2 4 0)) {
      sending = flight_of (message 1 2 4 0) ∷ flight_of (message 2 3 7 0) ∷ flight_of (message 1 4 1 0) ∷ [];
      waiting = message 1 3 2 0 ∷ message 2 3 5 0 ∷ message 1 2 3 0 ∷ [];
    }) ≡ whole 10 }
{}

/// A message whose rate has no limit leaves nothing, also after no time.
pub fn what_has_no_limit_is_gone_at_once()
    ensures drained { (n : ℕ) (left : Amount) → drained_by None n left ≡ whole 0 }
    ensures left { left_at 0 (rated_flight (message 1 2 3 0) None) ≡ whole 0 }
{}

/// What a course ends with holds of the world that it goes to.
pub fn a_course_ends_with_what_holds_there<P: Ord>()
    ensures { (law : World P → Bool) (cs : List (Completed P)) (w : World P) →
        EndsWith (λ v. law v ≡ true) (goes cs w) → law w ≡ true }
{}

/// What holds so far holds of the first calls, however many, and of all of them.
pub fn what_holds_so_far_holds_of_all<P: Ord>()
    ensures all { (law : List (Call P) → List (Reply P) → Bool) (calls : List (Call P)) (replies : List (Reply P)) →
        AlwaysSoFar (λ cs rs. law cs rs ≡ true) calls replies → law calls replies ≡ true }
    ensures first { (law : List (Call P) → List (Reply P) → Bool) (calls : List (Call P)) (replies : List (Reply P))
        (n : ℕ) → AlwaysSoFar (λ cs rs. law cs rs ≡ true) calls replies →
        law (take n calls) (take n replies) ≡ true }
{}

/// A completion has the origin, the recipient, the channel and the bytes of its message, the moment at which it was done, and
/// that of its arrival.
pub fn a_completion_is_of_its_message()
    ensures { completion_of (record (message 1 2 3 4) { channel = 5 }) 4 (Some 6) ≡ record {
      origin = 1;
      recipient = 2;
      channel = 5;
      bytes = 0 ∷ 0 ∷ 0 ∷ [];
      done_at = 4;
      deliver_at = Some 6;
    } }
{}

/// A completion with another origin, recipient or channel, or with other bytes, is not one of the message that was
/// enqueued.
pub fn a_completion_of_another_message_is_not_conserved()
    ensures origin { ¬ IsConserved nat_cmp (new_planned 0) (message 1 2 1 0 ∷ [])
        (arrives (message 3 2 1 0) 1 1 ∷ []) (new_planned 0) }
    ensures recipient { ¬ IsConserved nat_cmp (new_planned 0) (message 1 2 1 0 ∷ [])
        (arrives (message 1 3 1 0) 1 1 ∷ []) (new_planned 0) }
    ensures channel { ¬ IsConserved nat_cmp (new_planned 0) (message 1 2 1 0 ∷ [])
        (arrives (record (message 1 2 1 0) { channel = 1 }) 1 1 ∷ []) (new_planned 0) }
    ensures bytes { ¬ IsConserved nat_cmp (new_planned 0) (message 1 2 1 0 ∷ [])
        (arrives (message 1 2 2 0) 1 1 ∷ []) (new_planned 0) }
{}

/// A call that is answered without its completion lost a message, and one that is answered with another arrival did
/// not go by the event rule.
pub fn a_lost_completion_is_not_conserved()
    ensures lost { ¬ AreConserved nat_cmp (new_planned 0)
        (call_enqueue 0 (message 1 2 1 0) ∷ []) (reply_done [] ∷ []) }
    ensures arrival { ¬ AreConserved nat_cmp (new_planned 0)
        (call_enqueue 0 (message 1 2 1 0) ∷ []) (reply_done (arrives (message 1 2 1 0) 0 7 ∷ []) ∷ []) }
{}

/// A planned world is not in order where a message in flight has a rate that is not its fair one, where two messages
/// of a pair are in flight, where pairs wait out of order, be they first or later ones, and where a message waits
/// before any limit.
pub fn a_world_out_of_order_is_told()
    ensures rate { ¬ IsOrderly nat_cmp (record (new_planned 0) {
      limited = true;
      sending = rated_flight (message 1 2 1 0) (Some (whole 1)) ∷ [];
    }) }
    ensures pair { ¬ IsOrderly nat_cmp (record (new_planned 0) {
      limited = true;
      sending = rated_flight (message 1 2 1 0) None ∷ rated_flight (message 1 2 1 0) None ∷ [];
    }) }
    ensures later_pair { ¬ IsOrderly nat_cmp (record (new_planned 0) {
      limited = true;
      sending = rated_flight (message 1 3 1 0) None ∷ rated_flight (message 1 2 1 0) None
          ∷ rated_flight (message 1 2 1 0) None ∷ [];
    }) }
    ensures pair_order { ¬ IsOrderly nat_cmp (record (new_planned 0) {
      limited = true;
      waiting = message 2 1 1 0 ∷ message 1 2 1 0 ∷ [];
    }) }
    ensures later_pair_order { ¬ IsOrderly nat_cmp (record (new_planned 0) {
      limited = true;
      waiting = message 1 2 1 0 ∷ message 3 1 1 0 ∷ message 2 1 1 0 ∷ [];
    }) }
    ensures at_first { ¬ IsOrderly nat_cmp (record (new_planned 0) { waiting = message 1 2 1 0 ∷ [] }) }
{}

/// Nor is it in order where equal peers have different caps, or equal pairs different arrivals; here all peers are
/// equal.
pub fn a_world_that_tells_equal_peers_apart_is_told()
    ensures caps { ¬ IsOrderly all_equal (record (new_planned 0) {
      caps = record no_caps { egress = λ p. if p == 1 then Some 1 else None };
    }) }
    ensures arrivals { ¬ IsOrderly all_equal (record (new_planned 0) {
      last_arrival = λ p q. if p == 1 then Some 1 else None;
    }) }
{}

/// A call in the range that leads out of it does not keep it.
pub fn a_call_that_leaves_the_range_is_told()
    ensures { ¬ KeepsRange nat_cmp (new_planned 0) (call_advance 0) (new_planned 18_446_744_073_709_551_616) }
{}

/// A new scheduler refuses no call for a number, in the range or outside. In the range it refuses an advance neither
/// for a moment nor for want of a flow id, and outside it so refuses no message that is in time.
pub fn a_refusal_without_a_cause_is_told()
    ensures number { ¬ IsRefusedInSimulation nat_cmp (new_planned 0)
        (call_advance 9_223_372_036_854_775_808) NumberTooLarge }
    ensures moment { ¬ IsRefusedInSimulation nat_cmp (new_planned 0) (call_advance 0) MomentTooLate }
    ensures id { ¬ IsRefusedInSimulation nat_cmp (new_planned 0) (call_advance 0) FlowIdsUsedUp }
    ensures moment_outside { ¬ IsRefusedInSimulation nat_cmp (new_planned 0)
        (call_enqueue 0 (message 1 2 1 9_223_372_036_854_775_808)) MomentTooLate }
    ensures id_outside { ¬ IsRefusedInSimulation nat_cmp (new_planned 0)
        (call_enqueue 0 (message 1 2 1 9_223_372_036_854_775_808)) FlowIdsUsedUp }
{}

/// A set that loses its completion is not isolated, nor one of which another's call completes something. And a pair
/// whose message completes with other bytes is not in order.
pub fn replies_that_break_a_promise_are_told()
    ensures lost { ¬ IsolateSets nat_cmp (call_enqueue 0 (message 1 2 1 0) ∷ []) (reply_done [] ∷ []) }
    ensures others { ¬ IsIsolated nat_cmp (λ p. nat_lt p 3) (call_enqueue 0 (message 3 4 1 0) ∷ [])
        ((arrives (message 1 2 1 0) 0 0 ∷ []) ∷ []) }
    ensures order { ¬ CompletePairsInOrder nat_cmp (call_enqueue 0 (message 1 2 1 0) ∷ [])
        (reply_done (arrives (message 1 2 2 0) 0 0 ∷ []) ∷ []) }
{}

/// Of a list of calls those were made that are answered with completions. Of any calls all messages count that are
/// enqueued, of any answers all completions, and of a pair those from its origin to its recipient.
pub fn what_was_made_is_told()
    ensures made { made calls_with_a_refusal replies_with_a_refusal ≡ call_enqueue 0 (message 1 2 1 0)
        ∷ call_limit 0 1 None None ∷ call_limit_link 0 1 2 None ∷ call_enqueue 0 (message 2 1 1 0) ∷ call_advance 0
        ∷ [] }
    ensures completions { completions_in replies_with_a_refusal ≡ (arrives (message 1 2 1 0) 0 0 ∷ []) ∷ [] ∷ []
        ∷ (arrives (message 2 1 1 0) 0 0 ∷ []) ∷ [] ∷ [] }
    ensures enqueued { enqueued calls_with_a_refusal ≡ message 1 2 1 0 ∷ message 1 3 1 0 ∷ message 2 1 1 0 ∷ [] }
    ensures enqueued_in_lists { enqueued (call_enqueue_all 0 (message 1 2 1 0 ∷ message 2 1 1 0 ∷ [])
        ∷ call_enqueue 0 (message 1 3 1 0) ∷ []) ≡ message 1 2 1 0 ∷ message 2 1 1 0 ∷ message 1 3 1 0 ∷ [] }
    ensures answered { answered (completions_in replies_with_a_refusal) ≡ arrives (message 1 2 1 0) 0 0
        ∷ arrives (message 2 1 1 0) 0 0 ∷ [] }
    ensures pair { filter (completes_pair nat_cmp (message 1 2 0 0)) (arrives (message 1 3 1 0) 1 1
        ∷ arrives (message 1 2 2 0) 2 2 ∷ arrives (message 3 2 1 0) 2 2 ∷ arrives (message 1 2 3 0) 3 3 ∷ [])
        ≡ arrives (message 1 2 2 0) 2 2 ∷ arrives (message 1 2 3 0) 3 3 ∷ [] }
{}

/// A set has equal peers together, and each call, and each message of a list, counts for what keeps apart. Of the calls
/// all stay but messages of others, with the completions of the set's origins; and each call of others counts. A list
/// stays with the messages of the set's origins.
pub fn what_a_set_keeps_is_told()
    ensures set { IsSet nat_cmp below_three }
    ensures equal_peers { ¬ IsSet all_equal below_three }
    ensures first_call { ¬ KeepsApart below_three (call_enqueue 0 (message 1 3 1 0) ∷ call_next ∷ []) }
    ensures later_call { ¬ KeepsApart below_three (call_next ∷ call_enqueue 0 (message 3 1 1 0) ∷ []) }
    ensures first_of_a_list { ¬ KeepsApart below_three
        (call_enqueue_all 0 (message 1 3 1 0 ∷ message 1 2 1 0 ∷ []) ∷ []) }
    ensures later_of_a_list { ¬ KeepsApart below_three
        (call_enqueue_all 0 (message 1 2 1 0 ∷ message 3 1 1 0 ∷ []) ∷ []) }
    ensures calls { kept_calls below_three (call_enqueue 0 (message 1 2 1 0) ∷ call_enqueue 0 (message 3 2 1 0)
        ∷ call_limit 0 3 None None ∷ call_limit_link 0 3 4 None ∷ call_advance 0 ∷ call_next ∷ [])
        ≡ call_enqueue 0 (message 1 2 1 0) ∷ call_limit 0 3 None None ∷ call_limit_link 0 3 4 None ∷ call_advance 0
        ∷ call_next ∷ [] }
    ensures lists { kept_calls below_three
        (call_enqueue_all 0 (message 3 4 1 0 ∷ message 1 2 1 0 ∷ message 3 2 2 0 ∷ message 2 3 3 0 ∷ [])
        ∷ call_enqueue_all 1 (message 3 4 1 0 ∷ []) ∷ [])
        ≡ call_enqueue_all 0 (message 1 2 1 0 ∷ message 2 3 3 0 ∷ []) ∷ call_enqueue_all 1 [] ∷ [] }
    ensures completions { kept_completions below_three
        (call_enqueue 0 (message 3 4 1 0) ∷ call_advance 1 ∷ call_enqueue 1 (message 1 2 3 0) ∷ [])
        ((arrives (message 1 2 1 0) 0 0 ∷ []) ∷ (arrives (message 3 2 1 0) 1 1 ∷ arrives (message 1 4 1 0) 1 1 ∷ [])
        ∷ (arrives (message 1 2 3 0) 1 1 ∷ []) ∷ [])
        ≡ (arrives (message 1 4 1 0) 1 1 ∷ []) ∷ (arrives (message 1 2 3 0) 1 1 ∷ []) ∷ [] }
    ensures later_completion { ¬ NothingElse below_three
        (call_enqueue 0 (message 3 4 1 0) ∷ call_enqueue 0 (message 3 4 1 0) ∷ [])
        ([] ∷ (arrives (message 1 2 1 0) 0 0 ∷ []) ∷ []) }
{}

/// In a planned world each message that is in flight or waits counts. All that is in flight drains to a moment, and
/// that is its update.
pub fn what_a_planned_world_holds_is_told()
    ensures sending { rated_messages five_messages.sending ≡ message 1 2 5 0 ∷ message 2 3 4 0 ∷ [] }
    ensures pair { held_of nat_cmp (message 1 2 0 0) five_messages ≡ message 1 2 5 0 ∷ message 1 2 2 0
        ∷ message 1 2 3 0 ∷ [] }
    ensures events { most_events five_messages ≡ 8 }
    ensures drained { drained_to 3 five_messages.sending ≡ record (rated_flight (message 1 2 5 0)
        (Some (whole 1_000_000_000))) { left = whole 2; updated = 3 } ∷ record (rated_flight (message 2 3 4 0)
        (Some (whole 1_000_000_000))) { left = whole 2; updated = 3 } ∷ [] }
{}

/// Something is spent at the moment at which any message in flight has nothing left, no sooner and not before its
/// update. And something is ready when the first message of a pair may start, whatever waits behind it or for others.
pub fn what_comes_next_is_told()
    ensures spent { SomeSpentAt five_messages.sending 5 }
    ensures not_yet { ¬ SomeSpentAt five_messages.sending 4 }
    ensures not_before { ¬ SomeSpentAt (record (rated_flight (message 1 2 1 0) None) { updated = 5 } ∷ []) 4 }
    ensures first { next_of nat_cmp five_messages (message 1 3 0 0) ≡ Some (message 1 3 1 0) }
    ensures ready { SomeReadyAt nat_cmp two_of_a_pair 6 }
    ensures not_ready { ¬ SomeReadyAt nat_cmp two_of_a_pair 5 }
{}

/// A half is in lowest terms, two quarters are not, and nothing over nothing is not. And of amounts in flight none may
/// be over zero.
pub fn amounts_that_are_not_right_are_told()
    ensures half { IsLowest (parts_over 2 1) }
    ensures quarters { ¬ IsLowest (parts_over 4 2) }
    ensures nothing { ¬ IsLowest (parts_over 0 0) }
    ensures over_zero { ¬ ArePositive (flight_of (message 1 2 1 0)
        ∷ record { message = message 1 2 1 0; left = parts_over 0 1 } ∷ []) }
{}
