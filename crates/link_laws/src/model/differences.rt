//! Worked examples of replies that do not agree with the simulation.
//!
//! The first peer sends at one byte a nanosecond unless another cap is named.
ghost use Rattle.std.specs.Prelude.{◌∷◌, [], Some, None};
ghost use Rattle.std.specs.Ordering.{nat_cmp};
ghost use Rattle.link_simulation.specs.Simulation.World.{new_world};
ghost use Rattle.link_simulation.specs.Simulation.Calls.{call_limit, call_limit_link, call_enqueue, call_advance};
ghost use Rattle.link_simulation.specs.Simulation.Calls.{call_enqueue_all, call_next};
ghost use Rattle.link_simulation.specs.Simulation.Replies.{reply_done, reply_next, reply_refused, Agrees};
ghost use Rattle.fairness.specs.declared.error.Error.TheVariants.{OutOfMemory, NumberTooLarge};
ghost use Rattle.fairness.specs.declared.error.Error.TheVariants.{MomentTooLate, FlowIdsUsedUp};
ghost use Rattle.link_laws.specs.Examples.Rows.{message, dropped, arrives, is_gone, a_byte_a_nanosecond};
ghost use Rattle.link_laws.specs.Examples.Rows.{calls_of_a_late_list};

/// A reply with a wrong arrival does not agree.
pub fn a_wrong_arrival_does_not_agree()
    ensures { ¬ Agrees nat_cmp (new_world 0)
        (call_limit 0 1 a_byte_a_nanosecond None ∷ call_enqueue 0 (message 1 2 3 2) ∷ call_advance 3 ∷ [])
        (reply_done [] ∷ reply_done [] ∷ reply_done (arrives (message 1 2 3 2) 3 6 ∷ []) ∷ []) }
{}

/// Nor does one without a completion.
pub fn a_lost_completion_does_not_agree()
    ensures { ¬ Agrees nat_cmp (new_world 0)
        (call_limit 0 1 a_byte_a_nanosecond None ∷ call_enqueue 0 (message 1 2 3 2) ∷ call_advance 3 ∷ [])
        (reply_done [] ∷ reply_done [] ∷ reply_done [] ∷ []) }
{}

/// Nor does one with the completions of an instant in another order.
pub fn a_wrong_order_does_not_agree()
    ensures { ¬ Agrees nat_cmp (new_world 0)
        (call_limit 0 1 a_byte_a_nanosecond None ∷ call_enqueue 0 (message 1 3 1 0) ∷ call_enqueue 0 (message 1 2 1 0)
        ∷ call_advance 2 ∷ [])
        (reply_done [] ∷ reply_done [] ∷ reply_done []
        ∷ reply_done (arrives (message 1 2 1 0) 2 2 ∷ arrives (message 1 3 1 0) 2 2 ∷ []) ∷ []) }
{}

/// Nor does a wrong next event.
pub fn a_wrong_next_event_does_not_agree()
    ensures { ¬ Agrees nat_cmp (new_world 0)
        (call_limit 0 1 a_byte_a_nanosecond None ∷ call_enqueue 0 (message 1 2 3 2) ∷ call_next ∷ [])
        (reply_done [] ∷ reply_done [] ∷ reply_next (Some 4) ∷ []) }
{}

/// Nor does a follower that starts too early, and so is done at 6.
pub fn an_early_follower_does_not_agree()
    ensures { ¬ Agrees nat_cmp (new_world 0)
        (call_limit 0 1 a_byte_a_nanosecond None ∷ call_enqueue 0 (message 1 2 4 3) ∷ call_enqueue 0 (message 1 2 2 1)
        ∷ call_advance 6 ∷ [])
        (reply_done [] ∷ reply_done [] ∷ reply_done []
        ∷ reply_done (arrives (message 1 2 4 3) 4 7 ∷ arrives (message 1 2 2 1) 6 7 ∷ []) ∷ []) }
{}

/// Nor does one that takes no notice of new caps between two events.
pub fn a_limit_between_events_counts()
    ensures { ¬ Agrees nat_cmp (new_world 0)
        (call_limit 0 1 a_byte_a_nanosecond None ∷ call_enqueue 0 (message 1 2 4 0)
        ∷ call_limit 3 1 (Some 500_000_000) None ∷ call_advance 4 ∷ [])
        (reply_done [] ∷ reply_done [] ∷ reply_done [] ∷ reply_done (arrives (message 1 2 4 0) 4 4 ∷ []) ∷ []) }
{}

/// Nor one that takes no notice of the new cap of a link.
pub fn a_link_limit_between_events_counts()
    ensures { ¬ Agrees nat_cmp (new_world 0)
        (call_limit 0 1 a_byte_a_nanosecond None ∷ call_enqueue 0 (message 1 2 4 0)
        ∷ call_limit_link 3 1 2 (Some 500_000_000) ∷ call_advance 4 ∷ [])
        (reply_done [] ∷ reply_done [] ∷ reply_done [] ∷ reply_done (arrives (message 1 2 4 0) 4 4 ∷ []) ∷ []) }
{}

/// Nor one that takes no notice of a message between two events, which shares the cap.
pub fn a_message_between_events_counts()
    ensures { ¬ Agrees nat_cmp (new_world 0)
        (call_limit 0 1 a_byte_a_nanosecond None ∷ call_enqueue 0 (message 1 2 4 0)
        ∷ call_enqueue 3 (message 1 3 1 0) ∷ call_advance 4 ∷ [])
        (reply_done [] ∷ reply_done [] ∷ reply_done [] ∷ reply_done (arrives (message 1 2 4 0) 4 4 ∷ []) ∷ []) }
{}

/// Nor one that takes no notice of a list of messages between two events.
pub fn a_list_between_events_counts()
    ensures { ¬ Agrees nat_cmp (new_world 0)
        (call_limit 0 1 a_byte_a_nanosecond None ∷ call_enqueue 0 (message 1 2 4 0)
        ∷ call_enqueue_all 3 (message 1 3 1 0 ∷ []) ∷ call_advance 4 ∷ [])
        (reply_done [] ∷ reply_done [] ∷ reply_done [] ∷ reply_done (arrives (message 1 2 4 0) 4 4 ∷ []) ∷ []) }
{}

/// Nor one that refuses a list and sends its first messages.
pub fn a_refused_list_sends_nothing()
    ensures { ¬ Agrees nat_cmp (new_world 0) calls_of_a_late_list
        (reply_refused MomentTooLate ∷ reply_done (arrives (message 1 2 1 0) 6 6 ∷ []) ∷ reply_next None ∷ []) }
{}

/// Nor one that takes no notice of new caps where no event is ahead.
pub fn a_limit_counts_where_no_event_is_ahead()
    ensures { ¬ Agrees nat_cmp (new_world 0)
        (call_limit 0 1 a_byte_a_nanosecond None ∷ call_limit 3 1 (Some 500_000_000) None
        ∷ call_enqueue 3 (message 1 2 1 0) ∷ call_advance 4 ∷ [])
        (reply_done [] ∷ reply_done [] ∷ reply_done [] ∷ reply_done (arrives (message 1 2 1 0) 4 4 ∷ []) ∷ []) }
{}

/// Nor one that loses a completion in an advance over several events.
pub fn an_advance_over_events_counts()
    ensures { ¬ Agrees nat_cmp (new_world 0)
        (call_limit 0 1 a_byte_a_nanosecond None ∷ call_enqueue 0 (message 1 2 4 3)
        ∷ call_enqueue 0 (message 1 2 2 1) ∷ call_advance 8 ∷ [])
        (reply_done [] ∷ reply_done [] ∷ reply_done [] ∷ reply_done (arrives (message 1 2 4 3) 4 7 ∷ []) ∷ []) }
{}

/// A next event is not passed over, and none is made up.
pub fn a_missing_next_event_does_not_agree()
    ensures missing { ¬ Agrees nat_cmp (new_world 0)
        (call_limit 0 1 a_byte_a_nanosecond None ∷ call_enqueue 0 (message 1 2 3 2) ∷ call_next ∷ [])
        (reply_done [] ∷ reply_done [] ∷ reply_next None ∷ []) }
    ensures made_up { ¬ Agrees nat_cmp (new_world 0)
        (call_next ∷ [])
        (reply_next (Some 1) ∷ []) }
{}

/// Each part of a completion counts, and it is answered once.
pub fn a_wrong_part_of_a_completion_does_not_agree()
    ensures origin { ¬ Agrees nat_cmp (new_world 0)
        (call_limit 0 1 a_byte_a_nanosecond None ∷ call_enqueue 0 (message 1 2 3 2) ∷ call_advance 3 ∷ [])
        (reply_done [] ∷ reply_done [] ∷ reply_done (arrives (message 3 2 3 2) 3 5 ∷ []) ∷ []) }
    ensures recipient { ¬ Agrees nat_cmp (new_world 0)
        (call_limit 0 1 a_byte_a_nanosecond None ∷ call_enqueue 0 (message 1 2 3 2) ∷ call_advance 3 ∷ [])
        (reply_done [] ∷ reply_done [] ∷ reply_done (arrives (message 1 3 3 2) 3 5 ∷ []) ∷ []) }
    ensures channel { ¬ Agrees nat_cmp (new_world 0)
        (call_limit 0 1 a_byte_a_nanosecond None ∷ call_enqueue 0 (message 1 2 3 2) ∷ call_advance 3 ∷ [])
        (reply_done [] ∷ reply_done [] ∷ reply_done (arrives (record (message 1 2 3 2) { channel = 1 }) 3 5 ∷ []) ∷ []) }
    ensures bytes { ¬ Agrees nat_cmp (new_world 0)
        (call_limit 0 1 a_byte_a_nanosecond None ∷ call_enqueue 0 (message 1 2 3 2) ∷ call_advance 3 ∷ [])
        (reply_done [] ∷ reply_done [] ∷ reply_done (arrives (message 1 2 2 2) 3 5 ∷ []) ∷ []) }
    ensures done { ¬ Agrees nat_cmp (new_world 0)
        (call_limit 0 1 a_byte_a_nanosecond None ∷ call_enqueue 0 (message 1 2 3 2) ∷ call_advance 3 ∷ [])
        (reply_done [] ∷ reply_done [] ∷ reply_done (arrives (message 1 2 3 2) 5 5 ∷ []) ∷ []) }
    ensures dropped { ¬ Agrees nat_cmp (new_world 0)
        (call_limit 0 1 a_byte_a_nanosecond None ∷ call_enqueue 0 (dropped 1 2 3 2) ∷ call_advance 3 ∷ [])
        (reply_done [] ∷ reply_done [] ∷ reply_done (is_gone (dropped 1 2 3 2) 5 ∷ []) ∷ []) }
    ensures gone { ¬ Agrees nat_cmp (new_world 0)
        (call_limit 0 1 a_byte_a_nanosecond None ∷ call_enqueue 0 (message 1 2 3 2) ∷ call_advance 3 ∷ [])
        (reply_done [] ∷ reply_done [] ∷ reply_done (is_gone (message 1 2 3 2) 3 ∷ []) ∷ []) }
    ensures twice { ¬ Agrees nat_cmp (new_world 0)
        (call_limit 0 1 a_byte_a_nanosecond None ∷ call_enqueue 0 (message 1 2 3 2) ∷ call_advance 3 ∷ [])
        (reply_done [] ∷ reply_done [] ∷ reply_done (arrives (message 1 2 3 2) 3 5 ∷ arrives (message 1 2 3 2) 3 5 ∷ [])
        ∷ []) }
{}

/// Nor does a reply of another kind: completions in the place of a next event, or the other way round. And a next event
/// is never refused.
pub fn a_reply_of_another_kind_does_not_agree()
    ensures next_done { ¬ Agrees nat_cmp (new_world 0) (call_next ∷ []) (reply_done [] ∷ []) }
    ensures next_refused { ¬ Agrees nat_cmp (new_world 0) (call_next ∷ []) (reply_refused OutOfMemory ∷ []) }
    ensures call_next { ¬ Agrees nat_cmp (new_world 0) (call_advance 0 ∷ []) (reply_next None ∷ []) }
{}

/// There is one reply to each call.
pub fn replies_are_as_many_as_calls()
    ensures more { ¬ Agrees nat_cmp (new_world 0) [] (reply_next None ∷ []) }
    ensures fewer { ¬ Agrees nat_cmp (new_world 0) (call_next ∷ []) [] }
{}

/// What comes after a refusal, after completions or after a next event counts too.
pub fn what_comes_later_counts()
    ensures refused { ¬ Agrees nat_cmp (new_world 0) (call_advance 0 ∷ call_next ∷ [])
        (reply_refused OutOfMemory ∷ reply_next (Some 1) ∷ []) }
    ensures done { ¬ Agrees nat_cmp (new_world 0) (call_advance 0 ∷ call_next ∷ [])
        (reply_done [] ∷ reply_next (Some 1) ∷ []) }
    ensures next { ¬ Agrees nat_cmp (new_world 0) (call_next ∷ call_next ∷ [])
        (reply_next None ∷ reply_next (Some 1) ∷ []) }
{}

/// No call is refused for a number.
pub fn a_number_is_never_refused()
    ensures limit { ¬ Agrees nat_cmp (new_world 0)
        (call_limit 0 1 (Some 340_282_366_920_938_463_463_374_607_431_768_211_455) None ∷ [])
        (reply_refused NumberTooLarge ∷ []) }
    ensures limit_link { ¬ Agrees nat_cmp (new_world 0)
        (call_limit_link 0 1 2 (Some 340_282_366_920_938_463_463_374_607_431_768_211_455) ∷ [])
        (reply_refused NumberTooLarge ∷ []) }
    ensures enqueue { ¬ Agrees nat_cmp (new_world 0)
        (call_enqueue 0 (message 1 2 1 0) ∷ [])
        (reply_refused NumberTooLarge ∷ []) }
    ensures advance { ¬ Agrees nat_cmp (new_world 0)
        (call_advance 0 ∷ [])
        (reply_refused NumberTooLarge ∷ []) }
{}

/// A call is not refused for a fault that it does not meet, nor for another than it meets.
pub fn a_fault_that_is_not_met_does_not_agree()
    ensures moment { ¬ Agrees nat_cmp (new_world 0)
        (call_enqueue 0 (message 1 2 1 0) ∷ [])
        (reply_refused MomentTooLate ∷ []) }
    ensures dropped { ¬ Agrees nat_cmp (new_world 0)
        (call_enqueue 1 (dropped 1 2 1 18_446_744_073_709_551_615) ∷ [])
        (reply_refused MomentTooLate ∷ []) }
    ensures id { ¬ Agrees nat_cmp (new_world 0)
        (call_limit 0 1 a_byte_a_nanosecond None ∷ call_enqueue 0 (message 1 2 1 0) ∷ [])
        (reply_done [] ∷ reply_refused FlowIdsUsedUp ∷ []) }
    ensures another { ¬ Agrees nat_cmp (new_world 0)
        (call_enqueue 1 (message 1 2 1 18_446_744_073_709_551_615) ∷ [])
        (reply_refused FlowIdsUsedUp ∷ []) }
{}

/// A call that meets a fault is not answered with completions.
pub fn a_fault_that_is_met_is_not_passed_over()
    ensures moment { ¬ Agrees nat_cmp (new_world 0)
        (call_enqueue 1 (message 1 2 1 18_446_744_073_709_551_615) ∷ [])
        (reply_done (arrives (message 1 2 1 18_446_744_073_709_551_615) 1 18_446_744_073_709_551_616 ∷ []) ∷ []) }
    ensures id { ¬ Agrees nat_cmp (new_world 18_446_744_073_709_551_615)
        (call_limit 0 1 a_byte_a_nanosecond None ∷ call_enqueue 0 (message 1 2 1 0) ∷ [])
        (reply_done [] ∷ reply_done [] ∷ []) }
{}
