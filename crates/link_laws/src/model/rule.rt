//! Worked examples of the event rule, with moments that go back and with faults: lists of calls, and the replies to
//! them.
//!
//! The first peer sends at one byte a nanosecond unless another cap is named.
ghost use Rattle.std.specs.Prelude.{◌∷◌, [], Some, None};
ghost use Rattle.std.specs.Ordering.{nat_cmp};
ghost use Rattle.link_simulation.specs.Rule.Planned.{new_planned};
ghost use Rattle.link_simulation.specs.Simulation.Calls.{call_limit, call_limit_link, call_enqueue, call_advance};
ghost use Rattle.link_simulation.specs.Simulation.Calls.{call_next};
ghost use Rattle.link_simulation.specs.Simulation.Replies.{reply_done, reply_next, reply_refused};
ghost use Rattle.link_simulation.specs.Rule.Refusals.{Obeyed};
ghost use Rattle.fairness.specs.declared.error.Error.TheVariants.{MomentTooLate, FlowIdsUsedUp};
ghost use Rattle.link_laws.specs.Examples.Rows.{message, dropped, arrives, is_gone, a_byte_a_nanosecond};
ghost use Rattle.link_laws.specs.Examples.Rows.{calls_of_a_follower, replies_of_a_follower};
ghost use Rattle.link_laws.specs.Examples.Rows.{calls_of_a_list, replies_of_a_list};
ghost use Rattle.link_laws.specs.Examples.Rows.{calls_of_a_late_list, replies_of_a_late_list};
ghost use Rattle.link_laws.specs.Examples.Rows.{calls_at_the_last_moment, replies_at_the_last_moment};

/// At moments in their order the replies are the simulation's: a follower starts when it cannot arrive before the
/// message ahead of it.
pub fn a_follower_starts_as_planned()
    ensures { Obeyed nat_cmp (new_planned 0) calls_of_a_follower replies_of_a_follower }
{}

/// One advance over all of it comes to the same completions.
pub fn one_advance_meets_all_events()
    ensures { Obeyed nat_cmp (new_planned 0)
        (call_limit 0 1 a_byte_a_nanosecond None ∷ call_enqueue 0 (message 1 2 4 3) ∷ call_enqueue 0 (message 1 2 2 1)
        ∷ call_advance 8 ∷ call_next ∷ [])
        (reply_done [] ∷ reply_done [] ∷ reply_done []
        ∷ reply_done (arrives (message 1 2 4 3) 4 7 ∷ arrives (message 1 2 2 1) 8 9 ∷ []) ∷ reply_next None ∷ []) }
{}

/// A message that is enqueued at a moment before the last completion starts no earlier than it may arrive: after an
/// arrival at 7, one without latency starts at 7.
pub fn a_moment_may_go_back()
    ensures { Obeyed nat_cmp (new_planned 0)
        (call_limit 0 1 a_byte_a_nanosecond None ∷ call_enqueue 0 (message 1 2 3 4) ∷ call_advance 3
        ∷ call_enqueue 0 (message 1 2 3 0) ∷ call_advance 0
        ∷ call_next ∷ call_advance 7 ∷ call_next ∷ call_advance 10 ∷ call_next ∷ [])
        (reply_done [] ∷ reply_done [] ∷ reply_done (arrives (message 1 2 3 4) 3 7 ∷ []) ∷ reply_done [] ∷ reply_done []
        ∷ reply_next (Some 7) ∷ reply_done [] ∷ reply_next (Some 10) ∷ reply_done (arrives (message 1 2 3 0) 10 10 ∷ [])
        ∷ reply_next None ∷ []) }
{}

/// Nothing drains while moments go back: advancing again to a past moment does nothing.
pub fn a_past_moment_does_nothing()
    ensures { Obeyed nat_cmp (new_planned 0)
        (call_limit 0 1 a_byte_a_nanosecond None ∷ call_enqueue 0 (message 1 2 3 0) ∷ call_advance 3 ∷ call_advance 3
        ∷ call_advance 0 ∷ call_next ∷ [])
        (reply_done [] ∷ reply_done [] ∷ reply_done (arrives (message 1 2 3 0) 3 3 ∷ []) ∷ reply_done [] ∷ reply_done []
        ∷ reply_next None ∷ []) }
{}

/// A message that finishes at the last moment arrives then. One that finishes later never does.
pub fn the_last_moment_counts()
    ensures { Obeyed nat_cmp (new_planned 0) calls_at_the_last_moment replies_at_the_last_moment }
{}

/// A call that meets a fault changes nothing, though another message was done before it: the next event stays, and
/// new caps at an earlier moment complete both.
pub fn a_fault_leaves_all_as_it_was()
    ensures { Obeyed nat_cmp (new_planned 0)
        (call_limit 0 1 (Some 2_000_000_000) None ∷ call_enqueue 18_446_744_073_709_551_614 (message 1 2 1 0)
        ∷ call_enqueue 18_446_744_073_709_551_614 (message 1 3 1 1)
        ∷ call_advance 18_446_744_073_709_551_615 ∷ call_next ∷ call_limit 18_446_744_073_709_551_614 1 None None
        ∷ call_next ∷ [])
        (reply_done [] ∷ reply_done [] ∷ reply_done []
        ∷ reply_refused MomentTooLate ∷ reply_next (Some 18_446_744_073_709_551_615)
        ∷ reply_done (arrives (message 1 2 1 0) 18_446_744_073_709_551_614 18_446_744_073_709_551_614
        ∷ arrives (message 1 3 1 1) 18_446_744_073_709_551_614 18_446_744_073_709_551_615 ∷ []) ∷ reply_next None ∷ []) }
{}

/// With one flow id left, one message starts. Another pair is refused, one of the same pair waits, and an advance to
/// where it would start is refused and changes nothing.
pub fn used_up_ids_stop_the_next_start()
    ensures { Obeyed nat_cmp (new_planned 18_446_744_073_709_551_614)
        (call_limit 0 1 a_byte_a_nanosecond None ∷ call_enqueue 0 (message 1 2 4 0) ∷ call_next
        ∷ call_enqueue 0 (message 1 3 1 0) ∷ call_next
        ∷ call_enqueue 0 (message 1 2 1 0) ∷ call_advance 2 ∷ call_advance 4 ∷ call_next ∷ [])
        (reply_done [] ∷ reply_done [] ∷ reply_next (Some 4) ∷ reply_refused FlowIdsUsedUp ∷ reply_next (Some 4)
        ∷ reply_done [] ∷ reply_done [] ∷ reply_refused FlowIdsUsedUp ∷ reply_next (Some 4) ∷ []) }
{}

/// A link limits its own pair alone: a message to another peer goes at once.
pub fn a_link_limits_its_own_pair()
    ensures { Obeyed nat_cmp (new_planned 0)
        (call_limit_link 0 1 2 a_byte_a_nanosecond ∷ call_enqueue 0 (message 1 2 2 0)
        ∷ call_enqueue 0 (message 1 3 2 0) ∷ call_next ∷ call_advance 2 ∷ call_next ∷ [])
        (reply_done [] ∷ reply_done [] ∷ reply_done (arrives (message 1 3 2 0) 0 0 ∷ []) ∷ reply_next (Some 2)
        ∷ reply_done (arrives (message 1 2 2 0) 2 2 ∷ []) ∷ reply_next None ∷ []) }
{}

/// Where a moment goes back, the interval since then drains twice: of four bytes two went by 2, one more goes from 1
/// to 2, and the last one by 3.
pub fn an_interval_may_be_drained_twice()
    ensures { Obeyed nat_cmp (new_planned 0)
        (call_limit 0 1 a_byte_a_nanosecond None ∷ call_enqueue 0 (message 1 2 4 0)
        ∷ call_limit 2 1 a_byte_a_nanosecond None ∷ call_next ∷ call_limit 1 1 a_byte_a_nanosecond None ∷ call_next
        ∷ call_advance 3 ∷ call_next ∷ [])
        (reply_done [] ∷ reply_done [] ∷ reply_done [] ∷ reply_next (Some 4) ∷ reply_done [] ∷ reply_next (Some 3)
        ∷ reply_done (arrives (message 1 2 4 0) 3 3 ∷ []) ∷ reply_next None ∷ []) }
{}

/// A start that was missed is planned for the moment of the call: the second message could start at 6, and the call at
/// 10 finds it waiting.
pub fn a_missed_start_is_planned_anew()
    ensures { Obeyed nat_cmp (new_planned 0)
        (call_limit 0 1 a_byte_a_nanosecond None ∷ call_enqueue 0 (message 1 2 4 3) ∷ call_enqueue 0 (message 1 2 2 1)
        ∷ call_advance 4 ∷ call_next ∷ call_limit 10 1 a_byte_a_nanosecond None ∷ call_next ∷ call_advance 12
        ∷ call_next ∷ [])
        (reply_done [] ∷ reply_done [] ∷ reply_done []
        ∷ reply_done (arrives (message 1 2 4 3) 4 7 ∷ []) ∷ reply_next (Some 6) ∷ reply_done [] ∷ reply_next (Some 10)
        ∷ reply_done (arrives (message 1 2 2 1) 12 13 ∷ []) ∷ reply_next None ∷ []) }
{}

/// The next event is the earlier of a start and a finish: the message to peer 2 may start at 6, and the one to peer 3
/// would finish at 8. From 6 on they share the cap, and both finish at 10.
pub fn a_start_may_come_before_a_finish()
    ensures { Obeyed nat_cmp (new_planned 0)
        (call_limit 0 1 a_byte_a_nanosecond None ∷ call_enqueue 0 (message 1 2 4 3) ∷ call_advance 4
        ∷ call_enqueue 4 (message 1 2 2 1) ∷ call_enqueue 4 (message 1 3 4 0) ∷ call_next ∷ call_advance 6 ∷ call_next
        ∷ call_advance 10 ∷ call_next ∷ [])
        (reply_done [] ∷ reply_done [] ∷ reply_done (arrives (message 1 2 4 3) 4 7 ∷ [])
        ∷ reply_done [] ∷ reply_done [] ∷ reply_next (Some 6) ∷ reply_done [] ∷ reply_next (Some 10)
        ∷ reply_done (arrives (message 1 3 4 0) 10 10 ∷ arrives (message 1 2 2 1) 10 11 ∷ []) ∷ reply_next None ∷ []) }
{}

/// A finish may come before a start: the message to peer 3 finishes at 5, and the one to peer 2 may start at 7. It is
/// missed and planned for 10, but an advance to 8 wakes it then.
pub fn a_finish_may_come_before_a_start()
    ensures { Obeyed nat_cmp (new_planned 0)
        (call_limit 0 1 a_byte_a_nanosecond None ∷ call_enqueue 0 (message 1 2 2 5) ∷ call_advance 2
        ∷ call_enqueue 2 (message 1 2 1 0) ∷ call_enqueue 2 (message 1 3 3 0) ∷ call_next ∷ call_advance 5 ∷ call_next
        ∷ call_limit 10 1 a_byte_a_nanosecond None ∷ call_next ∷ call_advance 8 ∷ call_next ∷ call_advance 9
        ∷ call_next ∷ [])
        (reply_done [] ∷ reply_done [] ∷ reply_done (arrives (message 1 2 2 5) 2 7 ∷ [])
        ∷ reply_done [] ∷ reply_done [] ∷ reply_next (Some 5) ∷ reply_done (arrives (message 1 3 3 0) 5 5 ∷ [])
        ∷ reply_next (Some 7) ∷ reply_done [] ∷ reply_next (Some 10) ∷ reply_done [] ∷ reply_next (Some 9)
        ∷ reply_done (arrives (message 1 2 1 0) 9 9 ∷ []) ∷ reply_next None ∷ []) }
{}

/// Before any limit messages complete at once, in the order of their pair, delivered or not, and one that would arrive
/// past the last moment is refused.
pub fn nothing_waits_before_any_limit()
    ensures { Obeyed nat_cmp (new_planned 0)
        (call_enqueue 0 (message 1 2 1 100) ∷ call_enqueue 0 (dropped 1 2 1 200) ∷ call_enqueue 0 (message 1 2 1 50)
        ∷ call_enqueue 1 (message 1 2 1 18_446_744_073_709_551_615) ∷ call_enqueue 0 (message 1 2 1 150)
        ∷ call_enqueue 0 (message 1 1 1 0) ∷ call_next ∷ [])
        (reply_done (arrives (message 1 2 1 100) 0 100 ∷ []) ∷ reply_done (is_gone (dropped 1 2 1 200) 0 ∷ [])
        ∷ reply_done (arrives (message 1 2 1 50) 0 100 ∷ []) ∷ reply_refused MomentTooLate
        ∷ reply_done (arrives (message 1 2 1 150) 0 150 ∷ []) ∷ reply_done (arrives (message 1 1 1 0) 0 0 ∷ [])
        ∷ reply_next None ∷ []) }
{}

/// What waits stands in the order of pairs, and in a pair in that of enqueue: at 2 the pairs wake in their order,
/// without bytes first, and each is followed by its next message.
pub fn several_pairs_wait()
    ensures { Obeyed nat_cmp (new_planned 0)
        (call_enqueue 0 (message 1 3 1 2) ∷ call_enqueue 0 (message 1 2 1 2) ∷ call_limit 0 1 a_byte_a_nanosecond None
        ∷ call_enqueue 0 (message 1 3 0 0) ∷ call_enqueue 0 (message 1 2 0 0) ∷ call_enqueue 0 (message 1 3 2 0)
        ∷ call_enqueue 0 (message 1 2 1 0) ∷ call_next ∷ call_advance 2 ∷ call_next ∷ call_advance 4 ∷ call_next
        ∷ call_advance 5 ∷ call_next ∷ [])
        (reply_done (arrives (message 1 3 1 2) 0 2 ∷ []) ∷ reply_done (arrives (message 1 2 1 2) 0 2 ∷ []) ∷ reply_done []
        ∷ reply_done [] ∷ reply_done [] ∷ reply_done [] ∷ reply_done [] ∷ reply_next (Some 2)
        ∷ reply_done (arrives (message 1 2 0 0) 2 2 ∷ arrives (message 1 3 0 0) 2 2 ∷ []) ∷ reply_next (Some 4)
        ∷ reply_done (arrives (message 1 2 1 0) 4 4 ∷ []) ∷ reply_next (Some 5)
        ∷ reply_done (arrives (message 1 3 2 0) 5 5 ∷ []) ∷ reply_next None ∷ []) }
{}

/// The messages of a list go one after another.
pub fn a_list_goes_message_by_message()
    ensures { Obeyed nat_cmp (new_planned 0) calls_of_a_list replies_of_a_list }
{}

/// A list that meets a fault changes nothing, though its first message went.
pub fn a_late_message_refuses_its_list()
    ensures { Obeyed nat_cmp (new_planned 0) calls_of_a_late_list replies_of_a_late_list }
{}
