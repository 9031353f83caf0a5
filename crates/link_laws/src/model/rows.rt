//! Worked examples of the simulation: lists of calls, and replies that agree with them.
//!
//! The first peer sends at one byte a nanosecond unless another cap is named.
ghost use Rattle.std.specs.Prelude.{◌∷◌, [], Some, None};
ghost use Rattle.std.specs.Ordering.{nat_cmp};
ghost use Rattle.link_simulation.specs.Simulation.World.{new_world};
ghost use Rattle.link_simulation.specs.Simulation.Time.{NextIs};
ghost use Rattle.link_simulation.specs.Simulation.Calls.{call_limit, call_limit_link, call_enqueue, call_advance};
ghost use Rattle.link_simulation.specs.Simulation.Calls.{call_next};
ghost use Rattle.link_simulation.specs.Simulation.Replies.{reply_done, reply_next, reply_refused, Agrees};
ghost use Rattle.fairness.specs.declared.error.Error.TheVariants.{OutOfMemory, MomentTooLate, FlowIdsUsedUp};
ghost use Rattle.link_laws.specs.Examples.Rows.{message, dropped, arrives, is_gone, a_byte_a_nanosecond, flying};
ghost use Rattle.link_laws.specs.Examples.Rows.{calls_of_a_follower, replies_of_a_follower};
ghost use Rattle.link_laws.specs.Examples.Rows.{calls_of_a_list, replies_of_a_list};
ghost use Rattle.link_laws.specs.Examples.Rows.{calls_of_a_late_list, replies_of_a_late_list};
ghost use Rattle.link_laws.specs.Examples.Rows.{calls_at_the_last_moment, replies_at_the_last_moment};

/// Three bytes take three nanoseconds, and arrive their latency later.
pub fn a_message_takes_its_time()
    ensures { Agrees nat_cmp (new_world 0)
        (call_limit 0 1 a_byte_a_nanosecond None ∷ call_enqueue 0 (message 1 2 3 2) ∷ call_next ∷ call_advance 3
        ∷ call_next ∷ [])
        (reply_done [] ∷ reply_done [] ∷ reply_next (Some 3) ∷ reply_done (arrives (message 1 2 3 2) 3 5 ∷ [])
        ∷ reply_next None ∷ []) }
{}

/// A message waits until it cannot arrive before the one ahead of it: four bytes arrive at 7, and two more bytes of
/// latency 1 start at 6.
pub fn a_follower_keeps_behind()
    ensures { Agrees nat_cmp (new_world 0) calls_of_a_follower replies_of_a_follower }
{}

/// Two messages share the cap evenly, and the one that is left gets all of it. At one moment a message that finishes
/// completes before one that starts, though that one's pair comes first.
pub fn a_finish_comes_before_a_start()
    ensures { Agrees nat_cmp (new_world 0)
        (call_limit 0 1 a_byte_a_nanosecond None ∷ call_enqueue 0 (message 1 2 1 1) ∷ call_next
        ∷ call_enqueue 0 (message 1 2 0 0) ∷ call_enqueue 0 (message 1 3 2 0)
        ∷ call_next ∷ call_advance 2 ∷ call_next ∷ call_advance 3 ∷ call_next ∷ [])
        (reply_done [] ∷ reply_done [] ∷ reply_next (Some 1) ∷ reply_done [] ∷ reply_done []
        ∷ reply_next (Some 2) ∷ reply_done (arrives (message 1 2 1 1) 2 3 ∷ []) ∷ reply_next (Some 3)
        ∷ reply_done (arrives (message 1 3 2 0) 3 3 ∷ arrives (message 1 2 0 0) 3 3 ∷ [])
        ∷ reply_next None ∷ []) }
{}

/// At one moment the next message of a pair whose message finishes starts before one that waited for that moment: at 2
/// the second message to peer 2, and then the one to peer 3, which may not arrive before 2. Both are done at 4.
pub fn a_follower_starts_before_those_that_wake()
    ensures { Agrees nat_cmp (new_world 0)
        (call_limit 0 1 a_byte_a_nanosecond None ∷ call_enqueue 0 (message 1 3 1 1) ∷ call_enqueue 0 (message 1 3 1 0)
        ∷ call_advance 1 ∷ call_enqueue 1 (message 1 2 1 0) ∷ call_enqueue 1 (message 1 2 1 0)
        ∷ call_next ∷ call_advance 2 ∷ call_next ∷ call_advance 4 ∷ call_next ∷ [])
        (reply_done [] ∷ reply_done [] ∷ reply_done []
        ∷ reply_done (arrives (message 1 3 1 1) 1 2 ∷ []) ∷ reply_done [] ∷ reply_done []
        ∷ reply_next (Some 2) ∷ reply_done (arrives (message 1 2 1 0) 2 2 ∷ []) ∷ reply_next (Some 4)
        ∷ reply_done (arrives (message 1 2 1 0) 4 4 ∷ arrives (message 1 3 1 0) 4 4 ∷ []) ∷ reply_next None ∷ []) }
{}

/// So it is where its pair comes later in the order of pairs: at 2 the second message to peer 3, and then the one to
/// peer 2.
pub fn a_follower_of_a_later_pair_starts_first()
    ensures { Agrees nat_cmp (new_world 0)
        (call_limit 0 1 a_byte_a_nanosecond None ∷ call_enqueue 0 (message 1 2 1 1) ∷ call_enqueue 0 (message 1 2 1 0)
        ∷ call_advance 1 ∷ call_enqueue 1 (message 1 3 1 0) ∷ call_enqueue 1 (message 1 3 1 0)
        ∷ call_next ∷ call_advance 2 ∷ call_next ∷ call_advance 4 ∷ call_next ∷ [])
        (reply_done [] ∷ reply_done [] ∷ reply_done []
        ∷ reply_done (arrives (message 1 2 1 1) 1 2 ∷ []) ∷ reply_done [] ∷ reply_done []
        ∷ reply_next (Some 2) ∷ reply_done (arrives (message 1 3 1 0) 2 2 ∷ []) ∷ reply_next (Some 4)
        ∷ reply_done (arrives (message 1 3 1 0) 4 4 ∷ arrives (message 1 2 1 0) 4 4 ∷ []) ∷ reply_next None ∷ []) }
{}

/// Of two pairs with a message each in flight, both finish at 2; the second message of the first pair starts only
/// then, and has all of the cap.
pub fn a_pair_sends_one_message_at_a_time()
    ensures { Agrees nat_cmp (new_world 0)
        (call_limit 0 1 a_byte_a_nanosecond None ∷ call_enqueue 0 (message 1 2 1 0) ∷ call_enqueue 0 (message 1 3 1 0)
        ∷ call_enqueue 0 (message 1 2 1 0)
        ∷ call_next ∷ call_advance 2 ∷ call_next ∷ call_advance 3 ∷ call_next ∷ [])
        (reply_done [] ∷ reply_done [] ∷ reply_done [] ∷ reply_done []
        ∷ reply_next (Some 2) ∷ reply_done (arrives (message 1 2 1 0) 2 2 ∷ arrives (message 1 3 1 0) 2 2 ∷ [])
        ∷ reply_next (Some 3) ∷ reply_done (arrives (message 1 2 1 0) 3 3 ∷ []) ∷ reply_next None ∷ []) }
{}

/// Before any limit messages complete at once. One that is dropped does not let a later one arrive earlier.
pub fn nothing_waits_before_any_limit()
    ensures { Agrees nat_cmp (new_world 0)
        (call_enqueue 0 (message 1 2 1 100) ∷ call_enqueue 0 (dropped 1 2 1 0) ∷ call_enqueue 0 (message 1 2 1 50)
        ∷ call_next ∷ [])
        (reply_done (arrives (message 1 2 1 100) 0 100 ∷ []) ∷ reply_done (is_gone (dropped 1 2 1 0) 0 ∷ [])
        ∷ reply_done (arrives (message 1 2 1 50) 0 100 ∷ []) ∷ reply_next None ∷ []) }
{}

/// Before any limit a message arrives at its own moment where that is later than the last one, and it then is the last
/// one itself.
pub fn a_later_arrival_is_the_last_one()
    ensures { Agrees nat_cmp (new_world 0)
        (call_enqueue 0 (message 1 2 1 100) ∷ call_enqueue 0 (message 1 2 1 150) ∷ call_enqueue 0 (message 1 2 1 120)
        ∷ [])
        (reply_done (arrives (message 1 2 1 100) 0 100 ∷ []) ∷ reply_done (arrives (message 1 2 1 150) 0 150 ∷ [])
        ∷ reply_done (arrives (message 1 2 1 120) 0 150 ∷ []) ∷ []) }
{}

/// Each ordered pair has its own order: an arrival at 100 holds back no message to another peer, nor one on the way
/// back.
pub fn each_pair_has_its_own_order()
    ensures { Agrees nat_cmp (new_world 0)
        (call_enqueue 0 (message 1 2 1 100) ∷ call_enqueue 0 (message 1 3 1 50) ∷ call_enqueue 0 (message 2 1 1 50)
        ∷ call_enqueue 0 (message 3 2 1 50) ∷ [])
        (reply_done (arrives (message 1 2 1 100) 0 100 ∷ []) ∷ reply_done (arrives (message 1 3 1 50) 0 50 ∷ [])
        ∷ reply_done (arrives (message 2 1 1 50) 0 50 ∷ []) ∷ reply_done (arrives (message 3 2 1 50) 0 50 ∷ []) ∷ []) }
{}

/// A message to oneself is delivered before any limit, and dropped after one, also after a limit of nothing.
pub fn a_message_to_oneself_is_dropped_under_limits()
    ensures { Agrees nat_cmp (new_world 0)
        (call_enqueue 0 (message 1 1 1 0) ∷ call_limit 0 1 None None ∷ call_enqueue 0 (message 1 1 1 0) ∷ call_next
        ∷ [])
        (reply_done (arrives (message 1 1 1 0) 0 0 ∷ []) ∷ reply_done [] ∷ reply_done (is_gone (message 1 1 1 0) 0 ∷ [])
        ∷ reply_next None ∷ []) }
{}

/// A link limits what goes from a peer to itself, though it is dropped.
pub fn a_link_to_oneself_takes_time()
    ensures { Agrees nat_cmp (new_world 0)
        (call_limit_link 0 1 1 a_byte_a_nanosecond ∷ call_enqueue 0 (message 1 1 1 0) ∷ call_next ∷ call_advance 1
        ∷ call_next ∷ [])
        (reply_done [] ∷ reply_done [] ∷ reply_next (Some 1) ∷ reply_done (is_gone (message 1 1 1 0) 1 ∷ [])
        ∷ reply_next None ∷ []) }
{}

/// New caps hold at once: half of four bytes went, and the rest takes twice as long.
pub fn new_caps_hold_at_once()
    ensures { Agrees nat_cmp (new_world 0)
        (call_limit 0 1 a_byte_a_nanosecond None ∷ call_enqueue 0 (message 1 2 4 0)
        ∷ call_limit 2 1 (Some 500_000_000) None ∷ call_next ∷ call_advance 6 ∷ call_next ∷ [])
        (reply_done [] ∷ reply_done [] ∷ reply_done [] ∷ reply_next (Some 6)
        ∷ reply_done (arrives (message 1 2 4 0) 6 6 ∷ []) ∷ reply_next None ∷ []) }
{}

/// At a cap of zero a message stays, but one without bytes goes at once.
pub fn a_closed_peer_sends_nothing()
    ensures { Agrees nat_cmp (new_world 0)
        (call_limit 0 1 (Some 0) None ∷ call_enqueue 0 (message 1 2 1 0) ∷ call_enqueue 0 (message 1 3 0 0)
        ∷ call_limit 2 1 a_byte_a_nanosecond None ∷ call_next ∷ call_advance 3 ∷ call_next ∷ [])
        (reply_done [] ∷ reply_done [] ∷ reply_done (arrives (message 1 3 0 0) 0 0 ∷ []) ∷ reply_done []
        ∷ reply_next (Some 3) ∷ reply_done (arrives (message 1 2 1 0) 3 3 ∷ []) ∷ reply_next None ∷ []) }
{}

/// A message that will be dropped waits for the one ahead of it, too.
pub fn a_dropped_follower_waits()
    ensures { Agrees nat_cmp (new_world 0)
        (call_limit 0 1 a_byte_a_nanosecond None ∷ call_enqueue 0 (message 1 2 1 1) ∷ call_enqueue 0 (dropped 1 2 0 0)
        ∷ call_next ∷ call_advance 1 ∷ call_next ∷ call_advance 2 ∷ call_next ∷ [])
        (reply_done [] ∷ reply_done [] ∷ reply_done [] ∷ reply_next (Some 1)
        ∷ reply_done (arrives (message 1 2 1 1) 1 2 ∷ []) ∷ reply_next (Some 2)
        ∷ reply_done (is_gone (dropped 1 2 0 0) 2 ∷ []) ∷ reply_next None ∷ []) }
{}

/// Completions of one instant come in order of start, not in the order of pairs.
pub fn completions_come_in_order_of_start()
    ensures { Agrees nat_cmp (new_world 0)
        (call_limit 0 1 a_byte_a_nanosecond None ∷ call_enqueue 0 (message 1 3 1 0) ∷ call_enqueue 0 (message 1 2 1 0)
        ∷ call_next ∷ call_advance 2 ∷ [])
        (reply_done [] ∷ reply_done [] ∷ reply_done [] ∷ reply_next (Some 2)
        ∷ reply_done (arrives (message 1 3 1 0) 2 2 ∷ arrives (message 1 2 1 0) 2 2 ∷ []) ∷ []) }
{}

/// Starts of one instant come in the order of pairs, not in that of enqueue.
pub fn starts_come_in_the_order_of_pairs()
    ensures { Agrees nat_cmp (new_world 0)
        (call_enqueue 0 (message 1 3 1 2) ∷ call_enqueue 0 (message 1 2 1 2) ∷ call_limit 0 1 a_byte_a_nanosecond None
        ∷ call_enqueue 0 (message 1 3 0 0) ∷ call_enqueue 0 (message 1 2 0 0) ∷ call_next ∷ call_advance 2 ∷ call_next
        ∷ [])
        (reply_done (arrives (message 1 3 1 2) 0 2 ∷ []) ∷ reply_done (arrives (message 1 2 1 2) 0 2 ∷ []) ∷ reply_done []
        ∷ reply_done [] ∷ reply_done [] ∷ reply_next (Some 2)
        ∷ reply_done (arrives (message 1 2 0 0) 2 2 ∷ arrives (message 1 3 0 0) 2 2 ∷ []) ∷ reply_next None ∷ []) }
{}

/// Two origins share the ingress of a recipient.
pub fn an_ingress_is_shared()
    ensures { Agrees nat_cmp (new_world 0)
        (call_limit 0 3 None a_byte_a_nanosecond ∷ call_enqueue 0 (message 1 3 1 0) ∷ call_enqueue 0 (message 2 3 1 0)
        ∷ call_enqueue 0 (dropped 4 3 5 0) ∷ call_next ∷ call_advance 2 ∷ call_next ∷ [])
        (reply_done [] ∷ reply_done [] ∷ reply_done [] ∷ reply_done (is_gone (dropped 4 3 5 0) 0 ∷ [])
        ∷ reply_next (Some 2) ∷ reply_done (arrives (message 1 3 1 0) 2 2 ∷ arrives (message 2 3 1 0) 2 2 ∷ [])
        ∷ reply_next None ∷ []) }
{}

/// An arrival past the last moment is refused, and the world stays as it was.
pub fn a_late_arrival_is_refused()
    ensures { Agrees nat_cmp (new_world 0)
        (call_enqueue 1 (message 1 2 1 18_446_744_073_709_551_615) ∷ call_next
        ∷ call_enqueue 0 (message 1 2 1 18_446_744_073_709_551_615) ∷ [])
        (reply_refused MomentTooLate ∷ reply_next None
        ∷ reply_done (arrives (message 1 2 1 18_446_744_073_709_551_615) 0 18_446_744_073_709_551_615 ∷ []) ∷ []) }
{}

/// Under limits too: a message without bytes is refused as it is enqueued, and another where an
/// advance would finish it.
pub fn a_late_arrival_is_refused_under_limits()
    ensures { Agrees nat_cmp (new_world 0)
        (call_limit 0 1 a_byte_a_nanosecond None ∷ call_enqueue 1 (message 1 2 0 18_446_744_073_709_551_615)
        ∷ call_enqueue 0 (message 1 2 0 18_446_744_073_709_551_615)
        ∷ call_enqueue 0 (message 1 3 1 18_446_744_073_709_551_615) ∷ call_next ∷ call_advance 1 ∷ call_next ∷ [])
        (reply_done [] ∷ reply_refused MomentTooLate
        ∷ reply_done (arrives (message 1 2 0 18_446_744_073_709_551_615) 0 18_446_744_073_709_551_615 ∷ [])
        ∷ reply_done [] ∷ reply_next (Some 1) ∷ reply_refused MomentTooLate ∷ reply_next (Some 1) ∷ []) }
{}

/// A message that finishes at the last moment arrives then. One that finishes later never does.
pub fn a_message_may_arrive_at_the_last_moment()
    ensures { Agrees nat_cmp (new_world 0) calls_at_the_last_moment replies_at_the_last_moment }
{}

/// With the flow ids used up no message starts; one that could start at once is refused.
pub fn a_start_without_an_id_is_refused()
    ensures { Agrees nat_cmp (new_world 18_446_744_073_709_551_614)
        (call_limit 0 1 a_byte_a_nanosecond None ∷ call_enqueue 0 (message 1 2 2 0) ∷ call_enqueue 0 (message 1 3 1 0)
        ∷ call_next ∷ call_advance 2 ∷ call_next ∷ [])
        (reply_done [] ∷ reply_done [] ∷ reply_refused FlowIdsUsedUp ∷ reply_next (Some 2)
        ∷ reply_done (arrives (message 1 2 2 0) 2 2 ∷ []) ∷ reply_next None ∷ []) }
{}

/// In the order of its pair a dropped message counts when it is gone, whatever its latency: the next one follows at
/// once.
pub fn a_dropped_message_counts_when_it_is_gone()
    ensures { Agrees nat_cmp (new_world 0)
        (call_limit 0 1 a_byte_a_nanosecond None ∷ call_enqueue 0 (dropped 1 2 1 5) ∷ call_enqueue 0 (message 1 2 1 0)
        ∷ call_next ∷ call_advance 1 ∷ call_next ∷ call_advance 2 ∷ call_next ∷ [])
        (reply_done [] ∷ reply_done [] ∷ reply_done [] ∷ reply_next (Some 1)
        ∷ reply_done (is_gone (dropped 1 2 1 5) 1 ∷ []) ∷ reply_next (Some 2)
        ∷ reply_done (arrives (message 1 2 1 0) 2 2 ∷ []) ∷ reply_next None ∷ []) }
{}

/// A dropped message takes nothing of the ingress of its recipient, though it takes its time at its origin.
pub fn a_dropped_message_takes_no_ingress()
    ensures { Agrees nat_cmp (new_world 0)
        (call_limit 0 3 None a_byte_a_nanosecond ∷ call_limit 0 4 a_byte_a_nanosecond None
        ∷ call_enqueue 0 (dropped 4 3 2 0) ∷ call_enqueue 0 (message 1 3 2 0) ∷ call_next ∷ call_advance 2 ∷ call_next
        ∷ [])
        (reply_done [] ∷ reply_done [] ∷ reply_done [] ∷ reply_done [] ∷ reply_next (Some 2)
        ∷ reply_done (is_gone (dropped 4 3 2 0) 2 ∷ arrives (message 1 3 2 0) 2 2 ∷ []) ∷ reply_next None ∷ []) }
{}

/// A link limits one direction: what goes the other way goes at once.
pub fn a_link_has_one_direction()
    ensures { Agrees nat_cmp (new_world 0)
        (call_limit_link 0 1 2 a_byte_a_nanosecond ∷ call_enqueue 0 (message 2 1 1 0)
        ∷ call_enqueue 0 (message 1 2 1 0) ∷ call_next ∷ call_advance 1 ∷ call_next ∷ [])
        (reply_done [] ∷ reply_done (arrives (message 2 1 1 0) 0 0 ∷ []) ∷ reply_done [] ∷ reply_next (Some 1)
        ∷ reply_done (arrives (message 1 2 1 0) 1 1 ∷ []) ∷ reply_next None ∷ []) }
{}

/// Where caps are lifted all completes at once. What starts then and is done comes after all that was done before it.
pub fn lifted_caps_complete_all()
    ensures { Agrees nat_cmp (new_world 0)
        (call_limit 0 1 a_byte_a_nanosecond None ∷ call_enqueue 0 (message 1 2 3 0) ∷ call_enqueue 0 (message 1 2 0 0)
        ∷ call_enqueue 0 (message 1 2 2 0) ∷ call_enqueue 0 (message 1 3 3 0) ∷ call_enqueue 0 (message 1 3 1 0)
        ∷ call_limit 0 1 None None ∷ call_next ∷ [])
        (reply_done [] ∷ reply_done [] ∷ reply_done [] ∷ reply_done [] ∷ reply_done [] ∷ reply_done []
        ∷ reply_done (arrives (message 1 2 3 0) 0 0 ∷ arrives (message 1 3 3 0) 0 0 ∷ arrives (message 1 2 0 0) 0 0
        ∷ arrives (message 1 3 1 0) 0 0 ∷ arrives (message 1 2 2 0) 0 0 ∷ []) ∷ reply_next None ∷ []) }
{}

/// A link of one byte a nanosecond leaves nine of ten to the other message of its origin: fair rates are not even ones.
pub fn a_link_leaves_the_rest_to_others()
    ensures { Agrees nat_cmp (new_world 0)
        (call_limit 0 1 (Some 10_000_000_000) None ∷ call_limit_link 0 1 2 a_byte_a_nanosecond
        ∷ call_enqueue 0 (message 1 2 10 0) ∷ call_enqueue 0 (message 1 3 9 0)
        ∷ call_next ∷ call_advance 1 ∷ call_next ∷ call_advance 10 ∷ call_next ∷ [])
        (reply_done [] ∷ reply_done [] ∷ reply_done [] ∷ reply_done []
        ∷ reply_next (Some 1) ∷ reply_done (arrives (message 1 3 9 0) 1 1 ∷ []) ∷ reply_next (Some 10)
        ∷ reply_done (arrives (message 1 2 10 0) 10 10 ∷ []) ∷ reply_next None ∷ []) }
{}

/// One byte and two bytes share seven bytes a second: the first takes two sevenths of a second, and the other is done
/// at three sevenths, each rounded up to a nanosecond.
pub fn moments_are_rounded_up()
    ensures { Agrees nat_cmp (new_world 0)
        (call_limit 0 1 (Some 7) None ∷ call_enqueue 0 (message 1 2 1 0) ∷ call_enqueue 0 (message 1 3 2 0)
        ∷ call_next ∷ call_advance 285_714_286 ∷ call_next ∷ call_advance 428_571_429 ∷ call_next ∷ [])
        (reply_done [] ∷ reply_done [] ∷ reply_done []
        ∷ reply_next (Some 285_714_286) ∷ reply_done (arrives (message 1 2 1 0) 285_714_286 285_714_286 ∷ [])
        ∷ reply_next (Some 428_571_429) ∷ reply_done (arrives (message 1 3 2 0) 428_571_429 428_571_429 ∷ []) ∷ reply_next None
        ∷ []) }
{}

/// At three bytes a second one byte takes 333333334 nanoseconds: a third of a second, rounded up.
pub fn a_slow_message_takes_long()
    ensures { NextIs nat_cmp (flying 3 (message 1 2 1 0)) (Some 333_333_334) }
{}

/// Pairs stand in the order of origins, and then of recipients.
pub fn pairs_stand_in_the_order_of_origins()
    ensures { Agrees nat_cmp (new_world 0)
        (call_enqueue 0 (message 2 1 1 2) ∷ call_enqueue 0 (message 1 3 1 2)
        ∷ call_limit 0 1 a_byte_a_nanosecond None ∷ call_enqueue 0 (message 2 1 0 0)
        ∷ call_enqueue 0 (message 1 3 0 0) ∷ call_next ∷ call_advance 2 ∷ call_next ∷ [])
        (reply_done (arrives (message 2 1 1 2) 0 2 ∷ []) ∷ reply_done (arrives (message 1 3 1 2) 0 2 ∷ [])
        ∷ reply_done [] ∷ reply_done [] ∷ reply_done [] ∷ reply_next (Some 2)
        ∷ reply_done (arrives (message 1 3 0 0) 2 2 ∷ arrives (message 2 1 0 0) 2 2 ∷ []) ∷ reply_next None ∷ []) }
{}

/// A dropped message is never late, whatever its latency.
pub fn a_dropped_message_is_never_late()
    ensures { Agrees nat_cmp (new_world 0)
        (call_limit 0 1 a_byte_a_nanosecond None ∷ call_enqueue 18_446_744_073_709_551_614 (dropped 1 2 1 5)
        ∷ call_advance 18_446_744_073_709_551_615 ∷ [])
        (reply_done [] ∷ reply_done [] ∷ reply_done (is_gone (dropped 1 2 1 5) 18_446_744_073_709_551_615 ∷ []) ∷ []) }
{}

/// A message waits behind one with less latency that has to wait itself: the second may start at 6, and the third,
/// which would not be early at 4, after it.
pub fn a_follower_does_not_overtake()
    ensures { Agrees nat_cmp (new_world 0)
        (call_limit 0 1 a_byte_a_nanosecond None ∷ call_enqueue 0 (message 1 2 4 3)
        ∷ call_enqueue 0 (message 1 2 1 1) ∷ call_enqueue 0 (message 1 2 1 5) ∷ call_advance 4 ∷ call_next
        ∷ call_advance 8 ∷ call_next ∷ [])
        (reply_done [] ∷ reply_done [] ∷ reply_done [] ∷ reply_done []
        ∷ reply_done (arrives (message 1 2 4 3) 4 7 ∷ []) ∷ reply_next (Some 6)
        ∷ reply_done (arrives (message 1 2 1 1) 7 8 ∷ arrives (message 1 2 1 5) 8 13 ∷ []) ∷ reply_next None ∷ []) }
{}

/// A limit sets both caps of a peer: what it sends and what it receives.
pub fn both_caps_of_a_limit_count()
    ensures { Agrees nat_cmp (new_world 0)
        (call_limit 0 1 a_byte_a_nanosecond a_byte_a_nanosecond ∷ call_enqueue 0 (message 1 2 1 0)
        ∷ call_enqueue 0 (message 2 1 2 0) ∷ call_next ∷ call_advance 1 ∷ call_next ∷ call_advance 2 ∷ [])
        (reply_done [] ∷ reply_done [] ∷ reply_done [] ∷ reply_next (Some 1)
        ∷ reply_done (arrives (message 1 2 1 0) 1 1 ∷ []) ∷ reply_next (Some 2)
        ∷ reply_done (arrives (message 2 1 2 0) 2 2 ∷ []) ∷ []) }
{}

/// A call that is refused counts as not made: memory may run out at any call, and here no limit holds after it.
pub fn a_refused_call_counts_as_not_made()
    ensures { Agrees nat_cmp (new_world 0)
        (call_limit 0 1 a_byte_a_nanosecond None ∷ call_enqueue 0 (message 1 2 1 0) ∷ call_next ∷ [])
        (reply_refused OutOfMemory ∷ reply_done (arrives (message 1 2 1 0) 0 0 ∷ []) ∷ reply_next None ∷ []) }
{}

/// The messages of a list are sent one after another at its moment: what completes as they are sent comes in their
/// order, and the second one of a pair waits behind the first.
pub fn a_list_goes_message_by_message()
    ensures { Agrees nat_cmp (new_world 0) calls_of_a_list replies_of_a_list }
{}

/// A list of which one message is late is refused, and none of its messages was sent: one of the first pair then
/// arrives before the first one would have.
pub fn a_late_message_refuses_its_list()
    ensures { Agrees nat_cmp (new_world 0) calls_of_a_late_list replies_of_a_late_list }
{}
