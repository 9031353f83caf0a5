//! Messages of peers that share nothing, and what comes where they meet.
use scheduler_calls::text::{play, play_both};
use std::test::Fail;

/// Messages that share no peer, done at one moment, come in the order in which they started.
const TIES: &str = "\
limit 0 1 1000 -
limit 0 3 2000 -
send 0 3 4 2000 0
send 0 1 2 1000 0
next 1s
advance 2s
done 0 1s
done 1 1s
next -
send 2s 3 4 2000 5
send 2s 1 2 1000 5
send 2s 1 2 500 5
advance 4s
done 2 3000000005
done 3 3000000005
done 4 3500000005
next -
";

/// A message from one of two senders to who receives from the other shares the caps of both from then on.
const MEETING: &str = "\
limit 0 1 1000 -
limit 0 2 1000 -
limit 0 4 - 600
send 0 1 3 1000 0
send 0 2 4 900 0
next 1s
send 500ms 2 3 700 0
send 500ms 1 4 300 0
next 1214285715
advance 1s
next 1214285715
advance 2s
done 0 1214285715
done 2 1500ms
done 3 1500ms
done 1 2s
next -
advance 3s
next -
";

/// The cap of a link between peers that shared nothing, and the message that goes there.
const A_LINK: &str = "\
limit 0 1 1000 -
limit 0 2 1000 -
send 0 1 3 1000 0
send 0 2 4 1000 0
link 250ms 1 4 100
send 250ms 1 4 50 0
next 750ms
advance 750ms
done 2 750ms
advance 1250ms
done 1 1s
done 0 1050ms
next -
";

/// Calls at a moment at which an event of other peers is due still, and after one.
const STILL_DUE: &str = "\
limit 0 1 1000 -
limit 0 2 1000 -
send 0 2 4 1000 0
send 0 1 3 500 0
send 0 1 3 500 0
next 500ms
send 500ms 2 5 100 0
done 1 500ms
next 700ms
advance 600ms
next 700ms
limit 1s 1 2000 -
done 3 1s
done 2 1s
advance 1300ms
done 0 1250ms
next -
";

/// A message completes at a call at its moment, and the next one of its pair starts: it is no start to come.
const STARTED: &str = "\
limit 0 1 1000 -
limit 0 2 1000 -
send 0 2 4 1000 0
send 0 1 3 500 0
send 0 1 3 500 0
send 500ms 2 5 100 0
done 1 500ms
next 700ms
";

/// Messages of two pairs are done at one moment, and arrive a second later. What waits behind each starts then.
const TWO_WAIT: &str = "\
limit 0 1 1000 -
limit 0 2 1000 -
send 0 1 3 1000 1s
send 0 2 4 1000 1s
send 0 1 3 500 0
send 0 2 4 500 0
event 1s
done 0 2s
done 1 2s
event 2s
event 2500ms
done 2 2500ms
done 3 2500ms
next -
";

/// Moments that go back: nothing is lost, and what was planned for other peers stands.
const BACK: &str = "\
limit 0 1 1000 -
limit 0 2 1000 -
send 0 1 3 1000 0
send 0 2 4 3000 0
send 0 2 4 1000 100
advance 500ms
send 200ms 1 3 1000 0
next 1s
advance 100ms
next 1s
limit 300ms 2 500 -
next 1s
advance 2s
done 0 1s
done 3 2s
next 5700ms
advance 1500ms
next 5700ms
send 1600ms 5 6 10 0
done 4 1600ms
advance 20s
done 1 5300ms
done 2 7300000100
next -
";

/// Before the first limit messages complete at once; under limits those of no length start as their pairs may.
const LATER_LIMITS: &str = "\
send 0 1 2 100 10
done 0 10
send 0 3 4 100 20
done 1 20
limit 0 1 1000 -
limit 0 3 1000 -
send 0 1 2 0 0
send 0 3 4 0 0
send 0 5 6 7 0
done 4 0
send 0 7 8 7 3
done 5 3
next 10
advance 10
done 2 10
next 20
advance 30
done 3 20
next -
limit 30 7 10 -
send 30 7 8 1 0
send 30 5 6 1 0
done 7 30
advance 1s
done 6 100000030
next -
";

/// Two messages end at one moment, one of them at a fifth of the other's rate. Who shared a cap with it goes on twice as
/// fast.
const ENDS_AT_TWO_RATES: &str = "\
limit 0 1 2000 -
limit 0 2 5000 -
limit 0 3 700 -
limit 0 4 700 -
send 0 1 101 1000 0
send 0 1 102 10000 0
send 0 2 103 5000 0
send 0 3 104 7000 0
send 0 4 105 7000 0
event 1s
done 0 1s
done 2 1s
event 5500ms
done 1 5500ms
event 10s
done 3 10s
done 4 10s
next -
";

/// Two of three that share a cap end at one moment, and the next message of a pair starts then. It and the third one
/// have half of the cap each.
const ENDS_AND_STARTS: &str = "\
limit 0 1 3000 -
limit 0 3 700 -
limit 0 4 700 -
send 0 1 101 1000 0
send 0 1 102 1000 0
send 0 1 103 10000 0
send 0 1 101 5000 0
send 0 3 104 7000 0
send 0 4 105 7000 0
event 1s
done 0 1s
done 1 1s
event 4333333334
done 3 4333333334
event 5666666667
done 2 5666666667
next 10s
";

#[test]
fn what_is_done_at_one_moment_keeps_the_order_of_start(rt: HostRuntime) -> Result<(), Fail> {
    play_both::<u64>(&rt, TIES)?;
    play_both::<char>(&rt, TIES)
}

#[test]
fn a_message_between_others_shares_their_caps(rt: HostRuntime) -> Result<(), Fail> {
    play_both::<u64>(&rt, MEETING)?;
    play_both::<char>(&rt, MEETING)
}

#[test]
fn a_link_between_others_holds(rt: HostRuntime) -> Result<(), Fail> {
    play_both::<u64>(&rt, A_LINK)?;
    play_both::<char>(&rt, A_LINK)
}

#[test]
fn a_call_comes_while_others_are_due(rt: HostRuntime) -> Result<(), Fail> {
    play_both::<u64>(&rt, STILL_DUE)?;
    play_both::<char>(&rt, STILL_DUE)
}

#[test]
fn what_starts_at_a_call_is_no_start_to_come(rt: HostRuntime) -> Result<(), Fail> {
    play_both::<u64>(&rt, STARTED)
}

#[test]
fn what_waits_behind_two_pairs_starts_as_they_arrive(rt: HostRuntime) -> Result<(), Fail> {
    play_both::<u64>(&rt, TWO_WAIT)
}

#[test]
fn moments_go_back_beside_others(rt: HostRuntime) -> Result<(), Fail> {
    play_both::<u64>(&rt, BACK)?;
    play_both::<char>(&rt, BACK)
}

#[test]
fn what_ends_leaves_its_share_to_the_others(rt: HostRuntime) -> Result<(), Fail> {
    play_both::<u64>(&rt, ENDS_AT_TWO_RATES)?;
    play_both::<u64>(&rt, ENDS_AND_STARTS)
}

#[test]
fn limits_come_after_messages(rt: HostRuntime) -> Result<(), Fail> {
    play_both::<u64>(&rt, LATER_LIMITS)?;
    play_both::<char>(&rt, LATER_LIMITS)
}

/// One id is left: the message that waits for pair 1 to 3 takes it after one second, and there is none for pair 2 to 4
/// half a second later. An advance past both is refused, and all stays as it was.
#[test]
fn a_refused_advance_leaves_all_peers(rt: HostRuntime) -> Result<(), Fail> {
    play::<u64>(
        &rt,
        u64::MAX - 3,
        "\
limit 0 1 1000 -
limit 0 2 1000 -
send 0 1 3 1000 0
send 0 2 4 1500 0
send 0 1 3 1000 0
send 0 2 4 1000 0
next 1s
advance 2s
refused ids
flying 2
next 1s
advance 1s
done 0 1s
flying 2
next 1500ms
advance 1500ms
refused ids
flying 2
next 1500ms
",
    )
}

/// Sends, lists and advances that meet nothing, of three senders that share nothing, with the messages that the last
/// account rated anew. One that only waits makes no account. Where three share a cap, no rate is whole in the units so
/// far, so all four are rated in smaller ones.
const COUNTED: &str = "\
limit 0 1 1000 -
limit 0 2 1000 -
limit 0 3 1000 -
send 0 1 11 1000 1s
rated 1
send 0 2 12 1000 0
send 0 1 11 500 0
rated 1
list 0 2
send 0 2 13 3000 0
send 0 2 14 5000 0
rated 4
advance 100ms
rated 4
send 100ms 3 15 5000 0
rated 1
advance 1200ms
done 0 2s
rated 0
send 1200ms 3 16 10 0
rated 2
send 1200ms 1 11 100 0
rated 2
next 1220ms
";

/// An advance past events of two senders at moments of their own. Where a cap changes, what uses it is rated.
const COUNTED_APART: &str = "\
limit 0 1 1000 -
limit 0 2 1000 -
limit 0 3 1000 -
send 0 1 11 900 0
send 0 2 12 500 0
send 0 2 13 3000 0
send 0 3 14 9000 0
rated 1
advance 1200ms
done 0 900ms
done 1 1s
rated 1
send 1200ms 1 15 100 0
rated 1
send 1200ms 2 16 100 0
rated 2
limit 1200ms 2 2000 -
rated 2
";

/// An advance past events of two senders at one moment.
const COUNTED_TOGETHER: &str = "\
limit 0 1 1000 -
limit 0 2 1000 -
limit 0 3 1000 -
send 0 1 11 1000 0
send 0 2 12 500 0
send 0 2 13 3000 0
send 0 3 14 9000 0
rated 1
advance 1200ms
done 0 1s
done 1 1s
rated 1
";

#[test]
fn what_is_rated_anew_is_counted(rt: HostRuntime) -> Result<(), Fail> {
    play::<u64>(&rt, 0, COUNTED)?;
    play::<u64>(&rt, 0, COUNTED_APART)?;
    play::<u64>(&rt, 0, COUNTED_TOGETHER)
}
