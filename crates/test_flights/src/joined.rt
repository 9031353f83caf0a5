//! Who is touched: messages that share an end with a cap. Over an end without one nothing is passed on.
use scheduler_calls::text::play;
use std::test::Fail;

/// Six senders with caps of 300, and senders 1 and 2 with 1200 and 900, all to one recipient without a cap. What sender
/// 1 sends there and elsewhere has 600 each: so the first is done after a second, and the other one, of which 1200 are
/// left, a second later at 1200. What sender 2 sends takes 2700/900 = 3 seconds, and what the six send takes 3000/300 =
/// 10: each of these gets a rate once, when it starts. They are as many as six so that no search is spared.
const SENDERS: &str = "\
limit 0 1 1200 -
limit 0 2 900 -
limit 0 3 300 -
limit 0 4 300 -
limit 0 5 300 -
limit 0 6 300 -
limit 0 7 300 -
limit 0 8 300 -
send 0 3 11 3000 0
send 0 4 11 3000 0
send 0 5 11 3000 0
send 0 6 11 3000 0
send 0 7 11 3000 0
send 0 8 11 3000 0
rated 1
send 0 1 11 600 0
rated 1
send 0 2 11 2700 0
rated 1
send 0 1 12 1800 0
rated 2
event 1s
done 6 1s
rated 1
event 2s
done 8 2s
rated 0
send 2s 1 11 1200 0
rated 1
event 3s
done 7 3s
done 9 3s
rated 0
event 10s
done 0 10s
done 1 10s
done 2 10s
done 3 10s
done 4 10s
done 5 10s
next -
";

/// The same turned round: recipients with these caps, and a sender without one that sends to each.
const RECIPIENTS: &str = "\
limit 0 1 - 1200
limit 0 2 - 900
limit 0 3 - 300
limit 0 4 - 300
limit 0 5 - 300
limit 0 6 - 300
limit 0 7 - 300
limit 0 8 - 300
send 0 11 3 3000 0
send 0 11 4 3000 0
send 0 11 5 3000 0
send 0 11 6 3000 0
send 0 11 7 3000 0
send 0 11 8 3000 0
rated 1
send 0 11 1 600 0
rated 1
send 0 11 2 2700 0
rated 1
send 0 12 1 1800 0
rated 2
event 1s
done 6 1s
rated 1
event 2s
done 8 2s
rated 0
send 2s 11 1 1200 0
rated 1
event 3s
done 7 3s
done 9 3s
rated 0
event 10s
done 0 10s
done 1 10s
done 2 10s
done 3 10s
done 4 10s
done 5 10s
next -
";

/// Links alone have caps: each message goes at that of its link, and each event rates the one that it is about. Of the
/// 800 bytes on the second link 400 go in a second at 400, and the rest takes two more at 200. The third message takes
/// 900/300 = 3 seconds, and a later one on the first link 250/500 of a second.
const LINKS: &str = "\
link 0 1 3 500
link 0 1 4 400
link 0 2 3 300
send 0 1 3 500 0
rated 1
send 0 1 4 800 0
rated 1
send 0 2 3 900 0
rated 1
event 1s
done 0 1s
rated 0
link 1s 1 4 200
rated 1
next 3s
send 1s 1 3 250 0
rated 1
event 1500ms
done 3 1500ms
rated 0
event 3s
done 1 3s
done 2 3s
next -
";

/// Senders 1 and 2 may send 600, and peer 3, to which both send, may receive 600: 300 each. Beside them one goes at 100
/// for 10 seconds.
/// - At 1s the cap of peer 3 is taken away: 600 each, with 300 and 2700 bytes left. So sender 1 is done at 1.5s, and
///   sender 2 goes on as it did.
/// - At 2s the cap is back, and 2100 are left of sender 2, which has all of it: nothing changes, and it would take 3.5s
///   more. Then sender 1 sends 300 bytes: 300 each again, up to 3s. There 1800 are left of sender 2, for 3s at 600.
/// - At 4s 1200 are left. Without a cap of its own sender 2 has 600 still, and with one of 200 it takes 6s more.
const PUT_BACK: &str = "\
limit 0 1 600 -
limit 0 2 600 -
limit 0 3 - 600
limit 0 4 100 -
send 0 4 9 1000 0
rated 1
send 0 1 3 600 0
rated 1
send 0 2 3 3000 0
rated 2
next 2s
limit 1s 3 - -
rated 2
event 1500ms
done 1 1500ms
rated 0
limit 2s 3 - 600
rated 0
next 5500ms
send 2s 1 3 300 0
rated 2
event 3s
done 3 3s
rated 1
next 6s
limit 4s 2 - -
rated 0
next 6s
limit 4s 2 200 -
rated 1
event 10s
done 0 10s
done 2 10s
next -
";

/// Senders 1 and 2 may send 600 and 900, and peer 3, to which both send, may receive 600: 300 each. So 600 are left for
/// what sender 2 sends elsewhere. Beside them one goes at 100 for 10 seconds.
/// - At 2s sender 1 is done with its 600 bytes. The two of sender 2, with 900 and 1800 left, have half of its 900 each.
/// - At 4s the first of these is done, and the other one, with 900 left, takes a second more at 900.
const BOTH_ENDS: &str = "\
limit 0 1 600 -
limit 0 2 900 -
limit 0 3 - 600
limit 0 5 100 -
send 0 5 9 1000 0
rated 1
send 0 1 3 600 0
rated 1
send 0 2 3 1500 0
rated 2
send 0 2 4 3000 0
rated 1
event 2s
done 1 2s
rated 2
event 4s
done 2 4s
rated 1
event 5s
done 3 5s
rated 0
event 10s
done 0 10s
next -
";

/// A list of three, of which the first one starts by itself and the others together: two of one sender, one under the
/// cap of its recipient, the other one under that of its link. These take 1000/1000 and 250/500 of a second.
const OF_TWO_KINDS: &str = "\
limit 0 3 - 1000
limit 0 5 100 -
link 0 1 4 500
list 0 3
send 0 5 9 1000 0
send 0 1 3 1000 0
send 0 1 4 250 0
rated 2
event 500ms
done 2 500ms
rated 0
event 1s
done 1 1s
rated 0
event 10s
done 0 10s
next -
";

/// A list as the one before. The last of three that start together goes between the sender of the first one, which is
/// under the cap of its recipient, and the recipient of the second one, which is under that of its link. They take
/// 1000/1000, 200/100 and 250/500 of a second.
const BETWEEN_OTHERS: &str = "\
limit 0 3 - 1000
limit 0 5 100 -
link 0 1 4 500
link 0 2 4 100
list 0 4
send 0 5 9 1000 0
send 0 1 3 1000 0
send 0 2 4 200 0
send 0 1 4 250 0
rated 3
event 500ms
done 3 500ms
rated 0
event 1s
done 1 1s
rated 0
event 2s
done 2 2s
rated 0
event 10s
done 0 10s
next -
";

#[test]
fn an_end_leaves_what_others_send(rt: HostRuntime) -> Result<(), Fail> {
    play::<u64>(&rt, 0, SENDERS)
}

#[test]
fn an_end_leaves_what_others_receive(rt: HostRuntime) -> Result<(), Fail> {
    play::<u64>(&rt, 0, RECIPIENTS)
}

#[test]
fn a_link_alone_touches_no_other(rt: HostRuntime) -> Result<(), Fail> {
    play::<u64>(&rt, 0, LINKS)
}

#[test]
fn a_cap_is_taken_away_and_put_back(rt: HostRuntime) -> Result<(), Fail> {
    play::<u64>(&rt, 0, PUT_BACK)
}

#[test]
fn senders_meet_at_a_recipient_with_a_cap(rt: HostRuntime) -> Result<(), Fail> {
    play::<u64>(&rt, 0, BOTH_ENDS)
}

#[test]
fn messages_under_caps_of_two_kinds_start_at_once(rt: HostRuntime) -> Result<(), Fail> {
    play::<u64>(&rt, 0, OF_TWO_KINDS)?;
    play::<u64>(&rt, 0, BETWEEN_OTHERS)
}
