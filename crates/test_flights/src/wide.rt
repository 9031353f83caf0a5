//! Links, many pairs, and moments that go back.
use scheduler_calls::calls::{Calls, bytes_from};
use scheduler_calls::text::play;
use std::test::Fail;

#[test]
fn a_link_has_a_cap_of_its_own(rt: HostRuntime) -> Result<(), Fail> {
    play::<u64>(
        &rt,
        0,
        "\
link 0 1 2 100
send 0 1 2 100 0
send 0 1 3 100 0
done 1 0
next 1s
link 500ms 1 2 25
event 2500ms
done 0 2500ms
next -
",
    )
}

/// A link from a greater peer to a lesser one, beside one the other way.
#[test]
fn a_link_may_lead_to_a_lesser_peer(rt: HostRuntime) -> Result<(), Fail> {
    play::<u64>(
        &rt,
        0,
        "\
link 0 2 1 100
send 0 2 1 100 0
send 0 1 2 100 0
done 1 0
link 0 1 2 50
send 0 1 2 100 0
event 1s
done 0 1s
event 2s
done 2 2s
next -
",
    )
}

#[test]
fn a_link_to_oneself_holds(rt: HostRuntime) -> Result<(), Fail> {
    play::<u64>(
        &rt,
        0,
        "\
link 0 1 1 -
send 0 1 1 1 0
done 0 -
",
    )?;
    play::<u64>(
        &rt,
        0,
        "\
link 0 1 1 1
send 0 1 1 1 0
event 1s
done 0 -
next -
",
    )
}

#[test]
fn a_link_leaves_the_rest_to_others(rt: HostRuntime) -> Result<(), Fail> {
    play::<u64>(
        &rt,
        0,
        "\
limit 0 1 1000 -
link 0 1 2 100
send 0 1 2 1000 0
send 0 1 3 900 0
event 1s
done 1 1s
event 10s
done 0 10s
next -
",
    )
}

/// A message that is alone in flight goes at the least of its caps: of egress, of ingress, of its
/// link, and of the link again where it is dropped and less may be received.
#[test]
fn a_message_alone_has_its_least_cap(rt: HostRuntime) -> Result<(), Fail> {
    play::<u64>(
        &rt,
        0,
        "\
limit 0 1 100 -
limit 0 2 - 200
link 0 1 2 300
send 0 1 2 100 0
event 1s
done 0 1s
limit 1s 2 - 50
send 1s 1 2 100 0
event 3s
done 1 3s
link 3s 1 2 25
send 3s 1 2 100 0
event 7s
done 2 7s
limit 7s 2 - 10
drop 7s 1 2 100 0
event 11s
done 3 -
next -
",
    )
}

/// Thirteen messages of one sender beside three of another one.
const TWO_SENDERS: &str = "\
limit 0 1 1000 -
limit 0 20 1000 -
send 0 1 2 1 0
send 0 1 3 1 0
send 0 1 4 1 0
send 0 1 5 1 0
send 0 1 6 1 0
send 0 1 7 1 0
send 0 1 8 1 0
send 0 1 9 1 0
send 0 1 10 1 0
send 0 1 11 1 0
send 0 1 12 1 0
send 0 1 13 1 0
send 0 1 14 1 0
send 0 20 30 1 0
send 0 20 31 1 0
send 0 20 32 1 0
event 3ms
done 13 3ms
done 14 3ms
done 15 3ms
event 13ms
done 0 13ms
done 1 13ms
done 2 13ms
done 3 13ms
done 4 13ms
done 5 13ms
done 6 13ms
done 7 13ms
done 8 13ms
done 9 13ms
done 10 13ms
done 11 13ms
done 12 13ms
next -
";

#[test]
fn two_senders_drain_apart(rt: HostRuntime) -> Result<(), Fail> {
    play::<u64>(&rt, 0, TWO_SENDERS)
}

/// So many messages of a byte each, to as many peers, take a second together.
fn share_a_cap(rt: &impl AllocGlobal, flows: usize) -> Result<(), Fail> {
    let mut calls = Calls::<u64>::new(rt.alloc(), 0, true);
    calls.limit(0, 1, Some(flows), None)?;
    for (_, recipient) in (0..flows).zip(2..=u8::MAX) {
        calls.send(bytes_from(1, recipient, 1))?;
    }
    calls.read("event 1s\n")?;
    for place in 0..flows {
        calls.done(place, Some(1_000_000_000))?;
    }
    calls.next(None)?;
    calls.expect()
}

#[test]
fn more_than_sixteen_flows_share_a_cap(rt: HostRuntime) -> Result<(), Fail> {
    share_a_cap(&rt, 16)?;
    share_a_cap(&rt, 17)?;
    share_a_cap(&rt, 40)
}

#[test]
fn an_update_moment_may_go_back(rt: HostRuntime) -> Result<(), Fail> {
    play::<u64>(
        &rt,
        0,
        "\
limit 0 1 1000 -
send 0 1 2 1000 0
limit 600ms 9 - -
next 1s
limit 100ms 9 - -
event 500ms
done 0 500ms
next -
",
    )
}

#[test]
fn an_overdue_event_starts_a_later_message(rt: HostRuntime) -> Result<(), Fail> {
    play::<u64>(
        &rt,
        0,
        "\
limit 0 1 1000 -
send 0 1 2 1000 0
send 3s 1 2 1000 0
next 1s
advance 3s
done 0 1s
done 1 2s
events 2
",
    )
}
