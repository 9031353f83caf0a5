//! Idle pairs for which messages wait, each from a moment of its own on.
use crate::same::same;
use scheduler_calls::calls::{Calls, Parcel, bytes_from};
use scheduler_calls::text::play;
use std::alloc::Global;
use std::test::Fail;

/// When the last message to that peer arrives. Recipients are 1 to 100, and no two have the same
/// moment: these are 10 to 1000, by tens, in another order than the recipients.
fn last_arrival(recipient: u8) -> u64 {
    (recipient as u64).wrapping_mul(37) % 101 * 10
}

/// The recipient whose last message arrives ten nanoseconds times that turn.
fn recipient_of(turn: u64) -> u8 {
    (turn.wrapping_mul(71) % 101) as u8
}

/// The place of the message that waits for the pair of that recipient.
fn place_of(recipient: u8) -> usize {
    (recipient as usize).saturating_add(99)
}

/// A hundred pairs of one origin, each with a message of no bytes that waits for the last arrival.
fn hundred_waiting(alloc: Global) -> Result<Calls<u64>, Fail> {
    let mut calls = Calls::new(alloc, 0, true);
    for (place, recipient) in (0..100usize).zip(1..101u8) {
        let arrival = last_arrival(recipient);
        calls.send(Parcel {
            latency: arrival,
            ..bytes_from(0, recipient, 1)
        })?;
        calls.done(place, Some(arrival))?;
    }
    calls.limit(0, 0, Some(1000), None)?;
    for recipient in 1..101u8 {
        calls.send(bytes_from(0, recipient, 0))?;
    }
    Ok(calls)
}

/// From that turn on the pairs start one by one.
fn start_one_by_one(calls: &mut Calls<u64>, first: u64) -> Result<(), Fail> {
    for turn in first..101 {
        let moment = turn.saturating_mul(10);
        calls.next(Some(moment))?;
        calls.advance(moment)?;
        calls.done(place_of(recipient_of(turn)), Some(moment))?;
        calls.events(1)?;
    }
    calls.next(None)
}

#[test]
fn many_pairs_start_each_at_its_own_moment(rt: HostRuntime) -> Result<(), Fail> {
    let mut calls = hundred_waiting(rt.alloc())?;
    start_one_by_one(&mut calls, 1)?;
    calls.expect()
}

/// The pairs whose last arrival is before 505 start then together, in the order of pairs. Answers how
/// many these are.
fn start_overdue(calls: &mut Calls<u64>) -> Result<u64, Fail> {
    calls.read("limit 505 200 - -\nnext 505\nadvance 505\n")?;
    let mut count = 0u64;
    for recipient in 1..101u8 {
        if last_arrival(recipient) < 505 {
            calls.done(place_of(recipient), Some(505))?;
            count = count.saturating_add(1);
        }
    }
    calls.events(1)?;
    Ok(count)
}

/// A limit comes after half of the moments. Those that are overdue start together, in the order of
/// pairs, and the others at their moments.
#[test]
fn many_pairs_that_are_overdue_start_in_their_order(rt: HostRuntime) -> Result<(), Fail> {
    let mut calls = hundred_waiting(rt.alloc())?;
    same(&rt, &(start_overdue(&mut calls)?), &50);
    start_one_by_one(&mut calls, 51)?;
    calls.expect()
}

/// The second message that waits for a pair could start earlier than the first, by its longer way,
/// and does not.
#[test]
fn a_pair_starts_by_its_first_message(rt: HostRuntime) -> Result<(), Fail> {
    play::<u64>(
        &rt,
        0,
        "\
send 0 1 2 1 100
done 0 100
send 0 1 3 1 50
done 1 50
limit 0 1 1000 -
send 0 1 2 0 20
send 0 1 2 0 90
next 80
send 0 1 3 0 0
next 50
advance 50
done 4 50
events 1
next 80
advance 80
done 2 100
done 3 170
events 1
next -
",
    )
}

/// Nothing has arrived from the pair, so its next message could start at moment 0 if the pair were
/// idle.
#[test]
fn a_pair_in_flight_does_not_start(rt: HostRuntime) -> Result<(), Fail> {
    play::<u64>(
        &rt,
        0,
        "\
limit 0 1 1000 -
send 0 1 2 1000 200ms
send 0 1 2 0 0
next 1s
advance 0
events 0
next 1s
limit 500ms 3 7 7
next 1s
advance 999999999
events 0
event 1s
done 0 1200ms
event 1200ms
done 1 1200ms
next -
",
    )
}

/// Two messages finish, and the one that finishes first arrives last. So the next message of the
/// other pair is the first to start.
#[test]
fn a_finish_sets_when_its_pair_starts(rt: HostRuntime) -> Result<(), Fail> {
    play::<u64>(
        &rt,
        0,
        "\
limit 0 1 1000 -
send 0 1 2 100 500ms
send 0 1 3 200 100ms
send 0 1 2 0 0
send 0 1 3 0 0
event 200ms
done 0 700ms
event 300ms
done 1 400ms
event 400ms
done 3 400ms
event 700ms
done 2 700ms
next -
",
    )
}

/// There is a flow id for one message more. An advance over the starts of two pairs is refused at
/// the second, and both pairs wait as before.
#[test]
fn pairs_wait_as_before_after_a_refusal(rt: HostRuntime) -> Result<(), Fail> {
    play::<u64>(
        &rt,
        u64::MAX - 1,
        "\
send 0 1 2 1 100
done 0 100
send 0 1 3 1 50
done 1 50
limit 0 1 1000 -
send 0 1 2 0 0
send 0 1 3 0 0
next 50
advance 200
refused ids
next 50
advance 99
done 3 50
events 1
next 100
advance 100
refused ids
next 100
",
    )
}

/// The second message of a pair would arrive past the last moment. So its pair does not start, and
/// the other one does.
#[test]
fn a_pair_waits_as_before_where_it_is_too_late(rt: HostRuntime) -> Result<(), Fail> {
    play::<u64>(
        &rt,
        0,
        "\
send 0 1 2 1 100
done 0 100
send 0 1 3 1 50
done 1 50
limit 0 1 1000 -
send 0 1 2 0 0
send 0 1 2 0 last
send 0 1 3 0 0
next 50
advance 200
refused late
next 50
advance 60
done 4 50
events 1
next 100
advance 100
refused late
next 100
",
    )
}

/// Before any limit, where a pair waits for its moment, and after all is done.
#[test]
fn an_advance_may_meet_nothing(rt: HostRuntime) -> Result<(), Fail> {
    play::<u64>(
        &rt,
        0,
        "\
advance 5
events 0
next -
send 7 1 2 1 100
done 0 107
advance 8
events 0
limit 8 1 1000 -
send 8 1 2 0 0
next 107
advance 20
events 0
next 107
advance 9
events 0
next 107
advance 106
events 0
next 107
advance 107
done 1 107
events 1
advance 1000000000s
events 0
next -
",
    )
}

/// Two pairs complete in one event, and what follows on each arrives no sooner.
#[test]
fn one_event_raises_the_last_arrivals_of_two_pairs(rt: HostRuntime) -> Result<(), Fail> {
    play::<u64>(
        &rt,
        0,
        "\
send 0 1 2 1 1
done 0 1
send 0 1 3 1 1
done 1 1
limit 0 1 1000 -
send 0 1 2 500 5s
send 0 1 3 500 5s
event 1s
done 2 6s
done 3 6s
send 1s 1 2 0 0
send 1s 1 3 0 0
event 6s
done 4 6s
done 5 6s
next -
",
    )
}
