//! What is in flight, and how it is read.
use crate::same::same;
use fairness::ratio::Ratio;
use link_scheduler::transmitter::{InFlight, State};
use scheduler_calls::calls::{Calls, Parcel, bytes_from};
use std::alloc::Global;
use std::process::Abort;
use std::test::Fail;

/// What is read of the messages in flight after these calls.
fn read_after(calls: Calls<u64>) -> Result<Vec<InFlight<u64>>, Fail> {
    let mut state = calls.new_state();
    calls.make_each(&mut state)?;
    Ok(state.in_flight()?)
}

/// What is read of them after the calls of a text.
fn flying(rt: &impl AllocGlobal, text: &str) -> Result<Vec<InFlight<u64>>, Fail> {
    let mut calls = Calls::<u64>::new(rt.alloc(), 0, true);
    calls.read(text)?;
    read_after(calls)
}

/// Compares what is read of one message with a recipient, what is left, the rate and a moment.
fn expect(
    rt: &impl Abort,
    reading: Option<&InFlight<u64>>,
    recipient: u64,
    left: (u128, u128),
    rate: (u128, u128),
    since: u64,
) {
    assert!(rt; reading.is_some());
    if let Some(reading) = reading {
        same(rt, &reading.origin, &1);
        same(rt, &reading.recipient, &recipient);
        assert!(rt; reading.left.is_exact);
        assert!(rt; reading.rate.is_exact);
        same(rt, &Some(reading.left.amount), &Ratio::new(left.0, left.1));
        same(rt, &Some(reading.rate.amount), &Ratio::new(rate.0, rate.1));
        same(rt, &reading.since, &since);
    }
}

/// Whether the message at that place in flight was sent with that channel.
fn has_channel(readings: &[InFlight<u64>], place: usize, channel: u64) -> bool {
    match readings.get(place) {
        Some(reading) => reading.channel == channel,
        None => false,
    }
}

#[test]
fn two_messages_share_a_cap(rt: HostRuntime) -> Result<(), Fail> {
    let readings = flying(
        &rt,
        "\
limit 0 1 1000 -
send 0 1 2 1000 0
send 0 1 3 500 0
send 0 1 3 700 0
flying 2
",
    )?;
    expect(&rt, readings.get(0), 2, (1000, 1), (500, 1), 0);
    expect(&rt, readings.get(1), 3, (500, 1), (500, 1), 0);
    assert!(rt; has_channel(&readings, 0, 0));
    assert!(rt; has_channel(&readings, 1, 1));
    Ok(())
}

#[test]
fn two_messages_share_a_cap_that_changes(rt: HostRuntime) -> Result<(), Fail> {
    let readings = flying(
        &rt,
        "\
limit 0 1 1000 -
send 0 1 2 1000 0
send 0 1 3 500 0
send 0 1 3 700 0
limit 400000001 1 1001 -
flying 2
",
    )?;
    let since = 400_000_001;
    expect(
        &rt,
        readings.get(0),
        2,
        (1_599_999_999, 2_000_000),
        (1001, 2),
        since,
    );
    expect(
        &rt,
        readings.get(1),
        3,
        (599_999_999, 2_000_000),
        (1001, 2),
        since,
    );
    Ok(())
}

#[test]
fn nothing_is_in_flight_before_any_limit(rt: HostRuntime) -> Result<(), Fail> {
    let readings = flying(&rt, "send 0 1 2 1000 0\ndone 0 0\nflying 0\n")?;
    same(&rt, &readings.len(), &0);
    Ok(())
}

#[test]
fn nothing_is_in_flight_on_a_new_scheduler(rt: HostRuntime) {
    let state = State::<u64>::new(rt.alloc());
    let readings = state.in_flight().expect(&rt, "no room for the readings");
    same(&rt, &readings.len(), &0);
    same(&rt, &state.rated_anew(), &0);
}

/// For a nanosecond each the first of many messages has a rate of a first, a half, a third and so
/// on of 10^9 bytes a second.
fn hundred_shares(alloc: Global) -> Result<Calls<u64>, Fail> {
    let mut calls = Calls::<u64>::new(alloc, 0, true);
    calls.read("limit 0 1 1000000000 -\n")?;
    for place in 0..100u8 {
        calls.send(Parcel {
            now: place as u64,
            ..bytes_from(1, place + 2, 1_000_000)
        })?;
    }
    calls.flying(100)?;
    Ok(calls)
}

/// Compares what is read of the first of them.
fn expect_rounded(rt: &impl Abort, reading: Option<&InFlight<u64>>) {
    assert!(rt; reading.is_some());
    if let Some(first) = reading {
        assert!(rt; !first.left.is_exact);
        same(rt, &first.left.amount, &Ratio::from_whole(999_994));
        assert!(rt; first.rate.is_exact);
        same(rt, &first.rate.amount, &Ratio::from_whole(10_000_000));
        same(rt, &first.since, &99);
    }
}

/// What is left of the first of the messages after 99 nanoseconds has a denominator of more than 128
/// bits. It is 1000000 less 5.177.
#[test]
fn what_does_not_fit_is_rounded_down(rt: HostRuntime) -> Result<(), Fail> {
    let readings = read_after(hundred_shares(rt.alloc())?)?;
    expect_rounded(&rt, readings.get(0));
    Ok(())
}

/// So it is once messages of others start beside them, and meet them.
#[test]
fn others_come_to_many_shares(rt: HostRuntime) -> Result<(), Fail> {
    let mut calls = hundred_shares(rt.alloc())?;
    calls.read("limit 99 200 1000 -\nsend 99 200 201 1000 0\nflying 101\n")?;
    calls.read("send 99 200 3 10 0\nflying 102\n")?;
    let readings = read_after(calls)?;
    expect_rounded(&rt, readings.get(0));
    Ok(())
}

/// Each account is one of all that is in flight: of a message of other peers, of a new peer's caps.
#[test]
fn an_account_drains_what_others_send(rt: HostRuntime) -> Result<(), Fail> {
    let beside = "limit 0 1 1000 -\nlimit 0 2 500 -\nsend 0 1 3 1000 0\nsend 250ms 2 4 500 0\n";
    let readings = flying(&rt, beside)?;
    expect(&rt, readings.get(0), 3, (750, 1), (1000, 1), 250_000_000);
    let readings = flying(
        &rt,
        "limit 0 1 1000 -\nsend 0 1 3 1000 0\nlimit 500ms 5 10 -\nflying 1\n",
    )?;
    expect(&rt, readings.get(0), 3, (500, 1), (1000, 1), 500_000_000);
    Ok(())
}

/// Eight messages are in flight, each of a pair of its own. One
/// that starts alone is rated alone, and one of a sender that has another one with that. Where one
/// ends alone none is, and where a cap changes the one that uses it.
#[test]
fn an_event_rates_what_it_touches(rt: HostRuntime) -> Result<(), Fail> {
    let _readings = flying(
        &rt,
        "\
limit 0 1 1000 -
limit 0 2 1000 -
limit 0 3 1000 -
limit 0 4 1000 -
limit 0 5 1000 -
limit 0 6 1000 -
limit 0 7 1000 -
limit 0 8 1000 -
send 0 1 101 1000 0
send 0 2 102 2000 0
send 0 3 103 3000 0
send 0 4 104 4000 0
send 0 5 105 5000 0
send 0 6 106 6000 0
send 0 7 107 7000 0
send 0 8 108 8000 0
rated 1
send 0 8 200 8000 0
rated 2
advance 1s
done 0 1s
flying 8
rated 0
limit 1500ms 3 2000 -
rated 1
",
    )?;
    Ok(())
}
