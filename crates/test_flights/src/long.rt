//! Long queues, and long lists of calls.
use scheduler_calls::calls::{Calls, Parcel, bytes_from};
use scheduler_calls::text::{MILLI, play};
use std::alloc::Global;
use std::test::Fail;

/// So many messages of one pair, of which the first is in flight, complete as the cap is lifted.
fn emptied(alloc: Global, length: usize) -> Result<Calls<u64>, Fail> {
    let mut calls = Calls::new(alloc, 0, true);
    calls.limit(0, 1, Some(1000), None)?;
    for _ in 0..length {
        calls.send(bytes_from(1, 2, 100))?;
    }
    calls.limit(0, 1, None, None)?;
    for place in 0..length {
        calls.done(place, Some(0))?;
    }
    calls.next(None)?;
    Ok(calls)
}

#[test]
fn a_long_queue_empties_in_one_call(rt: HostRuntime) -> Result<(), Fail> {
    emptied(rt.alloc(), 2001)?.expect()
}

#[test]
fn a_very_long_queue_empties_in_one_call(rt: HostRuntime) -> Result<(), Fail> {
    emptied(rt.alloc(), 100_000)?.expect_each()
}

#[test]
fn a_long_message_takes_its_time(rt: HostRuntime) -> Result<(), Fail> {
    play::<u64>(
        &rt,
        0,
        "\
limit 0 1 1000 -
send 0 1 2 6001 1s
event 6001ms
done 0 7001ms
next -
",
    )
}

#[test]
fn an_advance_may_be_long(rt: HostRuntime) -> Result<(), Fail> {
    play::<u64>(
        &rt,
        0,
        "\
limit 0 1 1 -
send 0 1 2 6000 0
send 0 1 2 1 0
advance 72057594037927936
done 0 6000s
done 1 6001s
events 2
send 72057594037927936 1 2 6000 0
event 72063594037927936
done 2 72063594037927936
next -
",
    )
}

/// A thousand messages of a millisecond each, one sent as the one before it is done: three thousand
/// calls, and the limit before them.
#[test]
fn thousands_of_calls_are_made(rt: HostRuntime) -> Result<(), Fail> {
    let mut calls = Calls::<u64>::new(rt.alloc(), 0, true);
    calls.limit(0, 1, Some(1000), None)?;
    for place in 0..1000usize {
        let now = place as u64 * MILLI;
        let end = now + MILLI;
        calls.send(Parcel {
            now,
            latency: 3,
            ..bytes_from(1, 2, 1)
        })?;
        calls.next(Some(end))?;
        calls.advance(end)?;
        calls.done(place, Some(end + 3))?;
    }
    calls.next(None)?;
    calls.expect()
}
