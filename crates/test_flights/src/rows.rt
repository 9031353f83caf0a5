//! Single rules, each on a few messages.
use link_replay::replay::replay;
use link_scheduler::call::{Call, Reply};
use link_scheduler::transmitter::Completion;
use scheduler_calls::answers::are_done;
use scheduler_calls::calls::Calls;
use scheduler_calls::text::play;
use std::alloc::Global;
use std::test::Fail;

#[test]
fn no_calls_have_no_replies(rt: HostRuntime) -> Result<(), Fail> {
    let none = Vec::<Call<u64>>::new(rt.alloc());
    assert!(rt; replay(rt.alloc(), &none)?.is_empty());
    Ok(())
}

#[test]
fn a_message_waits_for_the_last_arrival_of_its_pair(rt: HostRuntime) -> Result<(), Fail> {
    play::<u64>(
        &rt,
        0,
        "\
limit 0 1 500000 -
send 0 1 2 1000000 500ms
send 0 1 2 500000 100ms
event 2s
done 0 2500ms
event 2400ms
event 3400ms
done 1 3500ms
next -
",
    )
}

#[test]
fn one_advance_handles_all_events_on_its_way(rt: HostRuntime) -> Result<(), Fail> {
    play::<u64>(
        &rt,
        0,
        "\
limit 0 1 500000 -
send 0 1 2 1000000 500ms
send 0 1 2 500000 100ms
advance 3400ms
done 0 2500ms
done 1 3500ms
events 3
",
    )
}

#[test]
fn completions_of_one_instant_come_in_order_of_start(rt: HostRuntime) -> Result<(), Fail> {
    play::<u64>(
        &rt,
        0,
        "\
limit 0 1 1000 -
send 0 1 2 100 0
send 0 1 2 0 0
send 0 1 2 50 0
send 0 1 3 100 0
send 0 1 3 50 0
limit 0 1 - -
done 0 0
done 3 0
done 1 0
done 4 0
done 2 0
next -
",
    )
}

/// A cap is lifted from five messages of two pairs, which complete in the order of start.
const LIFTED: &str = "\
limit 0 1 1000 -
send 0 1 2 100 0
send 0 1 2 0 0
send 0 1 2 50 0
send 0 1 3 100 0
send 0 1 3 50 0
limit 0 1 - -
done 0 0
done 3 0
done 1 0
done 4 0
done 2 0
";

/// Copies of these completions.
fn copies_of(alloc: Global, completions: &[Completion<u64>]) -> Result<Vec<Completion<u64>>, Fail> {
    let mut copies = Vec::new(alloc);
    for completion in completions {
        copies.push(completion.clone()?)?;
    }
    Ok(copies)
}

#[test]
fn a_copy_of_a_completion_is_equal_in_every_field(rt: HostRuntime) -> Result<(), Fail> {
    let mut lifted = Calls::<u64>::new(rt.alloc(), 0, true);
    lifted.read(LIFTED)?;
    let replies = replay(rt.alloc(), &lifted.calls)?;
    let Some(Reply::Done(completions)) = replies.last() else {
        return Err(Fail::new("the limit is refused"));
    };
    let copies = copies_of(rt.alloc(), completions)?;
    assert!(rt; copies.len() == 5, "not all are done");
    assert!(rt;
        are_done(&lifted.sent, &copies, &lifted.arrivals),
        "a copy is another"
    );
    Ok(())
}

#[test]
fn a_finish_comes_before_a_start(rt: HostRuntime) -> Result<(), Fail> {
    play::<char>(
        &rt,
        0,
        "\
limit 0 1 1000 -
send 0 1 2 500 500ms
next 500ms
send 0 1 2 0 0
send 0 1 3 1000 0
event 1s
done 0 1500ms
event 1500ms
done 2 1500ms
done 1 1500ms
next -
",
    )
}

#[test]
fn without_a_limit_messages_complete_at_once(rt: HostRuntime) -> Result<(), Fail> {
    play::<char>(
        &rt,
        0,
        "\
send 0 1 2 1 100ms
done 0 100ms
drop 0 1 2 1 0
done 1 -
send 0 1 2 1 50ms
done 2 100ms
next -
",
    )
}

#[test]
fn a_message_to_oneself_is_dropped_once_there_are_limits(rt: HostRuntime) -> Result<(), Fail> {
    play::<u64>(
        &rt,
        0,
        "\
send 0 1 1 1 0
done 0 0
",
    )?;
    play::<u64>(
        &rt,
        0,
        "\
limit 0 1 - -
send 0 1 1 1 0
done 0 -
",
    )
}

#[test]
fn a_new_cap_holds_at_once(rt: HostRuntime) -> Result<(), Fail> {
    play::<u64>(
        &rt,
        0,
        "\
limit 0 1 1000 -
send 0 1 2 1000 0
limit 500ms 1 250 -
event 2500ms
done 0 2500ms
next -
",
    )
}

#[test]
fn times_are_rounded_up_and_amounts_are_not(rt: HostRuntime) -> Result<(), Fail> {
    play::<u64>(
        &rt,
        0,
        "\
limit 0 1 7 -
send 0 1 2 1 0
send 0 1 3 2 0
event 285714286
done 0 285714286
event 428571429
done 1 428571429
next -
",
    )
}

#[test]
fn five_flows_share_a_cap(rt: HostRuntime) -> Result<(), Fail> {
    play::<u64>(
        &rt,
        0,
        "\
limit 0 1 5000 -
send 0 1 2 1000 0
send 0 1 3 1000 0
send 0 1 4 1000 0
send 0 1 5 1000 0
send 0 1 6 1000 0
event 1s
done 0 1s
done 1 1s
done 2 1s
done 3 1s
done 4 1s
next -
",
    )
}

#[test]
fn a_year_passes_in_one_event(rt: HostRuntime) -> Result<(), Fail> {
    play::<u64>(
        &rt,
        0,
        "\
limit 0 1 1 -
send 0 1 2 33554432 0
next 33554432s
advance 36028797018963968
done 0 33554432s
events 1
next -
",
    )
}

#[test]
fn a_moment_that_goes_back_counts_as_no_time(rt: HostRuntime) -> Result<(), Fail> {
    play::<u64>(
        &rt,
        0,
        "\
limit 0 1 1000 -
send 0 1 2 1000 1s
advance 1s
done 0 2s
send 0 1 2 1000 0
advance 0
event 2s
event 3s
done 1 3s
next -
",
    )
}

#[test]
fn a_start_without_an_id_is_refused(rt: HostRuntime) -> Result<(), Fail> {
    play::<u64>(
        &rt,
        u64::MAX - 1,
        "\
limit 0 1 1000 -
send 0 1 2 100 0
next 100ms
send 0 1 3 1 0
refused ids
next 100ms
send 0 1 2 1 0
advance 50ms
advance 100ms
refused ids
next 100ms
",
    )
}

#[test]
fn messages_that_finish_at_one_instant_keep_the_order_of_start(
    rt: HostRuntime,
) -> Result<(), Fail> {
    play::<u64>(
        &rt,
        0,
        "\
limit 0 1 1000000000 -
send 0 1 3 1 0
send 0 1 2 1 0
advance 2
done 0 2
done 1 2
",
    )
}

#[test]
fn at_one_moment_the_finish_event_is_first(rt: HostRuntime) -> Result<(), Fail> {
    play::<u64>(
        &rt,
        0,
        "\
send 0 1 2 1 5
done 0 5
limit 0 1 1000000000 -
send 0 1 2 0 0
send 0 1 3 5 0
send 0 1 3 0 0
advance 5
done 2 5
done 3 5
done 1 5
events 2
",
    )
}
