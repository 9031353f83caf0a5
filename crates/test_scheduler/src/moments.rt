//! When messages are done: those that arrive later, and those that are dropped.
use scheduler_calls::text::play;
use std::test::Fail;

/// Half of the cap is that of the dropped message, up to 1s. The other one has 500 bytes left then.
#[test]
fn a_message_is_done_its_latency_before_it_arrives(rt: HostRuntime) -> Result<(), Fail> {
    play::<u64>(
        &rt,
        0,
        "\
limit 0 1 1000 -
send 0 1 2 1000 500ms
drop 0 1 3 500 250ms
event 1s
done 1 -
sent 1s
event 1500ms
done 0 2s
sent 1500ms
next -
",
    )
}

#[test]
fn an_advance_tells_the_moment_of_each_event(rt: HostRuntime) -> Result<(), Fail> {
    play::<u64>(
        &rt,
        0,
        "\
limit 0 1 1000 -
send 0 1 2 1000 500ms
drop 0 1 3 500 250ms
advance 10s
done 1 -
sent 1s
done 0 2s
sent 1500ms
events 2
next -
",
    )
}

/// The second message has no bytes, and may not arrive before 1100ms. So it starts at 1060ms, and is done
/// at once; the third, which is dropped, starts at 1100ms.
#[test]
fn a_message_that_waited_is_done_after_it_started(rt: HostRuntime) -> Result<(), Fail> {
    play::<u64>(
        &rt,
        0,
        "\
limit 0 1 1000 -
send 0 1 2 1000 100ms
send 0 1 2 0 40ms
drop 0 1 2 500 0
advance 3s
done 0 1100ms
sent 1s
done 1 1100ms
sent 1060ms
done 2 -
sent 1600ms
next -
",
    )
}

#[test]
fn before_any_limit_a_message_is_done_as_it_is_sent(rt: HostRuntime) -> Result<(), Fail> {
    play::<u64>(
        &rt,
        0,
        "\
send 3 1 2 8 5
done 0 8
sent 3
drop 4 1 2 8 5
done 1 -
sent 4
send 4 1 2 1 0
done 2 8
sent 4
next -
",
    )
}

#[test]
fn what_no_cap_holds_any_more_is_done_at_the_call(rt: HostRuntime) -> Result<(), Fail> {
    play::<u64>(
        &rt,
        0,
        "\
limit 0 1 1000 -
send 0 1 2 1000 7
drop 0 1 3 1000 7
limit 300ms 1 - -
done 0 300ms+7
sent 300ms
done 1 -
sent 300ms
next -
",
    )
}
