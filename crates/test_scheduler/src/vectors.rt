//! Schedules of a few messages, walked from event to event.
use scheduler_calls::text::play;
use std::test::Fail;

#[test]
fn later_messages_wait_for_earlier_arrivals(rt: HostRuntime) -> Result<(), Fail> {
    play::<u64>(
        &rt,
        0,
        "\
limit 0 1 1000000 -
send 0 1 2 3000000 10s
send 0 1 2 1000000 8s
send 0 1 2 1000000 2s
event 3s
done 0 13s
event 5s
event 6s
done 1 14s
event 12s
event 13s
done 2 15s
next -
",
    )
}

#[test]
fn three_pairs_take_turns(rt: HostRuntime) -> Result<(), Fail> {
    play::<u64>(
        &rt,
        0,
        "\
limit 0 1 3000 -
send 0 1 2 1000 0
send 0 1 2 1000 0
send 0 1 3 1000 0
send 0 1 3 1000 0
send 0 1 4 1000 0
send 0 1 4 1000 0
event 1s
done 0 1s
done 2 1s
done 4 1s
event 2s
done 1 2s
done 3 2s
done 5 2s
next -
",
    )
}

#[test]
fn two_origins_share_an_ingress(rt: HostRuntime) -> Result<(), Fail> {
    play::<u64>(
        &rt,
        0,
        "\
limit 0 1 30000 -
limit 0 2 30000 -
limit 0 3 - 30000
send 0 1 3 1 0
send 0 2 3 10000 0
event 66667
done 0 66667
event 333366667
done 1 333366667
next -
",
    )
}

#[test]
fn two_pairs_share_an_egress(rt: HostRuntime) -> Result<(), Fail> {
    play::<u64>(
        &rt,
        0,
        "\
limit 0 1 1000 -
send 0 1 2 1000 0
next 1s
send 0 1 3 1000 0
event 2s
done 0 2s
done 1 2s
next -
",
    )
}

#[test]
fn a_lifted_cap_lets_all_go(rt: HostRuntime) -> Result<(), Fail> {
    play::<u64>(
        &rt,
        0,
        "\
limit 0 1 1000 -
send 0 1 2 1000 0
next 1s
limit 0 1 - -
done 0 0
next -
",
    )
}

#[test]
fn a_late_advance_delivers_at_the_finish(rt: HostRuntime) -> Result<(), Fail> {
    play::<u64>(
        &rt,
        0,
        "\
limit 0 1 1000 -
send 0 1 2 1000 250ms
advance 6s
done 0 1250ms
next -
advance 7s
",
    )
}

#[test]
fn a_follower_starts_as_its_pair_finishes(rt: HostRuntime) -> Result<(), Fail> {
    play::<u64>(
        &rt,
        0,
        "\
limit 0 1 1000 -
send 0 1 2 100 0
send 0 1 3 100 0
send 0 1 2 100 0
event 200ms
done 0 200ms
done 1 200ms
event 300ms
done 2 300ms
next -
",
    )
}

#[test]
fn without_a_limit_arrivals_keep_their_order(rt: HostRuntime) -> Result<(), Fail> {
    play::<u64>(
        &rt,
        0,
        "\
send 0 1 2 5 100ms
done 0 100ms
send 0 1 2 6 50ms
done 1 100ms
next -
",
    )
}

#[test]
fn a_third_of_a_second_is_rounded_up(rt: HostRuntime) -> Result<(), Fail> {
    play::<u64>(
        &rt,
        0,
        "\
limit 0 1 3 -
send 0 1 2 1 0
event 333333334
done 0 333333334
next -
",
    )
}

#[test]
fn an_empty_message_passes_a_cap_of_zero(rt: HostRuntime) -> Result<(), Fail> {
    play::<u64>(
        &rt,
        0,
        "\
limit 0 1 0 -
send 0 1 2 1 0
next -
send 0 1 3 0 0
done 1 0
next -
limit 2s 1 1 -
event 3s
done 0 3s
next -
",
    )
}

#[test]
fn a_dropped_message_waits_for_the_last_arrival_too(rt: HostRuntime) -> Result<(), Fail> {
    play::<u64>(
        &rt,
        0,
        "\
limit 0 1 1000 -
send 0 1 2 1000 1s
drop 0 1 2 0 0
event 1s
done 0 2s
event 2s
done 1 -
next -
",
    )
}

#[test]
fn a_dropped_message_takes_no_ingress(rt: HostRuntime) -> Result<(), Fail> {
    play::<u64>(
        &rt,
        0,
        "\
limit 0 2 - 10
drop 0 1 2 100 0
done 0 -
send 0 1 2 100 0
event 10s
done 1 10s
next -
",
    )
}

#[test]
fn an_earlier_advance_answers_nothing(rt: HostRuntime) -> Result<(), Fail> {
    play::<u64>(
        &rt,
        0,
        "\
limit 0 1 1000 -
send 0 1 2 1000 0
advance 1s
done 0 1s
advance 1s
advance 0
",
    )
}
