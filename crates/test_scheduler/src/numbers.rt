//! Large numbers, shares that are no whole numbers, calls in two steps, and peers that never meet.
use scheduler_calls::text::play;
use std::test::Fail;

#[test]
fn the_last_moment_in_the_range_is_met(rt: HostRuntime) -> Result<(), Fail> {
    play::<u64>(
        &rt,
        0,
        "\
limit 0 1 4294967295 -
send 72057594037927932 1 2 3 0
send 72057594037927932 1 3 3 0
send 72057594037927932 1 4 3 0
send 72057594037927932 1 5 3 0
event 72057594037927935
done 0 72057594037927935
done 1 72057594037927935
done 2 72057594037927935
done 3 72057594037927935
next -
",
    )
}

#[test]
fn a_cap_changes_after_one_nanosecond(rt: HostRuntime) -> Result<(), Fail> {
    play::<u64>(
        &rt,
        0,
        "\
limit 0 1 7 -
send 0 1 2 1 0
send 0 1 3 1 0
send 0 1 4 1 0
limit 1 1 5 -
event 600ms
done 0 600ms
done 1 600ms
done 2 600ms
next -
",
    )
}

#[test]
fn two_advances_answer_what_one_does(rt: HostRuntime) -> Result<(), Fail> {
    play::<u64>(
        &rt,
        0,
        "\
limit 0 1 500000 -
send 0 1 2 1000000 500ms
send 0 1 2 500000 100ms
advance 2500ms
done 0 2500ms
advance 3400ms
done 1 3500ms
next -
",
    )
}

#[test]
fn peers_that_never_meet_change_nothing(rt: HostRuntime) -> Result<(), Fail> {
    play::<u64>(
        &rt,
        0,
        "\
limit 0 1 1000 -
limit 0 3 7 -
send 0 1 2 1000 0
send 0 3 4 1 0
advance 1s
done 1 142857143
done 0 1s
next -
",
    )?;
    play::<u64>(
        &rt,
        0,
        "\
limit 0 1 1000 -
limit 0 3 7 -
send 0 1 2 1000 0
advance 1s
done 0 1s
next -
",
    )
}

#[test]
fn the_last_caps_of_a_peer_hold(rt: HostRuntime) -> Result<(), Fail> {
    play::<u64>(
        &rt,
        0,
        "\
limit 0 1 10 -
limit 0 1 20 -
send 0 1 2 20 0
next 1s
limit 0 1 - 5
done 0 0
next -
send 0 2 1 5 0
event 1s
done 1 1s
next -
",
    )
}

#[test]
fn a_message_to_oneself_takes_its_time(rt: HostRuntime) -> Result<(), Fail> {
    play::<u64>(
        &rt,
        0,
        "\
limit 0 1 1 -
send 0 1 1 1 0
event 1s
done 0 -
next -
",
    )
}

#[test]
fn a_limit_finishes_what_is_overdue_at_its_own_moment(rt: HostRuntime) -> Result<(), Fail> {
    play::<u64>(
        &rt,
        0,
        "\
limit 0 1 1000 -
send 0 1 2 1000 0
limit 3s 9 - -
done 0 3s
next -
",
    )
}

#[test]
fn nothing_sent_is_nothing_done(rt: HostRuntime) -> Result<(), Fail> {
    play::<u64>(
        &rt,
        0,
        "\
next -
advance 1s
events 0
next -
limit 0 1 1000 -
next -
advance 1s
events 0
next -
",
    )
}
