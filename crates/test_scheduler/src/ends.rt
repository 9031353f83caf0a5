//! The end of time, and the end of the ids.
use scheduler_calls::text::play;
use std::test::Fail;

#[test]
fn a_finish_at_the_last_moment_is_an_event(rt: HostRuntime) -> Result<(), Fail> {
    play::<u64>(
        &rt,
        0,
        "\
limit 0 1 1 -
send last-1s 1 2 1 0
event last
done 0 last
next -
",
    )
}

#[test]
fn an_arrival_past_the_last_moment_is_refused(rt: HostRuntime) -> Result<(), Fail> {
    play::<u64>(
        &rt,
        0,
        "\
limit 0 1 1 -
send last-1s 1 2 1 1
advance last
refused late
next last
",
    )
}

/// What is dropped never arrives, so it is not late: a message that is to be dropped, and one to
/// oneself.
#[test]
fn a_dropped_message_is_never_late(rt: HostRuntime) -> Result<(), Fail> {
    play::<u64>(
        &rt,
        0,
        "\
limit 0 1 1 -
drop last-1s 1 2 1 last
event last
done 0 -
next -
drop last 1 2 0 last
done 1 -
",
    )?;
    play::<u64>(
        &rt,
        0,
        "\
limit 0 1 1 -
send last-1s 1 1 1 last
event last
done 0 -
next -
send last 1 1 0 last
done 1 -
",
    )
}

#[test]
fn a_finish_past_the_last_moment_is_no_event(rt: HostRuntime) -> Result<(), Fail> {
    play::<u64>(
        &rt,
        0,
        "\
limit 0 1 1 -
send last-999999999 1 2 1 0
next -
advance last
",
    )
}

#[test]
fn without_a_limit_arrivals_end_with_time(rt: HostRuntime) -> Result<(), Fail> {
    play::<u64>(
        &rt,
        0,
        "\
send last-10 1 2 1 10
done 0 last
send last 1 2 1 1
refused late
drop last 1 2 1 last
done 2 -
send last 1 2 1 0
done 3 last
",
    )
}

#[test]
fn a_start_at_the_last_moment_may_leave_no_finish(rt: HostRuntime) -> Result<(), Fail> {
    play::<u64>(
        &rt,
        0,
        "\
send 0 1 2 1 last
done 0 last
limit 0 1 1 -
send 0 1 2 1 0
next last
advance last
events 1
next -
",
    )
}

#[test]
fn a_refused_advance_can_be_followed_by_a_limit(rt: HostRuntime) -> Result<(), Fail> {
    play::<u64>(
        &rt,
        0,
        "\
send 0 1 2 1 last
done 0 last
limit 0 1 1000000000 -
send 0 1 2 1 1
next last-1
advance last-1
next last
advance last
refused late
next last
limit last 1 - -
refused late
next last
limit last-1 1 - -
done 1 last
next -
",
    )
}

#[test]
fn the_last_id_is_never_given(rt: HostRuntime) -> Result<(), Fail> {
    play::<u64>(
        &rt,
        u64::MAX,
        "\
send 0 1 2 1 0
done 0 0
limit 0 1 5 -
send 0 1 2 1 0
refused ids
next -
",
    )
}

#[test]
fn of_two_faults_the_first_is_answered(rt: HostRuntime) -> Result<(), Fail> {
    play::<u64>(
        &rt,
        u64::MAX - 1,
        "\
limit 0 1 1 -
send last-1s 1 2 1 1
send last-1s 1 2 1 0
advance last
refused late
next last
",
    )?;
    play::<u64>(
        &rt,
        u64::MAX - 1,
        "\
limit 0 1 1 -
send last-1s 1 2 1 0
send last-1s 1 2 1 0
advance last
refused ids
next last
",
    )
}

#[test]
fn each_start_takes_an_id(rt: HostRuntime) -> Result<(), Fail> {
    play::<u64>(
        &rt,
        u64::MAX - 3,
        "\
send 0 1 2 1 0
done 0 0
limit 0 1 1000 -
send 0 1 2 0 0
done 1 0
send 0 1 2 0 0
done 2 0
send 0 1 2 0 0
done 3 0
send 0 1 2 0 0
refused ids
next -
",
    )
}

#[test]
fn a_refusal_takes_back_the_events_before_it(rt: HostRuntime) -> Result<(), Fail> {
    play::<u64>(
        &rt,
        u64::MAX - 2,
        "\
limit 0 1 1000 -
send 0 1 2 100 0
send 0 1 2 100 0
send 0 1 2 100 0
advance 200ms
refused ids
next 100ms
advance 100ms
done 0 100ms
next 200ms
advance 200ms
refused ids
next 200ms
",
    )
}
