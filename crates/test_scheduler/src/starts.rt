//! When waiting messages start.
use scheduler_calls::text::play;
use std::test::Fail;

#[test]
fn each_pair_starts_at_its_own_moment(rt: HostRuntime) -> Result<(), Fail> {
    play::<u64>(
        &rt,
        0,
        "\
send 0 1 2 1 100
done 0 100
send 0 1 3 1 50
done 1 50
limit 0 1 1000 -
send 0 1 2 0 0
send 0 1 3 0 0
next 50
advance 200
done 3 50
done 2 100
events 2
next -
",
    )
}

#[test]
fn pairs_that_are_overdue_start_in_their_order(rt: HostRuntime) -> Result<(), Fail> {
    play::<u64>(
        &rt,
        0,
        "\
send 0 1 2 1 100
done 0 100
send 0 1 3 1 50
done 1 50
limit 0 1 1000 -
send 0 1 2 0 0
send 0 1 3 0 0
next 50
limit 200 9 - -
next 200
advance 200
done 2 200
done 3 200
events 1
next -
",
    )
}

#[test]
fn a_start_at_the_end_of_an_advance_is_no_event(rt: HostRuntime) -> Result<(), Fail> {
    play::<u64>(
        &rt,
        0,
        "\
send 0 1 2 1 100
done 0 100
send 0 1 3 1 50
done 1 50
limit 0 1 1000 -
send 0 1 2 0 0
send 0 1 3 0 0
next 50
limit 200 9 - -
next 200
advance 150
done 2 150
done 3 150
events 0
next -
",
    )
}

#[test]
fn a_pair_finishes_at_once_before_the_next_one_starts(rt: HostRuntime) -> Result<(), Fail> {
    play::<u64>(
        &rt,
        0,
        "\
send 0 1 2 1 100
done 0 100
send 0 1 3 1 100
done 1 100
limit 0 1 1000 -
send 0 1 2 0 0
send 0 1 3 0 0
send 0 1 2 0 0
send 0 1 3 0 0
next 100
advance 100
done 2 100
done 4 100
done 3 100
done 5 100
events 1
next -
",
    )
}

#[test]
fn followers_are_done_after_all_that_were_done_before(rt: HostRuntime) -> Result<(), Fail> {
    play::<u64>(
        &rt,
        0,
        "\
limit 0 1 1000 -
send 0 1 3 100 0
send 0 1 2 100 0
send 0 1 3 0 0
send 0 1 2 0 0
event 200ms
done 0 200ms
done 1 200ms
done 2 200ms
done 3 200ms
next -
",
    )
}

#[test]
fn nothing_is_due_before_the_next_event(rt: HostRuntime) -> Result<(), Fail> {
    play::<u64>(
        &rt,
        0,
        "\
limit 0 1 500000 -
send 0 1 2 1000000 500ms
send 0 1 2 500000 100ms
advance 1999999999
events 0
next 2s
",
    )
}

#[test]
fn a_dropped_message_does_not_lower_the_last_arrival(rt: HostRuntime) -> Result<(), Fail> {
    play::<u64>(
        &rt,
        0,
        "\
limit 0 1 1000 -
send 0 1 2 0 100
done 0 100
drop 0 1 2 0 100
done 1 -
send 0 1 2 0 0
event 100
done 2 100
next -
",
    )
}

/// Two pairs of different origins may start at one moment. The pair of the lesser origin starts
/// first, though its recipient is greater and it was sent later.
#[test]
fn pairs_of_different_origins_start_in_their_order(rt: HostRuntime) -> Result<(), Fail> {
    play::<u64>(
        &rt,
        0,
        "\
send 0 2 3 1 100
done 0 100
send 0 1 4 1 100
done 1 100
limit 0 9 - -
send 0 2 3 1 0
send 0 1 4 1 0
next 100
advance 100
done 3 100
done 2 100
events 1
next -
",
    )
}
