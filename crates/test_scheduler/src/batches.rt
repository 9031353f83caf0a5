//! Lists of messages that are sent at one moment.
use scheduler_calls::text::{play, play_both};
use std::test::Fail;

/// A list of messages of each kind, under caps of peers and of a link.
const CAPPED_LIST: &str = "\
limit 0 1 1000 -
limit 0 2 400 -
limit 0 3 - 600
link 0 4 5 50
list 0 11
send 0 1 2 500 0
send 0 1 2 100 0
send 0 1 3 0 7
done 2 7
send 0 5 6 30 0
done 3 0
drop 0 1 3 200 0
send 0 2 3 300 5
send 0 6 3 600 0
send 0 4 5 10 1
send 0 3 3 20 0
done 8 -
send 0 2 3 40 0
drop 0 1 4 0 3
done 10 -
event 7
event 200ms
done 7 200ms+1
event 400ms+7
done 4 -
event 700ms
done 0 700ms
event 800ms
done 1 800ms
event 1s
done 5 1s+5
event 1s+5
event 1133333339
done 9 1133333339
event 1566666667
done 6 1566666667
next -
";

#[test]
fn a_list_goes_as_its_messages_do(rt: HostRuntime) -> Result<(), Fail> {
    play_both::<u64>(&rt, CAPPED_LIST)
}

/// Two messages are in flight from 0 on when the list is sent.
#[test]
fn a_list_joins_what_is_in_flight(rt: HostRuntime) -> Result<(), Fail> {
    play_both::<u64>(
        &rt,
        "\
limit 0 1 1000 -
limit 0 2 400 -
limit 0 3 - 600
send 0 1 2 500 0
send 0 2 3 100 0
list 0 5
send 0 1 2 100 0
send 0 1 4 50 0
send 0 2 3 0 2
send 0 1 3 60 0
drop 0 2 4 80 3
event 150ms
done 3 150ms
event 175ms
done 5 175ms
event 400ms
done 6 -
event 450ms
done 1 450ms
done 4 450ms+2
event 610ms
done 0 610ms
event 710ms
done 2 710ms
next -
",
    )
}

/// Two messages are in flight from 0 on when the list is sent.
#[test]
fn a_list_comes_as_messages_leave(rt: HostRuntime) -> Result<(), Fail> {
    play_both::<u64>(
        &rt,
        "\
limit 0 1 1000 -
limit 0 2 400 -
limit 0 3 - 600
send 0 1 2 500 0
send 0 2 3 100 0
list 250ms 5
send 250ms 1 2 100 0
send 250ms 1 4 50 0
done 1 250ms
send 250ms 2 3 0 2
done 4 250ms+2
send 250ms 1 3 60 0
drop 250ms 2 4 80 3
event 400ms
done 3 400ms
event 420ms
done 5 420ms
event 450ms
done 6 -
event 610ms
done 0 610ms
event 710ms
done 2 710ms
next -
",
    )
}

/// Two messages are in flight from 0 on when the list is sent.
#[test]
fn a_list_comes_after_messages_were_to_leave(rt: HostRuntime) -> Result<(), Fail> {
    play_both::<u64>(
        &rt,
        "\
limit 0 1 1000 -
limit 0 2 400 -
limit 0 3 - 600
send 0 1 2 500 0
send 0 2 3 100 0
list 1s 5
send 1s 1 2 100 0
send 1s 1 4 50 0
done 0 1s
done 1 1s
send 1s 2 3 0 2
done 4 1s+2
send 1s 1 3 60 0
drop 1s 2 4 80 3
event 1150ms
done 3 1150ms
event 1170ms
done 5 1170ms
event 1200ms
done 6 -
event 1210ms
done 2 1210ms
next -
",
    )
}

#[test]
fn before_any_limit_a_list_completes(rt: HostRuntime) -> Result<(), Fail> {
    play_both::<u64>(
        &rt,
        "\
list 5 4
send 5 1 2 500 9
done 0 14
send 5 1 2 20 4
done 1 14
drop 5 2 1 0 0
done 2 -
send 5 2 1 1 4
done 3 9
next -
",
    )
}

/// Had the first message of the refused list arrived, the one after the list would arrive no earlier.
#[test]
fn a_late_message_refuses_its_list(rt: HostRuntime) -> Result<(), Fail> {
    play::<u64>(
        &rt,
        0,
        "\
list 1 3
send 1 1 2 1 50
send 1 1 2 1 last
send 1 1 2 1 0
refused late
list 1 1
send 1 1 2 1 0
done 3 1
",
    )
}

#[test]
fn a_start_without_an_id_refuses_its_list(rt: HostRuntime) -> Result<(), Fail> {
    play::<u64>(
        &rt,
        u64::MAX - 2,
        "\
limit 0 1 1000 -
list 0 3
send 0 1 2 100 0
send 0 1 3 0 6
send 0 1 4 300 0
refused ids
next -
list 0 2
send 0 1 2 100 0
send 0 1 3 300 0
event 200ms
done 3 200ms
event 400ms
done 4 400ms
next -
",
    )
}

#[test]
fn an_empty_list_changes_nothing(rt: HostRuntime) -> Result<(), Fail> {
    play::<u64>(
        &rt,
        0,
        "\
limit 0 1 1000 -
limit 0 2 400 -
limit 0 3 - 600
list 0 1
send 0 1 2 500 0
list 1s 0
event 500ms
done 0 500ms
next -
",
    )
}
