//! Lists of messages among the calls of `replay`.
use scheduler_calls::text::{play, play_both};
use std::test::Fail;

/// Lists at the start, and at a moment up to which time has gone on: empty messages, some that wait
/// for the last arrival of their pair, some without limit, and one that is to be dropped.
const LISTS_AND_CAPS: &str = "\
limit 0 1 1000 -
link 0 2 3 50
list 0 6
send 0 1 2 500 0
send 0 1 2 0 7
send 0 2 3 10 0
send 0 1 3 0 3
done 3 3
send 0 1 3 200 0
send 0 3 4 30 9
done 5 9
next 3
advance 100ms
list 100ms 4
send 100ms 1 2 100 5ms
send 100ms 3 4 5 2
done 7 100ms+2
drop 100ms 2 3 40 0
send 100ms 4 4 8 0
done 9 -
event 200ms
done 2 200ms
event 400ms+3
done 4 400ms+3
event 700ms
done 0 700ms
done 1 700ms+7
event 800ms
done 6 805ms
event 1s
done 8 -
next -
";

#[test]
fn a_list_is_answered_as_its_messages_are(rt: HostRuntime) -> Result<(), Fail> {
    play_both::<u64>(&rt, LISTS_AND_CAPS)?;
    play_both::<char>(&rt, LISTS_AND_CAPS)
}

#[test]
fn before_any_limit_the_messages_of_a_list_complete(rt: HostRuntime) -> Result<(), Fail> {
    play_both::<char>(
        &rt,
        "\
list 1 3
send 1 1 2 1 50
done 0 51
send 1 1 2 1 0
done 1 51
drop 1 2 1 0 0
done 2 -
next -
",
    )
}

#[test]
fn an_empty_list_is_a_call_that_does_nothing(rt: HostRuntime) -> Result<(), Fail> {
    play::<u64>(
        &rt,
        0,
        "\
limit 0 1 1000 -
list 0 0
send 0 1 2 500 0
list 400ms 0
event 500ms
done 0 500ms
next -
",
    )
}

/// With a refused list: its first message would go along, and its second one arrive, were they sent alone.
const REFUSED_LIST: &str = "\
limit 0 1 1000 -
send 0 1 2 500 0
advance 5
list 5 4
send 5 1 3 100 0
send 5 4 5 1 9
send 5 4 5 1 last
send 5 1 4 10 0
refused late
next 500ms
send 5 1 3 100 0
send 5 4 5 1 2
done 6 7
event 200ms+5
done 5 200ms+5
event 600ms
done 0 600ms
next -
";

/// The same calls without the list.
const NO_LIST: &str = "\
limit 0 1 1000 -
send 0 1 2 500 0
advance 5
next 500ms
send 5 1 3 100 0
send 5 4 5 1 2
done 2 7
event 200ms+5
done 1 200ms+5
event 600ms
done 0 600ms
next -
";

#[test]
fn a_refused_list_counts_as_not_made(rt: HostRuntime) -> Result<(), Fail> {
    play::<u64>(&rt, 0, REFUSED_LIST)?;
    play::<u64>(&rt, 0, NO_LIST)
}

#[test]
fn a_list_without_ids_for_all_uses_up_none(rt: HostRuntime) -> Result<(), Fail> {
    play::<u64>(
        &rt,
        u64::MAX - 1,
        "\
limit 0 1 1000 -
list 0 2
send 0 1 2 100 0
send 0 1 3 200 0
refused ids
next -
list 0 1
send 0 1 3 200 0
event 200ms
done 2 200ms
next -
",
    )
}
