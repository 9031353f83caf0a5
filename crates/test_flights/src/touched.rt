//! What a call touches of what is in flight and of what is known, and what it leaves.
use scheduler_calls::text::play;
use std::test::Fail;

/// A cap on what a peer sends and one on what it receives change by one call.
#[test]
fn caps_of_both_ends_change_at_once(rt: HostRuntime) -> Result<(), Fail> {
    play::<u64>(
        &rt,
        0,
        "\
limit 0 1 2000 2000
send 0 3 1 300 0
next 150ms
send 0 1 3 7 0
limit 0 3 100 500
next 14ms
advance 14ms
done 1 14ms
next 3s
advance 3s
done 0 3s
next -
",
    )
}

/// The second of two that share an ingress is no longer held by a cap of its own.
#[test]
fn the_slower_of_two_is_no_longer_capped(rt: HostRuntime) -> Result<(), Fail> {
    play::<u64>(
        &rt,
        0,
        "\
limit 0 1 10 -
limit 0 3 - 2000
send 0 2 3 1000 0
next 500ms
send 100ms 1 3 800 0
next 502010051
limit 100ms 1 3000 -
next 900ms
advance 900ms
done 0 900ms
done 1 900ms
next -
",
    )
}

/// Messages come to an ingress, and one more to a peer that sends there.
#[test]
fn one_more_comes_to_an_ingress(rt: HostRuntime) -> Result<(), Fail> {
    play::<u64>(
        &rt,
        0,
        "\
limit 0 4 999 3000
limit 0 7 1000 1000
send 0 8 7 1000 0
next 1s
send 0 4 7 100 0
next 200ms
send 0 2 7 7 0
next 21ms
send 0 4 4 100 0
next 21ms
advance 21ms
done 2 21ms
next 193214215
advance 300172172
done 3 -
done 1 207172215
next 1107000001
advance 307172215
next 1107000001
",
    )
}

/// Three share a cap, and others that no cap holds for leave at once.
#[test]
fn thirds_stay_exact_as_others_leave_at_once(rt: HostRuntime) -> Result<(), Fail> {
    play::<u64>(
        &rt,
        0,
        "\
limit 0 2 1000 -
send 0 2 1 100 0
send 0 2 3 50 0
drop 0 2 2 7 0
next 21ms
drop 0 1 1 100 0
done 3 -
next 21ms
drop 0 1 1 7 0
done 4 -
next 21ms
send 0 3 2 1 0
done 5 0
next 21ms
advance 70000001
done 2 -
next 107ms
",
    )
}

/// Two share a cap that changes; then a cap of others changes at a moment before.
#[test]
fn halves_stay_exact_as_a_moment_goes_back(rt: HostRuntime) -> Result<(), Fail> {
    play::<u64>(
        &rt,
        0,
        "\
limit 0 7 999 -
send 0 7 7 100 0
next 100100101
send 0 7 2 100 0
next 200200201
limit 1 7 500 -
next 400ms
link 1 8 6 1000
next 400ms
link 0 3 4 1000
next 399999999
",
    )
}

/// A link gets a cap while its origin sends to another peer, too.
#[test]
fn a_link_is_capped_beside_another_message(rt: HostRuntime) -> Result<(), Fail> {
    play::<u64>(
        &rt,
        0,
        "\
limit 0 2 700 -
send 0 2 1 50 0
next 71428572
send 0 2 3 1000 0
next 142857143
link 100ms 1 4 700
next 142857143
link 100ms 2 3 10
next 121739131
",
    )
}

/// A link is told to have no cap, and another one has its cap on.
#[test]
fn a_link_without_a_cap_leaves_the_others_theirs(rt: HostRuntime) -> Result<(), Fail> {
    play::<u64>(
        &rt,
        0,
        "\
link 0 1 1 500
link 0 3 2 -
send 0 1 1 1000 0
next 2s
",
    )
}

/// The cap of a link changes while the last message of it is on its way.
#[test]
fn a_new_cap_leaves_the_last_arrival(rt: HostRuntime) -> Result<(), Fail> {
    play::<u64>(
        &rt,
        0,
        "\
limit 0 1 1000 -
send 0 1 3 500 1s
advance 500ms
done 0 1500ms
link 500ms 1 3 10
send 600ms 1 3 100 0
next 1500ms
",
    )
}

/// A cap that lets a message finish too late is refused, and the one before holds on.
#[test]
fn a_refused_limit_leaves_the_caps_of_its_peer(rt: HostRuntime) -> Result<(), Fail> {
    play::<u64>(
        &rt,
        0,
        "\
limit last 3 1000 10
send last 3 2 50 100ms
limit last 3 - 1000
refused late
send last 3 3 7 0
next -
",
    )
}

/// What was loose once is no more: a cap of the other end of a message that has no rate is one at which none is
/// rated.
#[test]
fn a_cap_where_none_is_rated(rt: HostRuntime) -> Result<(), Fail> {
    play::<u64>(
        &rt,
        0,
        "\
limit 0 3 5 -
link 0 2 1 0
send 0 3 2 7 0
rated 1
limit 0 3 - -
done 0 0
send 0 2 1 100 0
limit 0 1 0 -
rated 0
next -
",
    )
}

/// An advance is refused for a message that starts in it. The units in which others are counted are those before it.
#[test]
fn units_are_those_before_a_refused_advance(rt: HostRuntime) -> Result<(), Fail> {
    play::<u64>(
        &rt,
        0,
        "\
limit last-5s 2 1000 3000
send last-2500ms 2 1 300 0
send last-2500ms 2 1 7 0
send last-2500ms 2 3 300 0
next last-1900ms
send last-2s 3 2 50 0
drop last-2s 2 2 50 0
send last-2s 3 2 50 3s
drop last-2s 2 2 300 0
send last-2s 2 3 100 0
next last-1983333333
advance last
refused late
link last 2 3 3000
done 0 last
done 2 last
done 3 last
done 4 -
rated 4
next -
",
    )
}
