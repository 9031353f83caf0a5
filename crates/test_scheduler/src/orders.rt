//! Peers of unusual orders, and moments that go back.
use numbered_peers::{Backward, Marked};
use scheduler_calls::text::play;
use std::test::Fail;

/// Two idle pairs of one origin that are ready at one moment start in the order of pairs.
const READY_PAIRS: &str = "\
send 0 1 2 1 100
done 0 100
send 0 1 3 1 100
done 1 100
limit 0 1 1000 -
send 0 1 2 0 0
send 0 1 3 0 0
event 100
done 2 100
done 3 100
next -
";

/// The same, where the order of peers is the other way round.
const READY_PAIRS_BACKWARD: &str = "\
send 0 1 2 1 100
done 0 100
send 0 1 3 1 100
done 1 100
limit 0 1 1000 -
send 0 1 2 0 0
send 0 1 3 0 0
event 100
done 3 100
done 2 100
next -
";

#[test]
fn pairs_start_in_the_order_of_their_peers(rt: HostRuntime) -> Result<(), Fail> {
    play::<u64>(&rt, 0, READY_PAIRS)?;
    play::<char>(&rt, 0, READY_PAIRS)?;
    play::<Marked>(&rt, 0, READY_PAIRS)?;
    play::<Backward>(&rt, 0, READY_PAIRS_BACKWARD)
}

/// Each peer is named by values with marks of their own.
#[test]
fn values_with_different_marks_are_one_peer(rt: HostRuntime) -> Result<(), Fail> {
    play::<Marked>(
        &rt,
        0,
        "\
limit 0 1 1000 -
send 0 1 2 1000 0
next 1s
send 0 1 1 0 0
done 1 -
event 1s
done 0 1s
next -
",
    )
}

/// On a new scheduler, too, a message from one value of a peer to another is one to oneself.
#[test]
fn a_message_to_another_value_of_a_peer_does_not_arrive(rt: HostRuntime) -> Result<(), Fail> {
    play::<Marked>(
        &rt,
        0,
        "\
limit 0 1 1000 -
send 0 1 1 0 0
done 0 -
next -
",
    )
}

/// The calls after one that goes back are made, whatever it is: one that is refused, and those at
/// later moments.
#[test]
fn calls_go_on_after_a_moment_that_goes_back(rt: HostRuntime) -> Result<(), Fail> {
    play::<u64>(
        &rt,
        0,
        "\
limit 1s 1 1000 -
send last-1s 1 2 1000 0
next last
send 1s 1 3 500 5
next 2s
advance 3s
done 1 2s+5
done 0 2500ms
send 1s 1 2 0 last
refused late
send 1s 1 2 0 0
event 2500ms
done 3 2500ms
next -
",
    )
}

#[test]
fn a_pair_is_one_however_its_peers_are_marked(rt: HostRuntime) -> Result<(), Fail> {
    play::<Marked>(
        &rt,
        0,
        "\
limit 0 1 1000 -
send 0 1 2 1000 0
send 0 1 2 500 0
next 1s
advance 2s
done 0 1s
done 1 1500ms
next -
",
    )
}

#[test]
fn links_are_by_the_order_of_peers(rt: HostRuntime) -> Result<(), Fail> {
    play::<Marked>(
        &rt,
        0,
        "\
link 0 1 2 1000
send 0 1 2 1000 0
next 1s
send 0 2 1 1000 0
done 1 0
event 1s
done 0 1s
next -
",
    )
}
