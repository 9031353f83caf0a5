//! Scripts that ask the scheduler.
use super::{expect, expect_silence};
use link_scripts::linkrun::Outcome;

#[test]
fn the_next_event_of_a_new_scheduler_is_none(rt: HostRuntime) {
    expect(&rt, b"flow 1 1 2 1\nnext\n", "next -\n", Outcome::Whole);
    expect(&rt, b"next", "next -\n", Outcome::Whole);
}

#[test]
fn a_message_waits_for_its_pair(rt: HostRuntime) {
    expect(
        &rt,
        b"limit 0 1 500000 -\nenqueue 0 1 2 0 1000000 500000000 1\n\
enqueue 0 1 2 0 500000 100000000 1\nnext\nadvance 2000000000\nnext\nadvance 2400000000\nnext\n\
advance 3400000000\nnext\n",
        "next 2000000000\ndone 1 2 0 1000000 2500000000\nnext 2400000000\nnext 3400000000\n\
done 1 2 0 500000 3500000000\nnext -\n",
        Outcome::Whole,
    );
}

#[test]
fn a_finish_comes_before_a_start_of_its_moment(rt: HostRuntime) {
    expect(
        &rt,
        b"limit 0 1 1000 -\nenqueue 0 1 2 0 500 500000000 1\nnext\nenqueue 0 1 2 0 0 0 1\n\
enqueue 0 1 3 0 1000 0 1\nnext\nadvance 1000000000\nnext\nadvance 1500000000\nnext\n",
        "next 500000000\nnext 1000000000\ndone 1 2 0 500 1500000000\nnext 1500000000\n\
done 1 3 0 1000 1500000000\ndone 1 2 0 0 1500000000\nnext -\n",
        Outcome::Whole,
    );
}

#[test]
fn a_refused_call_leaves_the_next_event(rt: HostRuntime) {
    expect(
        &rt,
        b"limit 0 1 1 -\nenqueue 18446744072709551615 1 2 0 1 1 1\nnext\n\
advance 18446744073709551615\nnext\nadvance 07\nnext\n",
        "next 18446744073709551615\nrefused 3 moment too late\nnext 18446744073709551615\n",
        Outcome::BadLine(6),
    );
}

#[test]
fn rates_know_no_limits_of_the_scheduler(rt: HostRuntime) {
    expect(
        &rt,
        b"limit 0 1 3 -\nenqueue 0 1 2 9 1 0 1\nnext\nrates\nadvance 333333334\n",
        "next 333333334\ndone 1 2 9 1 333333334\n",
        Outcome::Whole,
    );
    expect(
        &rt,
        b"egress 1 3\nflow 1 1 2 1\nlimit 0 1 5 -\nrates\nenqueue 0 1 2 0 5 0 1\nnext\nrates\n",
        "rate 1 3/1\nnext 1000000000\nrate 1 3/1\n",
        Outcome::Whole,
    );
}

#[test]
fn messages_without_limits_are_done_at_once(rt: HostRuntime) {
    expect(
        &rt,
        b"enqueue 0 1 2 0 4 0 0\nnext\n",
        "done 1 2 0 4 -\nnext -\n",
        Outcome::Whole,
    );
    expect(
        &rt,
        b"enqueue 5 1 1 18446744073709551615 0 7 1\nenqueue 0 1 1 3 67108864 0 1\n",
        "done 1 1 18446744073709551615 0 12\ndone 1 1 3 67108864 12\n",
        Outcome::Whole,
    );
}

/// A mebibyte, one byte less and one more, and lengths that fall and rise, sent one by one and at once.
#[test]
fn messages_have_their_lengths(rt: HostRuntime) {
    expect(
        &rt,
        b"enqueue 0 1 2 0 1048576 0 1\nenqueue 1 1 2 0 1048577 0 1\nenqueue 2 1 2 0 1048575 0 1\n\
enqueue 3 1 2 0 3000000 0 1\nenqueue 4 1 2 0 2000000 0 1\n",
        "done 1 2 0 1048576 0\ndone 1 2 0 1048577 1\ndone 1 2 0 1048575 2\n\
done 1 2 0 3000000 3\ndone 1 2 0 2000000 4\n",
        Outcome::Whole,
    );
    expect(
        &rt,
        b"enqueue 0 1 2 0 1048577 0 1\nenqueue 0 1 3 0 4000000 0 1\nenqueue 0 1 4 0 1048576 0 1\n\
enqueue 0 1 5 0 0 0 1\n",
        "done 1 2 0 1048577 0\ndone 1 3 0 4000000 0\ndone 1 4 0 1048576 0\ndone 1 5 0 0 0\n",
        Outcome::Whole,
    );
}

#[test]
fn a_message_that_is_too_long_is_a_bad_line(rt: HostRuntime) {
    expect_silence(&rt, "enqueue 0 1 2 0 67108865 0 1", Outcome::BadLine(1));
}

#[test]
fn links_have_caps_in_rates_and_in_the_scheduler(rt: HostRuntime) {
    expect(
        &rt,
        b"link 1 2 10\nflow 1 1 2 1\nflow 2 1 2 0\nflow 3 2 1 1\nrates\nlimitlink 0 1 2 100\n\
enqueue 0 1 2 7 100 0 1\nnext\nadvance 1000000000\n",
        "rate 1 5/1\nrate 2 5/1\nrate 3 unlimited\nnext 1000000000\ndone 1 2 7 100 1000000000\n",
        Outcome::Whole,
    );
}

#[test]
fn the_last_line_of_a_link_decides(rt: HostRuntime) {
    expect(
        &rt,
        b"flow 1 1 2 1\nflow 2 2 1 1\nlink 1 2 10\nlink 2 1 7\nrates\nlink 1 2 0\nrates\n\
link 1 2 -\nrates\nlink 2 1 -\nrates\n",
        "rate 1 10/1\nrate 2 7/1\nrate 1 0/1\nrate 2 7/1\nrate 1 unlimited\nrate 2 7/1\n\
rate 1 unlimited\nrate 2 unlimited\n",
        Outcome::Whole,
    );
}

#[test]
fn a_lifted_limit_lets_messages_go(rt: HostRuntime) {
    expect(
        &rt,
        b"limitlink 0 1 2 100\nenqueue 0 1 2 0 100 0 1\nenqueue 0 1 3 1 100 0 1\nnext\n\
limitlink 500000000 1 2 25\nnext\nlimitlink 1500000000 1 2 -\nnext\nlimit 1500000000 1 0 0\n\
enqueue 1500000000 1 2 2 1 0 1\nnext\nlimit 1500000001 1 - -\n",
        "done 1 3 1 100 0\nnext 1000000000\nnext 2500000000\ndone 1 2 0 100 1500000000\nnext -\n\
next -\ndone 1 2 2 1 1500000001\n",
        Outcome::Whole,
    );
}

#[test]
fn a_refused_message_is_answered_among_those_of_its_moment(rt: HostRuntime) {
    expect(
        &rt,
        b"enqueue 5 1 2 0 10 1 1\nenqueue 5 1 3 0 20 18446744073709551615 1\nenqueue 5 2 3 1 30 0 1\n\
enqueue 5 2 1 1 0 7 0\nenqueue 5 3 1 0 1 18446744073709551610 1\nnext\n",
        "done 1 2 0 10 6\nrefused 3 moment too late\ndone 2 3 1 30 5\ndone 2 1 1 0 -\n\
done 3 1 0 1 18446744073709551615\nnext -\n",
        Outcome::Whole,
    );
    expect(
        &rt,
        b"limit 1 1 100 -\nenqueue 1 1 2 0 100 0 1\nenqueue 1 3 2 0 5 18446744073709551615 1\n\
enqueue 1 3 4 0 5 4 1\nnext\nadvance 1000000001\nnext\n",
        "refused 3 moment too late\ndone 3 4 0 5 5\nnext 1000000001\ndone 1 2 0 100 1000000001\nnext -\n",
        Outcome::Whole,
    );
}

#[test]
fn messages_of_two_moments_are_sent_at_their_own(rt: HostRuntime) {
    expect(
        &rt,
        b"enqueue 5 1 2 0 1 0 1\nenqueue 6 1 3 0 1 0 1\nenqueue 6 2 3 0 1 0 1\nenqueue 7 2 1 0 1 0 1",
        "done 1 2 0 1 5\ndone 1 3 0 1 6\ndone 2 3 0 1 6\ndone 2 1 0 1 7\n",
        Outcome::Whole,
    );
    expect(
        &rt,
        b"limit 0 1 100 -\nenqueue 0 1 2 0 100 0 1\nenqueue 0 1 3 0 100 0 1\n\
enqueue 1000000000 1 4 0 100 0 1\nnext\nadvance 2500000000\nnext\nadvance 3000000000\nnext\n",
        "next 2500000000\ndone 1 2 0 100 2500000000\ndone 1 3 0 100 2500000000\nnext 3000000000\n\
done 1 4 0 100 3000000000\nnext -\n",
        Outcome::Whole,
    );
}

#[test]
fn messages_are_sent_before_the_line_after_them(rt: HostRuntime) {
    expect(
        &rt,
        b"enqueue 0 1 2 0 100 0 1\nenqueue 0 1 3 0 100 0 1\nlimit 0 1 100 -\nenqueue 0 1 4 0 100 0 1\nnext\n",
        "done 1 2 0 100 0\ndone 1 3 0 100 0\nnext 1000000000\n",
        Outcome::Whole,
    );
    expect(
        &rt,
        b"enqueue 0 1 2 0 1 0 1\nenqueue 0 1 3 0 1 0 1\nstop\nenqueue 0 1 4 0 1 0 1\n",
        "done 1 2 0 1 0\ndone 1 3 0 1 0\n",
        Outcome::BadLine(3),
    );
}
