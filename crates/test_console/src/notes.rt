//! Why lines are bad, and that nothing is said of others.
use link_console::why;
use link_scripts::linkrun::{Outcome, run_keeping_line};
use link_traces::linkcheck::{Fault, Turns, check_keeping_line};
use std::alloc::Global;
use std::process::Abort;
use std::test::Fail;

/// Lines of scripts and why they are bad, with ` = ` between the two, a case a line.
const SCRIPTS: &str =
    "limt 0 1 - - = column 1: flow, egress, ingress, link, rates, hop, cap, weight, routes, limit, \
limitlink, enqueue, advance or next, and `limt` is there
 next = column 1: flow, egress, ingress, link, rates, hop, cap, weight, routes, limit, limitlink, enqueue, advance \
or next, \
and no word is there: one space stands between two words, and none at an end
limit 0 1 5 = column 12: limit: 4 words, NOW PEER EGRESS INGRESS, and 3 are there
limit = column 6: limit: 4 words, NOW PEER EGRESS INGRESS, and 0 are there
limit 0 = column 8: limit: 4 words, NOW PEER EGRESS INGRESS, and 1 is there
limit 0 1 5 - 7 8 = column 15: limit: 4 words, NOW PEER EGRESS INGRESS, and 6 are there
next 5 = column 6: next: no more words, and 1 is there
rates  = column 7: rates: no more words, and 1 is there
advance = column 8: advance: 1 word, NOW, and 0 are there
advance 1 2 = column 11: advance: 1 word, NOW, and 2 are there
advance 18446744073709551616 = column 9: advance: NOW is a number from 0 to 18446744073709551615, \
and `18446744073709551616` is there
advance 07 = column 9: advance: NOW is a number from 0 to 18446744073709551615, and `07` is there
advance +7 = column 9: advance: NOW is a number from 0 to 18446744073709551615, and `+7` is there
advance  7 = column 9: advance: NOW is a number from 0 to 18446744073709551615, and no word is there: \
one space stands between two words, and none at an end
limit 0 1 5 x = column 13: limit: INGRESS is a number from 0 to 18446744073709551615, or -, and `x` is there
limitlink 0 1 2 18446744073709551616 = column 17: limitlink: CAP is a number from 0 to 18446744073709551615, \
or -, and `18446744073709551616` is there
egress 1 340282366920938463463374607431768211456 = column 10: egress: CAP is a number from 0 to \
340282366920938463463374607431768211455, or -, and `340282366920938463463374607431768211456` is there
ingress 1 3402823669209384634633746074317682114567 = column 11: ingress: CAP is a number from 0 to \
340282366920938463463374607431768211455, or -, and `3402823669209384634633746074317682114567` is there
link 1 2 34028236692093846346337460743176821145678 = column 10: link: CAP is a number from 0 to \
340282366920938463463374607431768211455, or -, and `3402823669209384634633746074317682114567..` is there
flow 1 1 2 yes = column 12: flow: D is 0 or 1, and `yes` is there
hop 1 = column 6: hop: 2 words, FLOW LINK, and 1 is there
cap 1 x = column 7: cap: CAP is a number from 0 to 340282366920938463463374607431768211455, or -, and `x` is there
weight 1 0 = column 10: weight: WEIGHT is a number from 1 to 18446744073709551615, and `0` is there
routes 1 = column 8: routes: no more words, and 1 is there
enqueue 0 1 2 3 67108865 0 1 = column 17: enqueue: LENGTH is a number from 0 to 67108864, and `67108865` is there
enqueue 0 1 2 3 - 0 1 = column 17: enqueue: LENGTH is a number from 0 to 67108864, and `-` is there
next\r = column 1: flow, egress, ingress, link, rates, hop, cap, weight, routes, limit, limitlink, enqueue, advance \
or next, \
and `next\\r` is there: a line ends with byte 10, and has no byte 13
advance 5\r = column 9: advance: NOW is a number from 0 to 18446744073709551615, and `5\\r` is there: \
a line ends with byte 10, and has no byte 13
advance \u{1b}\u{e9} = column 9: advance: NOW is a number from 0 to 18446744073709551615, and \
`\\x1b\\xc3\\xa9` is there";

/// Lines of scripts that are good.
const GOOD: &str = "
flow 1 1 2 1
egress 1 340282366920938463463374607431768211455
ingress 1 -
link 1 2 0
rates
hop 1 2
cap 2 -
weight 1 18446744073709551615
routes
limit 0 1 5 18446744073709551615
limitlink 0 1 2 -
enqueue 0 1 2 3 67108864 5 0
advance 18446744073709551615
next";

/// Lines of traces and why they are bad.
const TRACES: &str =
    "flow 1 1 2 1 = column 1: limit, limitlink, enqueue, advance, next, done or refused, \
and `flow` is there
 = column 1: limit, limitlink, enqueue, advance, next, done or refused, and no word is there: \
one space stands between two words, and none at an end
limit 0 1 5 = column 12: limit: 4 words, NOW PEER EGRESS INGRESS, and 3 are there
done 1 2 0 5 x = column 14: done: AT is a number from 0 to 18446744073709551615, or -, and `x` is there
done 1 2 0 5 = column 13: done: 5 words, ORIGIN RECIPIENT CHANNEL LENGTH AT, and 4 are there
next 1 2 = column 8: next: 1 word, AT, and 2 are there
refused 1 out = column 1: refused: one of the four lines that linkrun prints, and `refused 1 out` is there
tolerance 5 = column 1: a call or an answer, and a tolerance is there: it may stand on the first line alone
tolerance x = column 11: tolerance: N is a number from 0 to 18446744073709551615, and `x` is there";

/// Lines of traces that are good.
const GOOD_IN_TRACES: &str = "limit 0 1 5 -
next
next 5
next -
done 1 2 0 67108865 -
refused 1 out of memory
refused 3 moment too late";

/// Compares what is said of each line.
fn expect_notes(rt: &impl Abort, cases: &str, of_trace: bool) {
    for case in cases.split('\n') {
        let (line, wanted) = case.split_once(" = ").expect(rt, "no note");
        let line = line.as_bytes();
        let note = if of_trace {
            why::of_trace(line)
        } else {
            why::of_script(line)
        };
        let note = note.expect(rt, "nothing is said");
        let said = note.as_bytes();
        assert!(rt; said == wanted.as_bytes(), "{said:?}, {line:?}");
    }
}

#[test]
fn bad_lines_say_why(rt: HostRuntime) {
    expect_notes(&rt, SCRIPTS, false);
    expect_notes(&rt, TRACES, true);
}

#[test]
fn good_lines_say_nothing(rt: HostRuntime) {
    for line in GOOD.split('\n') {
        assert!(rt; why::of_script(line.as_bytes()).is_none(), "{line:?}");
    }
    for line in GOOD_IN_TRACES.split('\n') {
        assert!(rt; why::of_trace(line.as_bytes()).is_none(), "{line:?}");
    }
}

#[test]
fn lines_that_are_too_long_say_so(rt: HostRuntime) {
    let line = [b'7'; 257];
    let note = why::of_script(&line).expect(&rt, "nothing is said");
    let wanted = b"column 257: a line of at most 256 bytes, and there are more";
    assert!(rt; note.as_bytes() == wanted.as_slice());
    let note = why::of_trace(&line).expect(&rt, "nothing is said");
    assert!(rt; note.as_bytes() == wanted.as_slice());
}

/// The longest note is not cut.
#[test]
fn long_notes_end_as_they_should(rt: HostRuntime) {
    let line =
        b"limitlink 0 1 2 \xff\xff\xff\xff\xff\xff\xff\xff\xff\xff\xff\xff\xff\xff\xff\xff\xff\
\xff\xff\xff\xff\xff\xff\xff\xff\xff\xff\xff\xff\xff\xff\xff\xff\xff\xff\xff\xff\xff\xff\xff\xff\xff\xff\r";
    let note = why::of_script(line).expect(&rt, "nothing is said");
    let said = note.as_bytes();
    assert!(rt;
        said.ends_with(b"..` is there: a line ends with byte 10, and has no byte 13"),
        "{said:?}"
    );
}

/// Runs a script over memory. Answers how it ended, and leaves the line that was read last.
fn run_over(alloc: Global, script: &str, line: &mut Vec<u8>) -> Outcome {
    let mut input = script.as_bytes();
    let mut printed = Vec::new(alloc);
    run_keeping_line(alloc, &mut input, &mut printed, line)
}

#[test]
fn runs_keep_the_bad_line(rt: HostRuntime) -> Result<(), Fail> {
    let mut line = Vec::from_slice(rt.alloc(), b"what it held")?;
    let outcome = run_over(rt.alloc(), "next\n\nnex\nnext\n", &mut line);
    assert!(rt; outcome == Outcome::BadLine(3));
    assert!(rt; line.as_slice() == b"nex".as_slice());
    Ok(())
}

#[test]
fn checks_keep_the_bad_line(rt: HostRuntime) -> Result<(), Fail> {
    let mut line = Vec::from_slice(rt.alloc(), b"what it held")?;
    let mut input = "next\nnext -\nnex\n".as_bytes();
    let checked = check_keeping_line(rt.alloc(), &mut input, Turns::Any, &mut line);
    assert!(rt; matches!(checked, Err(Fault::BadLine(3))));
    assert!(rt; line.as_slice() == b"nex".as_slice());
    Ok(())
}
