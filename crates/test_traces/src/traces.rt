//! Traces that agree, and a fault in each kind of line.
use link_traces::linkcheck::report::Verdict;
use link_traces::linkcheck::{Fault, Turns, run, status};
use std::alloc::{AllocError, Global};
use std::io;
use std::io::{ErrorKind, Read, Write};
use std::process::Abort;
use std::test::Fail;

/// Two messages of one pair, the second of which waits for the first, and one that is refused.
const TRACE: &str = "limit 0 1 500000 -
limitlink 0 3 1 7
enqueue 0 1 2 0 1000000 500000000 1
enqueue 0 1 2 0 500000 100000000 1
enqueue 0 5 5 6 0 0 1
done 5 5 6 0 -
next
next 2000000000
advance 2000000000
done 1 2 0 1000000 2500000000
next
next 2400000000
advance 3400000000
done 1 2 0 500000 3500000000
enqueue 3400000000 6 7 0 1 18446744073709551615 1
refused 3 moment too late
next
next -";

/// Gives a byte at a time, so that no line is read ahead of another.
#[derive(Drop)]
struct Slowly<'a> {
    bytes: &'a [u8],
}

impl Read for Slowly<'_> {
    fn read(&mut self, buf: &mut [u8]) -> io::Result<usize> {
        match buf.get_mut(..1) {
            Some(one) => self.bytes.read(one),
            None => Ok(0),
        }
    }
}

/// Runs a trace over memory. Answers the status.
fn status_of(alloc: Global, trace: &[u8], output: &mut Vec<u8>, turns: Turns) -> u8 {
    let mut input = trace;
    let report = run(alloc, &mut input, output, turns);
    status(&report)
}

/// The same where a byte comes at a time.
fn slow_status_of(alloc: Global, trace: &[u8], output: &mut Vec<u8>, turns: Turns) -> u8 {
    let mut input = Slowly { bytes: trace };
    let report = run(alloc, &mut input, output, turns);
    status(&report)
}

/// Runs a trace over memory, and compares what is printed and the status.
fn expect(rt: &(impl Abort + AllocGlobal), trace: &str, printed: &str, wanted: u8) {
    expect_of(rt, trace, Turns::Any, printed, wanted);
}

/// Runs a trace over memory, with the calls that it may have, and compares what is printed and the
/// status; and so where a byte comes at a time.
fn expect_of(
    rt: &(impl Abort + AllocGlobal),
    trace: &str,
    turns: Turns,
    printed: &str,
    wanted: u8,
) {
    let mut output = Vec::new(rt.alloc());
    let ended = status_of(rt.alloc(), trace.as_bytes(), &mut output, turns);
    assert!(rt;
        output.as_slice() == printed.as_bytes(),
        "{output:?}, {trace:?}"
    );
    assert!(rt; ended == wanted, "{ended}, {trace:?}");
    let mut slowly = Vec::new(rt.alloc());
    let ended = slow_status_of(rt.alloc(), trace.as_bytes(), &mut slowly, turns);
    assert!(rt;
        slowly.as_slice() == printed.as_bytes(),
        "a byte at a time: {slowly:?}, {trace:?}"
    );
    assert!(rt; ended == wanted, "a byte at a time: {ended}, {trace:?}");
}

/// Traces and what is printed for them, with `=` between the two and `;` between cases, and the
/// status of all.
fn expect_cases(rt: &(impl Abort + AllocGlobal), cases: &str, wanted: u8) {
    for case in cases.split(';') {
        let (trace, printed) = case.split_once('=').expect(rt, "a case has no `=`");
        expect(rt, trace, printed, wanted);
    }
}

/// A line and its end byte.
fn put_line(text: &mut String, line: &str) -> Result<(), AllocError> {
    text.push_str(line)?;
    text.push_str("\n")
}

/// Puts the trace down with another line at that place, counted from 1.
fn put_changed(text: &mut String, place: u64, line: &str) -> Result<(), AllocError> {
    let mut number = 0u64;
    for old in TRACE.split('\n') {
        number = number.saturating_add(1);
        put_line(text, if number == place { line } else { old })?;
    }
    Ok(())
}

/// The trace with another line at that place, counted from 1.
fn changed(alloc: Global, place: u64, line: &str) -> Result<String, AllocError> {
    let mut text = String::new(alloc);
    put_changed(&mut text, place, line)?;
    Ok(text)
}

/// The trace with another line at that place, and what is printed for it.
fn expect_changed(
    rt: &(impl Abort + AllocGlobal),
    place: u64,
    line: &str,
    printed: &str,
) -> Result<(), Fail> {
    let text = changed(rt.alloc(), place, line)?;
    expect(rt, &text, printed, 3);
    Ok(())
}

/// Changes of the trace and what is printed for them: a place, a line and a text, with `=` between
/// each two, and `;` between changes.
fn expect_changes(rt: &(impl Abort + AllocGlobal), changes: &str) -> Result<(), Fail> {
    for change in changes.split(';') {
        let (place, rest) = change.split_once('=').expect(rt, "no line");
        let (line, printed) = rest.split_once('=').expect(rt, "no text");
        expect_changed(rt, place.parse()?, line, printed)?;
    }
    Ok(())
}

/// Traces that agree, and how many calls and completions they have.
const AGREEING: &str = "next
next -
=agrees: 1 calls, 0 completions
;tolerance 18446744073709551615
next
next -
=agrees: 1 calls, 0 completions
;advance 5
=agrees: 1 calls, 0 completions
;enqueue 0 1 2 0 5 0 1
done 1 2 0 5 0
advance 0
=agrees: 2 calls, 1 completions
;enqueue 0 1 2 0 5 18446744073709551615 1
done 1 2 0 5 18446744073709551615
enqueue 1 1 2 0 5 18446744073709551615 1
refused 3 moment too late
=agrees: 2 calls, 1 completions
";

#[test]
fn the_simulations_own_answers_agree(rt: HostRuntime) -> Result<(), Fail> {
    let unchanged = changed(rt.alloc(), 0, "")?;
    expect(&rt, &unchanged, "agrees: 11 calls, 3 completions\n", 0);
    expect_cases(&rt, AGREEING, 0);
    Ok(())
}

/// Traces without a call, and traces that end before all was said that the last call is answered.
const ENDING_EARLY: &str = "=line 1 is missing: there is no call
;tolerance 0
=line 2 is missing: there is no call
;next
=line 2 is missing: the simulation says `next -`
;next=line 2 is missing: the simulation says `next -`
;tolerance 7
next
=line 3 is missing: the simulation says `next -`
;enqueue 0 1 2 0 5 0 1
=line 2 is missing: the simulation says `done 1 2 0 5 0`
;limit 0 1 1000 -
enqueue 0 1 2 0 500 0 1
enqueue 0 1 3 0 500 0 1
advance 1000000000
done 1 2 0 500 1000000000
=line 6 is missing: the simulation says `done 1 3 0 500 1000000000`
";

#[test]
fn a_trace_that_ends_early_does_not_agree(rt: HostRuntime) {
    expect_cases(&rt, ENDING_EARLY, 1);
}

/// Traces with a call out of turn, and what is printed for them.
const OUT_OF_TURN: &str = "limit 0 1 1000 -
enqueue 0 1 2 7 500 0 1
limit 500000000 1 2000 -
done 1 2 7 500 500000000
=line 3 is out of turn: an event is due at 500000000
agrees by the event rule: 3 calls, 1 completions
;advance 5
enqueue 4 1 2 7 1 0 1
done 1 2 7 1 4
advance 3
=line 2 is out of turn: 5 was reached before
agrees by the event rule: 3 calls, 1 completions
;tolerance 1
advance 5
advance 4
enqueue 4 1 2 7 1 0 1
done 1 2 7 1 5
=line 3 is out of turn: 5 was reached before
agrees within 1 by the event rule: 3 calls, 1 completions
";

/// Of a trace with a call out of turn no more is told where all calls have to be in turn.
fn first_line(case: &str) -> &str {
    case.split('\n').next().unwrap_or("")
}

#[test]
fn a_call_out_of_turn_is_named(rt: HostRuntime) {
    expect_cases(&rt, OUT_OF_TURN, 0);
}

#[test]
fn where_calls_have_to_be_in_turn_none_may_be_out_of_turn(rt: HostRuntime) -> Result<(), Fail> {
    for case in OUT_OF_TURN.split(';') {
        let (trace, printed) = case.split_once('=').expect(&rt, "a case has no `=`");
        let named = first_line(printed);
        let wanted = format!(in rt.alloc(); "{named}\n")?;
        expect_of(&rt, trace, Turns::InTurn, &wanted, 3);
    }
    let unchanged = changed(rt.alloc(), 0, "")?;
    expect_of(
        &rt,
        &unchanged,
        Turns::InTurn,
        "agrees: 11 calls, 3 completions\n",
        0,
    );
    Ok(())
}

/// Calls in turn that come right after an event, at the moment that was reached.
const JUST_IN_TURN: &str = "limit 0 1 1000 -
enqueue 0 1 2 7 500 0 1
advance 500000000
done 1 2 7 500 500000000
limit 500000000 1 2000 -
enqueue 500000000 1 2 7 500 0 1
next
next 750000000
limit 749999999 1 2000 -
advance 900000000
done 1 2 7 500 750000000
";

#[test]
fn calls_at_the_moment_that_is_reached_are_in_turn(rt: HostRuntime) {
    expect_of(
        &rt,
        JUST_IN_TURN,
        Turns::InTurn,
        "agrees: 8 calls, 2 completions\n",
        0,
    );
}

#[test]
fn the_last_line_may_lack_its_end_byte(rt: HostRuntime) {
    expect(&rt, "next\nnext -", "agrees: 1 calls, 0 completions\n", 0);
    expect(
        &rt,
        "next\nnext 5",
        "line 2 says `next 5`, the simulation says `next -`\n",
        3,
    );
}

/// What may stand in place of the first completion, and how far it is off.
const OTHER_COMPLETIONS: &str = "\
done 3 2 0 1000000 2500000000=;done 1 3 0 1000000 2500000000=;done 1 2 1 1000000 2500000000=;\
done 1 2 0 1000001 2500000000=;done 1 2 0 1000000 -=;\
done 1 2 0 1000000 2500000001=, off by 1;done 1 2 0 1000000 2000000000=, off by 500000000;\
next 2500000000=;refused 1 out of memory=";

/// The trace with another line in place of the first completion.
fn expect_other_completion(
    rt: &(impl Abort + AllocGlobal),
    line: &str,
    off: &str,
) -> Result<(), Fail> {
    let printed = format!(in rt.alloc();
        "line 10 says `{line}`, the simulation says `done 1 2 0 1000000 2500000000`{off}\n"
    )?;
    expect_changed(rt, 10, line, &printed)
}

#[test]
fn a_fault_in_each_word_of_a_completion_is_found(rt: HostRuntime) -> Result<(), Fail> {
    for row in OTHER_COMPLETIONS.split(';') {
        let (line, off) = row.split_once('=').expect(&rt, "a row has no `=`");
        expect_other_completion(&rt, line, off)?;
    }
    Ok(())
}

/// Answers that are changed.
const ANSWERS: &str = "\
8=next 1999999999=line 8 says `next 1999999999`, the simulation says `next 2000000000`, off by 1
;8=next -=line 8 says `next -`, the simulation says `next 2000000000`
;18=next 5=line 18 says `next 5`, the simulation says `next -`
;16=refused 4 flow ids used up=\
line 16 says `refused 4 flow ids used up`, the simulation says `refused 3 moment too late`
;16=done 6 7 0 1 3400000000=\
line 16 says `done 6 7 0 1 3400000000`, the simulation says `refused 3 moment too late`
;6=done 5 5 6 0 0=line 6 says `done 5 5 6 0 0`, the simulation says `done 5 5 6 0 -`
";

#[test]
fn a_fault_in_each_kind_of_line_is_found(rt: HostRuntime) -> Result<(), Fail> {
    expect_changes(&rt, ANSWERS)
}

/// Calls that are changed.
const CALLS: &str = "\
1=limit 0 1 500001 -=line 8 says `next 2000000000`, the simulation says `next 1999996001`, off by 3999
;3=enqueue 0 1 2 0 1000000 500000001 1=line 10 says `done 1 2 0 1000000 2500000000`, \
the simulation says `done 1 2 0 1000000 2500000001`, off by 1
";

#[test]
fn a_fault_in_a_call_is_found_where_it_tells(rt: HostRuntime) -> Result<(), Fail> {
    expect_changes(&rt, CALLS)
}

/// Traces that lack a line or have one too many.
const LACKING: &str = "next
next
next -
=line 2 says nothing, the simulation says `next -`
;next
next -
next -
=line 3 says `next -`, the simulation says nothing
;next -
next
next -
=line 1 says `next -`, the simulation says nothing
;enqueue 0 1 2 0 5 0 1
next
next -
=line 2 says nothing, the simulation says `done 1 2 0 5 0`
;limit 0 1 5 -
done 1 2 0 5 0
next
next -
=line 2 says `done 1 2 0 5 0`, the simulation says nothing
";

#[test]
fn lines_that_lack_and_lines_too_many_are_found(rt: HostRuntime) {
    expect_cases(&rt, LACKING, 3);
}

/// Traces with messages that are sent at one moment, where one of them is answered with something.
const AT_ONE_MOMENT: &str = "limit 0 1 500 -
enqueue 0 1 2 0 100 0 1
enqueue 0 3 2 0 50 0 1
enqueue 0 1 2 0 100 0 1
next
=line 4 says nothing, the simulation says `done 3 2 0 50 0`
;limit 0 1 500 -
enqueue 0 1 2 0 100 0 1
enqueue 0 1 2 0 100 0 1
enqueue 0 3 2 0 50 0 1
enqueue 0 3 2 0 50 0 1
advance 0
=line 5 says nothing, the simulation says `done 3 2 0 50 0`
;limit 0 1 500 -
enqueue 0 1 2 0 100 0 1
enqueue 0 3 2 0 50 7 1
next 5
=line 4 says `next 5`, the simulation says `done 3 2 0 50 7`
;limit 0 1 500 -
enqueue 0 1 2 0 0 0 1
enqueue 0 1 2 0 0 0 1
next
=line 3 says nothing, the simulation says `done 1 2 0 0 0`
;limit 0 1 500 -
enqueue 0 1 2 0 1 0 1
enqueue 0 1 2 0 0 0 1
enqueue 0 1 3 0 0 0 0
limit 0 1 - -
=line 5 says nothing, the simulation says `done 1 3 0 0 -`
;limit 5 1 500 -
enqueue 5 1 2 0 100 0 1
enqueue 5 6 7 0 1 18446744073709551615 1
enqueue 5 1 2 0 100 0 1
next
=line 4 says nothing, the simulation says `refused 3 moment too late`
;enqueue 0 1 2 0 5 0 1
enqueue 0 1 2 0 5 0 1
done 1 2 0 5 0
=line 2 says nothing, the simulation says `done 1 2 0 5 0`
;limit 0 1 500 -
enqueue 0 1 2 0 100 0 1
enqueue 0 1 3 0 100 0 1
next
next 200000000
=line 5 says `next 200000000`, the simulation says `next 400000000`, off by 200000000
";

#[test]
fn a_fault_among_messages_of_one_moment_is_found(rt: HostRuntime) {
    expect_cases(&rt, AT_ONE_MOMENT, 3);
    expect(
        &rt,
        "limit 0 1 5 -\nenqueue 0 1 2 0 1 0 1\nenqueue 0 1 2 0 1 0 1\nrun\n",
        "",
        2,
    );
    expect(
        &rt,
        "limit 0 1 5 -\nenqueue 0 1 2 0 1 0 1\nenqueue 0 3 2 0 1 0 1\nrun\n",
        "",
        2,
    );
}

/// A trace of so many messages that are sent at moment 0 and wait or share a cap, and are done one
/// after another.
fn put_many(text: &mut Vec<u8>, count: u64) -> io::Result<()> {
    writeln!(text, "limit 0 1 1000000000 -")?;
    for place in 0..count {
        writeln!(text, "enqueue 0 1 2 {place} 1 0 1")?;
    }
    writeln!(text, "advance {count}")?;
    for place in 0..count {
        let done = place.saturating_add(1);
        writeln!(text, "done 1 2 {place} 1 {done}")?;
    }
    Ok(())
}

/// More than are read ahead, so that they are sent in parts.
#[test]
fn many_messages_of_one_moment_agree(rt: HostRuntime) -> Result<(), Fail> {
    let mut text = Vec::new(rt.alloc());
    put_many(&mut text, 700)?;
    expect_of(
        &rt,
        str::from_utf8(text.as_slice()).unwrap_or(""),
        Turns::InTurn,
        "agrees: 702 calls, 700 completions\n",
        0,
    );
    Ok(())
}

/// Peer 1 sends two messages at three bytes a second, with two moments that are rounded down.
const ROUNDED: &str = "limit 0 1 3 -
enqueue 0 1 2 0 1 0 1
enqueue 0 1 3 0 10 0 1
next
next 666666666
advance 666666667
done 1 2 0 1 666666665
next
next 3666666667
advance 3666666667
done 1 3 0 10 3666666667
";

/// What is printed for the rounded trace with that tolerance, in nanoseconds.
fn expect_within(
    rt: &(impl Abort + AllocGlobal),
    tolerance: u64,
    printed: &str,
    wanted: u8,
) -> Result<(), Fail> {
    let trace = format!(in rt.alloc(); "tolerance {tolerance}\n{ROUNDED}")?;
    expect(rt, &trace, printed, wanted);
    Ok(())
}

#[test]
fn moments_may_be_off_within_the_tolerance(rt: HostRuntime) -> Result<(), Fail> {
    expect_within(&rt, 2, "agrees within 2: 7 calls, 2 completions\n", 0)?;
    expect_within(&rt, 100, "agrees within 2: 7 calls, 2 completions\n", 0)
}

#[test]
fn moments_past_the_tolerance_are_found(rt: HostRuntime) -> Result<(), Fail> {
    expect_within(
        &rt,
        1,
        "line 8 says `done 1 2 0 1 666666665`, the simulation says `done 1 2 0 1 666666667`, \
off by 2\n",
        3,
    )?;
    expect_within(
        &rt,
        0,
        "line 6 says `next 666666666`, the simulation says `next 666666667`, off by 1\n",
        3,
    )
}

/// Lines that no trace has.
const OTHER_LINES: &str = ";stop;rates;routes;rate 1 5/1;hop 1 2;cap 1 5;weight 1 2;flow 1 1 2 1;\
egress 1 5;link 1 2 5;done 1 2 0 5;done 1 2 0 5 5 5;done 1 2 0 5 05;next 5 5;next 18446744073709551616;refused 1;\
refused 3 out of memory;tolerance 5;tolerance -; next;next -\r";

/// The line stands after three good ones.
fn expect_bad(rt: &(impl Abort + AllocGlobal), line: &str) -> Result<(), Fail> {
    let trace = format!(in rt.alloc(); "tolerance 1\nnext\nnext -\n{line}\n")?;
    let mut output = Vec::new(rt.alloc());
    let verdict = run(rt.alloc(), &mut trace.as_bytes(), &mut output, Turns::Any);
    assert!(rt; matches!(verdict, Err(Fault::BadLine(4))), "{line}");
    assert!(rt; status(&verdict) == 2, "{line}");
    assert!(rt; output.is_empty(), "{line}");
    Ok(())
}

#[test]
fn other_lines_are_bad(rt: HostRuntime) -> Result<(), Fail> {
    for line in OTHER_LINES.split(';') {
        expect_bad(&rt, line)?;
    }
    Ok(())
}

/// Gives some bytes, and then fails.
#[derive(Drop)]
struct Broken<'a> {
    bytes: &'a [u8],
}

impl Read for Broken<'_> {
    fn read(&mut self, buf: &mut [u8]) -> io::Result<usize> {
        if self.bytes.is_empty() {
            return Err(io::Error::from(ErrorKind::ConnectionReset));
        }
        self.bytes.read(buf)
    }
}

/// Takes nothing.
#[derive(Drop)]
struct Full;

impl Write for Full {
    fn write(&mut self, _buf: &[u8]) -> io::Result<usize> {
        Err(io::Error::from(ErrorKind::StorageFull))
    }

    fn flush(&mut self) -> io::Result<()> {
        Ok(())
    }
}

#[test]
fn reads_that_fail_are_faults(rt: HostRuntime) {
    let mut input = Broken {
        bytes: b"next\nnext -\n",
    };
    let mut output = Vec::new(rt.alloc());
    let verdict = run(rt.alloc(), &mut input, &mut output, Turns::Any);
    assert!(rt; matches!(verdict, Err(Fault::InputOutput)));
    assert!(rt; status(&verdict) == 1);
    assert!(rt; output.is_empty());
}

#[test]
fn writes_that_fail_are_faults(rt: HostRuntime) {
    let verdict = run(
        rt.alloc(),
        &mut "next\nnext -\n".as_bytes(),
        &mut Full,
        Turns::Any,
    );
    assert!(rt; matches!(verdict, Err(Fault::InputOutput)));
    let mut output = Vec::new(rt.alloc());
    let agreed = run(
        rt.alloc(),
        &mut "next\nnext -\n".as_bytes(),
        &mut output,
        Turns::Any,
    );
    assert!(rt; agreed.is_ok_and(|report| matches!(report.verdict, Verdict::Agrees)));
}
