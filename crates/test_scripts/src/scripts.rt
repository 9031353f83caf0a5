//! Scripts, what they print, and how they end.
mod broadcasts;
mod partner;
mod routes;
mod schedules;

use link_scripts::linkrun::{Outcome, run};
use std::alloc::Global;
use std::io;
use std::io::{ErrorKind, Read, Write};
use std::process::Abort;
use std::test::Fail;

/// Runs a script over memory.
fn run_over(alloc: Global, script: &[u8], printed: &mut Vec<u8>) -> Outcome {
    let mut input = script;
    run(alloc, &mut input, printed)
}

/// Runs a script over memory, and compares what it prints and how it ends.
fn expect(rt: &(impl Abort + AllocGlobal), script: &[u8], output: &str, outcome: Outcome) {
    let mut printed = Vec::new(rt.alloc());
    let ended = run_over(rt.alloc(), script, &mut printed);
    assert!(rt; ended == outcome, "{ended:?}, {script:?}");
    assert!(rt;
        printed.as_slice() == output.as_bytes(),
        "{printed:?}, {script:?}"
    );
}

/// A script that prints nothing, and ends so.
fn expect_silence(rt: &(impl Abort + AllocGlobal), script: &str, outcome: Outcome) {
    expect(rt, script.as_bytes(), "", outcome);
}

/// Scripts of one bad line, with `;` between each two.
fn expect_bad(rt: &(impl Abort + AllocGlobal), lines: &str) {
    for line in lines.split(';') {
        expect_silence(rt, line, Outcome::BadLine(1));
    }
}

/// Scripts and what they print, with `=` between the two and `;` between cases.
fn expect_cases(rt: &(impl Abort + AllocGlobal), cases: &str) {
    for case in cases.split(';') {
        let (script, output) = case.split_once('=').expect(rt, "a case has no `=`");
        expect(rt, script.as_bytes(), output, Outcome::Whole);
    }
}

/// Scripts of one question each.
const RATES: &str = "=;rates
=;rates=;egress 1 1000
flow 1 1 10 1
flow 2 1 11 1
rates
=rate 1 500/1
rate 2 500/1
;egress 1 1000000
egress 2 750000
egress 3 100000
ingress 1 500000
ingress 2 250000
ingress 3 1000000
flow 1 1 2 1
flow 2 1 2 1
flow 3 2 3 1
flow 4 1 3 1
flow 5 3 2 1
rates
=rate 1 250000/3
rate 2 250000/3
rate 3 500000/1
rate 4 500000/1
rate 5 250000/3
;flow 1 1 2 0
rates
=rate 1 unlimited
;egress 1 10
egress 1 -
flow 4 1 2 1
rates
egress 1 9
rates
=rate 4 unlimited
rate 4 9/1
;egress 1 10
ingress 2 2
flow 7 1 2 1
flow 7 1 3 1
rates
=rate 7 8/1
;egress 1 100
ingress 2 0
ingress 3 0
flow 1 1 2 1
flow 2 1 3 0
rates=rate 1 0/1
rate 2 100/1
";

#[test]
fn scripts_print_rates(rt: HostRuntime) {
    expect_cases(&rt, RATES);
}

/// Scripts that ask again.
const RATES_AGAIN: &str = "flow 9 1 2 1
flow 3 1 2 1
flow 18446744073709551615 1 2 1
flow 0 1 2 1
egress 1 1
rates
rates
=rate 0 1/4
rate 3 1/4
rate 9 1/4
rate 18446744073709551615 1/4
rate 0 1/4
rate 3 1/4
rate 9 1/4
rate 18446744073709551615 1/4
;egress 1 7
flow 1 1 2 1
rates

flow 2 1 2 1
rates
flow 3 1 2 1
rates
=rate 1 7/1
rate 1 7/2
rate 2 7/2
rate 1 7/3
rate 2 7/3
rate 3 7/3
";

#[test]
fn rates_are_of_all_flows_so_far(rt: HostRuntime) {
    expect_cases(&rt, RATES_AGAIN);
}

#[test]
fn what_was_printed_stands(rt: HostRuntime) {
    expect(
        &rt,
        b"egress 18446744073709551615 340282366920938463463374607431768211455\n\
flow 1 18446744073709551615 18446744073709551615 1\nrates\n\
ingress 18446744073709551615 0\nrates\ningress 18446744073709551615 -\nrates\n\
nonsense\nrates\n",
        "rate 1 340282366920938463463374607431768211455/1\nrate 1 0/1\n\
rate 1 340282366920938463463374607431768211455/1\n",
        Outcome::BadLine(8),
    );
}

#[test]
fn a_refused_command_is_passed_over(rt: HostRuntime) {
    expect(
        &rt,
        b"egress 1 1\ningress 2 340282366920938463463374607431768211455\nflow 1 1 2 1\n\
flow 2 1 3 1\nflow 3 1 4 1\nflow 4 5 2 1\nrates\ningress 2 1\nrates\n",
        "refused 2 number too large\nrate 1 1/3\nrate 2 1/3\nrate 3 1/3\nrate 4 2/3\n",
        Outcome::Whole,
    );
}

/// Scripts that print nothing.
const LINES: &str = "\n;\n\n\n;\
flow 1 1 2 1;flow 1 1 2 1\n;\n\nflow 0 0 0 0\n\n;\
flow 18446744073709551615 18446744073709551615 18446744073709551615 1\n;egress 0 0\n;\
egress 18446744073709551615 340282366920938463463374607431768211455\n;egress 1 -\n;ingress 0 0\n;\
ingress 18446744073709551615 340282366920938463463374607431768211455\n;ingress 1 -;link 0 0 0\n;\
link 18446744073709551615 18446744073709551615 340282366920938463463374607431768211455\n;link 1 2 -;limit 0 0 0 0\n;\
limit 0 1 - -\n;limit 18446744073709551615 18446744073709551615 18446744073709551615 18446744073709551615\n;\
limitlink 0 0 0 0\n;limitlink 0 1 1 -\n;\
limitlink 18446744073709551615 18446744073709551615 18446744073709551615 18446744073709551615;advance 0\n;\
advance 18446744073709551615";

#[test]
fn lines_of_the_language(rt: HostRuntime) {
    for script in LINES.split(';') {
        expect_silence(&rt, script, Outcome::Whole);
    }
}

/// Lines of other words, and of other numbers of words.
const OTHER_WORDS: &str = "\
flow;flow 1 1 2;flow 1 1 2 1 1;egress;egress 1;egress 1 1 1;ingress 1;ingress 1 1 1;rates 1;Rates;rate;ratess;link;\
link 1 2;link 1 2 3 4;limit;limit 0 1 1;limit 0 1 1 1 1;limitlink 0 1 2;limitlink 0 1 2 3 4;enqueue 0 1 2 0 1 0;\
enqueue 0 1 2 0 1 0 1 1;advance;advance 0 0;next 0;Next;nexts;limits 0 1 1 -;stop";

/// Lines with other spaces.
const OTHER_SPACES: &str = " ;  ; rates;rates ;\
flow  1 1 2 1;flow 1 1 2  1; flow 1 1 2 1;flow 1 1 2 1 ;egress 1  1;egress 1 1 ;egress\t1 1";

/// Lines with other bytes.
const OTHER_BYTES: &str = "\
rates\r;\r;flow 1 1 2 1\r;egress 1\r 1;egress 1 1\0;egress 1 1a;egress 1 0x1;egress 1 1_0;egress 1 \u{661};\
rat\u{e9}s";

/// Lines with signs and leading zeros.
const OTHER_NUMBERS: &str = "\
flow 01 1 2 1;flow 1 00 2 1;flow 1 1 02 1;flow 1 1 2 01;flow 1 1 2 00;flow +1 1 2 1;flow 1 -1 2 1;flow 1 1 2 +1;\
egress 01 1;egress 1 01;egress 1 00;egress 1 -0;egress 1 +1;egress 1 --;egress - 1;ingress 007 1;ingress 1 09;\
link 1 2 03;limit 00 1 1 1;limit 0 1 +1 1;limit 0 1 1 --;limit - 1 1 1;limitlink 0 1 2 03;enqueue 0 1 2 0 01 0 1;\
enqueue 0 1 2 0 - 0 1;enqueue 0 1 2 0 1 - 1;enqueue 0 1 2 0 1 0 01;advance 07;advance -";

/// Lines with numbers just past their ranges.
const PAST_THE_RANGE: &str = "\
flow 18446744073709551616 1 2 1;flow 1 18446744073709551616 2 1;flow 1 1 18446744073709551616 1;flow 1 1 2 2;\
egress 18446744073709551616 1;egress 1 340282366920938463463374607431768211456;ingress 18446744073709551616 1;\
ingress 1 340282366920938463463374607431768211456;egress 1 1000000000000000000000000000000000000000;\
link 18446744073709551616 2 1;link 1 18446744073709551616 1;link 1 2 340282366920938463463374607431768211456;\
limit 18446744073709551616 1 1 1;limit 0 18446744073709551616 1 1;limit 0 1 18446744073709551616 1;\
limit 0 1 1 18446744073709551616;limitlink 18446744073709551616 1 2 1;limitlink 0 18446744073709551616 2 1;\
limitlink 0 1 18446744073709551616 1;limitlink 0 1 2 18446744073709551616;enqueue 18446744073709551616 1 2 0 1 0 1;\
enqueue 0 18446744073709551616 2 0 1 0 1;enqueue 0 1 18446744073709551616 0 1 0 1;\
enqueue 0 1 2 18446744073709551616 1 0 1;enqueue 0 1 2 0 67108865 0 1;enqueue 0 1 2 0 1 18446744073709551616 1;\
enqueue 0 1 2 0 1 0 2;advance 18446744073709551616";

#[test]
fn lines_of_other_words_are_bad(rt: HostRuntime) {
    expect_bad(&rt, OTHER_WORDS);
}

#[test]
fn lines_with_other_spaces_are_bad(rt: HostRuntime) {
    expect_bad(&rt, OTHER_SPACES);
}

#[test]
fn lines_with_other_bytes_are_bad(rt: HostRuntime) {
    expect_bad(&rt, OTHER_BYTES);
}

#[test]
fn signs_and_leading_zeros_are_bad(rt: HostRuntime) {
    expect_bad(&rt, OTHER_NUMBERS);
}

#[test]
fn numbers_past_their_ranges_are_bad(rt: HostRuntime) {
    expect_bad(&rt, PAST_THE_RANGE);
}

#[test]
fn a_bad_line_ends_the_run(rt: HostRuntime) {
    expect_silence(&rt, "flow 1 1 2 1\nstop\n", Outcome::BadLine(2));
    expect_silence(&rt, "flow 3 1 2 2\n", Outcome::BadLine(1));
    expect_silence(
        &rt,
        "\n\nflow 1 1 2 1\n\nstop\nrates\n",
        Outcome::BadLine(5),
    );
    expect_silence(
        &rt,
        "flow 1 1 2 1\nflow 1 1 2\nflow 1\n",
        Outcome::BadLine(2),
    );
    expect(&rt, b"\negress 1 \xff\n", "", Outcome::BadLine(2));
}

/// Gives a byte many times, and then others.
#[derive(Drop)]
struct Long<'a> {
    byte: u8,
    times: usize,
    rest: &'a [u8],
}

impl Read for Long<'_> {
    fn read(&mut self, buf: &mut [u8]) -> io::Result<usize> {
        if self.times == 0 {
            return self.rest.read(buf);
        }
        if buf.is_empty() {
            return Ok(0);
        }
        self.times -= 1;
        buf[0] = self.byte;
        Ok(1)
    }
}

/// How a script ends of a byte so many times and then a text, which prints nothing.
fn ended_long(rt: &(impl Abort + AllocGlobal), byte: u8, times: usize, rest: &str) -> Outcome {
    let mut input = Long {
        byte,
        times,
        rest: rest.as_bytes(),
    };
    let mut printed = Vec::new(rt.alloc());
    let ended = run(rt.alloc(), &mut input, &mut printed);
    assert!(rt; printed.is_empty());
    ended
}

#[test]
fn long_lines_are_bad(rt: HostRuntime) {
    for (times, rest) in [
        (255, "\nnext"),
        (256, "\n"),
        (256, ""),
        (257, "\n"),
        (257, ""),
        (20000, "\n"),
    ] {
        let ended = ended_long(&rt, b'7', times, rest);
        assert!(rt; ended == Outcome::BadLine(1), "{times}");
    }
}

#[test]
fn lines_are_counted(rt: HostRuntime) {
    assert!(rt; ended_long(&rt, b'\n', 0, "stop") == Outcome::BadLine(1));
    assert!(rt; ended_long(&rt, b'\n', 70000, "stop") == Outcome::BadLine(70001));
}

/// Gives some bytes, one by one and with interruptions, and then what `last` says: the end once,
/// and a fault at each other read.
#[derive(Drop)]
struct Fragile<'a> {
    bytes: &'a [u8],
    is_interrupted: bool,
    has_end: bool,
}

impl Read for Fragile<'_> {
    fn read(&mut self, buf: &mut [u8]) -> io::Result<usize> {
        self.is_interrupted = !self.is_interrupted;
        if self.is_interrupted {
            return Err(io::Error::from(ErrorKind::Interrupted));
        }
        if !self.bytes.is_empty() {
            let most = buf.len().min(1);
            return self.bytes.read(&mut buf[..most]);
        }
        if self.has_end {
            self.has_end = false;
            return Ok(0);
        }
        Err(io::Error::from(ErrorKind::ConnectionReset))
    }
}

/// What a script ends with whose reader breaks, or breaks only after its end.
fn broken(rt: &impl AllocGlobal, script: &[u8], has_end: bool, output: &mut Vec<u8>) -> Outcome {
    let mut input = Fragile {
        bytes: script,
        is_interrupted: false,
        has_end,
    };
    run(rt.alloc(), &mut input, output)
}

/// The same for a script, with what it prints.
fn expect_broken(
    rt: &(impl Abort + AllocGlobal),
    script: &str,
    has_end: bool,
    output: &str,
    outcome: Outcome,
) {
    let mut printed = Vec::new(rt.alloc());
    let ended = broken(rt, script.as_bytes(), has_end, &mut printed);
    assert!(rt; ended == outcome, "{ended:?}, {script:?}");
    assert!(rt;
        printed.as_slice() == output.as_bytes(),
        "{printed:?}, {script:?}"
    );
}

#[test]
fn failing_reads_are_faults(rt: HostRuntime) {
    for script in ["", "flow 1 1 2 1\n", "flow 1 1 2 1", "\n\nstop"] {
        expect_broken(&rt, script, false, "", Outcome::InputOutput);
    }
    expect_broken(
        &rt,
        "flow 5 1 2 1\nrates\nrates",
        false,
        "rate 5 unlimited\n",
        Outcome::InputOutput,
    );
}

#[test]
fn failing_reads_after_the_end_are_no_faults(rt: HostRuntime) {
    for script in ["", "flow 1 1 2 1\n", "flow 1 1 2 1"] {
        expect_broken(&rt, script, true, "", Outcome::Whole);
    }
    expect_broken(&rt, "\n\nstop", true, "", Outcome::BadLine(3));
    expect_broken(&rt, "\nstop\n", true, "", Outcome::BadLine(2));
}

/// A script of a byte so many times, whose reader breaks, or breaks only after its end.
fn expect_broken_line(
    rt: &(impl Abort + AllocGlobal),
    length: usize,
    has_end: bool,
    outcome: Outcome,
) -> Result<(), Fail> {
    let line = vec![in rt.alloc(); b'7'; length]?;
    let mut printed = Vec::new(rt.alloc());
    let ended = broken(rt, &line, has_end, &mut printed);
    assert!(rt; ended == outcome, "{length} {has_end}");
    Ok(())
}

#[test]
fn a_long_line_is_bad_at_its_byte_257(rt: HostRuntime) -> Result<(), Fail> {
    expect_broken_line(&rt, 256, false, Outcome::InputOutput)?;
    expect_broken_line(&rt, 256, true, Outcome::BadLine(1))?;
    expect_broken_line(&rt, 257, false, Outcome::BadLine(1))?;
    expect_broken_line(&rt, 257, true, Outcome::BadLine(1))
}

/// Takes so many bytes, and then fails. Its flush may fail too.
#[derive(Drop)]
struct Clogged {
    room: usize,
    can_flush: bool,
}

impl Write for Clogged {
    fn write(&mut self, buf: &[u8]) -> io::Result<usize> {
        if self.room == 0 {
            return Err(io::Error::from(ErrorKind::BrokenPipe));
        }
        let taken = buf.len().min(self.room);
        self.room -= taken;
        Ok(taken)
    }

    fn flush(&mut self) -> io::Result<()> {
        if self.can_flush {
            Ok(())
        } else {
            Err(io::Error::from(ErrorKind::BrokenPipe))
        }
    }
}

/// How a script ends whose output takes so many bytes.
fn outcome_into(rt: &impl AllocGlobal, script: &str, room: usize, can_flush: bool) -> Outcome {
    let mut input = script.as_bytes();
    run(rt.alloc(), &mut input, &mut Clogged { room, can_flush })
}

fn expect_into(
    rt: &(impl Abort + AllocGlobal),
    script: &str,
    room: usize,
    can_flush: bool,
    outcome: Outcome,
) {
    let ended = outcome_into(rt, script, room, can_flush);
    assert!(rt;
        ended == outcome,
        "{ended:?}, {script:?} {room} {can_flush}"
    );
}

#[test]
fn failing_writes_are_faults(rt: HostRuntime) {
    let script = "flow 5 1 2 1\nrates\nstop\n";
    expect_into(&rt, script, 17, true, Outcome::BadLine(3));
    expect_into(&rt, script, 16, true, Outcome::InputOutput);
    expect_into(&rt, script, 0, true, Outcome::InputOutput);
    expect_into(&rt, script, 17, false, Outcome::InputOutput);
}

#[test]
fn failing_flushes_are_faults(rt: HostRuntime) {
    expect_into(&rt, "stop", 0, true, Outcome::BadLine(1));
    expect_into(&rt, "stop", 0, false, Outcome::InputOutput);
    expect_into(&rt, "", 0, true, Outcome::Whole);
    expect_into(&rt, "", 0, false, Outcome::InputOutput);
}

/// Gives a flow, and then asks for its rate without end.
#[derive(Drop)]
struct Asking {
    is_begun: bool,
}

impl Read for Asking {
    fn read(&mut self, buf: &mut [u8]) -> io::Result<usize> {
        let mut text: &[u8] = if self.is_begun {
            b"rates\n"
        } else {
            b"flow 5 1 2 1\n"
        };
        self.is_begun = true;
        text.read(buf)
    }
}

#[test]
fn a_failing_write_ends_the_run(rt: HostRuntime) {
    let mut input = Asking { is_begun: false };
    let mut output = Clogged {
        room: 100_000,
        can_flush: true,
    };
    let ended = run(rt.alloc(), &mut input, &mut output);
    assert!(rt; ended == Outcome::InputOutput, "{ended:?}");
    assert!(rt; output.room == 0);
}

/// The status and the text of an outcome.
fn expect_text(
    rt: &(impl Abort + AllocGlobal),
    outcome: Outcome,
    status: u8,
    text: &str,
) -> Result<(), Fail> {
    assert!(rt; outcome.status() == status, "{text}");
    assert!(rt;
        format!(in rt.alloc(); "{outcome}")?.as_str() == text,
        "{text}"
    );
    Ok(())
}

#[test]
fn outcomes_have_a_status_and_a_text(rt: HostRuntime) -> Result<(), Fail> {
    expect_text(&rt, Outcome::Whole, 0, "")?;
    expect_text(&rt, Outcome::BadLine(1), 2, "bad line 1")?;
    let last = Outcome::BadLine(18446744073709551615);
    expect_text(&rt, last, 2, "bad line 18446744073709551615")?;
    expect_text(&rt, Outcome::InputOutput, 1, "input or output fault")?;
    expect_text(&rt, Outcome::NoMemory, 1, "out of memory")
}
