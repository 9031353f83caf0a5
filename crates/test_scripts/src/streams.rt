//! Scripts over readers and writers that fail, and scripts that nobody would write.
use link_scripts::linkrun::{Outcome, run};
use std::alloc::{AllocError, Global};
use std::io;
use std::io::{ErrorKind, Read, Write};
use std::process::Abort;
use std::test::Fail;

const SCRIPT: &[u8] = b"limit 0 1 1000 -\n\
enqueue 0 1 2 0 500 500000000 1\n\
next\n\
enqueue 0 1 2 0 0 0 1\n\
enqueue 0 1 3 0 1000 0 1\n\
next\n\
advance 1000000000\n\
next\n\
advance 1500000000\n\
next\n";

const PRINTED: &[u8] = b"next 500000000\n\
next 1000000000\n\
done 1 2 0 500 1500000000\n\
next 1500000000\n\
done 1 3 0 1000 1500000000\n\
done 1 2 0 0 1500000000\n\
next -\n";

/// No script here is read or written by as many calls.
const MOST: u64 = 1000;

/// Runs a script over memory.
fn run_over(alloc: Global, script: &[u8], printed: &mut Vec<u8>) -> Outcome {
    let mut input = script;
    run(alloc, &mut input, printed)
}

/// Runs a script over memory, and compares what it prints and how it ends.
fn printed_by(rt: &(impl Abort + AllocGlobal), script: &[u8], wanted: &str, outcome: Outcome) {
    let mut printed = Vec::new(rt.alloc());
    let ended = run_over(rt.alloc(), script, &mut printed);
    assert!(rt; ended == outcome, "{ended:?}, {script:?}");
    assert!(rt;
        printed.as_slice() == wanted.as_bytes(),
        "{printed:?}, {script:?}"
    );
}

/// Counts a call. Answers whether it fails: 1 is the next, and at 0 none does, any more.
fn fails(left: &mut u64) -> bool {
    let is_last = *left == 1;
    *left = left.saturating_sub(1);
    is_last
}

fn fault() -> io::Error {
    io::Error::from(ErrorKind::BrokenPipe)
}

/// Gives the script, seven bytes a read at most. One of the reads fails.
#[derive(Drop)]
struct Source {
    script: &'static [u8],
    failing: u64,
}

impl Read for Source {
    fn read(&mut self, buf: &mut [u8]) -> io::Result<usize> {
        if fails(&mut self.failing) {
            return Err(fault());
        }
        let mut part = self.script.get(..7).unwrap_or(self.script);
        let given = part.read(buf)?;
        self.script = self.script.get(given..).unwrap_or(b"");
        Ok(given)
    }
}

/// Takes five bytes a write at most. One of the writes and flushes fails.
#[derive(Drop)]
struct Sink {
    written: Vec<u8>,
    failing: u64,
}

impl Write for Sink {
    fn write(&mut self, buf: &[u8]) -> io::Result<usize> {
        if fails(&mut self.failing) {
            return Err(fault());
        }
        let part = buf.get(..5).unwrap_or(buf);
        self.written.extend_from_slice(part)?;
        Ok(part.len())
    }

    fn flush(&mut self) -> io::Result<()> {
        if fails(&mut self.failing) {
            return Err(fault());
        }
        Ok(())
    }
}

/// Runs the script over a reader and a writer.
fn run_between(alloc: Global, source: &mut Source, sink: &mut Sink) -> Outcome {
    run(alloc, source, sink)
}

/// Runs the script with one read and one write failing. Answers whether one failed. Then what was
/// written is a beginning.
fn is_broken(rt: &(impl Abort + AllocGlobal), reads: u64, writes: u64) -> bool {
    let mut source = Source {
        script: SCRIPT,
        failing: reads,
    };
    let mut sink = Sink {
        written: Vec::new(rt.alloc()),
        failing: writes,
    };
    let outcome = run_between(rt.alloc(), &mut source, &mut sink);
    let has_failed = source.failing == 0 && reads > 0 || sink.failing == 0 && writes > 0;
    expect_broken(rt, has_failed, outcome, &sink.written);
    has_failed
}

/// What was written with a fault is a beginning, and without one it is all.
fn expect_broken(rt: &impl Abort, has_failed: bool, outcome: Outcome, written: &[u8]) {
    let wanted = if has_failed {
        Outcome::InputOutput
    } else {
        Outcome::Whole
    };
    assert!(rt; outcome == wanted, "{outcome:?} after {written:?}");
    assert!(rt; PRINTED.starts_with(written), "{written:?}");
    assert!(rt; has_failed || written.len() == PRINTED.len(), "{written:?}");
}

fn count_broken_reads(rt: &(impl Abort + AllocGlobal)) -> u64 {
    for call in 1..MOST {
        if !is_broken(rt, call, 0) {
            return call - 1;
        }
    }
    MOST
}

fn count_broken_writes(rt: &(impl Abort + AllocGlobal)) -> u64 {
    for call in 1..MOST {
        if !is_broken(rt, 0, call) {
            return call - 1;
        }
    }
    MOST
}

#[test]
fn each_read_and_each_write_fails_in_turn(rt: HostRuntime) {
    assert!(rt; !is_broken(&rt, 0, 0));
    let reads = count_broken_reads(&rt);
    assert!(rt; reads > 20 && reads < MOST, "{reads} reads");
    let writes = count_broken_writes(&rt);
    assert!(rt; writes > 20 && writes < MOST, "{writes} writes");
}

/// The next of a fixed sequence of bytes.
fn next_byte(chance: &mut u64) -> u8 {
    *chance ^= *chance << 13;
    *chance ^= *chance >> 7;
    *chance ^= *chance << 17;
    (*chance % 256) as u8
}

/// The number of the first line that is not empty, counted from 1.
fn first_line(script: &[u8]) -> Option<u64> {
    let empty = script.iter().position(|byte| *byte != b'\n')?;
    Some((empty as u64).saturating_add(1))
}

/// Bytes by chance are a bad line from the first that is not empty.
#[test]
fn bytes_by_chance_are_a_bad_line(rt: HostRuntime) -> Result<(), Fail> {
    let mut chance = 88172645463325252u64;
    for length in 0..400usize {
        let mut script = Vec::new(rt.alloc());
        for _ in 0..length {
            script.push(next_byte(&mut chance))?;
        }
        let outcome = match first_line(&script) {
            Some(number) => Outcome::BadLine(number),
            None => Outcome::Whole,
        };
        printed_by(&rt, &script, "", outcome);
    }
    Ok(())
}

/// What stands in a line before a number and after it.
const AROUND: [(&str, &str); 4] = [
    ("advance ", "\n"),
    ("egress 1 ", ""),
    ("flow 1 2 3 ", "\nnext"),
    ("enqueue 0 1 2 0 ", " 0 1\n"),
];

/// A script with a word of so many digits between those texts in its second line.
fn digits_between(
    alloc: Global,
    before: &str,
    digits: usize,
    after: &str,
) -> Result<Vec<u8>, AllocError> {
    let mut script = Vec::new(alloc);
    script.extend_from_slice(b"next\n")?;
    script.extend_from_slice(before.as_bytes())?;
    for _ in 0..digits {
        script.push(b'9')?;
    }
    script.extend_from_slice(after.as_bytes())?;
    Ok(script)
}

/// A word of so many digits stands where a number may stand.
fn expect_bad_number(rt: &(impl Abort + AllocGlobal), digits: usize) -> Result<(), Fail> {
    for (before, after) in AROUND {
        let script = digits_between(rt.alloc(), before, digits, after)?;
        printed_by(rt, &script, "next -\n", Outcome::BadLine(2));
    }
    Ok(())
}

#[test]
fn numbers_of_many_digits_are_bad(rt: HostRuntime) -> Result<(), Fail> {
    for digits in [39usize, 40, 64, 200, 230, 300, 70_000] {
        expect_bad_number(&rt, digits)?;
    }
    Ok(())
}

#[test]
fn a_script_goes_on_at_the_end_of_time(rt: HostRuntime) {
    let script = "enqueue 0 1 2 0 1 18446744073709551615 1\n\
limit 0 1 1000000000 -\n\
enqueue 0 1 2 0 1 1 1\n\
next\n\
advance 18446744073709551614\n\
next\n\
advance 18446744073709551615\n\
next\n";
    let printed = "done 1 2 0 1 18446744073709551615\n\
next 18446744073709551614\n\
next 18446744073709551615\n\
refused 3 moment too late\n\
next 18446744073709551615\n";
    printed_by(&rt, script.as_bytes(), printed, Outcome::Whole);
}
