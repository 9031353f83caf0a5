//! How far long runs are, and how many commands were refused for want of memory.
use link_console::tally::Tally;
use link_console::watched::Watched;
use std::alloc::Global;
use std::cell::Cell;
use std::io;
use std::io::{Read, Write};
use std::process::Abort;
use std::test::Fail;
use std::time::{Clock, Duration};

/// A clock that is 400 milliseconds further on each time that it is read.
#[derive(Drop)]
struct Steps(Cell<u64>);

impl Clock for Steps {
    fn monotonic(&self) -> io::Result<Duration> {
        let milliseconds = self.0.get().saturating_add(400);
        self.0.set(milliseconds);
        Ok(Duration::from_millis(milliseconds))
    }

    fn since_1970(&self) -> io::Result<Duration> {
        self.monotonic()
    }
}

const SCRIPT: &[u8] = b"limit 0 1 5 -\n\
enqueue 7 1 2 0 5 0 1\n\
next\n\
advance 123\n\
next\n\
rates\n\
limitlink 456 1 2 3\n";

/// Gives the script, a line a read.
#[derive(Drop)]
struct Lines(&'static [u8]);

impl Read for Lines {
    fn read(&mut self, buf: &mut [u8]) -> io::Result<usize> {
        let end = self.0.iter().position(|byte| *byte == b'\n').unwrap_or(0);
        let mut part = self.0.get(..=end).unwrap_or(self.0);
        let given = part.read(buf)?;
        self.0 = self.0.get(given..).unwrap_or(b"");
        Ok(given)
    }
}

/// Reads the script. Answers whether it read it as it is.
fn reads_all<C: Clock, W: Write>(
    alloc: Global,
    watched: &mut Watched<Lines, C, W>,
) -> io::Result<bool> {
    let mut read = Vec::new(alloc);
    let mut part = [0u8; 64];
    for _ in 0..100 {
        let count = watched.read(&mut part)?;
        if count == 0 {
            break;
        }
        read.extend_from_slice(part.get(..count).unwrap_or(b""))?;
    }
    Ok(read.as_slice() == SCRIPT)
}

/// Reads the script, and compares what is told.
fn expect_told(rt: &(impl Abort + AllocGlobal), tells: bool, wanted: &str) -> io::Result<()> {
    let mut told = Vec::new(rt.alloc());
    let clock = Steps(Cell::new(0));
    let mut watched = Watched::new(Lines(SCRIPT), clock, &mut told, "linkrun", tells);
    assert!(rt; reads_all(rt.alloc(), &mut watched)?);
    drop(watched);
    assert!(rt; told.as_slice() == wanted.as_bytes(), "{told:?}");
    Ok(())
}

#[test]
fn long_runs_tell_how_far_they_are(rt: HostRuntime) -> Result<(), Fail> {
    expect_told(
        &rt,
        true,
        "linkrun: 3 lines, moment 7\nlinkrun: 6 lines, moment 123\n",
    )?;
    expect_told(&rt, false, "")?;
    Ok(())
}

/// Takes three bytes a write.
#[derive(Drop)]
struct Slow(Vec<u8>);

impl Write for Slow {
    fn write(&mut self, bytes: &[u8]) -> io::Result<usize> {
        let part = bytes.get(..3).unwrap_or(bytes);
        self.0.extend_from_slice(part)?;
        Ok(part.len())
    }

    fn flush(&mut self) -> io::Result<()> {
        Ok(())
    }
}

/// What a script prints in which two commands were refused for want of memory.
const PRINTED: &[u8] = b"refused 1 out of memory\n\
refused 3 moment too late\n\
done 1 2 0 5 7\n\
refused 1 out of memory\n\
next -\n";

#[test]
fn refusals_for_memory_are_counted(rt: HostRuntime) -> Result<(), Fail> {
    let mut tally = Tally::new(Slow(Vec::new(rt.alloc())));
    assert!(rt; tally.refused() == 0);
    tally.write_all(PRINTED)?;
    tally.flush()?;
    assert!(rt; tally.refused() == 2);
    Ok(())
}
