//! A partner that asks line by line, and looks at what was written before each line.
use link_scripts::linkrun::{Outcome, run};
use std::alloc::Global;
use std::cell::Cell;
use std::io;
use std::io::{ErrorKind, Read, Write};
use std::process::Abort;
use std::test::Fail;

/// How many bytes were written, and how many of them had been flushed.
#[derive(Drop)]
struct Seen {
    written: Cell<usize>,
    flushed: Cell<usize>,
}

/// A writer that counts.
#[derive(Drop)]
struct Counting<'a> {
    seen: &'a Seen,
    printed: Vec<u8>,
    /// The flush that fails, counted from 1.
    fails_at: usize,
    flushes: usize,
}

impl Write for Counting<'_> {
    fn write(&mut self, buf: &[u8]) -> io::Result<usize> {
        self.printed.extend_from_slice(buf)?;
        self.seen.written.set(self.printed.len());
        Ok(buf.len())
    }

    fn flush(&mut self) -> io::Result<()> {
        self.flushes = self.flushes.wrapping_add(1);
        if self.flushes == self.fails_at {
            return Err(io::Error::from(ErrorKind::BrokenPipe));
        }
        self.seen.flushed.set(self.printed.len());
        Ok(())
    }
}

/// A reader that hands out one piece at each read, and notes how much was flushed before it.
#[derive(Drop)]
struct Asking<'a> {
    seen: &'a Seen,
    pieces: &'a [&'a str],
    /// How many of the pieces were handed out.
    given: usize,
    /// Flushed before each read.
    before: Vec<usize>,
}

impl Read for Asking<'_> {
    fn read(&mut self, buf: &mut [u8]) -> io::Result<usize> {
        self.before.push(self.seen.flushed.get())?;
        let place = self.given;
        self.given = place.wrapping_add(1);
        match self.pieces.get(place) {
            Some(piece) => piece.as_bytes().read(buf),
            None => Ok(0),
        }
    }
}

/// Runs a script over the reader and the writer.
fn run_between(alloc: Global, input: &mut Asking<'_>, output: &mut Counting<'_>) -> Outcome {
    run(alloc, input, output)
}

/// Runs the pieces, and compares what was flushed before each read, and what was printed.
fn expect(
    rt: &(impl Abort + AllocGlobal),
    pieces: &[&str],
    before: &[usize],
    printed: &str,
    fails_at: usize,
    outcome: Outcome,
) {
    let seen = Seen {
        written: Cell::new(0),
        flushed: Cell::new(0),
    };
    let mut output = Counting {
        seen: &seen,
        printed: Vec::new(rt.alloc()),
        fails_at,
        flushes: 0,
    };
    let mut input = Asking {
        seen: &seen,
        pieces,
        given: 0,
        before: Vec::new(rt.alloc()),
    };
    let ended = run_between(rt.alloc(), &mut input, &mut output);
    assert!(rt; ended == outcome, "{ended:?}");
    assert!(rt; input.before.as_slice() == before);
    assert!(rt; output.printed.as_slice() == printed.as_bytes());
}

#[test]
fn each_answer_is_written_before_the_next_line_is_asked_for(rt: HostRuntime) {
    expect(
        &rt,
        &[
            "limit 0 1 1000 -\n",
            "enqueue 0 1 2 7 1000 500000000 1\n",
            "next\n",
            "advance 1000000000\n",
            "next\n",
        ],
        &[0, 0, 0, 16, 43, 50],
        "next 1000000000\ndone 1 2 7 1000 1500000000\nnext -\n",
        0,
        Outcome::Whole,
    );
}

#[test]
fn pieces_of_lines_are_asked_for_after_what_came_before(rt: HostRuntime) {
    expect(
        &rt,
        &["next\nnext\nne", "xt", "\n\nnext\nnext"],
        &[0, 14, 14, 28],
        "next -\nnext -\nnext -\nnext -\nnext -\n",
        0,
        Outcome::Whole,
    );
}

#[test]
fn whole_lines_that_were_read_ahead_are_answered_at_once(rt: HostRuntime) {
    expect(
        &rt,
        &["next\nflow 1 1 2 1\nrates\n\n", "", "next\n"],
        &[0, 24],
        "next -\nrate 1 unlimited\n",
        0,
        Outcome::Whole,
    );
    expect(
        &rt,
        &["next\nstop\nnext\n", "next\n"],
        &[0],
        "next -\n",
        0,
        Outcome::BadLine(2),
    );
}

#[test]
fn messages_are_sent_before_more_lines_are_asked_for(rt: HostRuntime) {
    expect(
        &rt,
        &[
            "enqueue 0 1 2 0 1 5 1\nenqueue 0 1 3 0 1 6 1\n",
            "enqueue 1 2 3 0 1 0 1\n",
        ],
        &[0, 30, 45],
        "done 1 2 0 1 5\ndone 1 3 0 1 6\ndone 2 3 0 1 1\n",
        0,
        Outcome::Whole,
    );
}

#[test]
fn what_cannot_be_flushed_is_not_followed_by_a_read(rt: HostRuntime) {
    expect(
        &rt,
        &["next\n", "next\n", "next\n"],
        &[0, 7],
        "next -\nnext -\n",
        3,
        Outcome::InputOutput,
    );
}
