//! A run of the workload.
ghost use Rattle.std.specs.Prelude.{◌≤◌, ◌<◌, ◌+◌, ◌^◌};

use crate::chance::Chance;
use crate::fault::Fault;
use crate::printing::{print_completions, print_next};
use crate::workload::Workload;
use link_scheduler::transmitter::{Outgoing, State};
use std::alloc::Global;
use std::io::Write;

/// A second in nanoseconds.
const SECOND: u64 = 1_000_000_000;

/// What each peer may send and receive, in bytes a second.
const CAP: usize = 125_000_000;

/// A moment after all events.
const FAR: u64 = 1 << 55;

/// What the numbers are drawn from, with twice the number of peers added.
const SEED: u64 = 0x9E37_79B9_7F4A_7C15;

/// A scheduler, and what it is asked to send.
#[derive(Drop)]
struct Bench {
    alloc: Global,
    chance: Chance,
    workload: Workload,
    state: State<u64>,
}

/// Runs the workload of so many peers, and prints what completes.
pub fn run<W: Write>(alloc: Global, peers: u64, output: &mut W) -> Result<(), Fault>
    requires few { peers ≤ 1000 }
{
    let mut bench = Bench::new(alloc, peers)?;
    bench.play(peers, output)
}

impl Bench {
    /// The workload of so many peers, of which nothing has been sent.
    fn new(alloc: Global, peers: u64) -> Result<Bench, Fault>
        requires few { peers ≤ 1000 }
    {
        let mut chance = Chance::new(SEED + 2 * peers);
        let workload = Workload::draw(alloc, &mut chance, peers)?;
        Ok(Bench {
            alloc,
            chance,
            workload,
            state: State::new(alloc),
        })
    }

    /// Two rounds, and what completes after them.
    fn play<W: Write>(&mut self, peers: u64, output: &mut W) -> Result<(), Fault>
        requires few { peers ≤ 1000 }
    {
        self.limit(peers, output)?;
        let time = SECOND * (peers / 8).max(1);
        self.round(0, 0, time, output)?;
        self.round(1, time + SECOND, time, output)?;
        self.advance(FAR, output)?;
        print_next(output, self.state.next())?;
        Ok(())
    }

    /// Sets the caps of all peers.
    fn limit<W: Write>(&mut self, peers: u64, output: &mut W) -> Result<(), Fault> {
        for peer in 0..peers {
            let done = self.state.limit(0, &peer, Some(CAP), Some(CAP))?;
            print_completions(output, &done)?;
        }
        Ok(())
    }

    /// From `start` on the leader sends a block to all others. After `time` each peer sends a vote to
    /// all others, and a second goes by.
    fn round<W: Write>(
        &mut self,
        leader: u64,
        start: u64,
        time: u64,
        output: &mut W,
    ) -> Result<(), Fault>
        requires fits { start + time + 1000000000 < 2 ^ 64 }
    {
        let blocks = self.workload.blocks(self.alloc, leader)?;
        self.send(start, blocks, output)?;
        self.advance(start + time, output)?;
        let votes = self.workload.votes(self.alloc, &mut self.chance, leader)?;
        self.send(start + time, votes, output)?;
        self.advance(start + time + SECOND, output)
    }

    /// Sends the messages in one call.
    fn send<W: Write>(
        &mut self,
        now: u64,
        messages: Vec<Outgoing<u64>>,
        output: &mut W,
    ) -> Result<(), Fault> {
        let done = self.state.enqueue_all(now, messages)?;
        print_completions(output, &done)?;
        Ok(())
    }

    /// Lets time go on.
    fn advance<W: Write>(&mut self, now: u64, output: &mut W) -> Result<(), Fault> {
        let done = self.state.advance(now)?;
        print_completions(output, &done)?;
        Ok(())
    }
}
