//! The workload `broadcast-N` of `bench/workloads.py`, with one call of the scheduler for all that is
//! sent at a moment.
//!
//! N, its one argument, is how many peers there are. It prints what `linkrun` prints for the script.
#![tactic(auto)]

ghost use Rattle.std.specs.Prelude.{◌≤◌, IfOk, IfSome};

mod bench;
mod chance;
mod fault;
mod link;
mod printing;
mod workload;

use crate::fault::Fault;
use std::alloc::Global;
use std::io::{BufWriter, Write};
use std::process::ExitCode;
use std::rt::Env;
use std::{env, io};

/// With one peer there is nobody to send to.
const FEWEST_PEERS: u64 = 2;

/// There are nearly as many links as the square of this.
const MOST_PEERS: u64 = 1000;

fn main(rt: HostRuntime) -> ExitCode {
    match run(&rt) {
        Ok(()) => ExitCode::SUCCESS,
        Err(fault) => {
            let _ = rt.eprintln(fault);
            ExitCode::FAILURE
        }
    }
}

/// Runs the workload that the arguments ask for.
fn run<R: Env + Print + Alloc<A = Global>>(rt: &R) -> Result<(), Fault> {
    let peers = peers_asked(rt)?;
    let mut output = BufWriter::new(rt.alloc(), io::writer(rt))?;
    bench::run(rt.alloc(), peers, &mut output)?;
    output.flush()?;
    Ok(())
}

/// The number of peers that the arguments ask for.
fn peers_asked<R: Env + Alloc>(rt: &R) -> Result<u64, Fault>
    ensures in_range { IfOk result (λ peers. (2 ≤ peers) × (peers ≤ 1000)) }
{
    let mut arguments = env::args(rt)?;
    let _program = arguments.next();
    let peers = match (arguments.next(), arguments.next()) {
        (Some(word), None) => peers_in(word.as_str()),
        _ => None,
    };
    peers.ok_or(Fault::Usage)
}

/// The number of peers that the word is, where it is one.
fn peers_in(word: &str) -> Option<u64>
    ensures in_range { IfSome result (λ peers. (2 ≤ peers) × (peers ≤ 1000)) }
{
    let peers = word.parse::<u64>().ok()?;
    if peers < FEWEST_PEERS || MOST_PEERS < peers {
        return None;
    }
    Some(peers)
}
