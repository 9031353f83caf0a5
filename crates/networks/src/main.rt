//! Reads networks, and prints the rates of their flows: for `tests/networks.py`, and to measure with.
//!
//! A line has how many times to ask, the caps and the routes, as `network_lines` has them. To it comes
//! a line with the rates, parted by semicolons, and the number of rounds, or why the flows were refused.
//! Where weights stand behind the routes, there comes no number of rounds.
#![tactic(auto)]

mod printing;

use fair_routes::routes::{allocate_routes_counted, allocate_weighted_routes};
use network_lines::Fault as LineFault;
use std::alloc::{AllocError, Global};
use std::io;
use std::io::{BufRead, BufReader, BufWriter, Write};
use std::process::ExitCode;
use thiserror::Error;

/// Why a run ended early.
#[derive(Debug, Drop, Error)]
enum Fault {
    #[error("a line that is none of a network")]
    Line,
    #[error(transparent)]
    Network(#[from] LineFault),
    #[error(transparent)]
    Memory(#[from(alloc)] AllocError),
    #[error(transparent)]
    InputOutput(#[from] io::Error),
}

fn main(rt: HostRuntime) -> ExitCode {
    match run(&rt) {
        Ok(()) => ExitCode::SUCCESS,
        Err(fault) => {
            let _ = rt.eprintln(fault);
            ExitCode::FAILURE
        }
    }
}

/// Answers each line.
fn run<R: Input + Print + Alloc<A = Global>>(rt: &R) -> Result<(), Fault> {
    let alloc = rt.alloc();
    let mut output = BufWriter::new(alloc, io::writer(rt))?;
    for line in BufReader::new(alloc, rt.reader())?.lines(alloc) {
        answer(alloc, line?.as_str(), &mut output)?;
    }
    output.flush()?;
    Ok(())
}

/// Answers one line.
fn answer<W: Write>(alloc: Global, line: &str, output: &mut W) -> Result<(), Fault> {
    let mut words = line.split_whitespace();
    let times = words.next().ok_or(Fault::Line)?;
    let times = times.parse::<u32>().ok().ok_or(Fault::Line)?;
    let caps = network_lines::caps(alloc, words.next().ok_or(Fault::Line)?)?;
    let routes = network_lines::routes(alloc, words.next().ok_or(Fault::Line)?)?;
    if let Some(word) = words.next() {
        let weights = network_lines::weights(alloc, word)?;
        for _ in 1..times {
            let _ = allocate_weighted_routes(alloc, &routes, &weights, &caps);
        }
        printing::print_weighted(
            output,
            &allocate_weighted_routes(alloc, &routes, &weights, &caps),
        )?;
        return Ok(());
    }
    for _ in 1..times {
        let _ = allocate_routes_counted(alloc, &routes, &caps);
    }
    printing::print(output, &allocate_routes_counted(alloc, &routes, &caps))?;
    Ok(())
}
