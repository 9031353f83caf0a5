//! Compares a trace with what the simulation does, and prints the verdict.
#![tactic(auto)]

mod arguments;

use crate::arguments::{HELP, Task, VERSION, read_arguments};
use link_console::watched::Watched;
use link_console::why;
use link_traces::linkcheck;
use link_traces::linkcheck::{Fault, Turns};
use std::fs::File;
use std::io::{IsTerminal, Read, Write};
use std::process::ExitCode;

/// The status after a word that is no option.
const USAGE: u8 = 64;

fn main(rt: HostRuntime) -> ExitCode {
    match read_arguments(&rt) {
        Err(_) => {
            let _ = rt.eprintln(Fault::NoMemory);
            ExitCode::FAILURE
        }
        Ok(Task::Help) => print(&rt, HELP),
        Ok(Task::Version) => print(&rt, VERSION),
        Ok(Task::Unknown(word)) => {
            let _ = eprintln!(rt; "linkcheck: `{word}` is not known: see linkcheck --help");
            ExitCode::from(USAGE)
        }
        Ok(Task::Standard(turns)) => check_standard_input(&rt, turns),
        Ok(Task::File(turns, name)) => check_file(&rt, turns, &name),
    }
}

/// Prints a text.
fn print(rt: &HostRuntime, text: &str) -> ExitCode {
    match rt.println(text) {
        Ok(()) => ExitCode::SUCCESS,
        Err(_) => ExitCode::FAILURE,
    }
}

/// Checks the trace in a file.
fn check_file(rt: &HostRuntime, turns: Turns, name: &str) -> ExitCode {
    match File::open(rt, name) {
        Ok(file) => check(rt, turns, file, rt.stderr().is_terminal()),
        Err(error) => {
            let _ = eprintln!(rt; "linkcheck: {name}: {error}");
            ExitCode::FAILURE
        }
    }
}

/// Checks the trace on standard input. Says so where a terminal is that.
fn check_standard_input(rt: &HostRuntime, turns: Turns) -> ExitCode {
    let input = rt.stdin();
    let is_terminal = input.is_terminal();
    if is_terminal {
        let _ = rt.eprintln("linkcheck: reads a trace from this terminal, to its end (Ctrl-D)");
    }
    let tells = !is_terminal && rt.stderr().is_terminal();
    check(rt, turns, input, tells)
}

/// Checks a trace. Where `tells`, it says on the way how far it is.
fn check<R: Read + Drop>(rt: &HostRuntime, turns: Turns, input: R, tells: bool) -> ExitCode {
    let mut input = Watched::new(input, rt, rt.stderr(), "linkcheck", tells);
    let mut line = Vec::new(rt.alloc());
    let mut output = rt.stdout();
    let report = linkcheck::run_keeping_line(rt.alloc(), &mut input, &mut output, turns, &mut line);
    if let Err(fault) = &report {
        let _ = rt.eprintln(*fault);
    }
    if let Err(Fault::BadLine(_)) = &report {
        explain(rt, &line);
    }
    ExitCode::from(linkcheck::status(&report))
}

/// Says why a line is bad.
fn explain(rt: &HostRuntime, line: &[u8]) {
    if let Some(note) = why::of_trace(line) {
        let mut errors = rt.stderr();
        let _ = errors.write_all(note.as_bytes());
        let _ = errors.write_all(b"\n");
    }
}
