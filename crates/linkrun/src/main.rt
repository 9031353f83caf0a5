//! Runs the script on standard input, and prints its answers on standard output.
#![tactic(auto)]

use link_console::tally::Tally;
use link_console::watched::Watched;
use link_console::why;
use link_scripts::linkrun;
use link_scripts::linkrun::Outcome;
use std::io::{IsTerminal, Write};
use std::process::ExitCode;

fn main(rt: HostRuntime) -> ExitCode {
    let input = rt.stdin();
    let is_terminal = input.is_terminal();
    if is_terminal {
        let _ = rt.eprintln(
            "linkrun: reads a script from this terminal, line by line, to its end (Ctrl-D)",
        );
    }
    let tells = !is_terminal && rt.stderr().is_terminal();
    let mut input = Watched::new(input, &rt, rt.stderr(), "linkrun", tells);
    let mut output = Tally::new(rt.stdout());
    let mut line = Vec::new(rt.alloc());
    let outcome = linkrun::run_keeping_line(rt.alloc(), &mut input, &mut output, &mut line);
    if outcome != Outcome::Whole {
        let _ = rt.eprintln(outcome);
    }
    if let Outcome::BadLine(_) = outcome {
        explain(&rt, &line);
    }
    let refused = output.refused();
    if refused > 0 {
        let _ = eprintln!(rt; "linkrun: {refused} refused for want of memory");
    }
    ExitCode::from(outcome.status())
}

/// Says why a line is bad.
fn explain(rt: &HostRuntime, line: &[u8]) {
    if let Some(note) = why::of_script(line) {
        let mut errors = rt.stderr();
        let _ = errors.write_all(note.as_bytes());
        let _ = errors.write_all(b"\n");
    }
}
