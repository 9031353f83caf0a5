//! Draws the run of a script on standard output: an SVG, a page, or a table.
#![tactic(auto)]

mod arguments;

use crate::arguments::{HELP, Task, VERSION, read_arguments};
use link_console::why;
use link_pictures::linkdraw;
use link_pictures::linkdraw::Options;
use link_scripts::linkrun::Outcome;
use std::fs::File;
use std::io::{IsTerminal, Read, Write};
use std::process::ExitCode;

/// The status after a word that is no option.
const USAGE: u8 = 64;

fn main(rt: HostRuntime) -> ExitCode {
    match read_arguments(&rt) {
        Err(_) => {
            let _ = rt.eprintln(Outcome::NoMemory);
            ExitCode::FAILURE
        }
        Ok(Task::Help) => print(&rt, HELP),
        Ok(Task::Version) => print(&rt, VERSION),
        Ok(Task::Unknown(word)) => {
            let _ = eprintln!(rt; "linkdraw: `{word}` is not known: see linkdraw --help");
            ExitCode::from(USAGE)
        }
        Ok(Task::Draw(options, file)) => match file {
            None => draw_standard_input(&rt, &options),
            Some(name) => draw_file(&rt, &name, &options),
        },
    }
}

/// Prints a text.
fn print(rt: &HostRuntime, text: &str) -> ExitCode {
    match rt.println(text) {
        Ok(()) => ExitCode::SUCCESS,
        Err(_) => ExitCode::FAILURE,
    }
}

/// Draws the script in a file.
fn draw_file(rt: &HostRuntime, name: &str, options: &Options) -> ExitCode {
    match File::open(rt, name) {
        Ok(mut file) => draw(rt, &mut file, options),
        Err(error) => {
            let _ = eprintln!(rt; "linkdraw: {name}: {error}");
            ExitCode::FAILURE
        }
    }
}

/// Draws the script on standard input. Says so where a terminal is that.
fn draw_standard_input(rt: &HostRuntime, options: &Options) -> ExitCode {
    let mut input = rt.stdin();
    if input.is_terminal() {
        let _ = rt.eprintln("linkdraw: reads a script from this terminal, to its end (Ctrl-D)");
    }
    draw(rt, &mut input, options)
}

/// Draws a script.
fn draw<R: Read>(rt: &HostRuntime, input: &mut R, options: &Options) -> ExitCode {
    let mut line = Vec::new(rt.alloc());
    let mut output = rt.stdout();
    let outcome = linkdraw::draw_keeping_line(rt.alloc(), input, &mut output, options, &mut line);
    if outcome != Outcome::Whole {
        let _ = rt.eprintln(outcome);
    }
    if let Outcome::BadLine(_) = outcome {
        explain(rt, &line);
    }
    ExitCode::from(outcome.status())
}

/// Says why a line is bad.
fn explain(rt: &HostRuntime, line: &[u8]) {
    if let Some(note) = why::of_script(line) {
        let mut errors = rt.stderr();
        let _ = errors.write_all(note.as_bytes());
        let _ = errors.write_all(b"\n");
    }
}
