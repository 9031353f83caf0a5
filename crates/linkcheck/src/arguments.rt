//! What the program is asked for.
use link_traces::linkcheck::Turns;
use std::alloc::Global;
use std::rt::Env;
use std::{env, io};

/// What `--help` prints.
pub(crate) const HELP: &str = "\
linkcheck [--in-turn] [TRACE]
linkcheck --help | --version

Compares a trace, the calls of a scheduler and the lines that another simulator answered to them, with
what the simulation answers. TRACE is a file; without it standard input is read.

  --in-turn   calls out of turn are not checked by the event rule: the first one is named, and ends it
  --help      prints this
  --version   prints the version

It prints `agrees: N calls, M completions`, or where they differ, or what is missing. Status: 0 the trace
agrees; 3 it differs, or a call is out of turn with --in-turn; 1 it ends too early, or it could not be
read; 2 a line is bad; 64 an option is unknown.";

/// What `--version` prints.
pub(crate) const VERSION: &str = "linkcheck 0.1.0";

/// What the program is asked for.
#[derive(Drop)]
pub(crate) enum Task {
    Help,
    Version,
    /// To check the trace on standard input.
    Standard(Turns),
    /// To check the trace in the file of that name.
    File(Turns, String),
    /// Nothing: that word is no option, or one file too many.
    Unknown(String),
}

/// What the arguments ask for.
pub(crate) fn read_arguments<R: Env + Alloc<A = Global>>(rt: &R) -> io::Result<Task> {
    let mut turns = Turns::Any;
    let mut file = None;
    for word in env::args(rt)?.skip(1) {
        match word.as_str() {
            "--help" => return Ok(Task::Help),
            "--version" => return Ok(Task::Version),
            "--in-turn" => turns = Turns::InTurn,
            name => {
                if file.is_some() || name.starts_with('-') {
                    return Ok(Task::Unknown(word));
                }
                file = Some(word);
            }
        }
    }
    match file {
        None => Ok(Task::Standard(turns)),
        Some(name) => Ok(Task::File(turns, name)),
    }
}
