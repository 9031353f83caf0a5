//! What the program is asked for.
use link_pictures::linkdraw::{Form, Lines, Options, Table};
use std::alloc::Global;
use std::rt::Env;
use std::{env, io};

/// What `--help` prints.
pub(crate) const HELP: &str = "\
linkdraw [--peers P,..] [--from T] [--until T] [--title TEXT] [--page | --table TABLE [--json]] [SCRIPT]
linkdraw --help | --version

Runs a script as linkrun does, and writes a picture of the run on standard output: one SVG. SCRIPT is
a file; without it standard input is read.

  --peers P,..   only rows of these peers, and of pairs with one of them
  --from T       from that moment on: nanoseconds, or with a unit, as 1.5s, 20ms, 3us, 7ns
  --until T      up to that moment
  --title TEXT   what stands above the picture; without it the name of SCRIPT
  --page         one HTML file, in which one can zoom, move and choose peers
  --table TABLE  a table in place of a picture: messages, rates, caps or latencies, as CSV
  --json         the same as JSON, an object on each line
  --help         prints this
  --version      prints the version

Status: 0 it is written; 2 a line is bad; 1 memory was refused, or a read or a write failed; 64 an
option is unknown or wrong.";

/// What `--version` prints.
pub(crate) const VERSION: &str = "linkdraw 0.1.0";

/// What the program is asked for.
#[derive(Drop)]
pub(crate) enum Task {
    Help,
    Version,
    /// To draw a script: the file of that name, or standard input.
    Draw(Options, Option<String>),
    /// Nothing: that word is no option, one file too many, or wrong after its option.
    Unknown(String),
}

/// What is known of the arguments so far.
#[derive(Drop)]
struct Known {
    options: Options,
    table: Option<Table>,
    is_json: bool,
    is_page: bool,
    has_title: bool,
    file: Option<String>,
}

/// What the arguments ask for.
pub(crate) fn read_arguments<R: Env + Alloc<A = Global>>(rt: &R) -> io::Result<Task> {
    let mut known = Known {
        options: Options::new(rt.alloc()),
        table: None,
        is_json: false,
        is_page: false,
        has_title: false,
        file: None,
    };
    let mut words = env::args(rt)?.skip(1);
    for _ in 0..u64::MAX {
        let Some(word) = words.next() else {
            break;
        };
        match word.as_str() {
            "--help" => return Ok(Task::Help),
            "--version" => return Ok(Task::Version),
            "--page" => known.is_page = true,
            "--json" => known.is_json = true,
            "--peers" | "--from" | "--until" | "--title" | "--table" => {
                let Some(value) = words.next() else {
                    return Ok(Task::Unknown(word));
                };
                if !known.take(word.as_str(), value.as_str())? {
                    return Ok(Task::Unknown(value));
                }
            }
            name => {
                if known.file.is_some() || name.starts_with('-') {
                    return Ok(Task::Unknown(word));
                }
                known.file = Some(word);
            }
        }
    }
    known.task()
}

impl Known {
    /// Takes the word after an option. Answers whether it is right there.
    fn take(&mut self, option: &str, value: &str) -> io::Result<bool> {
        match option {
            "--peers" => return self.take_peers(value),
            "--title" => {
                self.options.title.clear();
                self.options.title.push_str(value)?;
                self.has_title = true;
            }
            "--from" => self.options.from = Some(match parse_moment(value) {
                Some(moment) => moment,
                None => return Ok(false),
            }),
            "--until" => self.options.until = Some(match parse_moment(value) {
                Some(moment) => moment,
                None => return Ok(false),
            }),
            _ => self.table = Some(match value {
                "messages" => Table::Messages,
                "rates" => Table::Rates,
                "caps" => Table::Caps,
                "latencies" => Table::Latencies,
                _ => return Ok(false),
            }),
        }
        Ok(true)
    }

    /// Takes the numbers of peers.
    fn take_peers(&mut self, value: &str) -> io::Result<bool> {
        for part in value.split(',') {
            match part.parse::<u64>() {
                Ok(peer) => self.options.peers.push(peer)?,
                Err(_) => return Ok(false),
            }
        }
        Ok(true)
    }

    /// What is to be done.
    fn task(self) -> io::Result<Task> {
        let mut options = self.options;
        let lines = if self.is_json {
            Lines::Json
        } else {
            Lines::Csv
        };
        options.form = match self.table {
            Some(table) => Form::Table(table, lines),
            None if self.is_page => Form::Page,
            None => Form::Picture,
        };
        if let Some(file) = &self.file {
            if !self.has_title {
                options.title.push_str(file.as_str())?;
            }
        }
        Ok(Task::Draw(options, self.file))
    }
}

/// The moment that a word says, in nanoseconds: a number of them, or a number with at most nine
/// places and a unit, `s`, `ms`, `us` or `ns`. It is none where it is not that, is no whole number
/// of nanoseconds, or is past the last one.
fn parse_moment(word: &str) -> Option<u64> {
    let (number, unit) = if let Some(number) = word.strip_suffix("ms") {
        (number, 1_000_000u64)
    } else if let Some(number) = word.strip_suffix("us") {
        (number, 1000)
    } else if let Some(number) = word.strip_suffix("ns") {
        (number, 1)
    } else if let Some(number) = word.strip_suffix("s") {
        (number, 1_000_000_000)
    } else {
        (word, 1)
    };
    match number.split_once('.') {
        None => number.parse::<u64>().ok()?.checked_mul(unit),
        Some((whole, places)) => {
            let whole = whole.parse::<u64>().ok()?.checked_mul(unit)?;
            whole.checked_add(parse_places(places, unit)?)
        }
    }
}

/// What the places after the point say, where they come out as whole nanoseconds.
fn parse_places(places: &str, unit: u64) -> Option<u64> {
    let mut rest = unit;
    for _ in 0..places.len() {
        if rest % 10 != 0 {
            return None;
        }
        rest /= 10;
    }
    if places.is_empty() || places.starts_with('+') {
        return None;
    }
    places.parse::<u64>().ok()?.checked_mul(rest)
}
