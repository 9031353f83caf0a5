//! What is asked for, written.

use crate::board::Board;
use crate::history::History;
use crate::ink::Ink;
use crate::layout::Layout;
use crate::options::{Form, Options};
use crate::{page, picture, table};
use fairness::error::Error;
use std::alloc::Global;
use std::io;
use std::io::{ErrorKind, Write};

/// Writes what the options ask for of a run, from the first to the last moment of `time`. Where
/// memory was refused, that is the kind of its error.
pub fn draw<W: Write>(
    alloc: Global,
    out: &mut W,
    history: &History,
    options: &Options,
    time: (u64, u64),
) -> io::Result<()> {
    let mut ink = Ink::new(alloc);
    if let Form::Table(table, lines) = options.form {
        table::write(out, &mut ink, history, options, table, lines)?;
    } else if draw_picture(&mut ink, history, options, time).is_err() {
        ink.refuse();
    }
    ink.write_to(out)
}

/// Draws the picture of a run.
fn draw_picture(
    ink: &mut Ink,
    history: &History,
    options: &Options,
    time: (u64, u64),
) -> Result<(), Error> {
    let layout = Layout::new(history, options, time)?;
    let mut board = Board::new(history.alloc, layout.frame.columns())?;
    match options.form {
        Form::Page => page::write(ink, history, options, &layout, &mut board),
        _ => picture::draw(ink, history, options, &layout, &mut board),
    }
    Ok(())
}
