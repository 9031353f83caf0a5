//! Why a line is bad.
ghost use Rattle.std.specs.Prelude.{◌≡◌, ◌↔◌, ◌≤◌, ℕ, None, true, IsTrue, IsSome, IfSome};
ghost use Rattle.link_console.specs.Note.{HasText};
ghost use Rattle.link_scripts.specs.BadLines.{IsBad};
ghost use Rattle.link_scripts.specs.Script.{line_of, IsCallOfScriptInRange};
ghost use Rattle.link_scripts.specs.declared.linkrun.command.Command.TheVariants as commands;
ghost use Rattle.link_scheduler.specs.declared.call.Call.{Call};

use crate::forms;
use crate::forms::Kind;
use crate::note::Note;
use link_scripts::linkrun::command::Command;
use link_scripts::linkrun::line::MOST_READ;
use link_scripts::linkrun::word::Words;

/// What `linkrun` prints for a command that is refused.
const REFUSALS: [&[u8]; 4] = [
    b"refused 1 out of memory",
    b"refused 2 number too large",
    b"refused 3 moment too late",
    b"refused 4 flow ids used up",
];

/// Why a line of a script is bad, or `None` where it is not: it is a command's, or empty.
///
/// The note says at which column, counted in bytes from 1, what was looked for, and what is there.
pub fn of_script(line: &[u8]) -> Option<Note>
    ensures bad { IsSome result ↔ IsBad line.now }
    ensures some { IfSome result HasText }
{
    if !is_bad(line) {
        return None;
    }
    if line.len() >= MOST_READ {
        return Some(too_long());
    }
    Some(of_command(line))
}

/// Why a line of a trace is bad, or `None` where that is not seen. It is not seen in a call of the
/// scheduler, nor in a line that `linkrun` prints for one.
pub fn of_trace(line: &[u8]) -> Option<Note>
    ensures good { (call : Call ℕ ℕ) → IsCallOfScriptInRange call → line.now ≡ line_of (commands.Schedule call)
        → result ≡ None }
    ensures some { IfSome result HasText }
{
    if is_call(line) {
        return None;
    }
    if line.len() >= MOST_READ {
        return Some(too_long());
    }
    of_answer(line)
}

/// Whether a line of a script is bad.
fn is_bad(line: &[u8]) -> bool
    ensures { IsTrue result ↔ IsBad line.now }
{
    if line.len() >= MOST_READ {
        return true;
    }
    if line.is_empty() {
        return false;
    }
    match Command::parse(line) {
        Some(_command) => false,
        None => true,
    }
}

/// Whether a line says a call of the scheduler.
fn is_call(line: &[u8]) -> bool
    ensures { (call : Call ℕ ℕ) → IsCallOfScriptInRange call → line.now ≡ line_of (commands.Schedule call)
        → result ≡ true }
{
    match Command::parse(line) {
        Some(command) => is_schedule(&command),
        None => false,
    }
}

/// Whether a command is a call of the scheduler.
fn is_schedule(command: &Command) -> bool
    ensures { (call : Call ℕ ℕ) → command.now ≡ commands.Schedule call → result ≡ true }
{
    match command {
        Command::Schedule(_) => true,
        _ => false,
    }
}

/// Why a line that is longer than a line may be is bad.
fn too_long() -> Note
    ensures { HasText result }
{
    let mut note = Note::at(MOST_READ);
    note.put("a line of at most 256 bytes, and there are more");
    note
}

/// Why a line is bad that is no command's.
fn of_command(line: &[u8]) -> Note
    ensures { HasText result }
{
    let mut words = Words::of(line);
    let first = words.next().unwrap_or(line);
    let Some(columns) = forms::of_command(first) else {
        return unknown(first, forms::COMMANDS);
    };
    match of_words(first, columns, &mut words) {
        Some(note) => note,
        None => unknown(line, forms::COMMANDS),
    }
}

/// Why a line of a trace is bad that is no call's.
fn of_answer(line: &[u8]) -> Option<Note>
    ensures { IfSome result HasText }
{
    let mut words = Words::of(line);
    let first = words.next().unwrap_or(line);
    if first == b"refused".as_slice() {
        return of_refusal(line);
    }
    let Some(columns) = forms::of_trace(first) else {
        return Some(unknown(first, forms::OF_TRACES));
    };
    if let Some(note) = of_words(first, columns, &mut words) {
        return Some(note);
    }
    if first == b"tolerance".as_slice() {
        return Some(late_tolerance());
    }
    None
}

/// Why a line that begins with `refused` is bad.
fn of_refusal(line: &[u8]) -> Option<Note>
    ensures { IfSome result HasText }
{
    if REFUSALS.contains(&line) {
        return None;
    }
    let mut note = Note::at(1);
    note.put("refused: one of the four lines that linkrun prints, and ");
    note.put_word(line);
    note.put(" is there");
    Some(note)
}

/// Why a tolerance is bad that does not come first.
fn late_tolerance() -> Note
    ensures { HasText result }
{
    let mut note = Note::at(1);
    note.put("a call or an answer, and a tolerance is there: it may stand on the first line alone");
    note
}

/// Why a line with another first word than all of these is bad.
fn unknown(first: &[u8], wanted: &str) -> Note
    ensures { HasText result }
{
    let mut note = Note::at(1);
    note.put(wanted);
    note.put(", and ");
    put_found(&mut note, first);
    note
}

/// Why the words after the first one do not stand in these columns, if they do not.
fn of_words(first: &[u8], columns: &str, words: &mut Words<'_>) -> Option<Note>
    ensures { IfSome result HasText }
{
    let total = count_words(columns);
    let mut names = Words::of(columns.as_bytes());
    let mut at = first.len().saturating_add(2);
    for seen in 0..total {
        let Some(word) = words.next() else {
            return Some(other_count(first, columns, at.saturating_sub(1), seen));
        };
        let column = names.next().unwrap_or(b"");
        let kind = Kind::of(first, column);
        if !kind.fits(word) {
            return Some(misfit(first, column, kind, at, word));
        }
        at = at.saturating_add(word.len()).saturating_add(1);
    }
    words.next()?;
    let more = count_left(words).saturating_add(1);
    Some(other_count(first, columns, at, total.saturating_add(more)))
}

/// How many words a text has, which is empty or has one space between two words.
fn count_words(text: &str) -> usize {
    if text.is_empty() {
        return 0;
    }
    count_left(&mut Words::of(text.as_bytes()))
}

/// How many words are left, up to the most that a line has.
fn count_left(words: &mut Words<'_>) -> usize
    ensures { result ≤ 257 }
{
    let mut count = 0usize;
    for _ in 0..MOST_READ {
        if words.next().is_none() {
            break;
        }
        count += 1;
    }
    count
}

/// Why a line is bad that has so many words after the first one.
fn other_count(first: &[u8], columns: &str, at: usize, count: usize) -> Note
    ensures { HasText result }
{
    let mut note = Note::at(at);
    put_name(&mut note, first);
    put_columns(&mut note, columns);
    note.put(", and ");
    note.put_number(count);
    note.put(if count == 1 {
        " is there"
    } else {
        " are there"
    });
    note
}

/// Puts at the end how many words there have to be, and the names of their columns.
fn put_columns(note: &mut Note, columns: &str)
    ensures { note.old.length ≤ note.new.length }
{
    let wanted = count_words(columns);
    if wanted == 0 {
        note.put("no more words");
        return;
    }
    note.put_number(wanted);
    note.put(if wanted == 1 { " word, " } else { " words, " });
    note.put(columns);
}

/// Why a word does not stand in its column.
fn misfit(first: &[u8], column: &[u8], kind: Kind, at: usize, word: &[u8]) -> Note
    ensures { HasText result }
{
    let mut note = Note::at(at);
    put_name(&mut note, first);
    if let Ok(column) = str::from_utf8(column) {
        note.put(column);
        note.put(" is ");
    }
    note.put(kind.text());
    note.put(", and ");
    put_found(&mut note, word);
    note
}

/// Puts the first word of a line at the end.
fn put_name(note: &mut Note, first: &[u8])
    ensures { note.old.length ≤ note.new.length }
{
    if let Ok(first) = str::from_utf8(first) {
        note.put(first);
        note.put(": ");
    }
}

/// Puts at the end what stands there in place of what was looked for.
fn put_found(note: &mut Note, word: &[u8])
    ensures { note.old.length ≤ note.new.length }
{
    if word.is_empty() {
        note.put("no word is there: one space stands between two words, and none at an end");
        return;
    }
    note.put_word(word);
    note.put(" is there");
    if word.ends_with(b"\r") {
        note.put(": a line ends with byte 10, and has no byte 13");
    }
}
