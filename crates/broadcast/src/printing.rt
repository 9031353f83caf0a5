//! What is printed: the lines of `linkrun`.
ghost use Rattle.std.specs.Prelude.{OnOk};
ghost use Rattle.std.specs.Io.KnownBytes.{Appends};
ghost use Rattle.broadcast.specs.Lines.{done_line, done_text, next_line};

use link_scheduler::transmitter::Completion;
use std::io;
use std::io::Write;

/// Prints what became of messages, a line each.
pub fn print_completions<W: Write>(
    output: &mut W,
    completions: &[Completion<u64>],
) -> io::Result<()>
    ensures { OnOk result (Appends (W.contents output.old) (W.contents output.new) (done_text completions.now)) }
{
    for completion in completions {
        print_completion(output, completion)?;
    }
    Ok(())
}

/// Prints what became of a message.
fn print_completion<W: Write>(output: &mut W, completion: &Completion<u64>) -> io::Result<()>
    ensures { OnOk result (Appends (W.contents output.old) (W.contents output.new) (done_line completion.now)) }
{
    let origin = completion.origin;
    let recipient = completion.recipient;
    let channel = completion.channel;
    let length = completion.message.len();
    match completion.deliver_at {
        Some(at) => writeln!(output, "done {origin} {recipient} {channel} {length} {at}"),
        None => writeln!(output, "done {origin} {recipient} {channel} {length} -"),
    }
}

/// Prints the moment of the next event.
pub fn print_next<W: Write>(output: &mut W, moment: Option<u64>) -> io::Result<()>
    ensures { OnOk result (Appends (W.contents output.old) (W.contents output.new) (next_line moment)) }
{
    match moment {
        Some(moment) => writeln!(output, "next {moment}"),
        None => writeln!(output, "next -"),
    }
}
