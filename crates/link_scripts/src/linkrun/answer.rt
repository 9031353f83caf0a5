//! What a script prints.
ghost use Rattle.std.specs.Prelude.{◌≡◌, map, IfOk, IfErr, OnOk};
ghost use Rattle.std.specs.Io.KnownBytes.{Appends};
ghost use Rattle.link_scripts.specs.Answer.{rate_line, rates_text, done_line, done_text, next_line};
ghost use Rattle.link_scripts.specs.Answer.{answer_text, reply_text, refusal_line};
ghost use Rattle.link_scheduler.specs.Calls.Replay.{reply_of};
ghost use Rattle.link_pairs.specs.Pairs.Messages.{completed_of};
ghost use Rattle.fairness.specs.Refusals.ErrorTexts.{refusal_number};

use crate::linkrun::ending::Ending;
use fairness::bandwidth::Rate;
use fairness::error::Error;
use link_scheduler::call::Reply;
use link_scheduler::transmitter::{Completion, Contents};
use std::collections::BTreeMap;
use std::io;
use std::io::Write;

/// What a command answers.
#[derive(Drop)]
pub(crate) enum Answer {
    Nothing,
    /// Rates in bytes a second, by the ids of the flows.
    Rates(BTreeMap<u64, Rate>),
    /// Rates in bytes a second, and the numbers of the flows over routes.
    Routes(Vec<(u64, Rate)>),
    /// What the scheduler replied.
    Reply(Reply<u64, Contents>),
}

/// Prints what a command answered, or why it was refused, a line each.
pub(crate) fn print<W: Write>(output: &mut W, answer: Result<Answer, Error>) -> io::Result<()>
    ensures answered { IfOk answer (λ a. OnOk result
        (Appends (W.contents output.old) (W.contents output.new) (answer_text a))) }
    ensures refused { IfErr answer (λ e. OnOk result
        (Appends (W.contents output.old) (W.contents output.new) (refusal_line e))) }
{
    match answer {
        Ok(Answer::Nothing) => Ok(()),
        Ok(Answer::Rates(rates)) => print_rates(output, &rates),
        Ok(Answer::Routes(rates)) => print_each(output, &rates),
        Ok(Answer::Reply(reply)) => print_reply(output, &reply),
        Err(error) => print_refusal(output, error),
    }
}

/// Prints what the scheduler replied, a line each.
pub fn print_reply<W: Write>(output: &mut W, reply: &Reply<u64, Contents>) -> io::Result<()>
    ensures { OnOk result (Appends (W.contents output.old) (W.contents output.new) (reply_text (reply_of reply.now))) }
{
    match reply {
        Reply::Done(completions) => print_completions(output, completions),
        Reply::Next(moment) => print_next(output, *moment),
        Reply::Refused(error) => print_refusal(output, *error),
    }
}

/// Prints why a command was refused.
fn print_refusal<W: Write>(output: &mut W, error: Error) -> io::Result<()>
    ensures { OnOk result (Appends (W.contents output.old) (W.contents output.new) (refusal_line error)) }
{
    let number = number_of(error);
    writeln!(output, "refused {number} {error}")
}

/// Prints the rates by ascending id.
fn print_rates<W: Write>(output: &mut W, rates: &BTreeMap<u64, Rate>) -> io::Result<()>
    ensures { OnOk result (Appends (W.contents output.old) (W.contents output.new) (rates_text rates.now.entries)) }
{
    for (id, rate) in rates {
        print_rate(output, *id, *rate)?;
    }
    Ok(())
}

/// Prints the rates of flows over routes, in order.
fn print_each<W: Write>(output: &mut W, rates: &[(u64, Rate)]) -> io::Result<()>
    ensures { OnOk result (Appends (W.contents output.old) (W.contents output.new) (rates_text rates.now)) }
{
    for (flow, rate) in rates {
        print_rate(output, *flow, *rate)?;
    }
    Ok(())
}

/// Prints the rate of a flow.
fn print_rate<W: Write>(output: &mut W, id: u64, rate: Rate) -> io::Result<()>
    ensures { OnOk result (Appends (W.contents output.old) (W.contents output.new) (rate_line id rate)) }
{
    match rate {
        Rate::Unlimited => writeln!(output, "rate {id} unlimited"),
        Rate::Finite(ratio) => {
            let numerator = ratio.numerator();
            let denominator = ratio.denominator();
            writeln!(output, "rate {id} {numerator}/{denominator}")
        }
    }
}

/// Prints what became of messages, a line each.
fn print_completions<W: Write>(
    output: &mut W,
    completions: &[Completion<u64, Contents>],
) -> io::Result<()>
    ensures { OnOk result (Appends (W.contents output.old) (W.contents output.new) (done_text
        (map completed_of completions.now))) }
{
    for completion in completions {
        print_completion(output, completion)?;
    }
    Ok(())
}

/// Prints what became of a message.
fn print_completion<W: Write>(
    output: &mut W,
    completion: &Completion<u64, Contents>,
) -> io::Result<()>
    ensures { OnOk result (Appends (W.contents output.old) (W.contents output.new) (done_line
        (completed_of completion.now))) }
{
    let mut line = Ending::new();
    line.put_moment(completion.deliver_at);
    line.put_number(completion.message.len() as u64);
    line.put_number(completion.channel);
    line.put_number(completion.recipient);
    line.put_number(completion.origin);
    line.put_word(b"done");
    output.write_all(line.as_slice())
}

/// Prints the moment of the next event.
fn print_next<W: Write>(output: &mut W, moment: Option<u64>) -> io::Result<()>
    ensures { OnOk result (Appends (W.contents output.old) (W.contents output.new) (next_line moment)) }
{
    let mut line = Ending::new();
    line.put_moment(moment);
    line.put_word(b"next");
    output.write_all(line.as_slice())
}

/// The number of a refusal.
fn number_of(error: Error) -> u8
    ensures { result ≡ refusal_number error }
{
    match error {
        Error::OutOfMemory => 1,
        Error::NumberTooLarge => 2,
        Error::MomentTooLate => 3,
        Error::FlowIdsUsedUp => 4,
    }
}
