//! Lines that send messages at one moment, gathered so that these are sent at once.
ghost use Rattle.std.specs.Prelude.{◌≡◌, ◌⊎◌, false, [], IsTrue, OnOk};
ghost use Rattle.link_scripts.specs.Gathered.{gathered_calls, IsGathered, HasNone, PrintsInTurn, TakesItsTurn};
ghost use Rattle.link_scripts.specs.Session.{SaysSame};

use crate::linkrun::answer;
use crate::linkrun::command::Command;
use crate::linkrun::session::Session;
use link_scheduler::call::Call;
use link_scheduler::transmitter::Outgoing;
use std::alloc::Global;
use std::io;
use std::io::Write;

/// The messages of lines that follow one another and send at one moment, in order, before they are
/// sent.
///
/// Sent at once they do and are answered what they would be one after another, in far less time:
/// what is in flight is rated once for all of them.
#[derive(Drop)]
pub(crate) struct Gathered {
    moment: u64,
    messages: Vec<Outgoing<u64, usize>>,
}

impl Gathered {
    /// No line is gathered.
    pub(crate) fn new(alloc: Global) -> Gathered
        ensures { HasNone result }
    {
        Gathered {
            moment: 0,
            messages: Vec::new(alloc),
        }
    }

    /// Does what a command says, after what is gathered, and prints what that answers. A message is
    /// only gathered: it is sent, and its answer printed, before anything else is.
    #[inline(always)]
    pub(crate) fn perform<W: Write>(
        &mut self,
        session: &mut Session,
        output: &mut W,
        command: Command,
    ) -> io::Result<()>
        ensures gathered { OnOk result (IsGathered command (gathered_calls self.old) self.new
            ⊎ IsGathered command [] self.new ⊎ HasNone self.new) }
        ensures in_turn { OnOk result (TakesItsTurn command self.old session.old (W.contents output.old)
            self.new session.new (W.contents output.new)) }
    {
        if self.gather(&command) {
            return Ok(());
        }
        self.send(session, output)?;
        if self.gather(&command) {
            return Ok(());
        }
        answer::print(output, session.perform(command))
    }

    /// Gathers the message that a command sends, if it goes at the moment of those before it and
    /// there is memory for it.
    fn gather(&mut self, command: &Command) -> bool
        ensures gathered { IsTrue result → IsGathered command.now (gathered_calls self.old) self.new }
        ensures kept { result ≡ false → gathered_calls self.new ≡ gathered_calls self.old }
    {
        let Command::Schedule(
            Call::Enqueue {
                now,
                origin,
                recipient,
                channel,
                message,
                latency,
                should_deliver,
            },
        ) = command
        else {
            return false;
        };
        if !self.messages.is_empty() && self.moment != *now {
            return false;
        }
        let one = Outgoing {
            origin: *origin,
            recipient: *recipient,
            channel: *channel,
            message: *message,
            latency: *latency,
            should_deliver: *should_deliver,
        };
        if self.messages.push(one).is_err() {
            return false;
        }
        self.moment = *now;
        true
    }

    /// Sends what is gathered, and prints what that answers. Where it cannot be sent as a whole, each
    /// message is sent by itself, and has its own answer.
    pub(crate) fn send<W: Write>(&mut self, session: &mut Session, output: &mut W) -> io::Result<()>
        ensures none { OnOk result (HasNone self.new) }
        ensures said { SaysSame session.old session.new }
        ensures printed { OnOk result (PrintsInTurn (gathered_calls self.old) session.old (W.contents output.old)
            session.new (W.contents output.new)) }
    {
        if self.messages.len() > 1 {
            if let Ok(reply) = session.send_all(self.moment, &self.messages) {
                self.messages.clear();
                return answer::print_reply(output, &reply);
            }
        }
        self.send_each(session, output)?;
        self.messages.clear();
        Ok(())
    }

    /// Sends each message by itself, in order, and prints what it answers.
    fn send_each<W: Write>(&self, session: &mut Session, output: &mut W) -> io::Result<()>
        ensures said { SaysSame session.old session.new }
        ensures printed { OnOk result (PrintsInTurn (gathered_calls self.now) session.old (W.contents output.old)
            session.new (W.contents output.new)) }
    {
        for one in &self.messages {
            let call = Call::Enqueue {
                now: self.moment,
                origin: one.origin,
                recipient: one.recipient,
                channel: one.channel,
                message: one.message,
                latency: one.latency,
                should_deliver: one.should_deliver,
            };
            answer::print(output, session.perform(Command::Schedule(call)))?;
        }
        Ok(())
    }
}
