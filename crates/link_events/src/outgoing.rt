//! A message that is to be sent.
ghost use Rattle.std.specs.Prelude.{◌≡◌};
ghost use Rattle.link_pairs.specs.Pairs.Messages.{message_of};
ghost use Rattle.link_events.specs.Steps.Outgoing.{outgoing_by};

use bytes::Bytes;
use link_pairs::contents::Payload;
use link_pairs::message::Message;

/// A message to send by `State::enqueue_all`.
///
/// Its parts are the arguments of `State::enqueue`. `M` is what it has of the message: the bytes,
/// where nothing else is said.
#[derive(Debug, Drop)]
pub struct Outgoing<P, M = Bytes> {
    /// Who sends.
    pub origin: P,
    /// Who is to receive. It may be the origin.
    pub recipient: P,
    /// It comes back with the completion.
    pub channel: u64,
    /// What is sent, which comes back with the completion.
    pub message: M,
    /// From its completion to its arrival, in nanoseconds.
    pub latency: u64,
    /// Whether it arrives; else it is to be dropped.
    pub should_deliver: bool,
}

impl<P, M: Payload> Outgoing<P, M> {
    /// The message, before it waits or is in flight.
    pub fn into_message(self) -> Message<P>
        ensures { message_of result ≡ outgoing_by M.bytes self }
    {
        Message {
            origin: self.origin,
            recipient: self.recipient,
            channel: self.channel,
            bytes: self.message.into_contents(),
            latency: self.latency,
            should_deliver: self.should_deliver,
        }
    }
}
