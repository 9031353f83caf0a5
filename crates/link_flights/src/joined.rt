//! A message that has joined a component, and the ends by which it joins others.
ghost use Rattle.std.specs.Prelude.{◌≡◌, [], IfOk, IfErr};
ghost use Rattle.link_pairs.specs.Pairs.CapsOf.{caps_of};
ghost use Rattle.link_flights.specs.Flights.Components.{have_end, joins, IsTied};

use crate::table::{End, Owners, Table};
use fairness::error::Error;
use fairness::peer::Peer;
use link_pairs::message::Message;
use link_pairs::peers::Peers;
use std::sync::Arc;

/// The ends by which a message joins others: those with a cap, since of a cap each takes from the others. Where neither
/// has one, either stands for both.
#[derive(Clone, Copy)]
pub(crate) enum Ends {
    Both,
    Sender,
    Receiver,
}

impl Ends {
    /// Whether that end is one of them.
    #[inline(always)]
    pub(crate) fn have(self, end: End) -> bool
        ensures { result ≡ have_end self end }
    {
        match (self, end) {
            (Ends::Both, _) | (Ends::Sender, End::Origin) | (Ends::Receiver, End::Recipient) =>
                true,
            (Ends::Sender, End::Recipient) | (Ends::Receiver, End::Origin) => false,
        }
    }
}

/// A message that has joined a component.
pub(crate) struct Joined<P> {
    pub(crate) message: Arc<Message<P>>,
    pub(crate) ends: Ends,
    /// The numbers of its sender and of its receiver, where these are known: by them others are guessed at.
    pub(crate) numbers: Owners,
}

impl<P: Drop> Drop for Joined<P> {
    /// Lets go of the message.
    #[inline(always)]
    fn drop(self) {
        let Joined {
            message,
            ends: _,
            numbers: _,
        } = self;
        drop(message);
    }
}

impl<P: Peer> Joined<P> {
    /// The message, which joins others by the ends that have a cap. Where neither has one, it joins by its receiver if
    /// its sender has more than one message in flight.
    pub(crate) fn of(
        message: &Arc<Message<P>>,
        numbers: Owners,
        peers: &Peers<P>,
        list: &Table<P>,
    ) -> Result<Joined<P>, Error>
        ensures message { IfOk result (λ joined. joined.message.value ≡ message.now.value) }
        ensures tied { IfOk result (λ joined. IsTied (caps_of P.cmp peers.now.entries []) joined) }
        ensures refused { IfErr result (λ e. e ≡ Error.OutOfMemory) }
    {
        let sends = peers.egress(&message.origin).is_some();
        let receives = peers.ingress(&message.recipient).is_some();
        let ends = match (sends, receives) {
            (true, true) => Ends::Both,
            (true, false) => Ends::Sender,
            (false, true) => Ends::Receiver,
            (false, false) if list.sends_several(message) => Ends::Receiver,
            (false, false) => Ends::Sender,
        };
        Ok(Joined {
            message: message.clone()?,
            ends,
            numbers,
        })
    }

    /// The same. Its message is shared.
    pub(crate) fn again(&self) -> Result<Joined<P>, Error>
        ensures message { IfOk result (λ joined. joined.message.value ≡ self.now.message.value) }
        ensures ends { IfOk result (λ joined. joined.ends ≡ self.now.ends) }
        ensures refused { IfErr result (λ e. e ≡ Error.OutOfMemory) }
    {
        Ok(Joined {
            message: self.message.clone()?,
            ends: self.ends,
            numbers: self.numbers,
        })
    }

    /// Whether it brings in that end of the message.
    #[inline(always)]
    pub(crate) fn joins(&self, end: End, message: &Message<P>) -> bool
        ensures { result ≡ joins P.cmp self.now end message.now.origin message.now.recipient }
    {
        let own = &self.message;
        match end {
            End::Origin => {
                message.origin.cmp(&own.origin).is_eq()
                    && (self.ends.have(End::Origin)
                        || message.recipient.cmp(&own.recipient).is_eq())
            }
            End::Recipient => {
                message.recipient.cmp(&own.recipient).is_eq()
                    && (self.ends.have(End::Recipient) || message.origin.cmp(&own.origin).is_eq())
            }
        }
    }
}
