//! A message that waits or is in flight.
ghost use Rattle.std.specs.Prelude.{◌≡◌, true, false, IfOk, IfErr};

use crate::contents::Contents;
use fairness::error::Error;
use fairness::peer::Peer;
use std::alloc::AllocError;

/// What one peer sends to another.
pub struct Message<P> {
    /// Who sends.
    pub origin: P,
    /// Who is to receive. It may be the origin.
    pub recipient: P,
    /// It comes back with the completion.
    pub channel: u64,
    /// What is sent.
    pub bytes: Contents,
    /// From its completion to its arrival, in nanoseconds.
    pub latency: u64,
    /// Whether it arrives; else it is to be dropped.
    pub should_deliver: bool,
}

impl<P: Drop> Drop for Message<P> {
    /// Lets go of what it holds.
    #[inline(always)]
    fn drop(self) {
        let Message {
            origin,
            recipient,
            channel: _,
            bytes,
            latency: _,
            should_deliver: _,
        } = self;
        drop(origin);
        drop(recipient);
        drop(bytes);
    }
}

impl<P: Peer> Message<P> {
    ghost use Rattle.link_simulation.specs.Simulation.Messages.{is_delivered};
    ghost use Rattle.link_simulation.specs.Simulation.World.{is_late, arrival};
    ghost use Rattle.link_pairs.specs.Pairs.Messages.{message_of};

    /// Whether it arrives, under limits: a message to oneself does not.
    pub fn is_delivered(&self) -> bool
        ensures { result ≡ is_delivered P.cmp (message_of self.now) }
    {
        self.should_deliver && self.origin.cmp(&self.recipient).is_ne()
    }

    /// The moment at which it arrives if it is done at `now`, or `now` if it does not arrive.
    pub fn arrival(&self, now: u64) -> Result<u64, Error>
        ensures in_time { IfOk result (λ moment. is_late P.cmp now (message_of self.now) ≡ false) }
        ensures moment { IfOk result (λ moment. moment ≡ arrival P.cmp now (message_of self.now)) }
        ensures refused { IfErr result (λ e. (e ≡ Error.MomentTooLate)
            × (is_late P.cmp now (message_of self.now) ≡ true)) }
    {
        if self.is_delivered() {
            now.checked_add(self.latency).ok_or(Error::MomentTooLate)
        } else {
            Ok(now)
        }
    }
}

impl<P: Peer> Clone for Message<P> {
    ghost use Rattle.link_simulation.specs.Simulation.Messages.{SameMessage};
    ghost use Rattle.link_pairs.specs.Pairs.Messages.{message_of};

    ghost is_clone = { λ message copy. SameMessage P.cmp (message_of message) (message_of copy) };

    /// The same message, its peers cloned. It shares the bytes.
    fn clone(&self) -> Result<Message<P>, AllocError> {
        Ok(Message {
            origin: self.origin.clone_peer().ok_or(AllocError)?,
            recipient: self.recipient.clone_peer().ok_or(AllocError)?,
            channel: self.channel,
            bytes: self.bytes.share()?,
            latency: self.latency,
            should_deliver: self.should_deliver,
        })
    }
}
