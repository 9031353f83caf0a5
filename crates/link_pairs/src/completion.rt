//! What is answered of a message.
ghost use Rattle.std.specs.Prelude.{◌≡◌, map, IfOk, IfErr};
ghost use Rattle.std.specs.List.{AllZip};
ghost use Rattle.std.specs.declared.cmp.Ordering.TheVariants.{Equal};
ghost use Rattle.link_simulation.specs.Simulation.Replies.{SameCompletion};
ghost use Rattle.link_pairs.specs.Pairs.Messages.{completed_by, ended_of};

use crate::contents::Payload;
use crate::message::Message;
use crate::pair::PeerPair;
use bytes::Bytes;
use fairness::error::Error;
use fairness::peer::Peer;
use std::alloc::Global;
use std::sync::Arc;

/// What became of a message. `M` is what comes back of it: the bytes, where nothing else is said.
#[derive(Drop)]
pub struct Completion<P, M = Bytes> {
    pub origin: P,
    pub recipient: P,
    pub channel: u64,
    pub message: M,
    /// The moment at which it was done, all of it sent, in nanoseconds since the start: of a dropped
    /// message, too.
    pub done_at: u64,
    /// The moment at which it arrives, in nanoseconds since the start, or `None` for a dropped
    /// message.
    pub deliver_at: Option<u64>,
}

/// A message that is done, with the moment at which it was and that at which it arrives.
#[derive(Drop)]
pub struct Ended<P> {
    /// What was sent.
    pub message: Arc<Message<P>>,
    /// When all of it was sent, in nanoseconds since the start.
    pub done_at: u64,
    /// When it arrives, in nanoseconds since the start. `None` where it is dropped.
    pub deliver_at: Option<u64>,
}

impl<P: Peer> Ended<P> {
    /// What is answered of it: its peers are cloned, the bytes shared.
    fn answer<M: Payload>(&self, alloc: Global) -> Result<Completion<P, M>, Error>
        ensures same { IfOk result (λ answer. SameCompletion P.cmp (completed_by M.bytes answer) (ended_of self.now)) }
        ensures refused { IfErr result (λ e. e ≡ Error.OutOfMemory) }
    {
        let message = &self.message;
        let PeerPair { origin, recipient } = PeerPair::new(&message.origin, &message.recipient)?;
        Ok(Completion {
            origin,
            recipient,
            channel: message.channel,
            message: M::of_contents(alloc, &message.bytes)?,
            done_at: self.done_at,
            deliver_at: self.deliver_at,
        })
    }
}

/// What is answered of messages that are done.
pub fn answers_of<P: Peer, M: Payload>(
    alloc: Global,
    ended: &[Ended<P>],
) -> Result<Vec<Completion<P, M>>, Error>
    ensures same { IfOk result (λ answers. AllZip (SameCompletion P.cmp) (map (completed_by M.bytes) answers.items)
        (map ended_of ended.now)) }
    ensures refused { IfErr result (λ e. e ≡ Error.OutOfMemory) }
{
    let mut answers = Vec::with_capacity(alloc, ended.len())?;
    for one in ended {
        answers.push(one.answer(alloc)?)?;
    }
    Ok(answers)
}

impl<P: Peer> Completion<P> {
    /// The same completion, its peers cloned. It shares the bytes.
    ///
    /// Its only error is `OutOfMemory`.
    pub fn clone(&self) -> Result<Completion<P>, Error>
        ensures origin { IfOk result (λ copy. P.cmp copy.origin self.now.origin ≡ Equal) }
        ensures recipient { IfOk result (λ copy. P.cmp copy.recipient self.now.recipient ≡ Equal) }
        ensures channel { IfOk result (λ copy. copy.channel ≡ self.now.channel) }
        ensures message { IfOk result (λ copy. copy.message ≡ self.now.message) }
        ensures done_at { IfOk result (λ copy. copy.done_at ≡ self.now.done_at) }
        ensures deliver_at { IfOk result (λ copy. copy.deliver_at ≡ self.now.deliver_at) }
        ensures refused { IfErr result (λ e. e ≡ Error.OutOfMemory) }
    {
        let PeerPair { origin, recipient } = PeerPair::new(&self.origin, &self.recipient)?;
        Ok(Completion {
            origin,
            recipient,
            channel: self.channel,
            message: self.message.slice(..)?,
            done_at: self.done_at,
            deliver_at: self.deliver_at,
        })
    }
}
