//! Messages in flight for which a cap has changed since the last account.
ghost use Rattle.std.specs.Prelude.{◌≡◌, ◌<◌, ◌==◌, [], ◌∷◌, ◌++◌, length, map, IfOk, IfErr, OnOk, not};
ghost use Rattle.fairness.specs.Sides.Subjects.{same_peer};
ghost use Rattle.link_pairs.specs.Pairs.Messages.{message_of};
ghost use Rattle.link_simulation.specs.Simulation.Rates.{is_unlimited as is_free};
ghost use Rattle.std.specs.List.{list_all};
ghost use Rattle.link_pairs.specs.Pairs.CapsOf.{caps_of};
ghost use Rattle.link_flights.specs.Flights.Loose.{AreStillLoose, IsLooseAt, Loosens, LoosensAt};

use crate::account::is_unlimited;
use crate::flight_list::Flights;
use crate::table::End;
use fairness::error::Error;
use fairness::peer::Peer;
use link_pairs::known_pairs::Pairs;
use link_pairs::message::Message;
use link_pairs::peers::Peers;
use std::alloc::{AllocError, Global};
use std::marker::Model;
use std::sync::Arc;

/// Messages in flight for which a cap has changed since the last account.
#[derive(Drop)]
pub struct Loose<P: Peer> {
    messages: Vec<Arc<Message<P>>>,
}

impl<P: Peer> Model for Loose<P> {
    ghost use Rattle.std.specs.Prelude.{List, map};
    ghost use Rattle.link_pairs.specs.declared.message.Message.{Message as AnyMessage};

    ghost Value = { List (AnyMessage P) };

    ghost view = { λ loose. map (λ message. message.value) loose.messages.items };

    ghost invariant = { λ loose. Unit };
}

impl<P: Peer> Loose<P> {
    /// No message.
    pub(crate) fn new(alloc: Global) -> Loose<P>
        ensures { result ≡ [] }
    {
        Loose {
            messages: Vec::new(alloc),
        }
    }

    /// The messages.
    pub(crate) fn as_slice(&self) -> &[Arc<Message<P>>]
        ensures { map (λ message. message.value) result.now ≡ self.now }
    {
        self.messages.as_slice()
    }

    /// Whether there is none.
    pub(crate) fn is_empty(&self) -> bool
        ensures { result ≡ (length self.now == 0) }
    {
        self.messages.is_empty()
    }

    /// One more message.
    fn push(&mut self, message: Arc<Message<P>>) -> Result<(), AllocError>
        ensures { OnOk result (self.new ≡ self.old ++ message.value ∷ []) }
    {
        self.messages.push(message)?;
        Ok(())
    }

    /// The same messages. They are shared.
    pub(crate) fn share(&self, alloc: Global) -> Result<Loose<P>, AllocError>
        ensures { IfOk result (λ shared. shared ≡ self.now) }
    {
        let mut messages = Vec::new(alloc);
        for message in &self.messages {
            messages.push(message.clone()?)?;
        }
        Ok(Loose { messages })
    }
}

impl<P: Peer> Flights<P> {
    /// A cap of the peer is about to change: what it sends and what it receives is loose until rates are given.
    pub fn loosen_peer(&mut self, peer: &P) -> Result<(), Error>
        ensures sent { OnOk result (Loosens (λ m. same_peer P.cmp peer.now m.origin) self.old self.new) }
        ensures received { OnOk result (Loosens (λ m. same_peer P.cmp peer.now m.recipient) self.old self.new) }
        ensures list { self.new.list.items ≡ self.old.list.items }
        ensures scale { self.new.scale ≡ self.old.scale }
        ensures at { self.new.at ≡ self.old.at }
        ensures before { self.new.list.before ≡ self.old.list.before }
        ensures refused { IfErr result (λ e. e ≡ Error.OutOfMemory) }
    {
        self.loosen_end(End::Origin, peer)?;
        self.loosen_end(End::Recipient, peer)
    }

    /// The cap of a pair is about to change: what its origin sends is loose until rates are given.
    pub fn loosen_sent(&mut self, origin: &P) -> Result<(), Error>
        ensures sent { OnOk result (Loosens (λ m. same_peer P.cmp origin.now m.origin) self.old self.new) }
        ensures list { self.new.list.items ≡ self.old.list.items }
        ensures scale { self.new.scale ≡ self.old.scale }
        ensures at { self.new.at ≡ self.old.at }
        ensures before { self.new.list.before ≡ self.old.list.before }
        ensures refused { IfErr result (λ e. e ≡ Error.OutOfMemory) }
    {
        self.loosen_end(End::Origin, origin)
    }

    /// What has the peer at that end is loose from now on.
    fn loosen_end(&mut self, end: End, peer: &P) -> Result<(), Error>
        ensures loosens { OnOk result (LoosensAt P.cmp end peer.now self.old self.new) }
        ensures list { self.new.list.items ≡ self.old.list.items }
        ensures scale { self.new.scale ≡ self.old.scale }
        ensures at { self.new.at ≡ self.old.at }
        ensures before { self.new.list.before ≡ self.old.list.before }
        ensures refused { IfErr result (λ e. e ≡ Error.OutOfMemory) }
    {
        let mut next = self.list.first_of(end, peer);
        while let Some(at) = next {
            self.loosen(at)?;
            next = self.list.next_at(end, at);
        }
        Ok(())
    }

    /// The message at that place is loose from now on.
    fn loosen(&mut self, at: usize) -> Result<(), Error>
        requires place { at < length self.old.list.items }
        ensures here { OnOk result (IsLooseAt at self.new) }
        ensures still { OnOk result (AreStillLoose self.old self.new) }
        ensures list { self.new.list.items ≡ self.old.list.items }
        ensures scale { self.new.scale ≡ self.old.scale }
        ensures at { self.new.at ≡ self.old.at }
        ensures before { self.new.list.before ≡ self.old.list.before }
        ensures refused { IfErr result (λ e. e ≡ Error.OutOfMemory) }
    {
        self.lower_floor(at)?;
        let message = self.list.at(at).message.clone()?;
        self.loose.push(message)?;
        Ok(())
    }

    /// Whether all that is loose uses a capped side.
    pub fn loose_is_limited(&self, peers: &Peers<P>, pairs: &Pairs<P>) -> bool
        ensures { result ≡ list_all (λ m. not (is_free P.cmp (caps_of P.cmp peers.now.entries pairs.now.entries)
            (message_of m))) self.now.loose }
    {
        self.loose
            .as_slice()
            .iter()
            .all(|message| !is_unlimited(message, peers, pairs))
    }
}
