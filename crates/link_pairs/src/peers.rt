//! The caps of each peer.
ghost use Rattle.std.specs.Prelude.{◌≡◌, ◌<◌, ◌^◌, [], OnOk, OnErr, IfSome, IfErr};
ghost use Rattle.std.specs.Option.{option_and_then};

use crate::room::fill_up_to;
use fairness::error::Error;
use fairness::peer::Peer;
use peer_numbers::PeerNumbers;
use std::alloc::Global;
use std::marker::Model;
use undo_list::UndoList;

/// The caps of one peer, in bytes a second.
#[derive(Clone, Copy)]
struct Caps {
    egress: Option<usize>,
    ingress: Option<usize>,
}

/// The caps of the peers that have been limited. They are changed in place, and can be taken back as a whole, with no
/// memory, to how they stood at the last mark.
pub struct Peers<P: Peer> {
    // A peer keeps its number, also where its caps are taken back.
    numbers: PeerNumbers<P>,
    // By the number of the peer.
    caps: UndoList<Caps>,
}

impl<P: Peer> Drop for Peers<P> {
    /// Lets go of what it holds.
    #[inline(always)]
    fn drop(self) {
        let Peers { numbers, caps } = self;
        drop(numbers);
        drop(caps);
    }
}

impl<P: Peer> Model for Peers<P> {
    ghost use Rattle.link_pairs.specs.Pairs.PeerCaps.{AllCaps, caps_by_peer, AreInNumbers};

    ghost Value = { AllCaps P };

    ghost view = { λ peers. record {
      entries = caps_by_peer peers.numbers peers.caps.items;
      before = caps_by_peer peers.numbers peers.caps.before;
    } };

    ghost invariant = { λ peers. AreInNumbers peers.numbers peers.caps };
}

impl<P: Peer> Peers<P> {
    ghost use Rattle.link_simulation.specs.Simulation.Messages.{with_cap};
    ghost use Rattle.link_pairs.specs.Pairs.PeerCaps.{egress_of, ingress_of};

    /// No peer has caps.
    pub fn new(alloc: Global) -> Self
        ensures entries { result.entries ≡ [] }
        ensures before { result.before ≡ [] }
    {
        Peers {
            numbers: PeerNumbers::new(alloc),
            caps: UndoList::new(alloc),
        }
    }

    /// The caps of the peer, if it has been limited.
    fn find(&self, peer: &P) -> Option<&Caps>
        ensures egress { option_and_then (λ caps. caps.now.egress) result
            ≡ egress_of P.cmp self.now.entries peer.now }
        ensures ingress { option_and_then (λ caps. caps.now.ingress) result
            ≡ ingress_of P.cmp self.now.entries peer.now }
    {
        self.caps.get(self.numbers.number(peer)?)
    }

    /// The cap on all that the peer sends.
    pub fn egress(&self, peer: &P) -> Option<u128>
        ensures cap { result ≡ egress_of P.cmp self.now.entries peer.now }
        ensures small { IfSome result (λ cap. cap < 2 ^ 64) }
    {
        Some(self.find(peer)?.egress? as u128)
    }

    /// The cap on all that the peer receives.
    pub fn ingress(&self, peer: &P) -> Option<u128>
        ensures cap { result ≡ ingress_of P.cmp self.now.entries peer.now }
        ensures small { IfSome result (λ cap. cap < 2 ^ 64) }
    {
        Some(self.find(peer)?.ingress? as u128)
    }

    /// Sets both caps of the peer, in bytes a second; each may be none.
    ///
    /// `OutOfMemory`: no memory was left. The caps stay.
    pub fn set(
        &mut self,
        peer: &P,
        egress: Option<usize>,
        ingress: Option<usize>,
    ) -> Result<(), Error>
        ensures egress { OnOk result (egress_of P.cmp self.new.entries
            ≡ with_cap P.cmp (egress_of P.cmp self.old.entries) peer.now egress) }
        ensures ingress { OnOk result (ingress_of P.cmp self.new.entries
            ≡ with_cap P.cmp (ingress_of P.cmp self.old.entries) peer.now ingress) }
        ensures before { self.new.before ≡ self.old.before }
        ensures kept_egress { OnErr result (egress_of P.cmp self.new.entries ≡ egress_of P.cmp self.old.entries) }
        ensures kept_ingress { OnErr result (ingress_of P.cmp self.new.entries ≡ ingress_of P.cmp self.old.entries) }
        ensures refused { IfErr result (λ e. e ≡ Error.OutOfMemory) }
    {
        let number = self.numbers.add(peer)?;
        let none = Caps {
            egress: None,
            ingress: None,
        };
        fill_up_to(&mut self.caps, number, none)?;
        self.caps.set(number, Caps { egress, ingress })?;
        Ok(())
    }

    /// A mark is set: the caps can be taken back to how they stand. It takes no memory.
    pub fn commit(&mut self)
        ensures entries { self.new.entries ≡ self.old.entries }
        ensures before { self.new.before ≡ self.old.entries }
    {
        self.caps.commit();
    }

    /// The caps are taken back to how they stood at the last mark. It takes no memory.
    pub fn undo(&mut self)
        ensures entries { self.new.entries ≡ self.old.before }
        ensures before { self.new.before ≡ self.old.before }
    {
        self.caps.undo();
    }
}
