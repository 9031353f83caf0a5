//! Peers with a number each.
ghost use Rattle.std.specs.Prelude.{◌≡◌, [], length, true, Some, IfSome, IfOk, IfErr, OnOk, OnErr};
ghost use Rattle.peer_numbers.specs.Peers.{number_of, IsWithPeer};

use crate::hints::Hints;
use fairness::error::Error;
use fairness::peer::Peer;
use std::alloc::Global;
use std::collections::BTreeMap;
use std::marker::Model;

/// Peers with a number each: 0, 1, 2 and so on, in the order in which they first came. A peer keeps its
/// number. To callers it is the list of the peers, where the number of each is its place.
pub struct PeerNumbers<P: Peer> {
    // Each at its number.
    peers: Vec<P>,
    numbers: BTreeMap<P, usize>,
    // Most are found by what they hint at, without the map.
    hints: Hints,
}

impl<P: Peer> Drop for PeerNumbers<P> {
    /// Lets go of what it holds.
    #[inline(always)]
    fn drop(self) {
        let PeerNumbers {
            peers,
            numbers,
            hints,
        } = self;
        drop(peers);
        drop(numbers);
        drop(hints);
    }
}

impl<P: Peer> Model for PeerNumbers<P> {
    ghost use Rattle.std.specs.Prelude.{List};
    ghost use Rattle.peer_numbers.specs.Peers.{AreNumbered};

    ghost Value = { List P };

    ghost view = { λ numbers. numbers.peers.items };

    ghost invariant = { λ numbers. AreNumbered P.cmp numbers.peers.items numbers.numbers.entries };
}

impl<P: Peer> PeerNumbers<P> {
    /// No peer has a number.
    pub fn new(alloc: Global) -> PeerNumbers<P>
        ensures { result ≡ [] }
    {
        PeerNumbers {
            peers: Vec::new(alloc),
            numbers: BTreeMap::new(alloc),
            hints: Hints::new(alloc),
        }
    }

    /// How many peers have a number: all numbers are below it.
    pub fn len(&self) -> usize
        ensures { result ≡ length self.now }
    {
        self.peers.len()
    }

    /// The peer of that number, if there is one.
    #[inline(always)]
    pub(crate) fn get(&self, number: usize) -> Option<&P> {
        self.peers.get(number)
    }

    /// Whether the peer has that number. It may be guessed.
    #[inline(always)]
    pub(crate) fn has_number(&self, number: usize, peer: &P) -> bool
        ensures { result ≡ true → number_of P.cmp self.now peer.now ≡ Some number }
    {
        match self.peers.get(number) {
            Some(known) => known.cmp(peer).is_eq(),
            None => false,
        }
    }

    /// The number that is guessed for the peer, if it is its number.
    #[inline(always)]
    fn guessed(&self, peer: &P) -> Option<usize>
        ensures { IfSome result (λ number. number_of P.cmp self.now peer.now ≡ Some number) }
    {
        let number = self.hints.number(peer.hint());
        self.has_number(number, peer).then_some(number)
    }

    /// The number of the peer, if it has one.
    #[inline(always)]
    pub fn number(&self, peer: &P) -> Option<usize>
        ensures { result ≡ number_of P.cmp self.now peer.now }
    {
        if let Some(number) = self.guessed(peer) {
            return Some(number);
        }
        self.numbers.get(peer).copied()
    }

    /// The number of the peer, which gets the next one if it has none: then clones of it are kept.
    ///
    /// `OutOfMemory`: no memory was left for the clones, the list or the map. Then no peer has got a number.
    #[inline(always)]
    pub fn add(&mut self, peer: &P) -> Result<usize, Error>
        ensures number { IfOk result (λ number. number_of P.cmp self.new peer.now ≡ Some number) }
        ensures peers { OnOk result (IsWithPeer P.cmp self.old peer.now self.new) }
        ensures refused { IfErr result (λ error. error ≡ Error.OutOfMemory) }
        ensures unchanged { OnErr result (self.new ≡ self.old) }
    {
        if let Some(number) = self.guessed(peer) {
            return Ok(number);
        }
        let number = self.find_or_push(peer)?;
        if self.hints.are_few_for(self.peers.len()) && self.hints.grow() {
            for (number, peer) in self.peers.iter().enumerate() {
                self.hints.note(peer.hint(), number);
            }
        }
        self.hints.note(peer.hint(), number);
        Ok(number)
    }

    /// The number of the peer, as `add` answers it, by the map.
    fn find_or_push(&mut self, peer: &P) -> Result<usize, Error>
        ensures number { IfOk result (λ number. number_of P.cmp self.new peer.now ≡ Some number) }
        ensures peers { OnOk result (IsWithPeer P.cmp self.old peer.now self.new) }
        ensures refused { IfErr result (λ error. error ≡ Error.OutOfMemory) }
        ensures unchanged { OnErr result (self.new ≡ self.old) }
    {
        if let Some(number) = self.numbers.get(peer) {
            return Ok(*number);
        }
        let number = self.peers.len();
        let copy = peer.clone_peer().ok_or(Error::OutOfMemory)?;
        let key = peer.clone_peer().ok_or(Error::OutOfMemory)?;
        self.peers.push(copy)?;
        let Ok(_) = self.numbers.insert(key, number) else {
            self.peers.pop();
            return Err(Error::OutOfMemory);
        };
        Ok(number)
    }
}
