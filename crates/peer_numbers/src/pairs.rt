//! Ordered pairs of peers with a number each.
ghost use Rattle.std.specs.Prelude.{◌≡◌, [], length, Some, IfSome, IfOk, IfErr, OnOk, OnErr};
ghost use Rattle.peer_numbers.specs.Pairs.{number_of_pair, IsWithPair};

use crate::ends::{EndNumbers, Ends};
use crate::hints::Hints;
use crate::numbers::PeerNumbers;
use fairness::error::Error;
use fairness::peer::Peer;
use std::alloc::Global;
use std::marker::Model;

/// So far apart are the hints of two origins to one recipient: a prime, so that few pairs share one.
const ORIGIN_STEP: u64 = 1_000_003;

/// What a pair tells of itself, by what its peers do. Peers that follow one another make pairs that do.
#[inline(always)]
fn hint_of<P: Peer>(origin: &P, recipient: &P) -> u64 {
    let origin = origin.hint().wrapping_mul(ORIGIN_STEP);
    origin.wrapping_add(recipient.hint())
}

/// Each pair is guessed to have its number.
fn note_all<P: Peer>(hints: &mut Hints, peers: &PeerNumbers<P>, ends: &EndNumbers) {
    for number in 0..ends.len() {
        if let Some(Ends { origin, recipient }) = ends.at(number) {
            if let (Some(origin), Some(recipient)) = (peers.get(origin), peers.get(recipient)) {
                hints.note(hint_of(origin, recipient), number);
            }
        }
    }
}

/// Ordered pairs of peers with a number each: 0, 1, 2 and so on, in the order in which they first came. A pair
/// keeps its number. To callers it is the list of the pairs, where the number of each is its place.
pub struct PairNumbers<P: Peer> {
    peers: PeerNumbers<P>,
    // The number of a pair is that of its ends.
    ends: EndNumbers,
    // Most are found by what both peers hint at, without their numbers.
    hints: Hints,
}

impl<P: Peer> Drop for PairNumbers<P> {
    /// Lets go of what it holds.
    #[inline(always)]
    fn drop(self) {
        let PairNumbers { peers, ends, hints } = self;
        drop(peers);
        drop(ends);
        drop(hints);
    }
}

impl<P: Peer> Model for PairNumbers<P> {
    ghost use Rattle.std.specs.Prelude.{List};
    ghost use Rattle.peer_numbers.specs.Pairs.{listed_pairs, ArePairsNumbered};

    ghost Value = { List (P × P) };

    ghost view = { λ pairs. listed_pairs pairs.peers pairs.ends };

    ghost invariant = { λ pairs. ArePairsNumbered P.cmp pairs.peers pairs.ends };
}

impl<P: Peer> PairNumbers<P> {
    /// No pair has a number.
    pub fn new(alloc: Global) -> PairNumbers<P>
        ensures { result ≡ [] }
    {
        PairNumbers {
            peers: PeerNumbers::new(alloc),
            ends: EndNumbers::new(alloc),
            hints: Hints::new(alloc),
        }
    }

    /// How many pairs have a number: all numbers are below it.
    pub fn len(&self) -> usize
        ensures { result ≡ length self.now }
    {
        self.ends.len()
    }

    /// The number that is guessed for the pair, if it is its number.
    #[inline(always)]
    fn guessed(&self, origin: &P, recipient: &P) -> Option<usize>
        ensures { IfSome result (λ number. number_of_pair P.cmp self.now origin.now recipient.now ≡ Some number) }
    {
        let number = self.hints.number(hint_of(origin, recipient));
        let ends = self.ends.at(number)?;
        if self.peers.has_number(ends.origin, origin)
            && self.peers.has_number(ends.recipient, recipient)
        {
            Some(number)
        } else {
            None
        }
    }

    /// The number of the pair, if it has one.
    #[inline(always)]
    pub fn number(&self, origin: &P, recipient: &P) -> Option<usize>
        ensures { result ≡ number_of_pair P.cmp self.now origin.now recipient.now }
    {
        if let Some(number) = self.guessed(origin, recipient) {
            return Some(number);
        }
        self.searched(origin, recipient)
    }

    /// The number of the pair, if it has one, by those of its peers.
    fn searched(&self, origin: &P, recipient: &P) -> Option<usize>
        ensures { result ≡ number_of_pair P.cmp self.now origin.now recipient.now }
    {
        let origin = self.peers.number(origin)?;
        let recipient = self.peers.number(recipient)?;
        self.ends.number(Ends { origin, recipient })
    }

    /// The number of the pair, which gets the next one if it has none: then clones of its peers are kept.
    ///
    /// `OutOfMemory`: no memory was left for the clones or the maps. Then no pair has got a number.
    #[inline(always)]
    pub fn add(&mut self, origin: &P, recipient: &P) -> Result<usize, Error>
        ensures number { IfOk result (λ number. number_of_pair P.cmp self.new origin.now recipient.now ≡ Some number) }
        ensures pairs { OnOk result (IsWithPair P.cmp self.old origin.now recipient.now self.new) }
        ensures refused { IfErr result (λ error. error ≡ Error.OutOfMemory) }
        ensures unchanged { OnErr result (self.new ≡ self.old) }
    {
        if let Some(number) = self.guessed(origin, recipient) {
            return Ok(number);
        }
        let number = self.find_or_push(origin, recipient)?;
        self.note(origin, recipient, number);
        Ok(number)
    }

    /// The number of the pair, as `add` answers it, by those of its peers.
    fn find_or_push(&mut self, origin: &P, recipient: &P) -> Result<usize, Error>
        ensures number { IfOk result (λ number. number_of_pair P.cmp self.new origin.now recipient.now ≡ Some number) }
        ensures pairs { OnOk result (IsWithPair P.cmp self.old origin.now recipient.now self.new) }
        ensures refused { IfErr result (λ error. error ≡ Error.OutOfMemory) }
        ensures unchanged { OnErr result (self.new ≡ self.old) }
    {
        let origin = self.peers.add(origin)?;
        let recipient = self.peers.add(recipient)?;
        self.ends.add(Ends { origin, recipient })
    }

    /// The pair is guessed to have that number from now on. Where there are few guesses there are more.
    fn note(&mut self, origin: &P, recipient: &P, number: usize)
        ensures { self.new ≡ self.old }
    {
        if self.hints.are_few_for(self.ends.len()) && self.hints.grow() {
            note_all(&mut self.hints, &self.peers, &self.ends);
        }
        self.hints.note(hint_of(origin, recipient), number);
    }
}
