//! What is known of each ordered pair of peers.
ghost use Rattle.std.specs.Prelude.{◌≡◌, ◌<◌, ◌^◌, [], true, false, None, IfSome};
ghost use Rattle.std.specs.Prelude.{length, Some, IfOk, IfErr, OnOk, OnErr};
ghost use Rattle.std.specs.Option.{option_and_then};
ghost use Rattle.link_simulation.specs.Simulation.World.{later_of as latest};
ghost use Rattle.peer_numbers.specs.Pairs.{number_of_pair};
ghost use Rattle.link_pairs.specs.Pairs.Entries.{AreInNumbers};
ghost use Rattle.link_pairs.specs.Pairs.Room.{IsStillKnown};

use crate::room::fill_up_to;
use fairness::error::Error;
use fairness::peer::Peer;
use peer_numbers::PairNumbers;
use std::alloc::Global;
use std::marker::Model;
use undo_list::UndoList;

/// What is known of one ordered pair of peers.
#[derive(Clone, Copy)]
struct Known {
    /// The cap on what goes from the one to the other, in bytes a second.
    cap: Option<usize>,
    /// No later message of the pair arrives before this moment.
    last_arrival: Option<u64>,
}

/// What is known of the ordered pairs that calls have named. It is changed in place, and can be taken back as a whole,
/// with no memory, to how it stood at the last mark.
pub struct Pairs<P: Peer> {
    // A pair keeps its number, also where what is known of it is taken back.
    numbers: PairNumbers<P>,
    // By the number of the pair.
    known: UndoList<Known>,
    // Whether a pair has been given a cap. Where none has, none is looked for.
    linked: bool,
}

impl<P: Peer> Drop for Pairs<P> {
    /// Lets go of what it holds.
    #[inline(always)]
    fn drop(self) {
        let Pairs {
            numbers,
            known,
            linked: _,
        } = self;
        drop(numbers);
        drop(known);
    }
}

impl<P: Peer> Model for Pairs<P> {
    ghost use Rattle.std.specs.Prelude.{◌≡◌, false};
    ghost use Rattle.link_pairs.specs.Pairs.Entries.{AllPairs, known_by_pair, AreInNumbers, HaveNoCap};

    ghost Value = { AllPairs P };

    ghost view = { λ pairs. record {
      entries = known_by_pair pairs.numbers pairs.known.items;
      before = known_by_pair pairs.numbers pairs.known.before;
    } };

    ghost invariant = { λ pairs. AreInNumbers pairs.numbers pairs.known
        × (pairs.linked ≡ false → HaveNoCap pairs.known.items × HaveNoCap pairs.known.before) };
}

/// The later of the last arrival, if there is one, and that moment.
pub fn later_of(last: Option<u64>, moment: u64) -> u64
    ensures { result ≡ latest last moment }
{
    match last {
        None => moment,
        Some(last) => last.max(moment),
    }
}

/// The number of the pair, with room for what is known of it.
///
/// `OutOfMemory`: no memory was left. The same is known as before.
fn place_of<P: Peer>(
    numbers: &mut PairNumbers<P>,
    known: &mut UndoList<Known>,
    origin: &P,
    recipient: &P,
) -> Result<usize, Error>
    requires { AreInNumbers numbers.old known.old }
    ensures number { IfOk result (λ number. number_of_pair P.cmp numbers.new origin.now recipient.now ≡ Some number) }
    ensures room { IfOk result (λ number. number < length known.new.items) }
    ensures same { IsStillKnown P.cmp numbers.old known.old numbers.new known.new }
    ensures refused { IfErr result (λ e. e ≡ Error.OutOfMemory) }
{
    let number = numbers.add(origin, recipient)?;
    let nothing = Known {
        cap: None,
        last_arrival: None,
    };
    fill_up_to(known, number, nothing)?;
    Ok(number)
}

impl<P: Peer> Pairs<P> {
    ghost use Rattle.link_simulation.specs.Simulation.Messages.{with_link};
    ghost use Rattle.link_pairs.specs.Pairs.Entries.{link_of, arrival_of, raised_at};

    /// No pair.
    pub fn new(alloc: Global) -> Self
        ensures entries { result.entries ≡ [] }
        ensures before { result.before ≡ [] }
    {
        Pairs {
            numbers: PairNumbers::new(alloc),
            known: UndoList::new(alloc),
            linked: false,
        }
    }

    /// What is known of the pair, if anything is.
    #[inline(never)]
    fn find(&self, origin: &P, recipient: &P) -> Option<&Known>
        ensures cap { option_and_then (λ known. known.now.cap) result
            ≡ link_of P.cmp self.now.entries origin.now recipient.now }
        ensures last_arrival { option_and_then (λ known. known.now.last_arrival) result
            ≡ arrival_of P.cmp self.now.entries origin.now recipient.now }
    {
        self.known.get(self.numbers.number(origin, recipient)?)
    }

    /// The cap on what goes from the one to the other.
    #[inline(always)]
    pub fn cap(&self, origin: &P, recipient: &P) -> Option<u128>
        ensures cap { result ≡ link_of P.cmp self.now.entries origin.now recipient.now }
        ensures small { IfSome result (λ cap. cap < 2 ^ 64) }
    {
        if !self.linked {
            return None;
        }
        Some(self.find(origin, recipient)?.cap? as u128)
    }

    /// The moment before which no later message of the pair arrives, if there is one.
    pub fn last_arrival(&self, origin: &P, recipient: &P) -> Option<u64>
        ensures { result ≡ arrival_of P.cmp self.now.entries origin.now recipient.now }
    {
        self.find(origin, recipient)?.last_arrival
    }

    /// Sets the cap of the pair, in bytes a second, or takes it away.
    ///
    /// `OutOfMemory`: no memory was left. What is known stays.
    pub fn set_cap(&mut self, origin: &P, recipient: &P, cap: Option<usize>) -> Result<(), Error>
        ensures link { OnOk result (link_of P.cmp self.new.entries
            ≡ with_link P.cmp (link_of P.cmp self.old.entries) origin.now recipient.now cap) }
        ensures arrival { arrival_of P.cmp self.new.entries ≡ arrival_of P.cmp self.old.entries }
        ensures before { self.new.before ≡ self.old.before }
        ensures kept { OnErr result (link_of P.cmp self.new.entries ≡ link_of P.cmp self.old.entries) }
        ensures refused { IfErr result (λ e. e ≡ Error.OutOfMemory) }
    {
        let number = place_of(&mut self.numbers, &mut self.known, origin, recipient)?;
        let last_arrival = self.known.at(number).last_arrival;
        self.known.set(number, Known { cap, last_arrival })?;
        self.linked |= cap.is_some();
        Ok(())
    }

    /// From now on no message of the pair arrives before that moment. The last arrival up to now is
    /// answered.
    ///
    /// `OutOfMemory`: no memory was left. What is known stays.
    pub fn raise(&mut self, origin: &P, recipient: &P, moment: u64) -> Result<Option<u64>, Error>
        ensures last { IfOk result (λ last. last
            ≡ arrival_of P.cmp self.old.entries origin.now recipient.now) }
        ensures arrival { OnOk result (arrival_of P.cmp self.new.entries
            ≡ raised_at P.cmp (arrival_of P.cmp self.old.entries) origin.now recipient.now moment) }
        ensures link { link_of P.cmp self.new.entries ≡ link_of P.cmp self.old.entries }
        ensures before { self.new.before ≡ self.old.before }
        ensures kept { OnErr result (arrival_of P.cmp self.new.entries ≡ arrival_of P.cmp self.old.entries) }
        ensures refused { IfErr result (λ e. e ≡ Error.OutOfMemory) }
    {
        let number = place_of(&mut self.numbers, &mut self.known, origin, recipient)?;
        let Known { cap, last_arrival } = *self.known.at(number);
        let arrival = later_of(last_arrival, moment);
        let raised = Known {
            cap,
            last_arrival: Some(arrival),
        };
        self.known.set(number, raised)?;
        Ok(last_arrival)
    }

    /// A mark is set: what is known can be taken back to how it stands. It takes no memory.
    pub fn commit(&mut self)
        ensures entries { self.new.entries ≡ self.old.entries }
        ensures before { self.new.before ≡ self.old.entries }
    {
        self.known.commit();
    }

    /// What is known is taken back to how it stood at the last mark. It takes no memory.
    pub fn undo(&mut self)
        ensures entries { self.new.entries ≡ self.old.before }
        ensures before { self.new.before ≡ self.old.before }
    {
        self.known.undo();
    }
}
