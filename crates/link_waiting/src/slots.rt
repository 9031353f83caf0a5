//! Slots of messages that wait.
ghost use Rattle.std.specs.Prelude.{◌≡◌, ℕ, ◌<◌, ◌≤◌, ◌++◌, ◌∷◌, [], Some, None, length, option_map};
ghost use Rattle.std.specs.Prelude.{is_none, count_by, slice_index_or, IfOk, IfErr, IsSome, IfSome, IfNone, OnOk, IsTrue};
ghost use Rattle.std.specs.List.{find, AllZip};
ghost use Rattle.fairness.specs.Lists.WithoutFirst.{without_first};
ghost use Rattle.least_moment.specs.Moments.{moment_at};
ghost use Rattle.link_pairs.specs.Pairs.Messages.{message_of};
ghost use Rattle.link_waiting.specs.Idle.PairsOfMessages.{NamesPairOf};
ghost use Rattle.link_waiting.specs.Idle.FirstMoment.{first_moment};
ghost use Rattle.link_waiting.specs.Idle.Slots.{live, waiter_of, has_pair, IsFirstSlot, IsToldAnew, Stands, Marked};
ghost use Rattle.link_waiting.specs.Idle.Waits.{due_below};

use crate::moment::ready_moment;
use chains::Chains;
use fairness::error::Error;
use fairness::peer::Peer;
use least_moment::Moments;
use link_pairs::message::Message;
use link_pairs::pair::PeerPair;
use std::alloc::{AllocError, Global};
use std::ops::Deref;
use std::sync::Arc;
use undo_list::UndoList;

/// A message that waits.
#[derive(Drop)]
pub(crate) struct Slot<P> {
    pub(crate) message: Arc<Message<P>>,
    // The number of its pair.
    pub(crate) pair: usize,
}

/// The messages that wait, each in a slot, in order of `enqueue`, and how they are found. They may stand in the middle
/// of a change.
pub(crate) struct Slots<P> {
    // A message that leaves its slot leaves it empty.
    pub(crate) slots: UndoList<Option<Slot<P>>>,
    // How many slots are empty.
    pub(crate) gaps: usize,
    // The slots of each pair.
    pub(crate) chains: Chains,
    // By the number of the pair: from when on its first message may start, if it was told.
    pub(crate) sinces: UndoList<Option<u64>>,
    // The same again, as moments of which the least is at hand.
    pub(crate) moments: Moments,
}

impl<P: Drop> Drop for Slots<P> {
    /// Lets go of what it holds.
    #[inline(always)]
    fn drop(self) {
        let Slots {
            slots,
            gaps: _,
            chains,
            sinces,
            moments,
        } = self;
        drop(slots);
        drop(chains);
        drop(sinces);
        drop(moments);
    }
}

/// So many slots stay empty in any case: to close them up would cost more.
const FEW: usize = 16;

/// How many slots are empty.
fn count_gaps<P: Peer>(slots: &[Option<Slot<P>>]) -> usize
    ensures { result ≡ count_by is_none slots.now }
{
    slots.iter().filter(|slot| slot.is_none()).count()
}

/// One more slot, at the end of that pair's chain. Pairs come as they are named.
fn link(chains: &mut Chains, pair: usize) -> Result<(), AllocError>
    ensures now { OnOk result (chains.new.now.stands ≡ chains.old.now.stands ++ Some pair ∷ []) }
    ensures before { chains.new.before ≡ chains.old.before }
{
    while chains.owners() <= pair {
        chains.add_owner()?;
    }
    chains.add(pair)?;
    Ok(())
}

/// There is a place for what is told of that pair. What is told stays.
fn make_room(
    sinces: &mut UndoList<Option<u64>>,
    moments: &mut Moments,
    pair: usize,
) -> Result<(), AllocError>
    requires { moments.old ≡ sinces.old.items }
    ensures same { (at : ℕ) → moment_at sinces.new.items at ≡ moment_at sinces.old.items at }
    ensures moments { OnOk result (moments.new ≡ sinces.new.items) }
    ensures room { OnOk result (pair < length sinces.new.items) }
    ensures more { length sinces.old.items ≤ length sinces.new.items }
    ensures long { length moments.old ≤ length moments.new }
    ensures before { sinces.new.before ≡ sinces.old.before }
{
    while sinces.len() <= pair {
        sinces.push(None)?;
        moments.push(None)?;
    }
    Ok(())
}

/// That moment is told of the pair, or none is.
fn tell(
    sinces: &mut UndoList<Option<u64>>,
    moments: &mut Moments,
    pair: usize,
    moment: Option<u64>,
) -> Result<(), AllocError>
    requires moments { moments.old ≡ sinces.old.items }
    requires room { pair < length sinces.old.items }
    ensures told { OnOk result (IsToldAnew pair moment sinces.old.items sinces.new.items) }
    ensures moments { OnOk result (moments.new ≡ sinces.new.items) }
    ensures long { length moments.new ≡ length moments.old }
    ensures before { sinces.new.before ≡ sinces.old.before }
{
    if *sinces.at(pair) == moment {
        return Ok(());
    }
    sinces.set(pair, moment)?;
    moments.set(pair, moment);
    Ok(())
}

/// The moments are those that are told, once these were taken back.
fn restore(moments: &mut Moments, sinces: &[Option<u64>])
    requires { length sinces.now ≤ length moments.old }
    ensures { moments.new ≡ sinces.now }
{
    moments.truncate(sinces.len());
    for pair in 0..sinces.len() {
        moments.set(pair, sinces[pair]);
    }
}

impl<P: Peer> Slots<P> {
    /// No message waits.
    pub(crate) fn new(alloc: Global) -> Slots<P>
        ensures now { live result.slots.items ≡ [] }
        ensures before { live result.slots.before ≡ [] }
        ensures stands { Stands result }
        ensures marked { Marked result }
    {
        Slots {
            slots: UndoList::new(alloc),
            gaps: 0,
            chains: Chains::new(alloc),
            sinces: UndoList::new(alloc),
            moments: Moments::new(alloc),
        }
    }

    /// How many messages wait.
    pub(crate) fn len(&self) -> usize
        requires { Stands self.now }
        ensures { result ≡ length (live self.now.slots.items) }
    {
        self.slots.len() - self.gaps
    }

    /// Whether no message waits.
    pub(crate) fn is_empty(&self) -> bool
        requires { Stands self.now }
        ensures { IsTrue result → live self.now.slots.items ≡ [] }
    {
        self.slots.len() == self.gaps
    }

    /// The first slot of a pair, if one of its messages waits.
    fn first_slot(&self, pair: usize) -> Option<usize>
        requires { Stands self.now }
        ensures some { IfSome result (IsFirstSlot pair self.now.slots.items) }
        ensures none { IfNone result (find (has_pair pair) (live self.now.slots.items) ≡ None) }
    {
        if pair >= self.chains.owners() {
            return None;
        }
        self.chains.first(pair)
    }

    /// What is in a slot that is not empty.
    fn slot(&self, at: usize) -> &Slot<P>
        requires { IsSome (slice_index_or self.now.slots.items at None) }
        ensures { slice_index_or self.now.slots.items at None ≡ Some result.now }
    {
        match self.slots.at(at) {
            Some(slot) => slot,
            None => unreachable!(),
        }
    }

    /// The first message that waits for a pair, in its slot.
    pub(crate) fn first(&self, pair: usize) -> Option<&Slot<P>>
        requires { Stands self.now }
        ensures { option_map (λ slot. waiter_of slot.now) result ≡ find (has_pair pair) (live self.now.slots.items) }
    {
        Some(self.slot(self.first_slot(pair)?))
    }

    /// The moment from which on the first message that waits for a pair may start, if one was told.
    pub(crate) fn since(&self, pair: usize) -> Option<u64>
        ensures { result ≡ moment_at self.now.sinces.items pair }
    {
        *self.sinces.get(pair)?
    }

    /// A message comes, as the last one of its pair. Where memory is refused, part of that is done.
    pub(crate) fn push(&mut self, message: Arc<Message<P>>, pair: usize) -> Result<(), AllocError>
        requires stands { Stands self.old }
        requires marked { Marked self.old }
        ensures now { OnOk result (live self.new.slots.items ≡ live self.old.slots.items
            ++ record { message = message_of message.value; pair = pair } ∷ []) }
        ensures told { (at : ℕ) → moment_at self.new.sinces.items at ≡ moment_at self.old.sinces.items at }
        ensures before { self.new.slots.before ≡ self.old.slots.before }
        ensures told_before { self.new.sinces.before ≡ self.old.sinces.before }
        ensures stands { OnOk result (Stands self.new) }
        ensures marked { Marked self.new }
    {
        self.slots.push(Some(Slot { message, pair }))?;
        link(&mut self.chains, pair)?;
        make_room(&mut self.sinces, &mut self.moments, pair)
    }

    /// The first message that waits for a pair goes, and nothing is told of the pair any more. Where memory is refused,
    /// part of that is done.
    pub(crate) fn take_first(&mut self, pair: usize) -> Result<Option<Arc<Message<P>>>, AllocError>
        requires stands { Stands self.old }
        requires marked { Marked self.old }
        ensures taken { IfOk result (λ taken. option_map (λ m. message_of m.value) taken
            ≡ option_map (λ waiter. waiter.message) (find (has_pair pair) (live self.old.slots.items))) }
        ensures now { OnOk result (live self.new.slots.items ≡ without_first (has_pair pair) (live self.old.slots.items)) }
        ensures told { OnOk result (IsToldAnew pair None self.old.sinces.items self.new.sinces.items) }
        ensures before { self.new.slots.before ≡ self.old.slots.before }
        ensures told_before { self.new.sinces.before ≡ self.old.sinces.before }
        ensures stands { OnOk result (Stands self.new) }
        ensures marked { Marked self.new }
    {
        let Some(at) = self.first_slot(pair) else {
            return Ok(None);
        };
        let message = self.slot(at).message.clone()?;
        self.slots.set(at, None)?;
        self.chains.take(pair, at)?;
        tell(&mut self.sinces, &mut self.moments, pair, None)?;
        let slots = self.slots.len();
        prove!(self.gaps < slots);
        self.gaps += 1;
        Ok(Some(message))
    }

    /// A pair is idle whose last message arrives at that moment, if one does. Of its first message that waits it is told
    /// from which moment on it may start; that is answered. Where memory is refused, part of that is done.
    pub(crate) fn tell_since(
        &mut self,
        pair: usize,
        last_arrival: Option<u64>,
    ) -> Result<Option<u64>, AllocError>
        requires stands { Stands self.old }
        requires marked { Marked self.old }
        ensures answer { IfOk result (λ since. since ≡ option_map (λ waiter. first_moment last_arrival waiter.message.latency)
            (find (has_pair pair) (live self.old.slots.items))) }
        ensures slots { self.new.slots ≡ self.old.slots }
        ensures told { IfOk result (λ since. IsToldAnew pair since self.old.sinces.items self.new.sinces.items) }
        ensures told_before { self.new.sinces.before ≡ self.old.sinces.before }
        ensures stands { OnOk result (Stands self.new) }
        ensures marked { Marked self.new }
    {
        let Some(at) = self.first_slot(pair) else {
            return Ok(None);
        };
        let since = Some(ready_moment(last_arrival, self.slot(at).message.latency));
        tell(&mut self.sinces, &mut self.moments, pair, since)?;
        Ok(since)
    }

    /// The pairs of which a moment was told that has come by now, their peers cloned. They are listed in room
    /// that is given.
    pub(crate) fn due(&self, now: u64, mut due: Vec<PeerPair<P>>) -> Result<Vec<PeerPair<P>>, Error>
        requires stands { Stands self.now }
        requires empty { due.items ≡ [] }
        ensures due { IfOk result (λ keys. AllZip (λ key waiter. NamesPairOf P.cmp key waiter.message) keys.items
            (due_below now self.now.sinces.items (length self.now.sinces.items) (live self.now.slots.items))) }
        ensures refused { IfErr result (λ e. e ≡ Error.OutOfMemory) }
    {
        let end = self.moments.len();
        let mut next = self.moments.next_due(0, now);
        while let Some(pair) = next {
            let Some(slot) = self.first(pair) else {
                unreachable!();
            };
            let message = slot.message.deref();
            due.push(PeerPair::new(&message.origin, &message.recipient)?)?;
            prove!(pair < end);
            next = self.moments.next_due(pair + 1, now);
        }
        Ok(due)
    }

    /// Whether so many slots are empty that closing them up pays.
    fn has_many_gaps(&self) -> bool {
        let messages = self.slots.len().saturating_sub(self.gaps);
        self.gaps
            >= messages
                .saturating_add(self.chains.owners())
                .saturating_add(FEW)
    }

    /// A mark is set. Where many slots are empty, they are closed up.
    pub(crate) fn commit(&mut self)
        requires { Stands self.old }
        ensures now { live self.new.slots.items ≡ live self.old.slots.items }
        ensures before { live self.new.slots.before ≡ live self.old.slots.items }
        ensures told { self.new.sinces.items ≡ self.old.sinces.items }
        ensures told_before { self.new.sinces.before ≡ self.old.sinces.items }
        ensures stands { Stands self.new }
        ensures marked { Marked self.new }
    {
        self.sinces.commit();
        if self.has_many_gaps() {
            self.slots.commit_kept(|slot| slot.is_some());
            self.chains.close_gaps();
            self.gaps = 0;
            return;
        }
        self.slots.commit();
        self.chains.commit();
    }

    /// All is taken back to the mark.
    pub(crate) fn undo(&mut self)
        requires { Marked self.old }
        ensures now { self.new.slots.items ≡ self.old.slots.before }
        ensures before { self.new.slots.before ≡ self.old.slots.before }
        ensures told { self.new.sinces.items ≡ self.old.sinces.before }
        ensures told_before { self.new.sinces.before ≡ self.old.sinces.before }
        ensures stands { Stands self.new }
        ensures marked { Marked self.new }
    {
        self.slots.undo();
        self.chains.undo();
        self.sinces.undo();
        restore(&mut self.moments, self.sinces.as_slice());
        self.gaps = count_gaps(self.slots.as_slice());
    }
}
