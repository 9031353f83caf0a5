//! How the rows of a table are found.
ghost use Rattle.std.specs.Prelude.{◌≡◌, suc, ◌<◌, ◌≤◌, ◌++◌, ◌∷◌, [], Some, None, OnOk, OnErr};
ghost use Rattle.std.specs.Prelude.{length, map, take, slice_set, filter, is_some};
ghost use Rattle.chains.specs.Chains.{owner_of};
ghost use Rattle.row_table.specs.Index.{moment_of, IsSameMark};

use super::row::Row;
use chains::Chains;
use least_moment::Moments;
use std::alloc::{AllocError, Global};

/// The rows of each sender and of each receiver, and the moments of all. It may stand in the middle of a change.
#[derive(Drop)]
pub(crate) struct Index {
    pub(crate) sent: Chains,
    pub(crate) received: Chains,
    pub(crate) moments: Moments,
}

/// One more row, at the end of that owner's chain. Owners come as they are named.
fn add(chains: &mut Chains, owner: usize) -> Result<(), AllocError>
    ensures now { OnOk result (chains.new.now.stands ≡ chains.old.now.stands ++ Some owner ∷ []) }
    ensures before { chains.new.before ≡ chains.old.before }
{
    while chains.owners() <= owner {
        chains.add_owner()?;
    }
    chains.add(owner)?;
    Ok(())
}

/// Each slot has the moment of its row again.
fn restore<T>(moments: &mut Moments, slots: &[Option<Row<T>>])
    requires { length slots.now ≤ length moments.old }
    ensures { moments.new ≡ map moment_of slots.now }
{
    moments.truncate(slots.len());
    for slot in 0..slots.len() {
        let moment = match &slots[slot] {
            Some(row) => row.moment,
            None => None,
        };
        moments.set(slot, moment);
    }
}

impl Index {
    /// It finds no row.
    pub(crate) fn new(alloc: Global) -> Index
        ensures sent { result.sent.now.stands ≡ [] }
        ensures received { result.received.now.stands ≡ [] }
        ensures moments { result.moments ≡ [] }
        ensures sent_before { result.sent.before.stands ≡ [] }
        ensures received_before { result.received.before.stands ≡ [] }
    {
        Index {
            sent: Chains::new(alloc),
            received: Chains::new(alloc),
            moments: Moments::new(alloc),
        }
    }

    /// One more row. Where memory is refused, part of that is done, but no moment comes.
    pub(crate) fn add(
        &mut self,
        sender: usize,
        receiver: usize,
        moment: Option<u64>,
    ) -> Result<(), AllocError>
        ensures sent { OnOk result (self.new.sent.now.stands ≡ self.old.sent.now.stands ++ Some sender ∷ []) }
        ensures received { OnOk result (self.new.received.now.stands ≡ self.old.received.now.stands ++ Some receiver ∷ []) }
        ensures moments { OnOk result (self.new.moments ≡ self.old.moments ++ moment ∷ []) }
        ensures moments_kept { OnErr result (self.new.moments ≡ self.old.moments) }
        ensures mark { IsSameMark self.old self.new }
    {
        add(&mut self.sent, sender)?;
        add(&mut self.received, receiver)?;
        self.moments.push(moment)
    }

    /// A row goes. Where memory is refused, part of that is done, but its moment stays.
    pub(crate) fn take(
        &mut self,
        slot: usize,
        sender: usize,
        receiver: usize,
    ) -> Result<(), AllocError>
        requires sent { owner_of self.old.sent.now slot ≡ Some sender }
        requires received { owner_of self.old.received.now slot ≡ Some receiver }
        requires within { slot < length self.old.moments }
        ensures sent { OnOk result (self.new.sent.now.stands ≡ slice_set self.old.sent.now.stands slot None) }
        ensures received { OnOk result (self.new.received.now.stands ≡ slice_set self.old.received.now.stands slot None) }
        ensures moments { OnOk result (self.new.moments ≡ slice_set self.old.moments slot None) }
        ensures moments_kept { OnErr result (self.new.moments ≡ self.old.moments) }
        ensures mark { IsSameMark self.old self.new }
    {
        self.sent.take(sender, slot)?;
        self.received.take(receiver, slot)?;
        self.moments.set(slot, None);
        Ok(())
    }

    /// The last slot goes. It is empty, and came after the mark.
    pub(crate) fn pop(&mut self, slot: usize)
        requires sent { length self.old.sent.before.stands ≤ slot × length self.old.sent.now.stands ≡ suc slot }
        requires received { length self.old.received.before.stands ≤ slot × length self.old.received.now.stands ≡ suc slot }
        requires sent_empty { owner_of self.old.sent.now slot ≡ None }
        requires received_empty { owner_of self.old.received.now slot ≡ None }
        ensures sent { self.new.sent.now.stands ≡ take slot self.old.sent.now.stands }
        ensures received { self.new.received.now.stands ≡ take slot self.old.received.now.stands }
        ensures moments { self.new.moments ≡ take slot self.old.moments }
        ensures mark { IsSameMark self.old self.new }
    {
        self.sent.pop();
        self.received.pop();
        self.moments.truncate(slot);
    }

    /// A mark is set.
    pub(crate) fn commit(&mut self)
        ensures sent { self.new.sent.now ≡ self.old.sent.now }
        ensures received { self.new.received.now ≡ self.old.received.now }
        ensures moments { self.new.moments ≡ self.old.moments }
        ensures sent_before { self.new.sent.before ≡ self.old.sent.now }
        ensures received_before { self.new.received.before ≡ self.old.received.now }
    {
        self.sent.commit();
        self.received.commit();
    }

    /// The rows that are there close up, and a mark is set: these are they.
    pub(crate) fn close_gaps<T>(&mut self, slots: &[Option<Row<T>>])
        requires { length slots.now ≤ length self.old.moments }
        ensures sent { self.new.sent.now.stands ≡ filter is_some self.old.sent.now.stands }
        ensures received { self.new.received.now.stands ≡ filter is_some self.old.received.now.stands }
        ensures moments { self.new.moments ≡ map moment_of slots.now }
        ensures sent_before { self.new.sent.before ≡ self.new.sent.now }
        ensures received_before { self.new.received.before ≡ self.new.received.now }
    {
        self.sent.close_gaps();
        self.received.close_gaps();
        restore(&mut self.moments, slots);
    }

    /// All is taken back to the mark, at which these rows stood.
    pub(crate) fn undo<T>(&mut self, slots: &[Option<Row<T>>])
        requires { length slots.now ≤ length self.old.moments }
        ensures sent { self.new.sent.now ≡ self.old.sent.before }
        ensures received { self.new.received.now ≡ self.old.received.before }
        ensures moments { self.new.moments ≡ map moment_of slots.now }
        ensures mark { IsSameMark self.old self.new }
    {
        self.sent.undo();
        self.received.undo();
        restore(&mut self.moments, slots);
    }
}
