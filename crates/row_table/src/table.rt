//! A table of rows.
ghost use Rattle.std.specs.Prelude.{◌≡◌, ℕ, suc, ◌<◌, ◌==◌, ◌++◌, ◌∷◌, [], Some};
ghost use Rattle.std.specs.Prelude.{option_map, length, remove, slice_get, slice_set};
ghost use Rattle.std.specs.Prelude.{IfSome, OnOk, OnErr};
ghost use Rattle.std.specs.List.{list_any};
ghost use Rattle.row_table.specs.Rows.{with_item, has_come, IsNext};
ghost use Rattle.row_table.specs.Rows.{is_sent_by, is_received_by, is_due_by};

use super::parts::Parts;
use super::row::Row;
use std::alloc::{AllocError, Global};
use std::marker::Model;

/// Rows in order of coming, each with an item, two owners, who sends and who receives it, and a moment that may be
/// missing.
///
/// A row comes at the end, behind all others. Where one leaves, those behind it move up. Owners are numbers. Memory is
/// asked for as far as the largest that was named, so they are best counted from 0 on.
///
/// A table is changed in place, and can be taken back as a whole, with no memory, to how it stood at the last mark:
/// by [`undo`](RowTable::undo), and by each call that is refused memory.
pub struct RowTable<T> {
    parts: Parts<T>,
}

impl<T: Drop> Drop for RowTable<T> {
    /// Lets go of what it holds.
    #[inline(always)]
    fn drop(self) {
        let RowTable { parts } = self;
        drop(parts);
    }
}

impl<T> Model for RowTable<T> {
    ghost use Rattle.row_table.specs.Rows.{Versions};
    ghost use Rattle.row_table.specs.Slots.{live};
    ghost use Rattle.row_table.specs.Index.{Stands, Marked};

    ghost Value = { Versions T };

    ghost view = { λ table. record { now = live table.parts.slots.items; before = live table.parts.slots.before } };

    ghost invariant = { λ table. Stands table.parts × Marked table.parts };
}

impl<T: Drop> RowTable<T> {
    /// No row. It takes no memory.
    pub fn new(alloc: Global) -> RowTable<T>
        ensures now { result.now ≡ [] }
        ensures before { result.before ≡ [] }
    {
        RowTable {
            parts: Parts::new(alloc),
        }
    }

    /// How many rows there are.
    pub fn len(&self) -> usize
        ensures { result ≡ length self.now.now }
    {
        self.parts.filled.len()
    }

    /// Whether there is no row.
    pub fn is_empty(&self) -> bool
        ensures { result ≡ (length self.now.now == 0) }
    {
        self.parts.filled.is_empty()
    }

    /// The row at that place.
    #[inline(always)]
    pub fn at(&self, at: usize) -> &Row<T>
        requires { at < length self.now.now }
        ensures { slice_get self.now.now at ≡ Some result.now }
    {
        self.parts.slots.at(self.parts.slot_at(at))
    }

    /// The row at that place, if there is one.
    pub fn get(&self, at: usize) -> Option<&Row<T>>
        ensures { option_map (λ row. row.now) result ≡ slice_get self.now.now at }
    {
        if at < self.len() {
            return Some(self.at(at));
        }
        None
    }

    /// A row comes, at the end.
    ///
    /// # Errors
    ///
    /// `AllocError` where memory is refused. All is taken back to the mark.
    pub fn push(
        &mut self,
        item: T,
        sender: usize,
        receiver: usize,
        moment: Option<u64>,
    ) -> Result<(), AllocError>
        ensures now { OnOk result (self.new.now ≡
            self.old.now ++ record { item = item; sender = sender; receiver = receiver; moment = moment } ∷ []) }
        ensures taken_back { OnErr result (self.new.now ≡ self.old.before) }
        ensures before { self.new.before ≡ self.old.before }
    {
        let row = Row {
            item,
            sender,
            receiver,
            moment,
        };
        if self.parts.push(row).is_err() {
            self.parts.undo();
            return Err(AllocError);
        }
        Ok(())
    }

    /// The row at that place gets another item and another moment. Its owners stay.
    ///
    /// # Errors
    ///
    /// `AllocError` where memory is refused. All is taken back to the mark.
    #[inline(always)]
    pub fn set(&mut self, at: usize, item: T, moment: Option<u64>) -> Result<(), AllocError>
        requires { at < length self.old.now }
        ensures now { (row : Row T) → slice_get self.old.now at ≡ Some row →
            OnOk result (self.new.now ≡ slice_set self.old.now at (with_item item moment row)) }
        ensures taken_back { OnErr result (self.new.now ≡ self.old.before) }
        ensures before { self.new.before ≡ self.old.before }
    {
        if self.parts.set(at, item, moment).is_err() {
            self.parts.undo();
            return Err(AllocError);
        }
        Ok(())
    }

    /// The row at that place leaves, and those behind it move up.
    ///
    /// # Errors
    ///
    /// `AllocError` where memory is refused. All is taken back to the mark.
    pub fn take(&mut self, at: usize) -> Result<(), AllocError>
        requires { at < length self.old.now }
        ensures now { OnOk result (self.new.now ≡ remove self.old.now at) }
        ensures taken_back { OnErr result (self.new.now ≡ self.old.before) }
        ensures before { self.new.before ≡ self.old.before }
    {
        if self.parts.take(at).is_err() {
            self.parts.undo();
            return Err(AllocError);
        }
        Ok(())
    }

    /// The first row that an owner sends.
    #[inline(always)]
    pub fn first_sent(&self, owner: usize) -> Option<usize>
        ensures next { IsNext (is_sent_by owner) self.now.now 0 result }
        ensures within { IfSome result (λ at. at < length self.now.now) }
    {
        if owner >= self.parts.index.sent.owners() {
            return None;
        }
        self.parts.place(self.parts.index.sent.first(owner))
    }

    /// The next row behind one that the same owner sends.
    #[inline(always)]
    pub fn next_sent(&self, at: usize) -> Option<usize>
        requires { at < length self.now.now }
        ensures next { (row : Row T) → slice_get self.now.now at ≡ Some row →
            IsNext (is_sent_by row.sender) self.now.now (suc at) result }
        ensures within { IfSome result (λ next. next < length self.now.now) }
    {
        let slot = self.parts.slot_at(at);
        self.parts.place(self.parts.index.sent.next(slot))
    }

    /// The first row that an owner receives.
    #[inline(always)]
    pub fn first_received(&self, owner: usize) -> Option<usize>
        ensures next { IsNext (is_received_by owner) self.now.now 0 result }
        ensures within { IfSome result (λ at. at < length self.now.now) }
    {
        if owner >= self.parts.index.received.owners() {
            return None;
        }
        self.parts.place(self.parts.index.received.first(owner))
    }

    /// The next row behind one that the same owner receives.
    #[inline(always)]
    pub fn next_received(&self, at: usize) -> Option<usize>
        requires { at < length self.now.now }
        ensures next { (row : Row T) → slice_get self.now.now at ≡ Some row →
            IsNext (is_received_by row.receiver) self.now.now (suc at) result }
        ensures within { IfSome result (λ next. next < length self.now.now) }
    {
        let slot = self.parts.slot_at(at);
        self.parts.place(self.parts.index.received.next(slot))
    }

    /// The first row from that place on whose moment has come by a time.
    pub fn next_due(&self, from: usize, time: u64) -> Option<usize>
        ensures next { IsNext (is_due_by time) self.now.now from result }
        ensures within { IfSome result (λ at. at < length self.now.now) }
    {
        if from >= self.len() {
            return None;
        }
        let slot = self.parts.slot_at(from);
        self.parts
            .place(self.parts.index.moments.next_due(slot, time))
    }

    /// The least of all moments; none where all are missing.
    pub fn least(&self) -> Option<u64>
        ensures { (time : ℕ) → has_come time result ≡ list_any (is_due_by time) self.now.now }
    {
        self.parts.index.moments.least()
    }

    /// A mark is set: the table can be taken back to how it stands. It takes no memory.
    pub fn commit(&mut self)
        ensures now { self.new.now ≡ self.old.now }
        ensures before { self.new.before ≡ self.old.now }
    {
        self.parts.commit();
    }

    /// The table is taken back to how it stood at the last mark. It takes no memory, and time that grows with the
    /// number of all rows.
    pub fn undo(&mut self)
        ensures now { self.new.now ≡ self.old.before }
        ensures before { self.new.before ≡ self.old.before }
    {
        self.parts.undo();
    }
}
