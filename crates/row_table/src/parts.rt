//! The parts of a table.
ghost use Rattle.std.specs.Prelude.{◌≡◌, ℕ, suc, ◌<◌, ◌≤◌, ◌++◌, ◌∷◌, [], None, Some};
ghost use Rattle.std.specs.Prelude.{IsSome, IfSome, IfOk, OnOk, length, remove, reverse, slice_get, slice_set, take};
ghost use Rattle.row_table.specs.Rows.{with_item};
ghost use Rattle.std.specs.Option.{option_to_list};
ghost use Rattle.row_table.specs.Slots.{live, held, filled_from, IsPlaceOf};
ghost use Rattle.row_table.specs.Index.{sender_of, receiver_of, Finds, Stands, Marked};

use super::filled::{place_of, refill};
use super::guesses::Guesses;
use super::index::Index;
use super::row::Row;
use super::slot_list::Slots;
use std::alloc::{AllocError, Global};

/// The rows, each in a slot, and how they are found. They may stand in the middle of a change.
#[derive(Drop)]
pub(crate) struct Parts<T> {
    // A row that leaves its slot leaves it empty.
    pub(crate) slots: Slots<T>,
    // The slots that hold a row, in order: the row at a place is that of the slot at the same place here.
    pub(crate) filled: Vec<usize>,
    // At which place each slot is guessed to stand there. Only time hangs on it.
    guesses: Guesses,
    pub(crate) index: Index,
    // At so many slots those that came after the mark are closed up.
    close_at: usize,
}

/// So many slots stay empty in any case: to close them up would cost more.
const FEW: usize = 16;

/// So many slots come in any case before those that came after the mark are closed up.
const NEW: usize = 64;

impl<T: Drop> Parts<T> {
    /// No row.
    pub(crate) fn new(alloc: Global) -> Parts<T>
        ensures rows { live result.slots.items ≡ [] }
        ensures before { live result.slots.before ≡ [] }
        ensures stands { Stands result }
        ensures marked { Marked result }
    {
        Parts {
            slots: Slots::new(alloc),
            filled: Vec::new(alloc),
            guesses: Guesses::new(alloc),
            index: Index::new(alloc),
            close_at: NEW,
        }
    }

    /// The slot of the row at that place.
    #[inline(always)]
    pub(crate) fn slot_at(&self, at: usize) -> usize
        requires stands { Stands self.now }
        requires within { at < length (live self.now.slots.items) }
        ensures slot { slice_get self.now.filled.items at ≡ Some result }
        ensures row { IsSome (held self.now.slots.items result) }
    {
        self.filled[at]
    }

    /// The place of the row in a slot; none where there is no slot.
    #[inline(always)]
    pub(crate) fn place(&self, slot: Option<usize>) -> Option<usize>
        requires stands { Stands self.now }
        requires row { IfSome slot (λ slot. IsSome (held self.now.slots.items slot)) }
        ensures { IsPlaceOf self.now.filled.items slot result }
    {
        place_of(self.filled.as_slice(), slot?, &self.guesses)
    }

    /// A row comes. Where memory is refused, part of that is done.
    pub(crate) fn push(&mut self, row: Row<T>) -> Result<(), AllocError>
        requires stands { Stands self.old }
        requires marked { Marked self.old }
        ensures rows { OnOk result (live self.new.slots.items ≡ live self.old.slots.items ++ row ∷ []) }
        ensures before { self.new.slots.before ≡ self.old.slots.before }
        ensures stands { OnOk result (Stands self.new) }
        ensures marked { Marked self.new }
    {
        if self.slots.len() >= self.close_at {
            self.close_new()?;
        }
        self.add_row(row)
    }

    /// The row in the last slot, if it holds one, is found no more. Where memory is refused, part of that is done.
    fn forget(&mut self, slot: usize) -> Result<(), AllocError>
        requires stands { Stands self.old }
        requires marked { Marked self.old }
        requires last { length self.old.slots.items ≡ suc slot }
        requires after { length self.old.slots.before ≤ slot }
        ensures slots { self.new.slots ≡ self.old.slots }
        ensures found { OnOk result (Finds self.new.index (slice_set self.old.slots.items slot None)) }
        ensures filled { OnOk result (self.new.filled.items ≡ filled_from (take slot self.old.slots.items) 0) }
        ensures marked { Marked self.new }
    {
        if !self.slots.is_filled(slot) {
            return Ok(());
        }
        let (sender, receiver) = self.owners_in(slot);
        self.index.take(slot, sender, receiver)?;
        self.filled.pop();
        Ok(())
    }

    /// The last slot goes, with its row if it holds one. It came after the mark. Where memory is refused, part of that
    /// is done.
    fn pop(&mut self) -> Result<Option<Row<T>>, AllocError>
        requires stands { Stands self.old }
        requires marked { Marked self.old }
        requires after { length self.old.slots.before < length self.old.slots.items }
        ensures rows { IfOk result (λ row. live self.old.slots.items ≡ live self.new.slots.items ++ option_to_list row) }
        ensures fewer { OnOk result (suc (length self.new.slots.items) ≡ length self.old.slots.items) }
        ensures before { self.new.slots.before ≡ self.old.slots.before }
        ensures stands { OnOk result (Stands self.new) }
        ensures marked { Marked self.new }
    {
        let slot = self.slots.len() - 1;
        self.forget(slot)?;
        self.index.pop(slot);
        self.guesses.truncate(slot);
        Ok(self.slots.pop())
    }

    /// The slots that came after the mark go, and their rows are put behind others, the last first. Where memory is
    /// refused, part of that is done.
    fn pop_new(&mut self, rows: &mut Vec<Row<T>>) -> Result<(), AllocError>
        requires stands { Stands self.old }
        requires marked { Marked self.old }
        ensures rows { OnOk result
            (live self.new.slots.items ++ reverse rows.new.items ≡ live self.old.slots.items ++ reverse rows.old.items) }
        ensures before { self.new.slots.before ≡ self.old.slots.before }
        ensures stands { OnOk result (Stands self.new) }
        ensures marked { Marked self.new }
    {
        while self.slots.len() > self.slots.marked_len() {
            if let Some(row) = self.pop()? {
                rows.push(row)?;
            }
        }
        Ok(())
    }

    /// The rows come, the last first. Where memory is refused, part of that is done.
    fn push_all(&mut self, rows: &mut Vec<Row<T>>) -> Result<(), AllocError>
        requires stands { Stands self.old }
        requires marked { Marked self.old }
        ensures rows { OnOk result (live self.new.slots.items ≡ live self.old.slots.items ++ reverse rows.old.items) }
        ensures before { self.new.slots.before ≡ self.old.slots.before }
        ensures stands { OnOk result (Stands self.new) }
        ensures marked { Marked self.new }
    {
        while let Some(row) = rows.pop() {
            self.add_row(row)?;
        }
        Ok(())
    }

    /// The slots that came after the mark are closed up. Where memory is refused, part of that is done.
    fn close_new(&mut self) -> Result<(), AllocError>
        requires stands { Stands self.old }
        requires marked { Marked self.old }
        ensures rows { OnOk result (live self.new.slots.items ≡ live self.old.slots.items) }
        ensures before { self.new.slots.before ≡ self.old.slots.before }
        ensures stands { OnOk result (Stands self.new) }
        ensures marked { Marked self.new }
    {
        let mut rows = Vec::new(*self.filled.allocator());
        self.pop_new(&mut rows)?;
        self.push_all(&mut rows)?;
        let mark = self.slots.marked_len();
        let new = self.slots.len() - mark;
        self.close_at = mark
            .saturating_add(new.saturating_mul(2))
            .saturating_add(NEW);
        Ok(())
    }

    /// A row comes, in one more slot. Where memory is refused, part of that is done.
    fn add_row(&mut self, row: Row<T>) -> Result<(), AllocError>
        requires stands { Stands self.old }
        requires marked { Marked self.old }
        ensures rows { OnOk result (live self.new.slots.items ≡ live self.old.slots.items ++ row ∷ []) }
        ensures before { self.new.slots.before ≡ self.old.slots.before }
        ensures stands { OnOk result (Stands self.new) }
        ensures marked { Marked self.new }
    {
        let (sender, receiver, moment) = (row.sender, row.receiver, row.moment);
        let place = self.filled.len();
        self.filled.push(self.slots.len())?;
        self.slots.push(row)?;
        self.guesses.push(place)?;
        self.index.add(sender, receiver, moment)
    }

    /// A row gets another item and another moment. Where memory is refused, part of that is done.
    #[inline(always)]
    pub(crate) fn set(&mut self, at: usize, item: T, moment: Option<u64>) -> Result<(), AllocError>
        requires within { at < length (live self.old.slots.items) }
        requires stands { Stands self.old }
        requires marked { Marked self.old }
        ensures rows { (row : Row T) → slice_get (live self.old.slots.items) at ≡ Some row → OnOk result
            (live self.new.slots.items ≡ slice_set (live self.old.slots.items) at (with_item item moment row)) }
        ensures before { self.new.slots.before ≡ self.old.slots.before }
        ensures stands { OnOk result (Stands self.new) }
        ensures marked { Marked self.new }
    {
        let slot = self.slot_at(at);
        let (sender, receiver) = self.owners_in(slot);
        let row = Row {
            item,
            sender,
            receiver,
            moment,
        };
        self.slots.set(slot, row)?;
        self.index.moments.set(slot, moment);
        Ok(())
    }

    /// A row goes. Where memory is refused, part of that is done.
    pub(crate) fn take(&mut self, at: usize) -> Result<(), AllocError>
        requires within { at < length (live self.old.slots.items) }
        requires stands { Stands self.old }
        requires marked { Marked self.old }
        ensures rows { OnOk result (live self.new.slots.items ≡ remove (live self.old.slots.items) at) }
        ensures before { self.new.slots.before ≡ self.old.slots.before }
        ensures stands { OnOk result (Stands self.new) }
        ensures marked { Marked self.new }
    {
        let slot = self.slot_at(at);
        let (sender, receiver) = self.owners_in(slot);
        self.slots.take(slot)?;
        self.index.take(slot, sender, receiver)?;
        self.filled.remove(at);
        self.guesses.move_up(slot);
        Ok(())
    }

    /// Who sends and who receives the row in that slot.
    #[inline(always)]
    pub(crate) fn owners_in(&self, slot: usize) -> (usize, usize)
        requires { IsSome (held self.now.slots.items slot) }
        ensures sender { sender_of (held self.now.slots.items slot) ≡ Some result.0 }
        ensures receiver { receiver_of (held self.now.slots.items slot) ≡ Some result.1 }
    {
        let row = self.slots.at(slot);
        (row.sender, row.receiver)
    }

    /// Whether so many slots are empty that closing them up pays.
    fn has_many_gaps(&self) -> bool
        requires { Stands self.now }
    {
        let rows = self.filled.len();
        self.slots.len() - rows
            >= rows
                .saturating_add(self.index.sent.owners())
                .saturating_add(FEW)
    }

    /// A mark is set. Where many slots are empty, they are closed up.
    pub(crate) fn commit(&mut self)
        requires { Stands self.old }
        ensures rows { live self.new.slots.items ≡ live self.old.slots.items }
        ensures before { self.new.slots.before ≡ self.new.slots.items }
        ensures stands { Stands self.new }
        ensures marked { Marked self.new }
    {
        self.close_at = self.slots.len().saturating_add(NEW);
        if self.has_many_gaps() {
            self.slots.commit_kept();
            self.index.close_gaps(self.slots.as_slice());
            refill(&mut self.filled, &mut self.guesses, self.slots.as_slice());
            return;
        }
        self.slots.commit();
        self.index.commit();
    }

    /// All is taken back to the mark.
    pub(crate) fn undo(&mut self)
        requires { Marked self.old }
        ensures rows { self.new.slots.items ≡ self.old.slots.before }
        ensures before { self.new.slots.before ≡ self.old.slots.before }
        ensures stands { Stands self.new }
        ensures marked { Marked self.new }
    {
        self.slots.undo();
        self.close_at = self.slots.len().saturating_add(NEW);
        let slots = self.slots.as_slice();
        self.index.undo(slots);
        refill(&mut self.filled, &mut self.guesses, slots);
    }
}
