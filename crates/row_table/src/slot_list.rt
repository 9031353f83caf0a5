//! The slots of a table.
ghost use Rattle.std.specs.Prelude.{◌≡◌, ◌<◌, ◌≤◌, ◌++◌, ◌∷◌, [], None, Some, false, All, IsSome, is_some, is_ok};
ghost use Rattle.std.specs.Prelude.{filter, if◌then◌else◌, length, slice_get, slice_set};
ghost use Rattle.row_table.specs.Slots.{held, emptied};

use super::row::Row;
use std::alloc::{AllocError, Global};
use std::marker::Model;
use undo_list::UndoList;

/// Slots in order of coming, each of which holds a row or is empty since its row left.
#[derive(Drop)]
pub(crate) struct Slots<T> {
    list: UndoList<Option<Row<T>>>,
    // The slots whose rows have left since the mark without being saved: each row stays in its slot until the next one.
    left: Vec<usize>,
}

impl<T> Model for Slots<T> {
    ghost use Rattle.std.specs.Prelude.{All};
    ghost use Rattle.row_table.specs.Slots.{SlotVersions, emptied, IsLeft};

    ghost Value = { SlotVersions T };

    ghost view = { λ slots. record {
      items = emptied slots.list.items slots.left.items;
      before = slots.list.before;
      left = slots.left.items;
    } };

    ghost invariant = { λ slots. All (IsLeft slots.list) slots.left.items };
}

/// The rows that have left are let go, and their slots are empty, at the mark too.
fn let_go<T: Drop>(list: &mut UndoList<Option<Row<T>>>, left: &mut Vec<usize>)
    requires { All (λ slot. slice_get list.old.saved slot ≡ Some false) left.old.items }
    ensures items { list.new.items ≡ emptied list.old.items left.old.items }
    ensures left { left.new.items ≡ [] }
{
    while let Some(slot) = left.pop() {
        list.write(slot, None);
    }
}

impl<T: Drop> Slots<T> {
    /// No slot.
    pub(crate) fn new(alloc: Global) -> Slots<T>
        ensures items { result.items ≡ [] }
        ensures before { result.before ≡ [] }
    {
        Slots {
            list: UndoList::new(alloc),
            left: Vec::new(alloc),
        }
    }

    /// The number of slots: no fewer than there were at the mark.
    pub(crate) fn len(&self) -> usize
        ensures items { result ≡ length self.now.items }
        ensures before { length self.now.before ≤ result }
    {
        self.list.len()
    }

    /// How many slots there were at the mark.
    pub(crate) fn marked_len(&self) -> usize
        ensures { result ≡ length self.now.before }
    {
        self.list.marked_len()
    }

    /// The row of a slot that holds one.
    #[inline(always)]
    pub(crate) fn at(&self, slot: usize) -> &Row<T>
        requires { IsSome (held self.now.items slot) }
        ensures { held self.now.items slot ≡ Some result.now }
    {
        match self.list.at(slot) {
            Some(row) => row,
            None => unreachable!(),
        }
    }

    /// Whether a slot that came after the mark holds a row.
    pub(crate) fn is_filled(&self, slot: usize) -> bool
        requires after { length self.now.before ≤ slot }
        requires within { slot < length self.now.items }
        ensures { result ≡ is_some (held self.now.items slot) }
    {
        self.list.at(slot).is_some()
    }

    /// All slots, where no row has left since the mark.
    pub(crate) fn as_slice(&self) -> &[Option<Row<T>>]
        requires { self.now.left ≡ [] }
        ensures { result.now ≡ self.now.items }
    {
        self.list.as_slice()
    }

    /// A row comes, in one more slot. Where memory is refused, the slots stay.
    pub(crate) fn push(&mut self, row: Row<T>) -> Result<(), AllocError>
        ensures items { self.new.items ≡ (if is_ok result then self.old.items ++ Some row ∷ [] else self.old.items) }
        ensures before { self.new.before ≡ self.old.before }
    {
        self.list.push(Some(row))?;
        Ok(())
    }

    /// The last slot goes. It came after the mark, so this takes no memory.
    pub(crate) fn pop(&mut self) -> Option<Row<T>>
        requires { length self.old.before < length self.old.items }
        ensures item { self.old.items ≡ self.new.items ++ result ∷ [] }
        ensures before { self.new.before ≡ self.old.before }
    {
        self.list.pop()
    }

    /// Another row comes to stand in a slot that holds one. Where memory is refused, the slots stay.
    #[inline(always)]
    pub(crate) fn set(&mut self, slot: usize, row: Row<T>) -> Result<(), AllocError>
        requires { IsSome (held self.old.items slot) }
        ensures items { self.new.items ≡
            (if is_ok result then slice_set self.old.items slot (Some row) else self.old.items) }
        ensures before { self.new.before ≡ self.old.before }
    {
        self.list.set(slot, Some(row))?;
        Ok(())
    }

    /// The row of a slot leaves, and the slot is empty. Where memory is refused, the slots stay.
    pub(crate) fn take(&mut self, slot: usize) -> Result<(), AllocError>
        requires { IsSome (held self.old.items slot) }
        ensures items { self.new.items ≡ (if is_ok result then slice_set self.old.items slot None else self.old.items) }
        ensures before { self.new.before ≡ self.old.before }
    {
        if slot < self.list.marked_len() && !self.list.is_saved(slot) {
            self.left.push(slot)?;
            return Ok(());
        }
        self.list.set(slot, None)?;
        Ok(())
    }

    /// A mark is set, and the rows that have left are let go.
    pub(crate) fn commit(&mut self)
        ensures items { self.new.items ≡ self.old.items }
        ensures before { self.new.before ≡ self.old.items }
        ensures left { self.new.left ≡ [] }
    {
        let_go(&mut self.list, &mut self.left);
        self.list.commit();
    }

    /// The slots that hold a row stay, in order, and a mark is set. The rows that have left are let go.
    pub(crate) fn commit_kept(&mut self)
        ensures items { self.new.items ≡ filter is_some self.old.items }
        ensures before { self.new.before ≡ self.new.items }
        ensures left { self.new.left ≡ [] }
    {
        let_go(&mut self.list, &mut self.left);
        self.list.commit_kept(|slot| slot.is_some());
    }

    /// The slots are taken back to how they stood at the last mark.
    pub(crate) fn undo(&mut self)
        ensures items { self.new.items ≡ self.old.before }
        ensures before { self.new.before ≡ self.old.before }
        ensures left { self.new.left ≡ [] }
    {
        self.left.clear();
        self.list.undo();
    }
}
