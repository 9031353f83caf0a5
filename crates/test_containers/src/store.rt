//! A store of two lists that change together or not at all.

ghost use Rattle.std.specs.Prelude.{◌≡◌, ◌<◌, ◌++◌, ◌∷◌, [], length, OnOk, OnErr};
ghost use Rattle.test_containers.specs.Stored.{IsMarked, moved, with_move};

use std::alloc::{AllocError, Global};
use std::marker::Model;
use undo_list::UndoList;

/// What was at one place went to another.
#[derive(Drop)]
pub struct Move {
    from: usize,
    to: usize,
}

/// The lists of a store, which may stand in the middle of a change.
struct Tables {
    levels: UndoList<u64>,
    moves: UndoList<Move>,
}

impl Drop for Tables {
    /// Lets go of what it holds.
    #[inline(always)]
    fn drop(self) {
        let Tables { levels, moves } = self;
        drop(levels);
        drop(moves);
    }
}

impl Tables {
    /// A mark is set on each list.
    fn commit(&mut self)
        ensures levels { self.new.levels.items ≡ self.old.levels.items }
        ensures moves { self.new.moves.items ≡ self.old.moves.items }
        ensures marked { IsMarked self.new.levels self.new.moves }
    {
        self.levels.commit();
        self.moves.commit();
    }

    /// Each list is taken back to its mark.
    fn undo(&mut self)
        ensures levels { self.new.levels.items ≡ self.old.levels.before }
        ensures moves { self.new.moves.items ≡ self.old.moves.before }
        ensures marked { IsMarked self.new.levels self.new.moves }
    {
        self.levels.undo();
        self.moves.undo();
    }

    /// A level goes from one place to another. Where memory is refused, part of that is done.
    fn carry(&mut self, from: usize, to: usize) -> Result<(), AllocError>
        requires from { from < length self.old.levels.items }
        requires to { to < length self.old.levels.items }
        ensures levels { OnOk result (self.new.levels.items ≡ moved self.old.levels.items from to) }
        ensures moves { OnOk result (self.new.moves.items ≡ with_move self.old.moves.items from to) }
        ensures levels_before { self.new.levels.before ≡ self.old.levels.before }
        ensures moves_before { self.new.moves.before ≡ self.old.moves.before }
    {
        let level = *self.levels.at(from);
        self.levels.set(to, level)?;
        self.levels.set(from, 0)?;
        self.moves.push(Move { from, to })
    }
}

/// Levels, and how they came to stand where they do.
#[derive(Drop)]
pub struct Store {
    tables: Tables,
}

impl Model for Store {
    ghost use Rattle.test_containers.specs.Stored.{Stored, IsMarked};

    ghost Value = { Stored };

    ghost view = { λ store. record {
      levels = store.tables.levels.items;
      moves = store.tables.moves.items;
    } };

    ghost invariant = { λ store. IsMarked store.tables.levels store.tables.moves };
}

impl Store {
    /// The empty store.
    pub fn new(alloc: Global) -> Store
        ensures levels { result.levels ≡ [] }
        ensures moves { result.moves ≡ [] }
    {
        Store {
            tables: Tables {
                levels: UndoList::new(alloc),
                moves: UndoList::new(alloc),
            },
        }
    }

    /// All levels.
    pub fn levels(&self) -> &[u64]
        ensures { result.now ≡ self.now.levels }
    {
        self.tables.levels.as_slice()
    }

    /// How many moves there were.
    pub fn moves(&self) -> usize
        ensures { result ≡ length self.now.moves }
    {
        self.tables.moves.len()
    }

    /// A level is added.
    ///
    /// # Errors
    ///
    /// `AllocError` where memory is refused. The store stays.
    pub fn add(&mut self, level: u64) -> Result<(), AllocError>
        ensures levels { OnOk result (self.new.levels ≡ self.old.levels ++ level ∷ []) }
        ensures moves { OnOk result (self.new.moves ≡ self.old.moves) }
        ensures refused { OnErr result (self.new ≡ self.old) }
    {
        let done = self.tables.levels.push(level);
        self.tables.commit();
        done
    }

    /// A level goes from one place to another, where none is left.
    ///
    /// # Errors
    ///
    /// `AllocError` where memory is refused. The store stays.
    pub fn carry(&mut self, from: usize, to: usize) -> Result<(), AllocError>
        requires from { from < length self.old.levels }
        requires to { to < length self.old.levels }
        ensures levels { OnOk result (self.new.levels ≡ moved self.old.levels from to) }
        ensures moves { OnOk result (self.new.moves ≡ with_move self.old.moves from to) }
        ensures refused { OnErr result (self.new ≡ self.old) }
    {
        let done = self.tables.carry(from, to);
        if done.is_ok() {
            self.tables.commit();
        } else {
            self.tables.undo();
        }
        done
    }
}
