//! Guesses at where slots stand in the list of those that hold a row. Only time hangs on them.

use std::alloc::{AllocError, Global};

/// A note of each slot: at which place it stands among those that hold a row. A note takes little room, so that many of
/// them stand in a fast cache.
///
/// As a row leaves, those behind it move up. So that this takes little time where there are many slots, the notes
/// stand in blocks, and what the later blocks have moved up is noted once for each.
#[derive(Drop)]
pub(crate) struct Guesses {
    notes: Vec<u32>,
    // How far the slots of each block have moved up since they were noted.
    moved: Vec<u32>,
}

/// So many notes are a block.
const BLOCK: usize = 64;

impl Guesses {
    /// No slot.
    pub(crate) fn new(alloc: Global) -> Guesses {
        Guesses {
            notes: Vec::new(alloc),
            moved: Vec::new(alloc),
        }
    }

    /// The place at which the slot is guessed to stand.
    #[inline(always)]
    pub(crate) fn place(&self, slot: usize) -> usize {
        match (self.notes.get(slot), self.moved.get(slot / BLOCK)) {
            (Some(note), Some(moved)) => note.wrapping_sub(*moved) as usize,
            _ => 0,
        }
    }

    /// One more slot stands at that place. Where memory is refused, all stays but for room.
    pub(crate) fn push(&mut self, place: usize) -> Result<(), AllocError> {
        let block = self.notes.len() / BLOCK;
        if self.moved.len() <= block {
            self.moved.push(0)?;
        }
        let moved = self.moved.get(block).copied().unwrap_or(0);
        self.notes.push(short(place).wrapping_add(moved))?;
        Ok(())
    }

    /// There are so many slots at most.
    pub(crate) fn truncate(&mut self, len: usize) {
        self.notes.truncate(len);
        self.moved.truncate(len.div_ceil(BLOCK));
    }

    /// A slot holds a row no more, and those behind it move up.
    pub(crate) fn move_up(&mut self, slot: usize) {
        let in_block = BLOCK - slot % BLOCK;
        if let Some((_, behind)) = self.notes.split_at_mut_checked(slot) {
            let few = in_block.min(behind.len());
            for note in &mut behind[..few] {
                *note = note.wrapping_sub(1);
            }
        }
        if let Some((_, later)) = self.moved.split_at_mut_checked(slot / BLOCK + 1) {
            for moved in later {
                *moved = moved.wrapping_add(1);
            }
        }
    }

    /// Each of these slots stands at its place in the list.
    pub(crate) fn note(&mut self, filled: &[usize]) {
        for moved in &mut self.moved {
            *moved = 0;
        }
        for place in 0..filled.len() {
            if let Some(note) = self.notes.get_mut(filled[place]) {
                *note = short(place);
            }
        }
    }
}

/// The place, in half the room. Past 2^32 it is no place, so that the guess is wrong.
#[inline(always)]
fn short(place: usize) -> u32 {
    u32::try_from(place).unwrap_or(u32::MAX)
}
