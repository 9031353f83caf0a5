//! Which slots hold a row.
ghost use Rattle.std.specs.Prelude.{◌≡◌, ℕ, ◌<◌, ◌≤◌, length, Some};
ghost use Rattle.std.specs.Prelude.{IfSome, IfNone, slice_get};
ghost use Rattle.std.specs.Vec.{vec_capacity};
ghost use Rattle.std.specs.List.{AllPairs};
ghost use Rattle.row_table.specs.Slots.{live, filled_from};

use super::guesses::Guesses;
use super::row::Row;

/// The slots that hold a row are listed again, and where they stand is guessed right. It takes no memory.
pub(crate) fn refill<T>(filled: &mut Vec<usize>, guesses: &mut Guesses, slots: &[Option<Row<T>>])
    requires { length (live slots.now) ≤ vec_capacity filled.old }
    ensures items { filled.new.items ≡ filled_from slots.now 0 }
    ensures room { vec_capacity filled.old ≤ vec_capacity filled.new }
{
    filled.clear();
    for slot in 0..slots.len() {
        if slots[slot].is_some() {
            let pushed = filled.push(slot).is_ok();
            prove!(pushed);
        }
    }
    guesses.truncate(slots.len());
    guesses.note(filled);
}

/// Where a slot stands in a list of them that ascends. It is looked for first where it is guessed.
#[inline(always)]
pub(crate) fn place_of(filled: &[usize], slot: usize, guesses: &Guesses) -> Option<usize>
    ensures some { IfSome result (λ at. slice_get filled.now at ≡ Some slot) }
    ensures none { IfNone result
        (AllPairs (λ one other. one < other) filled.now → (at : ℕ) → slice_get filled.now at ≡ Some slot → ⊥) }
{
    let guess = guesses.place(slot);
    if filled.get(guess) == Some(&slot) {
        return Some(guess);
    }
    filled.binary_search(&slot).ok()
}
