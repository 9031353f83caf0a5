//! Room for what is known by number.
ghost use Rattle.std.specs.Prelude.{◌≡◌, ◌<◌, length, OnOk};
ghost use Rattle.link_pairs.specs.Pairs.Room.{IsFilledUp};

use std::alloc::AllocError;
use undo_list::UndoList;

/// That item is added until there is one at the place.
///
/// `AllocError`: no memory was left. Then it may have been added less often.
pub(crate) fn fill_up_to<T: Copy + Drop>(
    items: &mut UndoList<T>,
    place: usize,
    item: T,
) -> Result<(), AllocError>
    ensures items { IsFilledUp items.old.items item place items.new.items }
    ensures before { items.new.before ≡ items.old.before }
    ensures room { OnOk result (place < length items.new.items) }
{
    while items.len() <= place {
        items.push(item)?;
    }
    Ok(())
}
