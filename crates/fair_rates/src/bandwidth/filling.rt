//! Filling: the flows rise together, and the users of a side that is full stay where they are.
//!
//! A side with rising users has a share: what the frozen ones leave of its cap, for each of the
//! others. The users of the side with the least share freeze at it. A heap holds the sides by their
//! shares. These only grow as flows freeze, so one that was reckoned before is never too much, and
//! only the one on top is reckoned anew, if a user of its side froze since. No more is done once all flows are frozen.
//!
//! All numbers are whole parts of one unit of the caps. Where the least share is not whole, the scale
//! grows, and all that is kept with it.
ghost use Rattle.std.specs.Prelude.{◌≡◌, ◌<◌, ◌≤◌, ℕ, IfOk, IfSome, OnOk, OnSome, MatchOption, Option, All, List, []};
ghost use Rattle.std.specs.Prelude.{◌∷◌, ◌≢◌, true, false, map, length, sum_by};
ghost use Rattle.std.specs.BinaryHeap.{heap_items, heap_len, IsHeap};
ghost use Rattle.fair_rates.specs.Sides.SideOf.{side_of};
ghost use Rattle.fairness.specs.Fairness.Fair.{Side as WholeSide};
ghost use Rattle.fair_rates.specs.Filling.States.{frozen_at, AreInside, AreAbove, IsQueue, IsShareQueue, IsLeast};
ghost use Rattle.fairness.specs.Filling.Frozen.{AllFilled};
ghost use Rattle.fair_rates.specs.Filling.States.{AreOpened, AreGrown, AreFilled, HaveNoLessShare, queue_cmp, rises};

mod boxed;
mod open;
mod risers;
mod share;

use crate::bandwidth::parts::FairParts;
use crate::bandwidth::sides::Side;
use boxed::BoxedSide;
use natural::Natural;
use open::OpenSide;
use std::alloc::{AllocError, Global};
use std::cmp::Reverse;
use std::collections::BinaryHeap;
use std::mem;

/// Room for so many users of a side is kept. To fill more takes longer than to get room for them.
const FEW_USERS: usize = 64;

/// So many lists of users are kept, and so many boxes of sides.
const MANY: usize = 1024;

/// Lists that filling needs, kept from one filling to the next. What they hold says nothing.
pub struct Room {
    opens: Vec<Reverse<BoxedSide>>,
    spare: Vec<Reverse<BoxedSide>>,
    /// Boxes of sides that are done, to be used again.
    boxes: Vec<BoxedSide>,
    found: FairParts,
    /// For the users of a side.
    lists: Vec<Vec<usize>>,
}

impl Drop for Room {
    /// Lets go of its lists.
    fn drop(self) {
        let Room {
            opens,
            spare,
            boxes,
            found,
            lists,
        } = self;
        drop(opens);
        drop(spare);
        drop(boxes);
        drop(found);
        drop(lists);
    }
}

impl Room {
    /// No room yet.
    pub fn new(alloc: Global) -> Room {
        Room {
            opens: Vec::new(alloc),
            spare: Vec::new(alloc),
            boxes: Vec::new(alloc),
            found: FairParts::none(alloc),
            lists: Vec::new(alloc),
        }
    }

    /// A list for the users of a side, with none yet, in room that was kept if there is some.
    pub fn take_list(&mut self, alloc: Global) -> Vec<usize>
        ensures { result.items ≡ [] }
    {
        match self.lists.pop() {
            Some(mut list) => {
                list.clear();
                list
            }
            None => Vec::new(alloc),
        }
    }

    /// The room of such a list is kept.
    pub fn keep_list(&mut self, list: Vec<usize>) {
        keep_list(&mut self.lists, list);
    }

    /// The lists of what was found are kept, once it is not needed any more.
    pub fn keep(&mut self, found: FairParts) {
        self.found = found;
    }
}

/// The room of a list of users is kept, unless it is large or many are, or there is no memory to note it.
#[inline(always)]
fn keep_list(lists: &mut Vec<Vec<usize>>, list: Vec<usize>) {
    if list.capacity() <= FEW_USERS && lists.len() < MANY && lists.reserve(1).is_ok() {
        lists.push_reserved(list);
    }
}

/// The box of a side that is done is kept with its list of users, unless that is large or many boxes are, or there is no
/// memory to note it.
#[inline(always)]
fn keep_box(boxes: &mut Vec<BoxedSide>, side: BoxedSide) {
    let few = side.get().rising.capacity() <= FEW_USERS;
    if few && boxes.len() < MANY && boxes.reserve(1).is_ok() {
        boxes.push_reserved(side);
    }
}

/// The boxes of these sides are kept.
fn keep_boxes(boxes: &mut Vec<BoxedSide>, sides: &mut Vec<Reverse<BoxedSide>>) {
    for Reverse(side) in sides.drain(..) {
        keep_box(boxes, side);
    }
}

/// A side that leaves so much for these users, in a box that was kept, if there is one. The room of the list of users
/// that lay there is kept.
fn open_side(
    alloc: Global,
    boxes: &mut Vec<BoxedSide>,
    lists: &mut Vec<Vec<usize>>,
    slack: Natural,
    rising: Vec<usize>,
) -> Result<BoxedSide, AllocError>
    requires { 0 < length rising.items }
    ensures slack { IfOk result (λ side. side.slack ≡ slack) }
    ensures rising { IfOk result (λ side. side.rising.items ≡ rising.items) }
{
    match boxes.pop() {
        Some(mut side) => {
            keep_list(lists, side.renew(slack, rising));
            Ok(side)
        }
        None => BoxedSide::new(alloc, OpenSide::new(slack, rising)),
    }
}

/// The sides that have users, before any is frozen, in their order. They are listed in room that is given.
fn open_list(
    alloc: Global,
    mut opens: Vec<Reverse<BoxedSide>>,
    boxes: &mut Vec<BoxedSide>,
    lists: &mut Vec<Vec<usize>>,
    sides: &mut Vec<Side>,
) -> Result<Vec<Reverse<BoxedSide>>, AllocError>
    ensures opened { IfOk result (λ opens. AreOpened sides.old.items opens.items) }
    ensures count { IfOk result (λ opens. length opens.items ≤ length sides.old.items) }
    ensures taken { OnOk result (sides.new.items ≡ []) }
{
    opens.clear();
    opens.reserve(sides.len())?;
    while let Some(side) = sides.pop() {
        let Side {
            cap: slack,
            users: rising,
        } = side;
        if !rising.is_empty() {
            let open = open_side(alloc, boxes, lists, slack, rising)?;
            opens.push(Reverse(open))?;
        }
    }
    Ok(opens)
}

/// The same by their shares.
fn open_sides(
    alloc: Global,
    opens: Vec<Reverse<BoxedSide>>,
    boxes: &mut Vec<BoxedSide>,
    lists: &mut Vec<Vec<usize>>,
    sides: &mut Vec<Side>,
) -> Result<BinaryHeap<Reverse<BoxedSide>>, AllocError>
    ensures opened { IfOk result (λ queue. AreOpened sides.old.items (heap_items queue)) }
    ensures order { IfOk result (λ queue. IsHeap queue_cmp (heap_items queue)) }
    ensures count { IfOk result (λ queue. heap_len queue ≤ length sides.old.items) }
    ensures taken { OnOk result (sides.new.items ≡ []) }
{
    Ok(BinaryHeap::from(open_list(alloc, opens, boxes, lists, sides)?))
}

/// Whether the share of the side, of which so many users rose before they were counted, is known to be no greater than
/// those of the others.
fn is_least(side: &BoxedSide, before: usize, queue: &BinaryHeap<Reverse<BoxedSide>>) -> bool
    requires order { IsHeap queue_cmp (heap_items queue.now) }
    requires was { length side.now.rising.items ≡ before → HaveNoLessShare side.now (heap_items queue.now) }
    ensures least { result ≡ true → HaveNoLessShare side.now (heap_items queue.now) }
    ensures fewer { result ≡ false → length side.now.rising.items ≢ before }
{
    if side.get().rising.len() == before {
        return true;
    }
    match queue.peek() {
        Some(next) => side.cmp(&next.0).is_le(),
        None => true,
    }
}

/// Takes out the side with the least share, once all its frozen users are counted. Where no flow is left that rises,
/// there is none. Of sides that are let go the boxes are kept.
fn next_side(
    queue: &mut BinaryHeap<Reverse<BoxedSide>>,
    boxes: &mut Vec<BoxedSide>,
    left: usize,
    levels: &[Natural],
    level_of: &[Option<usize>],
) -> Result<Option<BoxedSide>, AllocError>
    requires left { left ≡ sum_by rises level_of.now }
    requires inside { AreInside levels.now level_of.now }
    requires sound { IsShareQueue (length level_of.now) (frozen_at levels.now level_of.now) (heap_items queue.old) }
    ensures sound { IfOk result (λ next. IfSome next
        (λ side. IsShareQueue (length level_of.now) (frozen_at levels.now level_of.now) (heap_items queue.new))) }
    ensures users { IfOk result (λ next. IfSome next
        (λ side. All (λ flow. flow < length level_of.now) side.rising.items)) }
    ensures least { IfOk result (λ next. IfSome next
        (λ side. IsLeast (frozen_at levels.now level_of.now) side (heap_items queue.new))) }
    ensures queue { IfOk result (λ next. (sides : List WholeSide) (scale : ℕ)
        → IsQueue sides scale (frozen_at levels.now level_of.now) (heap_items queue.old)
        → MatchOption next (AllFilled sides (frozen_at levels.now level_of.now))
        (λ side. IsQueue sides scale (frozen_at levels.now level_of.now)
        (record { 0 = side } ∷ heap_items queue.new))) }
    ensures no_lower { IfOk result (λ next. IfSome next (λ side. (parts : ℕ)
        → AreAbove parts (heap_items queue.old) → AreAbove parts (record { 0 = side } ∷ heap_items queue.new))) }
    ensures fewer { IfOk result (λ next. OnSome next (heap_len queue.new < heap_len queue.old)) }
{
    if left == 0 {
        return Ok(None);
    }
    while let Some(Reverse(mut least)) = queue.pop() {
        let before = least.get().rising.len();
        if least.count_frozen(levels, level_of) {
            if is_least(&least, before, queue) {
                return Ok(Some(least));
            }
            queue.push(Reverse(least))?;
        } else {
            keep_box(boxes, least);
        }
    }
    Ok(None)
}

/// The sides at a scale so many times as great, in their order. They are listed in room that is lent, which gets that of
/// the others.
fn grown_list(
    sides: Vec<Reverse<BoxedSide>>,
    factor: u64,
    spare: &mut Vec<Reverse<BoxedSide>>,
) -> Result<Vec<Reverse<BoxedSide>>, AllocError>
    ensures grown { IfOk result (λ grown. AreGrown factor sides.items grown.items) }
    ensures count { IfOk result (λ grown. length grown.items ≡ length sides.items) }
{
    spare.clear();
    let mut grown = mem::replace(spare, sides);
    for Reverse(mut side) in spare.drain(..) {
        side.grow(factor)?;
        grown.push(Reverse(side))?;
    }
    Ok(grown)
}

/// The same by their shares.
fn grown_sides(
    queue: BinaryHeap<Reverse<BoxedSide>>,
    factor: u64,
    spare: &mut Vec<Reverse<BoxedSide>>,
) -> Result<BinaryHeap<Reverse<BoxedSide>>, AllocError>
    requires { IsHeap queue_cmp (heap_items queue) }
    ensures grown { IfOk result (λ grown. AreGrown factor (heap_items queue) (heap_items grown)) }
    ensures order { IfOk result (λ grown. IsHeap queue_cmp (heap_items grown)) }
    ensures count { IfOk result (λ grown. heap_len grown ≡ heap_len queue) }
{
    if factor == 1 {
        return Ok(queue);
    }
    let sides = queue.into_vec();
    Ok(BinaryHeap::from(grown_list(sides, factor, spare)?))
}

/// The max-min fair rates of `count` flows on the sides, in parts of one unit of the caps. Where a rate is no whole
/// number of parts, the scale grows, from one.
///
/// # Errors
///
/// `AllocError` where memory was refused.
pub fn fair_parts(
    alloc: Global,
    count: usize,
    mut sides: Vec<Side>,
) -> Result<FairParts, AllocError>
    requires users { All (λ side. All (λ flow. flow < count) side.users.items) sides.items }
    ensures { IfOk result (λ found. AreFilled (map side_of sides.items) count found) }
{
    fair_parts_in(alloc, &mut Room::new(alloc), count, &mut sides)
}

/// As [`fair_parts`], in room that is kept from call to call. The sides are taken out of their list, which keeps its own
/// room.
///
/// # Errors
///
/// `AllocError` where memory was refused. Of the sides then nothing is said; the room can be used again.
pub fn fair_parts_in(
    alloc: Global,
    room: &mut Room,
    count: usize,
    sides: &mut Vec<Side>,
) -> Result<FairParts, AllocError>
    requires users { All (λ side. All (λ flow. flow < count) side.users.items) sides.old.items }
    ensures filled { IfOk result (λ found. AreFilled (map side_of sides.old.items) count found) }
    ensures taken { OnOk result (sides.new.items ≡ []) }
{
    let mut opens = mem::replace(&mut room.opens, Vec::new(alloc));
    let boxes = &mut room.boxes;
    keep_boxes(boxes, &mut opens);
    let mut queue = open_sides(alloc, opens, boxes, &mut room.lists, sides)?;
    let found = &mut room.found;
    found.renew(alloc, count)?;
    let mut left = count;
    while let Some(mut side) = next_side(&mut queue, boxes, left, &found.levels, &found.level_of)? {
        let share = side.take_share(alloc)?;
        found.grow(share.factor)?;
        queue = grown_sides(queue, share.factor, &mut room.spare)?;
        left -= found.freeze(&side.get().rising, share.parts)?;
        keep_box(boxes, side);
    }
    room.opens = queue.into_vec();
    Ok(mem::replace(found, FairParts::none(alloc)))
}
