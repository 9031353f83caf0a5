//! Tables of rows: by hand, and beside a plain list of the same rows.
use crate::same::same;
use row_table::{Row, RowTable};
use std::alloc::{AllocError, Global};
use std::process::Abort;
use std::rc::Rc;

/// The row there changes, if there is one.
fn set<T: Drop>(
    table: &mut RowTable<T>,
    at: usize,
    item: T,
    moment: Option<u64>,
) -> Result<(), AllocError> {
    if at >= table.len() {
        return Ok(());
    }
    table.set(at, item, moment)
}

/// The row there leaves, if there is one.
fn take<T: Drop>(table: &mut RowTable<T>, at: usize) -> Result<(), AllocError> {
    if at >= table.len() {
        return Ok(());
    }
    table.take(at)
}

/// The next row that the sender of one sends, if there is one.
fn next_sent(table: &RowTable<u64>, at: usize) -> Option<usize> {
    if at >= table.len() {
        return None;
    }
    table.next_sent(at)
}

/// The next row that the receiver of one receives, if there is one.
fn next_received(table: &RowTable<u64>, at: usize) -> Option<usize> {
    if at >= table.len() {
        return None;
    }
    table.next_received(at)
}

/// These are the items.
fn expect_items(rt: &impl Abort, table: &RowTable<u64>, items: &[u64]) {
    same(rt, &table.len(), &items.len());
    same(rt, &table.is_empty(), &items.is_empty());
    for at in 0..table.len() {
        same(rt, &Some(table.at(at).item), &items.get(at).copied());
    }
}

/// These are the places of the rows that an owner sends.
fn expect_sent(rt: &impl Abort, table: &RowTable<u64>, owner: usize, places: &[usize]) {
    let mut next = table.first_sent(owner);
    for place in places {
        same(rt, &next, &Some(*place));
        next = next_sent(table, *place);
    }
    same(rt, &next, &None);
}

/// These are the places of the rows that an owner receives.
fn expect_received(rt: &impl Abort, table: &RowTable<u64>, owner: usize, places: &[usize]) {
    let mut next = table.first_received(owner);
    for place in places {
        same(rt, &next, &Some(*place));
        next = next_received(table, *place);
    }
    same(rt, &next, &None);
}

/// These are the places of the rows whose moment has come by a time.
fn expect_due(rt: &impl Abort, table: &RowTable<u64>, time: u64, places: &[usize]) {
    let mut from = 0;
    for place in places {
        same(rt, &table.next_due(from, time), &Some(*place));
        from = place.saturating_add(1);
    }
    same(rt, &table.next_due(from, time), &None);
}

/// The rows 10, 11, 12, 13 and 14 come, and a mark is set: 0 sends the first, the third and the last, and 1 the
/// others; 2 receives the first two, and 0 the others.
fn five_come(table: &mut RowTable<u64>) -> Result<(), AllocError> {
    table.push(10, 0, 2, Some(50))?;
    table.push(11, 1, 2, None)?;
    table.push(12, 0, 0, Some(30))?;
    table.push(13, 1, 0, Some(40))?;
    table.push(14, 0, 0, None)?;
    table.commit();
    Ok(())
}

fn expect_five(rt: &impl Abort, table: &RowTable<u64>) {
    expect_items(rt, table, &[10, 11, 12, 13, 14]);
    expect_sent(rt, table, 0, &[0, 2, 4]);
    expect_sent(rt, table, 1, &[1, 3]);
    expect_sent(rt, table, 2, &[]);
    expect_sent(rt, table, 9, &[]);
    expect_received(rt, table, 2, &[0, 1]);
    expect_received(rt, table, 0, &[2, 3, 4]);
    same(rt, &table.least(), &Some(30));
    expect_due(rt, table, 40, &[2, 3]);
    expect_due(rt, table, 29, &[]);
}

#[test]
fn rows_are_found_by_owner_and_by_moment(rt: HostRuntime) -> Result<(), AllocError> {
    let mut table = RowTable::new(rt.alloc());
    five_come(&mut table)?;
    expect_five(&rt, &table);
    Ok(())
}

/// Three of the five leave, from the middle and from both ends, and one comes.
fn three_leave(table: &mut RowTable<u64>) -> Result<(), AllocError> {
    take(table, 2)?;
    take(table, 3)?;
    take(table, 0)?;
    table.push(15, 0, 2, Some(7))
}

/// Those behind a row that leaves move up.
fn expect_three_left(rt: &impl Abort, table: &RowTable<u64>) {
    expect_items(rt, table, &[11, 13, 15]);
    expect_sent(rt, table, 0, &[2]);
    expect_sent(rt, table, 1, &[0, 1]);
    expect_received(rt, table, 2, &[0, 2]);
    same(rt, &table.least(), &Some(7));
    expect_due(rt, table, 99, &[1, 2]);
}

#[test]
fn rows_leave_from_the_middle_and_from_both_ends(rt: HostRuntime) -> Result<(), AllocError> {
    let mut table = RowTable::new(rt.alloc());
    five_come(&mut table)?;
    three_leave(&mut table)?;
    expect_three_left(&rt, &table);
    Ok(())
}

/// Two leave, one changes, and one comes of whom nothing was known.
fn change(table: &mut RowTable<u64>) -> Result<(), AllocError> {
    take(table, 1)?;
    set(table, 1, 20, Some(5))?;
    table.push(15, 3, 3, Some(1))?;
    take(table, 0)
}

fn expect_changed(rt: &impl Abort, table: &RowTable<u64>) {
    expect_items(rt, table, &[20, 13, 14, 15]);
    expect_sent(rt, table, 3, &[3]);
    expect_due(rt, table, 5, &[0, 3]);
}

/// All is taken back: by an undo, and where memory is refused, whichever piece it is.
fn take_back(rt: &impl Abort, table: &mut RowTable<u64>) -> Result<(), AllocError> {
    five_come(table)?;
    if change(table).is_ok() {
        expect_changed(rt, table);
        table.undo();
    }
    expect_five(rt, table);
    expect_sent(rt, table, 3, &[]);
    Ok(())
}

#[test]
fn all_is_taken_back(rt: HostRuntime) -> Result<(), AllocError> {
    let mut table = RowTable::new(rt.alloc());
    take_back(&rt, &mut table)
}

/// One leaves, two change, and one of these leaves then.
fn change_and_leave(table: &mut RowTable<u64>) -> Result<(), AllocError> {
    take(table, 1)?;
    set(table, 1, 20, Some(5))?;
    set(table, 3, 21, None)?;
    take(table, 1)
}

fn expect_changed_and_left(rt: &impl Abort, table: &RowTable<u64>) {
    expect_items(rt, table, &[10, 13, 21]);
    expect_sent(rt, table, 0, &[0, 2]);
    expect_sent(rt, table, 1, &[1]);
    expect_received(rt, table, 2, &[0]);
    expect_received(rt, table, 0, &[1, 2]);
    same(rt, &table.least(), &Some(40));
    expect_due(rt, table, 99, &[0, 1]);
}

/// Rows that left come back as they were at the mark, twice.
fn come_back(rt: &impl Abort, table: &mut RowTable<u64>) -> Result<(), AllocError> {
    for _ in 0..2 {
        change_and_leave(table)?;
        expect_changed_and_left(rt, table);
        table.undo();
        expect_five(rt, table);
    }
    Ok(())
}

#[test]
fn rows_that_left_come_back(rt: HostRuntime) -> Result<(), AllocError> {
    let mut table = RowTable::new(rt.alloc());
    five_come(&mut table)?;
    come_back(&rt, &mut table)
}

/// After a mark they do not, and of those that stay one that leaves does.
fn stay_away(rt: &impl Abort, table: &mut RowTable<u64>) -> Result<(), AllocError> {
    change_and_leave(table)?;
    table.commit();
    expect_changed_and_left(rt, table);
    table.undo();
    expect_changed_and_left(rt, table);
    take(table, 2)?;
    expect_items(rt, table, &[10, 13]);
    table.undo();
    expect_changed_and_left(rt, table);
    Ok(())
}

#[test]
fn rows_that_left_before_a_mark_stay_away(rt: HostRuntime) -> Result<(), AllocError> {
    let mut table = RowTable::new(rt.alloc());
    five_come(&mut table)?;
    stay_away(&rt, &mut table)
}

/// Two rows come with one item, and a mark is set.
fn two_share(table: &mut RowTable<Rc<u64>>, item: &Rc<u64>) -> Result<(), AllocError> {
    table.push(item.clone()?, 0, 1, None)?;
    table.push(item.clone()?, 0, 1, None)?;
    table.commit();
    Ok(())
}

/// So many rows are there, and in so many places the item is kept, of which one is outside of the table.
fn expect_shared(
    rt: &impl Abort,
    table: &RowTable<Rc<u64>>,
    item: &Rc<u64>,
    rows: usize,
    kept: usize,
) {
    same(rt, &table.len(), &rows);
    same(rt, &Rc::strong_count(item), &kept);
}

/// One row leaves and comes back; it leaves again, and the other one changes and leaves.
fn let_items_go(
    rt: &impl Abort,
    table: &mut RowTable<Rc<u64>>,
    item: &Rc<u64>,
) -> Result<(), AllocError> {
    take(table, 0)?;
    table.undo();
    expect_shared(rt, table, item, 2, 3);
    take(table, 0)?;
    table.commit();
    expect_shared(rt, table, item, 1, 2);
    set(table, 0, item.clone()?, None)?;
    expect_shared(rt, table, item, 1, 3);
    take(table, 0)?;
    table.commit();
    expect_shared(rt, table, item, 0, 1);
    Ok(())
}

/// No item of a row that left is kept past a mark.
#[test]
fn items_of_rows_that_left_are_let_go(rt: HostRuntime) -> Result<(), AllocError> {
    let item = Rc::new(rt.alloc(), 7)?;
    let mut table = RowTable::new(rt.alloc());
    two_share(&mut table, &item)?;
    let_items_go(&rt, &mut table, &item)
}

/// Sixty rows come, and all but every tenth leave, which closes up the slots at the mark.
fn sixty_come_and_six_stay(table: &mut RowTable<u64>) -> Result<(), AllocError> {
    for item in 0..60 {
        table.push(item, (item % 2) as usize, 2, Some(100 - item))?;
    }
    table.commit();
    for at in 0..6 {
        for _ in 0..9 {
            take(table, at + 1)?;
        }
    }
    table.commit();
    Ok(())
}

/// The last of the six leaves, and one comes.
fn one_leaves(table: &mut RowTable<u64>) -> Result<(), AllocError> {
    take(table, 5)?;
    table.push(60, 1, 2, Some(70))
}

/// One left and one came.
fn expect_with_last(rt: &impl Abort, table: &RowTable<u64>) {
    expect_items(rt, table, &[0, 10, 20, 30, 40, 60]);
    expect_due(rt, table, 70, &[3, 4, 5]);
    expect_sent(rt, table, 1, &[5]);
}

fn expect_six(rt: &impl Abort, table: &RowTable<u64>) {
    expect_items(rt, table, &[0, 10, 20, 30, 40, 50]);
    same(rt, &table.least(), &Some(50));
    expect_sent(rt, table, 0, &[0, 1, 2, 3, 4, 5]);
    expect_sent(rt, table, 1, &[]);
}

fn leave(rt: &impl Abort, table: &mut RowTable<u64>) -> Result<(), AllocError> {
    sixty_come_and_six_stay(table)?;
    one_leaves(table)?;
    expect_with_last(rt, table);
    table.undo();
    expect_six(rt, table);
    Ok(())
}

#[test]
fn many_leave(rt: HostRuntime) -> Result<(), AllocError> {
    let mut table = RowTable::new(rt.alloc());
    leave(&rt, &mut table)
}

/// A row of the plain list.
#[derive(Clone, Copy)]
struct Plain {
    item: u64,
    sender: usize,
    receiver: usize,
    moment: Option<u64>,
}

/// What a row is looked for by.
#[derive(Clone, Copy)]
enum Sought {
    Sender(usize),
    Receiver(usize),
    Due(u64),
}

impl Plain {
    fn is(&self, sought: Sought) -> bool {
        match sought {
            Sought::Sender(owner) => self.sender == owner,
            Sought::Receiver(owner) => self.receiver == owner,
            Sought::Due(time) => match self.moment {
                Some(moment) => moment <= time,
                None => false,
            },
        }
    }
}

/// The first place from one on of what is sought, by going through them.
fn next_through(plain: &[Plain], from: usize, sought: Sought) -> Option<usize> {
    for at in from..plain.len() {
        if plain[at].is(sought) {
            return Some(at);
        }
    }
    None
}

/// Both have the same rows.
fn compare_rows(rt: &impl Abort, table: &RowTable<u64>, plain: &[Plain]) {
    same(rt, &table.len(), &plain.len());
    for at in 0..plain.len() {
        let row = plain[at];
        match table.get(at) {
            Some(
                Row {
                    item,
                    sender,
                    receiver,
                    moment,
                },
            ) => {
                same(rt, item, &row.item);
                same(rt, sender, &row.sender);
                same(rt, receiver, &row.receiver);
                same(rt, moment, &row.moment);
            }
            None => assert!(rt; false),
        }
    }
}

/// Both answer alike of the owners of a row, and of a time from its place on.
fn compare_finds(rt: &impl Abort, table: &RowTable<u64>, plain: &[Plain], at: usize, time: u64) {
    if at >= plain.len() {
        return;
    }
    let (sender, receiver) = (
        Sought::Sender(plain[at].sender),
        Sought::Receiver(plain[at].receiver),
    );
    same(
        rt,
        &next_sent(table, at),
        &next_through(plain, at + 1, sender),
    );
    same(
        rt,
        &next_received(table, at),
        &next_through(plain, at + 1, receiver),
    );
    same(
        rt,
        &table.next_due(at, time),
        &next_through(plain, at, Sought::Due(time)),
    );
    let has_come = match table.least() {
        Some(least) => least <= time,
        None => false,
    };
    same(
        rt,
        &has_come,
        &next_through(plain, 0, Sought::Due(time)).is_some(),
    );
}

/// The next of some numbers that look drawn by lot.
fn draw(state: &mut u64) -> u64 {
    *state = state
        .wrapping_mul(6364136223846793005)
        .wrapping_add(1442695040888963407);
    *state >> 33
}

/// A row that looks drawn by lot.
fn draw_row(state: &mut u64) -> Plain {
    let item = draw(state);
    let drawn = draw(state) % 40;
    Plain {
        item,
        sender: (item % 4) as usize,
        receiver: (item / 4 % 4) as usize,
        moment: if drawn < 30 { Some(drawn) } else { None },
    }
}

/// A row comes to both, or takes the place of one but for its owners, or one leaves.
fn step(
    table: &mut RowTable<u64>,
    plain: &mut Vec<Plain>,
    at: usize,
    chosen: u64,
    row: Plain,
) -> Result<(), AllocError> {
    if chosen < 8 {
        table.push(row.item, row.sender, row.receiver, row.moment)?;
        plain.push(row)?;
    } else if at >= plain.len() {
        return Ok(());
    } else if chosen < 12 {
        plain[at].item = row.item;
        plain[at].moment = row.moment;
        set(table, at, row.item, row.moment)?;
    } else {
        plain.remove(at);
        take(table, at)?;
    }
    Ok(())
}

/// A table beside a plain list of the same rows, and those that were at the mark.
struct Both {
    table: RowTable<u64>,
    plain: Vec<Plain>,
    before: Vec<Plain>,
}

impl Drop for Both {
    /// Lets go of what it holds.
    #[inline(always)]
    fn drop(self) {
        let Both {
            table,
            plain,
            before,
        } = self;
        drop(table);
        drop(plain);
        drop(before);
    }
}

impl Both {
    fn new(alloc: Global) -> Both {
        Both {
            table: RowTable::new(alloc),
            plain: Vec::new(alloc),
            before: Vec::new(alloc),
        }
    }

    fn commit(&mut self) -> Result<(), AllocError> {
        self.table.commit();
        self.before.clear();
        self.before.extend_from_slice(self.plain.as_slice())
    }

    fn undo(&mut self) -> Result<(), AllocError> {
        self.table.undo();
        self.plain.clear();
        self.plain.extend_from_slice(self.before.as_slice())
    }

    /// Rows come and change, and if so they leave more often. At times a mark is set, or all is taken back to it.
    fn turn(&mut self, state: &mut u64, leave: bool) -> Result<(), AllocError> {
        let at = (draw(state) % 24) as usize;
        let row = draw_row(state);
        let chosen = draw(state) % 16 + if leave { 6 } else { 0 };
        step(&mut self.table, &mut self.plain, at, chosen, row)?;
        match draw(state) % 8 {
            0 => self.undo(),
            1 | 2 => self.commit(),
            _ => Ok(()),
        }
    }

    fn compare(&self, rt: &impl Abort, state: &mut u64) {
        let at = (draw(state) % 24) as usize;
        let time = draw(state) % 40;
        let plain = self.plain.as_slice();
        compare_rows(rt, &self.table, plain);
        compare_finds(rt, &self.table, plain, at, time);
        for owner in 0..5 {
            let first = next_through(plain, 0, Sought::Sender(owner));
            same(rt, &self.table.first_sent(owner), &first);
            let first = next_through(plain, 0, Sought::Receiver(owner));
            same(rt, &self.table.first_received(owner), &first);
        }
    }
}

/// Of two thousand turns, a hundred with more rows that come, and a hundred with more that leave, by turns.
fn take_turns(rt: &impl Abort, both: &mut Both) -> Result<(), AllocError> {
    let mut state = 7;
    for turn in 0..2000 {
        both.turn(&mut state, turn / 100 % 2 == 1)?;
        both.compare(rt, &mut state);
    }
    Ok(())
}

#[test]
fn a_table_is_a_list(rt: HostRuntime) -> Result<(), AllocError> {
    let mut both = Both::new(rt.alloc());
    take_turns(&rt, &mut both)
}

/// A row comes, and one leaves.
fn exchange(rt: &impl Abort, both: &mut Both, state: &mut u64) -> Result<(), AllocError> {
    let (comes, leaves) = (draw_row(state), draw_row(state));
    step(&mut both.table, &mut both.plain, 0, 0, comes)?;
    both.compare(rt, state);
    let at = (draw(state) % 5) as usize;
    step(&mut both.table, &mut both.plain, at, 15, leaves)?;
    both.compare(rt, state);
    Ok(())
}

/// Within a mark 600 rows come and go, with four or five there at once, in another order than they came; then all is
/// taken back.
fn exchange_often(rt: &impl Abort, both: &mut Both) -> Result<(), AllocError> {
    let mut state = 7;
    for _ in 0..4 {
        let row = draw_row(&mut state);
        step(&mut both.table, &mut both.plain, 0, 0, row)?;
    }
    both.commit()?;
    for _ in 0..600 {
        exchange(rt, both, &mut state)?;
    }
    both.undo()?;
    both.compare(rt, &mut state);
    Ok(())
}

#[test]
fn many_come_and_go_within_a_mark(rt: HostRuntime) -> Result<(), AllocError> {
    let mut both = Both::new(rt.alloc());
    exchange_often(&rt, &mut both)
}
