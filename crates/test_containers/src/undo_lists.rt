//! What comes back, at numbers and at texts.
use crate::same::same;
use std::alloc::{AllocError, Global};
use std::process::Abort;
use undo_list::UndoList;

/// A list of these items, right after a mark.
fn marked(alloc: Global, items: &[u64]) -> Result<UndoList<u64>, AllocError> {
    let mut list = UndoList::new(alloc);
    for item in items {
        list.push(*item)?;
    }
    list.commit();
    Ok(list)
}

/// Items are replaced, one of them twice, one is changed where it stands, and two are added.
fn change(list: &mut UndoList<u64>) -> Result<(), AllocError> {
    if list.len() < 3 {
        return Ok(());
    }
    list.set(2, 30)?;
    list.set(0, 10)?;
    list.set(2, 31)?;
    list.push(40)?;
    list.push(50)?;
    if list.is_saved(0) {
        *list.item_mut(0) += 1;
    }
    let last = list.len() - 1;
    list.set(last, 51)
}

/// These are the items, and so many are saved.
fn expect(rt: &impl Abort, list: &UndoList<u64>, items: &[u64], saved: usize) {
    same(rt, &list.as_slice(), &items);
    same(rt, &list.saved_len(), &saved);
}

fn undo_a_change(rt: &impl Abort, list: &mut UndoList<u64>) -> Result<(), AllocError> {
    change(list)?;
    expect(rt, list, &[11, 2, 31, 40, 51], 2);
    list.undo();
    expect(rt, list, &[1, 2, 3], 0);
    list.undo();
    expect(rt, list, &[1, 2, 3], 0);
    Ok(())
}

#[test]
fn an_undo_gives_back_what_stood_at_the_mark(rt: HostRuntime) -> Result<(), AllocError> {
    let mut list = marked(rt.alloc(), &[1, 2, 3])?;
    undo_a_change(&rt, &mut list)
}

fn commit_a_change(rt: &impl Abort, list: &mut UndoList<u64>) -> Result<(), AllocError> {
    change(list)?;
    list.commit();
    assert!(rt; list.len() == 5 && !list.is_saved(4));
    expect(rt, list, &[11, 2, 31, 40, 51], 0);
    list.undo();
    expect(rt, list, &[11, 2, 31, 40, 51], 0);
    if list.len() > 4 {
        list.set(4, 52)?;
    }
    expect(rt, list, &[11, 2, 31, 40, 52], 1);
    list.undo();
    same(rt, &list.get(4), &Some(&51));
    same(rt, &list.get(5), &None);
    Ok(())
}

#[test]
fn a_commit_keeps_what_changed(rt: HostRuntime) -> Result<(), AllocError> {
    let mut list = marked(rt.alloc(), &[1, 2, 3])?;
    commit_a_change(&rt, &mut list)
}

fn commit_odd_items(rt: &impl Abort, list: &mut UndoList<u64>) -> Result<(), AllocError> {
    change(list)?;
    list.commit_kept(|item| *item % 2 == 1);
    expect(rt, list, &[11, 31, 51], 0);
    list.push(7)?;
    list.undo();
    expect(rt, list, &[11, 31, 51], 0);
    Ok(())
}

#[test]
fn a_commit_keeps_some_of_the_items(rt: HostRuntime) -> Result<(), AllocError> {
    let mut list = marked(rt.alloc(), &[1, 2, 3])?;
    commit_odd_items(&rt, &mut list)
}

/// What is written stays after an undo, and takes no memory.
fn write_and_undo(rt: &impl Abort, list: &mut UndoList<u64>) -> Result<(), AllocError> {
    if list.len() > 2 {
        list.set(0, 10)?;
        if !list.is_saved(1) {
            list.write(1, 20);
        }
    }
    expect(rt, list, &[10, 20, 3], 1);
    list.undo();
    expect(rt, list, &[1, 20, 3], 0);
    Ok(())
}

#[test]
fn what_is_written_stays(rt: HostRuntime) -> Result<(), AllocError> {
    let mut list = marked(rt.alloc(), &[1, 2, 3])?;
    write_and_undo(&rt, &mut list)
}

/// A text is added.
fn push_text(alloc: Global, list: &mut UndoList<String>, text: &str) -> Result<(), AllocError> {
    list.push(String::from_str(alloc, text)?)
}

/// Another text stands at that place, if there is one.
fn set_text(
    alloc: Global,
    list: &mut UndoList<String>,
    at: usize,
    text: &str,
) -> Result<(), AllocError> {
    if at < list.len() {
        list.set(at, String::from_str(alloc, text)?)?;
    }
    Ok(())
}

/// Both texts are replaced, one of them grows where it stands, and a third is added.
fn change_texts(alloc: Global, list: &mut UndoList<String>) -> Result<(), AllocError> {
    set_text(alloc, list, 1, "three")?;
    if list.len() > 1 && list.is_saved(1) {
        list.item_mut(1).push_str(" and four")?;
    }
    set_text(alloc, list, 0, "one and a half")?;
    push_text(alloc, list, "five")
}

/// These are the texts.
fn expect_texts(rt: &impl Abort, list: &UndoList<String>, texts: &[&str]) {
    same(rt, &list.len(), &texts.len());
    for (own, text) in list.as_slice().iter().zip(texts) {
        same(rt, &own.as_str(), text);
    }
}

fn take_texts_back(
    rt: &(impl Abort + AllocGlobal),
    list: &mut UndoList<String>,
) -> Result<(), AllocError> {
    push_text(rt.alloc(), list, "one")?;
    push_text(rt.alloc(), list, "two")?;
    list.commit();
    change_texts(rt.alloc(), list)?;
    expect_texts(rt, list, &["one and a half", "three and four", "five"]);
    list.undo();
    expect_texts(rt, list, &["one", "two"]);
    Ok(())
}

#[test]
fn texts_come_back(rt: HostRuntime) -> Result<(), AllocError> {
    let mut list = UndoList::new(rt.alloc());
    take_texts_back(&rt, &mut list)
}

fn give_the_mark_up(rt: &impl Abort, list: &mut UndoList<u64>) -> Result<(), AllocError> {
    if list.len() > 1 {
        list.set(1, 20)?;
    }
    list.unmark();
    assert!(rt; list.len() == 3 && list.is_saved(2));
    expect(rt, list, &[1, 20, 3], 0);
    list.commit();
    list.undo();
    expect(rt, list, &[1, 20, 3], 0);
    list.unmark();
    list.undo();
    expect(rt, list, &[], 0);
    Ok(())
}

fn clear_and_push(rt: &impl Abort, list: &mut UndoList<u64>) -> Result<(), AllocError> {
    list.clear();
    list.push(6)?;
    expect(rt, list, &[6], 0);
    list.undo();
    expect(rt, list, &[], 0);
    Ok(())
}

#[test]
fn without_a_mark_all_items_go(rt: HostRuntime) -> Result<(), AllocError> {
    let mut list = marked(rt.alloc(), &[1, 2, 3])?;
    give_the_mark_up(&rt, &mut list)?;
    clear_and_push(&rt, &mut list)
}

/// A change is made, twice if memory is refused once.
fn change_again(rt: &impl Abort, list: &mut UndoList<u64>) -> Result<(), AllocError> {
    if change(list).is_err() {
        list.undo();
        expect(rt, list, &[1, 2, 3], 0);
        change(list)?;
    }
    expect(rt, list, &[11, 2, 31, 40, 51], 2);
    Ok(())
}

/// Whichever piece of memory is refused, all comes back.
#[test]
fn all_comes_back_where_memory_is_refused(rt: HostRuntime) -> Result<(), AllocError> {
    let mut list = marked(rt.alloc(), &[1, 2, 3])?;
    change_again(&rt, &mut list)
}
