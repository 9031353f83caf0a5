//! Want of memory: each clone of a peer refused in turn, and each allocation, where the tests are
//! run by `make hostile`.
use crate::calls::{fuse_of, play, play_list};
use crate::peers::{Fuse, Name, Numbered};
use crate::rows::{FINISHING, LIFTED, LINKED, SHORTER, SLOWED, WAITING};
use std::process::Abort;

const LISTS: [&str; 6] = [WAITING, LIFTED, FINISHING, SLOWED, SHORTER, LINKED];

/// No list clones as many peers.
const MOST: u64 = 10_000;

/// How calls are made.
#[derive(Clone, Copy)]
enum Way {
    /// One by one on a scheduler.
    OneByOne,
    /// As a list.
    Listed,
}

const WAYS: [Way; 2] = [Way::OneByOne, Way::Listed];

/// A fuse that burns at that clone, or never at 0.
fn lit(rt: &(impl Abort + AllocGlobal), clone: u64) -> Fuse {
    match fuse_of(rt.alloc(), clone) {
        Ok(fuse) => fuse,
        Err(_) => fuse_of(rt.alloc(), clone).expect(rt, "no room for a fuse"),
    }
}

/// Makes the calls in that way. Answers whether one was refused for want of memory.
fn is_refused<P: Numbered>(
    rt: &(impl Abort + AllocGlobal),
    way: Way,
    rows: &str,
    fuse: &Fuse,
) -> bool {
    match way {
        Way::OneByOne => play::<P>(rt, 0, rows, fuse),
        Way::Listed => play_list::<P>(rt, rows, fuse),
    }
}

/// With ample memory no call is refused.
fn play_amply<P: Numbered>(rt: &(impl Abort + AllocGlobal), way: Way, rows: &str) {
    let fuse = lit(rt, 0);
    assert!(rt; !is_refused::<P>(rt, way, rows, &fuse), "a call is refused");
}

#[test]
fn with_ample_memory_no_call_is_refused(rt: HostRuntime) {
    for rows in LISTS {
        for way in WAYS {
            play_amply::<u64>(&rt, way, rows);
            play_amply::<Name>(&rt, way, rows);
        }
    }
}

/// Makes the calls with this clone refused. Answers whether there was one.
fn is_clone_refused(rt: &(impl Abort + AllocGlobal), way: Way, rows: &str, clone: u64) -> bool {
    let fuse = lit(rt, clone);
    let is_refused = is_refused::<Name>(rt, way, rows, &fuse);
    assert!(rt; is_refused == (fuse.get() == 0), "clone {clone}");
    is_refused
}

/// Counts the clones that were refused.
fn count_refused(rt: &(impl Abort + AllocGlobal), way: Way, rows: &str) -> u64 {
    for clone in 1..MOST {
        if !is_clone_refused(rt, way, rows, clone) {
            return clone - 1;
        }
    }
    MOST
}

/// Each clone is refused in turn, and there are more than three.
fn refuse_each_clone(rt: &(impl Abort + AllocGlobal), way: Way, rows: &str) {
    let refused = count_refused(rt, way, rows);
    assert!(rt; refused > 3 && refused < MOST, "{refused}");
}

#[test]
fn each_clone_is_refused_in_turn(rt: HostRuntime) {
    for rows in LISTS {
        for way in WAYS {
            refuse_each_clone(&rt, way, rows);
        }
    }
}

/// For `make hostile`: some allocation may be refused.
#[test]
fn calls_with_little_memory(rt: HostRuntime) {
    let fuse = lit(&rt, 0);
    for rows in LISTS {
        let _is_refused = play::<u64>(&rt, 0, rows, &fuse);
        let _is_refused = play::<Name>(&rt, 0, rows, &fuse);
    }
}

/// For `make hostile`: some allocation may be refused.
#[test]
fn lists_with_little_memory(rt: HostRuntime) {
    let fuse = lit(&rt, 0);
    for rows in LISTS {
        let _is_refused = play_list::<u64>(&rt, rows, &fuse);
        let _is_refused = play_list::<Name>(&rt, rows, &fuse);
    }
}
