//! The last moment and the last flow id, by single calls and by lists of calls.
use crate::calls::{fuse_of, play, play_list};
use crate::peers::{Name, Numbered};
use std::process::Abort;
use std::test::Fail;

/// Without a limit: what arrives past the last moment is refused, unless it is dropped.
const AT_ONCE: &str = "\
enqueue 18446744073709551605 1 2 0 1 10 1 : done 1 2 0 1 18446744073709551615
enqueue 18446744073709551615 1 2 1 1 1 1 : refused 3
enqueue 18446744073709551615 1 2 2 1 18446744073709551615 0 : done 1 2 2 1 -
enqueue 18446744073709551615 1 2 3 1 0 1 : done 1 2 3 1 18446744073709551615
next : next -";

/// A message that starts at the last moment never finishes.
const NO_FINISH: &str = "\
enqueue 0 1 2 0 1 18446744073709551615 1 : done 1 2 0 1 18446744073709551615
limit 0 1 1 - :
enqueue 0 1 2 1 1 0 1 :
next : next 18446744073709551615
advance 18446744073709551615 :
next : next -";

/// A message that finishes at the last moment would arrive after it. Lifted one nanosecond before,
/// it arrives.
const TOO_LATE: &str = "\
enqueue 0 1 2 0 1 18446744073709551615 1 : done 1 2 0 1 18446744073709551615
limit 0 1 1000000000 - :
enqueue 0 1 2 1 1 1 1 :
next : next 18446744073709551614
advance 18446744073709551614 :
next : next 18446744073709551615
advance 18446744073709551615 : refused 3
next : next 18446744073709551615
limit 18446744073709551615 1 - - : refused 3
next : next 18446744073709551615
limit 18446744073709551614 1 - - : done 1 2 1 1 18446744073709551615
next : next -";

/// One byte takes the last second.
const LAST_SECOND: &str = "\
limit 0 1 1 - :
enqueue 18446744072709551615 1 2 0 1 0 1 :
next : next 18446744073709551615
advance 18446744073709551615 : done 1 2 0 1 18446744073709551615";

/// With a nanosecond of latency it would be too late.
const LATE: &str = "\
limit 0 1 1 - :
enqueue 18446744072709551615 1 2 0 1 1 1 :
next : next 18446744073709551615
advance 18446744073709551615 : refused 3
next : next 18446744073709551615";

/// One nanosecond later it never finishes.
const NEVER: &str = "\
limit 0 1 1 - :
enqueue 18446744072709551616 1 2 0 1 0 1 :
next : next -
advance 18446744073709551615 :";

const REFUSED_AT_ONCE: &str = "\
next : next -
enqueue 18446744073709551615 1 2 0 1 1 1 : refused 3
next : next -";

/// Two messages finish at the last moment, and the second would arrive after it. So neither does.
const SECOND_IS_LATE: &str = "\
limit 0 1 2 - :
enqueue 18446744072709551615 1 2 0 1 0 1 :
enqueue 18446744072709551615 1 3 1 1 1 1 :
advance 18446744073709551615 : refused 3
next : next 18446744073709551615
limit 18446744073709551614 1 - - : done 1 2 0 1 18446744073709551614 done 1 3 1 1 18446744073709551615
next : next -";

/// An advance to the same moment again, and to an earlier one, does nothing.
const BACK: &str = "\
limit 0 1 1000 - :
enqueue 0 1 2 0 1000 0 1 :
advance 1000000000 : done 1 2 0 1000 1000000000
advance 1000000000 :
advance 0 :
next : next -";

/// A message that was enqueued at an earlier moment than the one before it starts after it.
const EARLIER: &str = "\
limit 0 1 1000 - :
enqueue 0 1 2 0 1000 1000000000 1 :
advance 1000000000 : done 1 2 0 1000 2000000000
enqueue 0 1 2 1 1000 0 1 :
advance 0 :
next : next 2000000000
advance 2000000000 :
next : next 3000000000
advance 3000000000 : done 1 2 1 1000 3000000000";

/// The flow ids begin at the last number, which no flow gets.
const NO_ID: &str = "\
enqueue 0 1 2 0 1 0 1 : done 1 2 0 1 0
limit 0 1 5 - :
enqueue 0 1 2 1 1 0 1 : refused 4
next : next -";

/// They begin one before it. The second message has to wait for the first, so it may wait.
const ONE_ID: &str = "\
limit 0 1 1000 - :
enqueue 0 1 2 0 100 0 1 :
next : next 100000000
enqueue 0 1 3 1 1 0 1 : refused 4
next : next 100000000
enqueue 0 1 2 2 1 0 1 :
advance 50000000 :
advance 100000000 : refused 4
next : next 100000000";

/// Of two faults the first is answered: the first message is too late.
const LATE_FIRST: &str = "\
limit 0 1 1 - :
enqueue 18446744072709551615 1 2 0 1 1 1 :
enqueue 18446744072709551615 1 2 1 1 0 1 :
advance 18446744073709551615 : refused 3";

/// The first is in time, and the second has no id.
const NO_ID_NEXT: &str = "\
limit 0 1 1 - :
enqueue 18446744072709551615 1 2 0 1 0 1 :
enqueue 18446744072709551615 1 2 1 1 0 1 :
advance 18446744073709551615 : refused 4
next : next 18446744073709551615";

const LISTS: [&str; 10] = [
    AT_ONCE,
    NO_FINISH,
    TOO_LATE,
    LAST_SECOND,
    LATE,
    NEVER,
    REFUSED_AT_ONCE,
    SECOND_IS_LATE,
    BACK,
    EARLIER,
];

/// The first flow id, and the calls.
const WITH_IDS: [(u64, &str); 4] = [
    (18446744073709551615, NO_ID),
    (18446744073709551614, ONE_ID),
    (18446744073709551614, LATE_FIRST),
    (18446744073709551614, NO_ID_NEXT),
];

/// The calls are made one by one, and as a list.
fn expect_both<P: Numbered>(rt: &(impl Abort + AllocGlobal), rows: &str) -> Result<(), Fail> {
    let fuse = fuse_of(rt.alloc(), 0)?;
    assert!(rt; !play::<P>(rt, 0, rows, &fuse));
    assert!(rt; !play_list::<P>(rt, rows, &fuse));
    Ok(())
}

/// The calls are made where the flow ids begin at `first`.
fn expect_from<P: Numbered>(
    rt: &(impl Abort + AllocGlobal),
    first: u64,
    rows: &str,
) -> Result<(), Fail> {
    let fuse = fuse_of(rt.alloc(), 0)?;
    assert!(rt; !play::<P>(rt, first, rows, &fuse));
    Ok(())
}

fn expect_all<P: Numbered>(rt: &(impl Abort + AllocGlobal)) -> Result<(), Fail> {
    for rows in LISTS {
        expect_both::<P>(rt, rows)?;
    }
    for (first, rows) in WITH_IDS {
        expect_from::<P>(rt, first, rows)?;
    }
    Ok(())
}

#[test]
fn the_ends_of_time_and_of_the_ids_are_met(rt: HostRuntime) -> Result<(), Fail> {
    expect_all::<u64>(&rt)?;
    expect_all::<Name>(&rt)
}
