//! Both lists change, or neither.
use crate::same::same;
use crate::store::Store;
use std::alloc::AllocError;
use std::process::Abort;

/// The levels 3 and 4.
fn two_levels(store: &mut Store) -> Result<(), AllocError> {
    store.add(3)?;
    store.add(4)
}

/// These are the levels, after so many moves.
fn expect(rt: &impl Abort, store: &Store, levels: &[u64], moves: usize) {
    same(rt, &store.levels(), &levels);
    same(rt, &store.moves(), &moves);
}

/// The first level goes to the second place.
fn carry(store: &mut Store) -> Result<(), AllocError> {
    if store.levels().len() > 1 {
        store.carry(0, 1)?;
    }
    Ok(())
}

#[test]
fn a_level_is_carried(rt: HostRuntime) -> Result<(), AllocError> {
    let mut store = Store::new(rt.alloc());
    two_levels(&mut store)?;
    carry(&mut store)?;
    expect(&rt, &store, &[0, 3], 1);
    Ok(())
}

/// Whichever piece of memory is refused, nothing is carried then.
fn carry_again(rt: &impl Abort, store: &mut Store) -> Result<(), AllocError> {
    if carry(store).is_err() {
        expect(rt, store, &[3, 4], 0);
        carry(store)?;
    }
    expect(rt, store, &[0, 3], 1);
    Ok(())
}

#[test]
fn nothing_is_carried_where_memory_is_refused(rt: HostRuntime) -> Result<(), AllocError> {
    let mut store = Store::new(rt.alloc());
    two_levels(&mut store)?;
    carry_again(&rt, &mut store)
}
