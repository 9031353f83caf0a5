//! Rows of two owners, which go and come back.
use crate::rows::{rows, weight};
use crate::same::same;
use chains::Chains;
use std::alloc::{AllocError, Global};
use std::process::Abort;

/// The rows of an owner, in order; none of an owner that is not there.
fn listed(alloc: Global, chains: &Chains, owner: usize) -> Result<Vec<usize>, AllocError> {
    if owner >= chains.owners() {
        return Ok(Vec::new(alloc));
    }
    rows(alloc, chains, owner)
}

/// A row goes, if it stands in a chain.
fn take(chains: &mut Chains, row: usize) -> Result<(), AllocError> {
    if row >= chains.rows() {
        return Ok(());
    }
    match chains.owner(row) {
        Some(owner) => chains.take(owner, row),
        None => Ok(()),
    }
}

/// One more row, if there is such an owner.
fn add(chains: &mut Chains, owner: usize) -> Result<(), AllocError> {
    if owner < chains.owners() {
        chains.add(owner)?;
    }
    Ok(())
}

/// The rows 0, 2, 4 of one owner and 1, 3, 5 of another, right after a mark.
fn two_owners(alloc: Global) -> Result<Chains, AllocError> {
    let mut chains = Chains::new(alloc);
    chains.add_owner()?;
    chains.add_owner()?;
    for _ in 0..3 {
        add(&mut chains, 0)?;
        add(&mut chains, 1)?;
    }
    chains.commit();
    Ok(chains)
}

/// These are the rows of an owner.
fn expect_rows(
    rt: &(impl Abort + AllocGlobal),
    chains: &Chains,
    owner: usize,
    wanted: &[usize],
) -> Result<(), AllocError> {
    let rows = listed(rt.alloc(), chains, owner)?;
    same(rt, &rows.as_slice(), &wanted);
    Ok(())
}

/// These are the rows of the first two owners.
fn expect_both(
    rt: &(impl Abort + AllocGlobal),
    chains: &Chains,
    first: &[usize],
    second: &[usize],
) -> Result<(), AllocError> {
    expect_rows(rt, chains, 0, first)?;
    expect_rows(rt, chains, 1, second)
}

/// What the rows of the two owners weigh.
fn expect_weights(rt: &impl Abort, chains: &Chains) {
    if chains.owners() > 1 && chains.rows() <= 6 {
        let weights = [1, 20, 300, 4000, 50000, u64::MAX];
        same(rt, &weight(chains, 0, &weights), &Some(50301));
        same(rt, &weight(chains, 1, &weights), &None);
    }
}

#[test]
fn rows_stand_in_order_of_coming(rt: HostRuntime) -> Result<(), AllocError> {
    let chains = two_owners(rt.alloc())?;
    expect_weights(&rt, &chains);
    expect_both(&rt, &chains, &[0, 2, 4], &[1, 3, 5])
}

/// Rows of the first owner go from the middle and from both ends, and two come.
fn take_from_all_sides(
    rt: &(impl Abort + AllocGlobal),
    chains: &mut Chains,
) -> Result<(), AllocError> {
    take(chains, 2)?;
    expect_rows(rt, chains, 0, &[0, 4])?;
    take(chains, 4)?;
    add(chains, 0)?;
    expect_rows(rt, chains, 0, &[0, 6])?;
    take(chains, 0)?;
    take(chains, 6)?;
    expect_rows(rt, chains, 0, &[])?;
    add(chains, 0)?;
    expect_both(rt, chains, &[7], &[1, 3, 5])
}

#[test]
fn a_row_goes_from_the_middle_and_from_both_ends(rt: HostRuntime) -> Result<(), AllocError> {
    let mut chains = two_owners(rt.alloc())?;
    take_from_all_sides(&rt, &mut chains)
}

/// Rows go and come, one of an owner who comes with it.
fn change(chains: &mut Chains) -> Result<(), AllocError> {
    take(chains, 2)?;
    take(chains, 1)?;
    add(chains, 1)?;
    chains.add_owner()?;
    add(chains, 2)
}

fn take_back(rt: &(impl Abort + AllocGlobal), chains: &mut Chains) -> Result<(), AllocError> {
    change(chains)?;
    expect_rows(rt, chains, 2, &[7])?;
    chains.undo();
    same(rt, &chains.owners(), &2);
    expect_both(rt, chains, &[0, 2, 4], &[1, 3, 5])?;
    add(chains, 0)?;
    expect_rows(rt, chains, 0, &[0, 2, 4, 6])
}

#[test]
fn all_is_taken_back(rt: HostRuntime) -> Result<(), AllocError> {
    let mut chains = two_owners(rt.alloc())?;
    take_back(&rt, &mut chains)
}

fn close_gaps(rt: &(impl Abort + AllocGlobal), chains: &mut Chains) -> Result<(), AllocError> {
    take(chains, 2)?;
    take(chains, 1)?;
    chains.close_gaps();
    same(rt, &chains.rows(), &4);
    expect_both(rt, chains, &[0, 2], &[1, 3])?;
    add(chains, 0)?;
    chains.undo();
    add(chains, 1)?;
    expect_rows(rt, chains, 1, &[1, 3, 4])
}

#[test]
fn gaps_are_closed(rt: HostRuntime) -> Result<(), AllocError> {
    let mut chains = two_owners(rt.alloc())?;
    close_gaps(&rt, &mut chains)
}

/// One row goes, and one comes, or all is as it was.
fn take_one(rt: &(impl Abort + AllocGlobal), chains: &mut Chains) -> Result<(), AllocError> {
    if take(chains, 2).is_err() || add(chains, 0).is_err() {
        return expect_both(rt, chains, &[0, 2, 4], &[1, 3, 5]);
    }
    expect_rows(rt, chains, 0, &[0, 4, 6])
}

/// Whichever piece of memory is refused, the rows stand as they did at the mark.
#[test]
fn where_memory_is_refused_all_is_taken_back(rt: HostRuntime) -> Result<(), AllocError> {
    let mut chains = two_owners(rt.alloc())?;
    take_one(&rt, &mut chains)
}
