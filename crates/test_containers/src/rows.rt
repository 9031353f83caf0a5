//! All rows of a chain, and a sum over them: what the clauses of `Chains::first` and `Chains::next` say in a loop.

ghost use Rattle.std.specs.Prelude.{◌≡◌, ◌<◌, ◌≤◌, ◌^◌, length, IfOk, IfSome, IfNone, sum, map, slice_index};
ghost use Rattle.chains.specs.Chains.{rows_of};

use chains::Chains;
use std::alloc::{AllocError, Global};

/// All rows of an owner, in order.
pub fn rows(alloc: Global, chains: &Chains, owner: usize) -> Result<Vec<usize>, AllocError>
    requires { owner < chains.now.now.owners }
    ensures { IfOk result (λ rows. rows.items ≡ rows_of chains.now.now owner) }
{
    let mut rows = Vec::new(alloc);
    let mut at = chains.first(owner);
    while let Some(row) = at {
        rows.push(row)?;
        at = chains.next(row);
    }
    Ok(rows)
}

/// The sum of what all rows of an owner weigh, if it fits.
pub fn weight(chains: &Chains, owner: usize, weights: &[u64]) -> Option<u64>
    requires owner { owner < chains.now.now.owners }
    requires weights { length chains.now.now.stands ≤ length weights.now }
    ensures some { IfSome result (λ all. all ≡ sum (map (λ row. slice_index weights.now row) (rows_of chains.now.now owner))) }
    ensures none { IfNone result (2 ^ 64 ≤ sum (map (λ row. slice_index weights.now row) (rows_of chains.now.now owner))) }
{
    let mut all: u64 = 0;
    let mut at = chains.first(owner);
    while let Some(row) = at {
        all = all.checked_add(weights[row])?;
        at = chains.next(row);
    }
    Some(all)
}
