//! All places whose moments have come by a time: what the clauses of `Moments::next_due` say where it is asked again
//! and again.

ghost use Rattle.std.specs.Prelude.{ℕ, ◌<◌, IfOk};
ghost use Rattle.std.specs.List.{All, AllPairs, Contains};
ghost use Rattle.least_moment.specs.Moments.{IsDue};

use least_moment::Moments;
use std::alloc::{AllocError, Global};

/// All places whose moments have come by a time, in order.
pub fn due_places(alloc: Global, moments: &Moments, time: u64) -> Result<Vec<usize>, AllocError>
    ensures all { IfOk result (λ places. (at : ℕ) → IsDue moments.now time at → Contains places.items at) }
    ensures only { IfOk result (λ places. All (IsDue moments.now time) places.items) }
    ensures order { IfOk result (λ places. AllPairs (λ one next. one < next) places.items) }
{
    let mut places = Vec::new(alloc);
    let len = moments.len();
    let mut from = 0;
    while from < len {
        match moments.next_due(from, time) {
            Some(at) => {
                places.push(at)?;
                from = at + 1;
            }
            None => return Ok(places),
        }
    }
    Ok(places)
}
