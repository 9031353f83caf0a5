//! The share of a side, in whole parts.
ghost use Rattle.std.specs.Prelude.{◌≡◌, ◌+◌, ◌*◌, ◌<◌, ◌≤◌, ℕ, IfOk};

use fairness::lowest_terms::gcd_of_narrow;
use natural::Natural;
use std::alloc::{AllocError, Global};

/// What each of some users gets.
#[derive(Drop)]
pub(crate) struct Share {
    /// In parts, at a scale that is `factor` times the one before.
    pub(crate) parts: Natural,
    /// The least factor by which the scale has to grow for the parts to be whole.
    pub(crate) factor: u64,
}

/// The share of each of `count` users in the slack.
pub(crate) fn whole_share(alloc: Global, slack: Natural, count: u64) -> Result<Share, AllocError>
    requires { 0 < count }
    ensures factor { IfOk result (λ share. 0 < share.factor) }
    ensures whole { IfOk result (λ share. share.parts * count ≡ slack * share.factor) }
    ensures least { IfOk result (λ share. (parts factor : ℕ) → 0 < factor → parts * count ≡ slack * factor
        → share.factor ≤ factor) }
{
    let mut quotient = slack;
    let rest = quotient.divide(count);
    share_of(alloc, quotient, rest, count)
}

/// The share of each of `count` users in a slack of which a division by them gives these.
pub(crate) fn share_of(
    alloc: Global,
    quotient: Natural,
    rest: u64,
    count: u64,
) -> Result<Share, AllocError>
    requires { rest < count }
    ensures factor { IfOk result (λ share. 0 < share.factor) }
    ensures whole { IfOk result (λ share. share.parts * count ≡ (quotient * count + rest) * share.factor) }
    ensures least { IfOk result (λ share. (parts factor : ℕ) → 0 < factor
        → parts * count ≡ (quotient * count + rest) * factor → share.factor ≤ factor) }
{
    let mut parts = quotient;
    if rest == 0 {
        return Ok(Share { parts, factor: 1 });
    }
    let shared = gcd_of_narrow(rest, count);
    let factor = count / shared;
    parts.multiply(factor)?;
    parts.add_assign(&Natural::from_u64(alloc, rest / shared))?;
    Ok(Share { parts, factor })
}
