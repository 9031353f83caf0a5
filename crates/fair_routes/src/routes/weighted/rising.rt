//! What each one of weight has while the flows rise.
ghost use Rattle.std.specs.Prelude.{◌≡◌, ◌*◌, ◌<◌, ℕ, [], None, IfOk, OnOk, All, length, map, replicate};
ghost use Rattle.std.specs.Prelude.{Some, option_map, unwrap_or};
ghost use Rattle.fairness.specs.Fairness.Exists.{product as product_of};
ghost use Rattle.fair_routes.specs.Network.Rising.{AreWeighed, HasFrozen};

use fair_rates::bandwidth::FairParts;
use natural::Natural;
use std::alloc::{AllocError, Global};

/// The rates for each one of weight, as whole numbers of parts of one byte a second.
#[derive(Drop)]
pub(super) struct Rising {
    /// How many parts are one byte a second.
    pub(super) scale: Natural,
    /// The factors by which the scale was multiplied, one after the other.
    pub(super) growth: Vec<u64>,
    /// What each one of a flow's weight has, once a full link holds the flow. `None` stands for a flow
    /// that still rises.
    pub(super) parts: Vec<Option<Natural>>,
}

impl Rising {
    /// No link holds any of so many flows.
    pub(super) fn new(alloc: Global, flows: usize) -> Result<Rising, AllocError>
        ensures scale { IfOk result (λ rising. rising.scale ≡ 1) }
        ensures growth { IfOk result (λ rising. rising.growth.items ≡ []) }
        ensures parts { IfOk result (λ rising. rising.parts.items ≡ replicate flows None) }
    {
        let mut parts = Vec::with_capacity(alloc, flows)?;
        for _ in 0..flows {
            parts.push(None)?;
        }
        Ok(Rising {
            scale: Natural::from_u64(alloc, 1),
            growth: Vec::new(alloc),
            parts,
        })
    }

    /// Multiplies the scale, and all parts with it.
    pub(super) fn grow(&mut self, factor: u64) -> Result<(), AllocError>
        requires { 0 < factor }
        ensures scale { OnOk result (self.new.scale ≡ self.old.scale * factor) }
        ensures growth { OnOk result (product_of self.new.growth.items ≡ product_of self.old.growth.items * factor) }
        ensures factors { OnOk result (All (λ n. 0 < n) self.old.growth.items →
            All (λ n. 0 < n) self.new.growth.items) }
        ensures parts { OnOk result (self.new.parts.items ≡ map (option_map (λ n. n * factor)) self.old.parts.items) }
    {
        if factor == 1 {
            return Ok(());
        }
        self.scale.multiply(factor)?;
        self.growth.push(factor)?;
        multiply_each(&mut self.parts, factor)
    }
}

/// Multiplies what each flow has that is held.
fn multiply_each(parts: &mut [Option<Natural>], factor: u64) -> Result<(), AllocError>
    ensures { OnOk result (parts.new ≡ map (option_map (λ n. n * factor)) parts.old) }
{
    for part in parts.iter_mut() {
        multiply(part, factor)?;
    }
    Ok(())
}

/// Multiplies what a flow has, if it is held.
fn multiply(part: &mut Option<Natural>, factor: u64) -> Result<(), AllocError>
    ensures { OnOk result (part.new ≡ option_map (λ n. n * factor) part.old) }
{
    if let Some(number) = part {
        number.multiply(factor)?;
    }
    Ok(())
}

/// Gives the share to each of these users that still rises.
pub(super) fn freeze(
    parts: &mut [Option<Natural>],
    users: &[usize],
    share: &Natural,
) -> Result<(), AllocError>
    requires { All (λ user. user < length parts.old) users.now }
    ensures { OnOk result (HasFrozen users.now parts.old parts.new share.now) }
{
    for user in users {
        hold(&mut parts[*user], share)?;
    }
    Ok(())
}

/// Gives the share to a flow, if it still rises.
fn hold(part: &mut Option<Natural>, share: &Natural) -> Result<(), AllocError>
    ensures { OnOk result (part.new ≡ Some (unwrap_or part.old share.now)) }
{
    if part.is_none() {
        *part = Some(share.clone()?);
    }
    Ok(())
}

/// What each flow has by its weight.
pub(super) fn weigh(alloc: Global, rising: Rising, weights: &[u64]) -> Result<FairParts, AllocError>
    requires { length rising.parts.items ≡ length weights.now }
    ensures { IfOk result (AreWeighed weights.now rising) }
{
    let Rising {
        scale,
        growth,
        parts,
    } = rising;
    let mut levels = Vec::with_capacity(alloc, parts.len())?;
    let mut level_of = Vec::with_capacity(alloc, parts.len())?;
    for (flow, part) in parts.iter().enumerate() {
        levels.push(product(alloc, part, weights[flow])?)?;
        level_of.push(place(part, flow))?;
    }
    Ok(FairParts {
        scale,
        growth,
        levels,
        level_of,
    })
}

/// What a flow of this weight has together, and nothing where it still rises.
fn product(alloc: Global, part: &Option<Natural>, weight: u64) -> Result<Natural, AllocError>
    ensures { IfOk result (λ n. n ≡ unwrap_or part.now 0 * weight) }
{
    match part {
        Some(number) => number.product(u128::from(weight)),
        None => Ok(Natural::from_u64(alloc, 0)),
    }
}

/// The place, for a flow that is held.
fn place(part: &Option<Natural>, flow: usize) -> Option<usize>
    ensures { result ≡ option_map (λ _. flow) part.now }
{
    match part {
        Some(_) => Some(flow),
        None => None,
    }
}
