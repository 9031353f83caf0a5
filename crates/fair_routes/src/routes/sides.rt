//! What limits flows over routes: the sides that links make.
ghost use Rattle.std.specs.Prelude.{◌≡◌, ◌<◌, ◌≤◌, ℕ, ◌++◌, ◌∷◌, [], cond, IfOk, IfErr, OnOk, map, All, length};
ghost use Rattle.std.specs.Prelude.{List, replicate, slice_set, vec_len};
ghost use Rattle.fair_rates.specs.Sides.SideOf.{side_of as planner_side_of};
ghost use Rattle.fair_routes.specs.Network.Sides.{side_of, sides_over, AreListed};
ghost use Rattle.fair_routes.specs.Network.Users.{ends_with, lists, noted, users_at, AreUsers, HasJoined, IsNoLink, IsNoLinkOf};

use crate::routes::RouteError;
use fair_rates::bandwidth::Side;
use natural::Natural;
use std::alloc::{AllocError, Global};

/// What limits the flows that use a link with a cap: the cap in bytes a second, and the places of those flows in the
/// list, in its order.
#[derive(Drop)]
pub(crate) struct LinkSide {
    pub(crate) cap: u128,
    pub(crate) users: Vec<usize>,
}

/// The sides of the links that have a cap and that some flow uses, in the order of the links, as the planner takes
/// them.
pub(crate) fn sides(
    alloc: Global,
    routes: &[Vec<usize>],
    caps: &[Option<u128>],
) -> Result<Vec<Side>, RouteError>
    ensures sides { IfOk result (λ sides. map planner_side_of sides.items
        ≡ sides_over caps.now (map (λ route. route.items) routes.now)) }
    ensures listed { IfOk result (λ _. AreListed (length caps.now) (map (λ route. route.items) routes.now)) }
    ensures refused { IfErr result (λ e. IsNoLink (length caps.now) (map (λ route. route.items) routes.now) e) }
{
    let links = link_sides(alloc, routes, caps)?;
    Ok(planned(alloc, links)?)
}

/// The same sides as the planner takes them.
fn planned(alloc: Global, links: Vec<LinkSide>) -> Result<Vec<Side>, AllocError>
    ensures { IfOk result (λ sides. map planner_side_of sides.items ≡ map side_of links.items) }
{
    let mut sides = Vec::with_capacity(alloc, links.len())?;
    for link in links {
        let LinkSide { cap, users } = link;
        let cap = Natural::from_u128(alloc, cap);
        sides.push(Side { cap, users })?;
    }
    Ok(sides)
}

/// The sides with their caps as they were given.
pub(crate) fn link_sides(
    alloc: Global,
    routes: &[Vec<usize>],
    caps: &[Option<u128>],
) -> Result<Vec<LinkSide>, RouteError>
    ensures sides { IfOk result (λ sides. map side_of sides.items
        ≡ sides_over caps.now (map (λ route. route.items) routes.now)) }
    ensures listed { IfOk result (λ _. AreListed (length caps.now) (map (λ route. route.items) routes.now)) }
    ensures refused { IfErr result (λ e. IsNoLink (length caps.now) (map (λ route. route.items) routes.now) e) }
{
    let users = users(alloc, routes, caps.len())?;
    Ok(capped_sides(alloc, users, caps)?)
}

/// The flows that use each of so many links.
fn users(alloc: Global, routes: &[Vec<usize>], links: usize) -> Result<Vec<Vec<usize>>, RouteError>
    ensures users { IfOk result (λ users. AreUsers links (map (λ route. route.items) routes.now) users.items) }
    ensures listed { IfOk result (λ _. AreListed links (map (λ route. route.items) routes.now)) }
    ensures refused { IfErr result (λ e. IsNoLink links (map (λ route. route.items) routes.now) e) }
{
    let mut users = nobody(alloc, links)?;
    for (flow, route) in routes.iter().enumerate() {
        register(&mut users, flow, route)?;
    }
    Ok(users)
}

/// So many links that no flow uses.
fn nobody(alloc: Global, links: usize) -> Result<Vec<Vec<usize>>, AllocError>
    ensures { IfOk result (λ users. map (λ flows. flows.items) users.items ≡ replicate links []) }
{
    let mut users = Vec::with_capacity(alloc, links)?;
    for _ in 0..links {
        users.push(Vec::new(alloc))?;
    }
    Ok(users)
}

/// Registers that the flow uses the links of its route.
fn register(users: &mut [Vec<usize>], flow: usize, route: &[usize]) -> Result<(), RouteError>
    requires { All (λ flows. All (λ user. user < flow) flows.items) users.old }
    ensures joined { OnOk result (HasJoined flow route.now users.old users.new) }
    ensures listed { OnOk result (All (λ link. link < length users.old) route.now) }
    ensures refused { IfErr result (λ e. IsNoLinkOf flow (length users.old) route.now e) }
{
    for link in route {
        register_link(users, flow, *link)?;
    }
    Ok(())
}

/// Registers that the flow uses the link, which may know of it already. A flow that came last to a link
/// stands at its end.
fn register_link(users: &mut [Vec<usize>], flow: usize, link: usize) -> Result<(), RouteError>
    ensures noted { OnOk result (lists users.new
        ≡ slice_set (lists users.old) link (noted flow (users_at users.old link))) }
    ensures listed { OnOk result (link < length users.old) }
    ensures refused { IfErr result (λ e. IsNoLinkOf flow (length users.old) (link ∷ []) e) }
{
    if link >= users.len() {
        return Err(RouteError::NoSuchLink { flow, link });
    }
    if !stands_last(&users[link], flow) {
        users[link].push(flow)?;
    }
    Ok(())
}

/// Whether the flow is the last of these.
fn stands_last(flows: &[usize], flow: usize) -> bool
    ensures { result ≡ ends_with flow flows.now }
{
    match flows.last() {
        Some(last) => *last == flow,
        None => false,
    }
}

/// The sides of the links that have a cap and a user, in the order of the links.
fn capped_sides(
    alloc: Global,
    mut users: Vec<Vec<usize>>,
    caps: &[Option<u128>],
) -> Result<Vec<LinkSide>, AllocError>
    requires { vec_len users ≡ length caps.now }
    ensures { IfOk result (λ sides. (routes : List (List ℕ)) → AreUsers (length caps.now) routes users.items
        → map side_of sides.items ≡ sides_over caps.now routes) }
{
    let mut sides = Vec::new(alloc);
    while let Some(flows) = users.pop() {
        if let Some(cap) = caps[users.len()] {
            if !flows.is_empty() {
                sides.push(LinkSide { cap, users: flows })?;
            }
        }
    }
    sides.reverse();
    Ok(sides)
}
