//! What is left on a side for the flows that still rise.
ghost use Rattle.std.specs.Prelude.{◌≡◌, ◌*◌, ◌<◌, ◌↔◌, ℕ, IfOk, IsTrue, MatchOption, All, length, map};
ghost use Rattle.fair_routes.specs.Network.Sides.{side_of};
ghost use Rattle.fair_routes.specs.Network.Rising.{frozen_in, rising_weight, slack_of};
ghost use Rattle.fair_routes.specs.Network.Rising.{AreAllHeld, HasLeastRoom, IsLesser};
ghost use Rattle.fair_routes.specs.Network.Weights.{weight_at, HaveLittleWeight};
ghost use Rattle.std.specs.Prelude.{◌^◌, ◌-◌, cond, sum_by, unwrap_or};
ghost use Rattle.std.specs.Option.{is_none};

use crate::routes::sides::LinkSide;
use natural::Natural;
use std::alloc::{AllocError, Global};

/// What is left on a side for the users that still rise.
#[derive(Drop)]
pub(super) struct Room {
    /// The place of the side in the list.
    pub(super) place: usize,
    /// What the held users leave of the cap, in parts.
    pub(super) slack: Natural,
    /// The weight of the others.
    pub(super) weight: u64,
}

/// The room on the side.
fn room_on(
    place: usize,
    side: &LinkSide,
    weights: &[u64],
    scale: &Natural,
    parts: &[Option<Natural>],
) -> Result<Room, AllocError>
    requires users { All (λ user. user < length weights.now) side.now.users.items }
    requires one_each { length parts.now ≡ length weights.now }
    requires little { sum_by (weight_at weights.now) side.now.users.items < 2 ^ 64 }
    ensures place { IfOk result (λ room. room.place ≡ place) }
    ensures slack { IfOk result (λ room. room.slack
        ≡ slack_of weights.now scale.now (frozen_in parts.now) (side_of side.now)) }
    ensures weight { IfOk result (λ room. room.weight
        ≡ rising_weight weights.now (frozen_in parts.now) side.now.users.items) }
{
    let mut slack = scale.product(side.cap)?;
    let mut weight = 0;
    for user in &side.users {
        take_off(&mut slack, &parts[*user], weights[*user]);
        weight += weight_of_rising(&parts[*user], weights[*user]);
    }
    Ok(Room {
        place,
        slack,
        weight,
    })
}

/// Takes off what a flow of this weight has together, if it is held.
fn take_off(slack: &mut Natural, part: &Option<Natural>, weight: u64)
    ensures { slack.new ≡ slack.old - unwrap_or part.now 0 * weight }
{
    if let Some(number) = part {
        slack.sub_times(number, weight);
    }
}

/// The weight of a flow that still rises, and zero of one that is held.
fn weight_of_rising(part: &Option<Natural>, weight: u64) -> u64
    ensures { result ≡ cond (is_none part.now) weight 0 }
{
    if part.is_none() { weight } else { 0 }
}

/// The side with the least room for each one of the weight that still rises there, if there is any.
pub(super) fn least_room(
    alloc: Global,
    sides: &[LinkSide],
    weights: &[u64],
    scale: &Natural,
    parts: &[Option<Natural>],
) -> Result<Option<Room>, AllocError>
    requires users { All (λ side. All (λ user. user < length weights.now) side.users.items) sides.now }
    requires one_each { length parts.now ≡ length weights.now }
    requires little { HaveLittleWeight weights.now (map side_of sides.now) }
    ensures { IfOk result (λ least. MatchOption least
        (AreAllHeld weights.now (frozen_in parts.now) (map side_of sides.now))
        (HasLeastRoom weights.now scale.now (frozen_in parts.now) (map side_of sides.now))) }
{
    let mut least = None;
    for (place, side) in sides.iter().enumerate() {
        let room = room_on(place, side, weights, scale, parts)?;
        least = lesser(least, room);
    }
    Ok(least)
}

/// The room if it is less than the least one for each one of weight, or the first with any weight.
fn lesser(least: Option<Room>, room: Room) -> Option<Room>
    ensures { IsLesser least room result }
{
    if room.weight > 0 && is_less(&room, &least) {
        return Some(room);
    }
    least
}

/// Whether the room is less than the least one for each one of weight, or there is none.
fn is_less(room: &Room, least: &Option<Room>) -> bool
    ensures { MatchOption least.now (IsTrue result)
        (λ least. IsTrue result ↔ (room.now.slack * least.weight < least.slack * room.now.weight)) }
{
    match least {
        Some(least) => room
            .slack
            .compare_times(least.weight, &least.slack, room.weight)
            .is_lt(),
        None => true,
    }
}

/// What each one of weight gets.
#[derive(Drop)]
pub(super) struct Share {
    /// In parts, at a scale that is `factor` times the one before.
    pub(super) parts: Natural,
    pub(super) factor: u64,
}

/// The share of each one of so much weight in the slack.
pub(super) fn share_of(slack: Natural, weight: u64) -> Result<Share, AllocError>
    requires { 0 < weight }
    ensures factor { IfOk result (λ share. 0 < share.factor) }
    ensures whole { IfOk result (λ share. share.parts * weight ≡ slack * share.factor) }
{
    let mut parts = slack;
    if parts.remainder(weight) != 0 {
        return Ok(Share {
            parts,
            factor: weight,
        });
    }
    parts.divide(weight);
    Ok(Share { parts, factor: 1 })
}
