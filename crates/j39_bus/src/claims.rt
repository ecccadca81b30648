//! What is undelivered of claims and requests.
ghost use Rattle.std.specs.Prelude.{◌≡◌, ◌+◌, ◌<◌, ℕ, ◌≤◌, [], ◌∷◌, ◌++◌, length, OnOk};
ghost use Rattle.std.specs.List.{list_all, range_with_len};
ghost use Rattle.j39_bus.specs.Queued.{IsTable, changed_in, one_at, pair_in, room_at};
ghost use Rattle.j39_world.specs.ClaimSteps.{sent_to_others};
ghost use Rattle.j39_bus.specs.Stations.{station_at};
ghost use Rattle.j39_bus.specs.inside.Claims.{HasRoomForOthers, are_requests};

use crate::queues::Queues;
use j39_claim::{Claimer, Item};
use std::alloc::AllocError;
use std::collections::VecDeque;

/// Makes room for so many items from a unit to each other one that is on.
pub(crate) fn reserve_for_others(
    claims: &mut Queues<Item>,
    claimers: &[Claimer],
    from: usize,
    items: usize,
) -> Result<(), AllocError>
    requires units { length claimers.now ≡ length claims.old.lists }
    requires from { from < length claims.old.lists }
    ensures lists { claims.new.lists ≡ claims.old.lists }
    ensures room { OnOk result (HasRoomForOthers claims.new claimers.now from items) }
{
    for (to, claimer) in claimers.iter().enumerate() {
        if to != from && claimer.is_started() {
            claims.reserve(from, to, items)?;
        }
    }
    Ok(())
}

// Adds an item from one unit to another, where there is room for it.
fn post_to(claims: &mut Queues<Item>, from: usize, to: usize, item: &Item)
    requires from { from < length claims.old.lists }
    requires to { to < length claims.old.lists }
    requires room { 0 < room_at claims.old from to }
    ensures table { IsTable (length claims.old.lists) claims.new.lists }
    ensures lists { pair_in claims.new.lists
        ≡ changed_in (pair_in claims.old.lists) from to (pair_in claims.old.lists from to ++ item.now ∷ []) }
    ensures room { (s t : ℕ) → room_at claims.old s t ≤ room_at claims.new s t + one_at from to s t }
{
    match item {
        Item::AddressClaimed(say) => claims.post(from, to, Item::AddressClaimed(*say)),
        Item::Request => claims.post(from, to, Item::Request),
    }
}

/// Adds an item from a unit to each other one that is on, where there is room for it.
pub(crate) fn post_to_others(
    claims: &mut Queues<Item>,
    claimers: &[Claimer],
    from: usize,
    item: &Item,
)
    requires table { IsTable (length claims.old.lists) claims.old.lists }
    requires units { length claimers.now ≡ length claims.old.lists }
    requires from { from < length claims.old.lists }
    requires room { HasRoomForOthers claims.old claimers.now from 1 }
    ensures table { IsTable (length claims.old.lists) claims.new.lists }
    ensures lists { pair_in claims.new.lists
        ≡ sent_to_others (station_at claimers.now) (pair_in claims.old.lists) from (item.now ∷ []) }
    ensures room { (more : ℕ) → HasRoomForOthers claims.old claimers.now from (1 + more)
        → HasRoomForOthers claims.new claimers.now from more }
{
    for (to, claimer) in claimers.iter().enumerate() {
        if to != from && claimer.is_started() {
            post_to(claims, from, to, item);
        }
    }
}

/// Whether none of these is a claim.
fn are_requests(items: &VecDeque<Item>) -> bool
    ensures { result ≡ are_requests items.now.items }
{
    items.iter().all(|item| matches!(item, Item::Request))
}

// Whether no claim of a unit is undelivered to one of so many.
fn are_settled_of(claims: &Queues<Item>, from: usize, units: usize) -> bool
    requires units { units ≡ length claims.now.lists }
    requires from { from < units }
    ensures { result ≡ list_all (λ v. are_requests (pair_in claims.now.lists from v)) (range_with_len 0 units) }
{
    for to in 0..units {
        if !are_requests(claims.between(from, to)) {
            return false;
        }
    }
    true
}

/// Whether no claim is undelivered between so many units.
pub(crate) fn are_settled(claims: &Queues<Item>, units: usize) -> bool
    requires units { units ≡ length claims.now.lists }
    ensures { result
        ≡ list_all (λ u. list_all (λ v. are_requests (pair_in claims.now.lists u v)) (range_with_len 0 units))
        (range_with_len 0 units) }
{
    for from in 0..units {
        if !are_settled_of(claims, from, units) {
            return false;
        }
    }
    true
}
