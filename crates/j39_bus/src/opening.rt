//! A new bus.
ghost use Rattle.std.specs.Prelude.{◌≡◌, ◌<◌, ℕ, length, map, All, IfOk, IfErr, IfSome, IfNone, OnOk};
ghost use Rattle.j39_network.specs.Kinds.{MayBeOneAt, AreDistinctUnits};
ghost use Rattle.j39_bus.specs.Stations.{unstarted};
ghost use Rattle.j39_world.specs.Opening.{AreFirstThatMayBeOne, CanOpen, IsNotOpened};
ghost use Rattle.j39_bus.specs.BusState.{histories_of};
ghost use Rattle.j39_bus.specs.Stands.{Stands};
ghost use Rattle.j39_bus.specs.inside.Network.{HasHeld, IsNetwork, IsOfPlan, world_in};
ghost use Rattle.j39_world.specs.World.{all_off};
ghost use Rattle.j39_bus.specs.inside.SendableGroups.{HasBadGroup};
ghost use Rattle.j39_network.specs.PlannedGroups.{IsSendable};

use crate::flows::flows_of;
use crate::network::Network;
use crate::places::empty_places;
use crate::queues::Queues;
use crate::receivers::Receivers;
use crate::{Bus, BusError};
use j39_claim::{AddressSet, Choose, Claimer};
use j39_network::{GroupFault, GroupPlan, Plan, UnitPlan, layout_of, may_be_one};
use std::alloc::{AllocError, Global};

/// The least place after the first whose unit may be the first's.
fn same_name_after(plan: &Plan, first: usize) -> Option<usize>
    requires { first < length plan.now.units.items }
    ensures some { IfSome result (λ second. MayBeOneAt plan.now first second
        × ((k : ℕ) → k < second → ¬ MayBeOneAt plan.now first k)) }
    ensures none { IfNone result ((k : ℕ) → ¬ MayBeOneAt plan.now first k) }
{
    let units = plan.units.as_slice();
    let unit = &units[first];
    for second in first + 1..units.len() {
        if may_be_one(unit, &units[second]) {
            return Some(second);
        }
    }
    None
}

/// The first two places whose units may be one.
fn same_name(plan: &Plan) -> Option<(usize, usize)>
    ensures some { IfSome result (λ places. AreFirstThatMayBeOne plan.now places.0 places.1) }
    ensures none { IfNone result (AreDistinctUnits plan.now) }
{
    for first in 0..plan.units.len() {
        if let Some(second) = same_name_after(plan, first) {
            return Some((first, second));
        }
    }
    None
}

/// Looks at all groups, also at those after a refused growth.
fn try_groups(alloc: Global, groups: &[GroupPlan]) -> Result<(), BusError>
    ensures ok { OnOk result (All IsSendable groups.now) }
    ensures refused { IfErr result (HasBadGroup groups.now) }
{
    let mut memory = true;
    for (place, group) in groups.iter().enumerate() {
        match layout_of(alloc, group) {
            Ok(_layout) => {}
            Err(GroupFault::Memory) => memory = false,
            Err(GroupFault::Refused) => return Err(BusError::BadGroup(place)),
        }
    }
    if memory {
        Ok(())
    } else {
        Err(BusError::Memory)
    }
}

/// A unit for each that is planned, none of them started, where these addresses are kept free.
fn claimers_of(
    alloc: Global,
    kept: &AddressSet,
    units: &[UnitPlan],
) -> Result<Vec<Claimer>, AllocError>
    ensures { IfOk result (λ claimers. claimers.items ≡ map (unstarted kept.now) units.now) }
{
    let mut claimers = Vec::with_capacity(alloc, units.len())?;
    for unit in units {
        claimers.push_reserved(Claimer::planned(unit.name, unit.address, kept.copy(), unit.claims));
    }
    Ok(claimers)
}

/// The network of a plan before any step.
fn network_of(alloc: Global, plan: &Plan) -> Result<Network, AllocError>
    requires { All IsSendable plan.now.groups.items }
    ensures network { IfOk result (λ net. IsNetwork net) }
    ensures planned { IfOk result (λ net. IsOfPlan plan.now net) }
    ensures world { IfOk result (λ net. world_in (histories_of all_off) net ≡ all_off) }
    ensures held { IfOk result (λ net. HasHeld (histories_of all_off) net) }
{
    let units = plan.units.as_slice();
    let claimers = claimers_of(alloc, &plan.keep_free, units)?;
    let claims = Queues::new(alloc, units.len())?;
    let flows = flows_of(alloc, plan)?;
    let sessions = empty_places(alloc, units.len())?;
    let wire = Queues::new(alloc, units.len())?;
    let receivers = Receivers::new(alloc, units)?;
    Ok(Network {
        claimers,
        claims,
        live: plan.live,
        flows,
        sessions,
        wire,
        receivers,
        reports: Vec::new(alloc),
        frames: Vec::new(alloc),
    })
}

impl Bus {
    /// A bus of the plan, on which no unit is started, with a chooser for each unit by its place. It keeps the
    /// allocator. On an error the choosers are dropped.
    pub fn new(alloc: Global, plan: &Plan, choosers: Vec<Box<dyn Choose>>) -> Result<Self, BusError>
        ensures ok { OnOk result (CanOpen (length choosers.items) plan.now) }
        ensures stands { IfOk result (λ bus. Stands bus plan.now all_off) }
        ensures units { IfOk result (λ bus. length bus.units ≡ length plan.now.units.items) }
        ensures refused { IfErr result (IsNotOpened (length choosers.items) plan.now) }
    {
        if choosers.len() != plan.units.len() {
            return Err(BusError::ChooserCount);
        }
        if let Some((first, second)) = same_name(plan) {
            return Err(BusError::SameName(first, second));
        }
        try_groups(alloc, plan.groups.as_slice())?;
        let Ok(network) = network_of(alloc, plan) else {
            return Err(BusError::Memory);
        };
        Ok(Bus { network, choosers })
    }
}
