//! Which gateways may have one queue for frames of several units.
ghost use Rattle.std.specs.Prelude.{◌≡◌, ◌==◌, count_by, nat_lt, false};
ghost use Rattle.std.specs.List.{list_any, slice_get};
ghost use Rattle.std.specs.Option.{option_map_or};
ghost use Rattle.j39_network.specs.declared.plan.unit_plan.UnitPlan.{UnitPlan as APlannedUnit};
ghost use Rattle.j39_search.specs.Adding.{Adds};
ghost use Rattle.j39_search.specs.ListPlaces.{found_if, in_each};
ghost use Rattle.j39_vehicle_findings.specs.FoundPaths.{has_any_queue, has_timing, is_any_queue, may_share_queue};
ghost use Rattle.j39_vehicle_findings.specs.FoundPaths.{queue_findings};
ghost use Rattle.j39_vehicle_findings.specs.FoundPaths.{shared_queues};

use crate::finding::VehicleFinding;
use j39_network::{Queue, UnitPlan};
use j39_search::{FindResult, Rule, find_each, push_if};
use j39_vehicle::{BusPlan, Gateway, UnitAt, Vehicle};

fn is_any(queue: Queue) -> bool
    ensures { result ≡ is_any_queue queue }
{
    match queue {
        Queue::Any => true,
        Queue::Priority => false,
    }
}

// Whether the unit at a place keeps no order.
fn is_any_unit(units: &[UnitPlan], unit: usize) -> bool
    ensures { result ≡ option_map_or (λ (w : APlannedUnit). is_any_queue w.queue) (slice_get units.now unit) false }
{
    match units.get(unit) {
        Some(unit) => is_any(unit.queue),
        None => false,
    }
}

// Whether one of the gateway's units on the bus keeps no order.
fn has_any_queue(gateway: &Gateway, place: usize, bus: &BusPlan) -> bool
    ensures { result ≡ has_any_queue gateway.now place bus.now }
{
    gateway.units.iter().any(|unit| unit.bus == place && is_any_unit(&bus.plan.units, unit.unit))
}

// Whether the gateway has two units on the bus, which has timing, and one of them keeps no order.
fn may_share_queue(gateway: &Gateway, place: usize, bus: &BusPlan) -> bool
    ensures { result ≡ may_share_queue gateway.now place bus.now }
{
    let units = gateway
        .units
        .iter()
        .filter(|unit| unit.bus == place)
        .count();
    bus.plan.timing.is_some() && 1 < units && has_any_queue(gateway, place, bus)
}

#[derive(Clone, Copy)]
struct SharedQueue<'a> {
    gateway: &'a Gateway,
    place: usize,
}

impl Rule<BusPlan, VehicleFinding> for SharedQueue<'_> {
    ghost use Rattle.j39_vehicle_findings.specs.declared.finding.VehicleFinding.TheVariants.{SharedQueue as SharedQueues};

    ghost gives = { λ rule b bus. found_if (may_share_queue rule.gateway.now b bus) (SharedQueues rule.place b) };

    fn find(&self, findings: &mut Vec<VehicleFinding>, place: usize, bus: &BusPlan) -> FindResult {
        push_if(
            findings,
            may_share_queue(self.gateway, place, bus),
            VehicleFinding::SharedQueue(self.place, place),
        )
    }
}

#[derive(Clone, Copy)]
struct QueuesOf<'a> {
    buses: &'a [BusPlan],
}

impl Rule<Gateway, VehicleFinding> for QueuesOf<'_> {
    ghost gives = { λ rule k gateway. shared_queues rule.buses.now k gateway };

    fn find(
        &self,
        findings: &mut Vec<VehicleFinding>,
        place: usize,
        gateway: &Gateway,
    ) -> FindResult {
        find_each(findings, &SharedQueue { gateway, place }, self.buses)
    }
}

/// Adds the buses on which a gateway has two units, one of which keeps no order.
#[tactic(auto, unfolding(crate::specs::FoundPaths::queue_findings))]
pub fn find_queues(findings: &mut Vec<VehicleFinding>, vehicle: &Vehicle) -> FindResult
    ensures { Adds result findings.old.items findings.new.items (queue_findings vehicle.now) }
{
    let buses = vehicle.buses.as_slice();
    find_each(findings, &QueuesOf { buses }, &vehicle.gateways)
}
