//! What the plan of a bus has, by the place of the bus.
ghost use Rattle.std.specs.Prelude.{◌≡◌};
ghost use Rattle.std.specs.Option.{option_copied};
ghost use Rattle.j39_vehicle_findings.specs.Buses.{flows_on, group_at, groups_on, requests_on, spn_at};

use j39_network::{FlowPlan, GroupPlan, RequestPlan};
use j39_vehicle::{BusPlan, GroupAt};

/// The flows of a bus, none where there is no such bus.
pub fn flows_on(buses: &[BusPlan], bus: usize) -> &[FlowPlan]
    ensures { result.now ≡ flows_on buses.now bus }
{
    match buses.get(bus) {
        Some(bus) => bus.plan.flows.as_slice(),
        None => &[],
    }
}

/// The requests of a bus, none where there is no such bus.
pub fn requests_on(buses: &[BusPlan], bus: usize) -> &[RequestPlan]
    ensures { result.now ≡ requests_on buses.now bus }
{
    match buses.get(bus) {
        Some(bus) => bus.plan.requests.as_slice(),
        None => &[],
    }
}

fn groups_on(buses: &[BusPlan], bus: usize) -> &[GroupPlan]
    ensures { result.now ≡ groups_on buses.now bus }
{
    match buses.get(bus) {
        Some(bus) => bus.plan.groups.as_slice(),
        None => &[],
    }
}

/// The group at a place of a bus.
pub fn group_at(buses: &[BusPlan], place: GroupAt) -> Option<&GroupPlan>
    ensures { option_copied result ≡ group_at buses.now place }
{
    groups_on(buses, place.bus).get(place.group)
}

/// The number of a signal of a group (SPN), where it has one.
pub fn spn_at(group: &GroupPlan, signal: usize) -> Option<u32>
    ensures { result ≡ spn_at group.now signal }
{
    match group.meanings.get(signal) {
        Some(meaning) => meaning.spn,
        None => None,
    }
}
