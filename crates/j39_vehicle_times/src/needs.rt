//! By which flow a need across buses is met, and how old what it brings is.
ghost use Rattle.std.specs.Prelude.{◌≡◌, Some};
ghost use Rattle.j39_search.specs.ListPlaces.{in_each};
ghost use Rattle.j39_vehicle_times.specs.FoundTimes.{flow_of_need, is_need_too_old, is_older, is_younger, joined};
ghost use Rattle.j39_vehicle_times.specs.FoundTimes.{need_flow_at};
ghost use Rattle.j39_vehicle_times.specs.FoundTimes.{need_flow_count, need_flows_at, younger_of, youngest};

use crate::ages::age;
use crate::bus_delays::Delays;
use crate::ends::is_within;
use crate::flows::us_of_ms;
use j39_network::FlowPlan;
use j39_vehicle::VehicleNeed;
use j39_vehicle_findings::{FlowAt, Point, Routes, flows_on};

/// A flow that brings a need's unit what it needs, by its place on the unit's bus, and how old that is where it is
/// received, in microseconds, at most, where this is known.
#[derive(Clone, Copy)]
pub struct NeedFlow {
    pub flow: usize,
    pub age: Option<u64>,
}

// The flow at a place of the need's bus.
fn need_flow_at(routes: &Routes<'_>, delays: &Delays, need: &VehicleNeed, flow: usize) -> NeedFlow
    ensures { result ≡ need_flow_at routes.now.vehicle.now delays.now need.now flow }
{
    let at = FlowAt {
        bus: need.unit.bus,
        flow,
    };
    let signal = need.signal;
    NeedFlow {
        flow,
        age: age(routes, delays, Point { at, signal }),
    }
}

// Whether the first age is known, and less than the second, if that is known.
fn is_younger(one: Option<u64>, other: Option<u64>) -> bool
    ensures { result ≡ is_younger one other }
{
    match (one, other) {
        (Some(one), Some(other)) => one < other,
        (Some(_), None) => true,
        (None, _) => false,
    }
}

// The second one where it is younger, else the first.
fn younger_of(one: NeedFlow, other: NeedFlow) -> NeedFlow
    ensures { result ≡ younger_of one other }
{
    if is_younger(other.age, one.age) {
        other
    } else {
        one
    }
}

// The best one of those before and of the next.
fn joined(best: Option<NeedFlow>, next: NeedFlow) -> NeedFlow
    ensures { Some result ≡ joined best (Some next) }
{
    match best {
        Some(best) => younger_of(best, next),
        None => next,
    }
}

// The best one of those before and of the flow at a place of the need's bus, if this is one of the need's.
fn joined_with(
    routes: &Routes<'_>,
    delays: &Delays,
    need: &VehicleNeed,
    best: Option<NeedFlow>,
    place: usize,
    flow: &FlowPlan,
) -> Option<NeedFlow>
    ensures { result
        ≡ joined best (youngest (need_flows_at routes.now.vehicle.now delays.now need.now place flow.now)) }
{
    if !routes.is_need_flow(need, place, flow) {
        return best;
    }
    let next = need_flow_at(routes, delays, need, place);
    Some(joined(best, next))
}

// The first youngest one of the need's among these, which are all flows of its bus.
fn youngest_of(
    routes: &Routes<'_>,
    delays: &Delays,
    need: &VehicleNeed,
    flows: &[FlowPlan],
) -> Option<NeedFlow>
    ensures { result ≡ youngest (in_each (need_flows_at routes.now.vehicle.now delays.now need.now) 0 flows.now) }
{
    let mut best = None;
    for (place, flow) in flows.iter().enumerate() {
        best = joined_with(routes, delays, need, best, place, flow);
    }
    best
}

/// Of the flows that bring the need's unit what it needs, from the unit that is named, the first one of the least age,
/// else the first. There is none where the need is unmet.
pub fn flow_of_need(routes: &Routes<'_>, delays: &Delays, need: &VehicleNeed) -> Option<NeedFlow>
    ensures { result ≡ flow_of_need routes.now.vehicle.now delays.now need.now }
{
    youngest_of(
        routes,
        delays,
        need,
        flows_on(&routes.vehicle.buses, need.unit.bus),
    )
}

/// How many flows bring the need's unit what it needs, from the unit that is named.
pub fn need_flow_count(routes: &Routes<'_>, need: &VehicleNeed) -> usize
    ensures { result ≡ need_flow_count routes.now.vehicle.now need.now }
{
    let flows = flows_on(&routes.vehicle.buses, need.unit.bus);
    let mut count = 0;
    for (place, flow) in flows.iter().enumerate() {
        if routes.is_need_flow(need, place, flow) {
            count += 1;
        }
    }
    count
}

// Whether flows bring it, and what none of them brings is shown to be at most so old.
fn is_older(routes: &Routes<'_>, delays: &Delays, need: &VehicleNeed, ms: u16) -> bool
    ensures { result ≡ is_older routes.now.vehicle.now delays.now need.now ms }
{
    match flow_of_need(routes, delays, need) {
        Some(stated) => !is_within(us_of_ms(ms), stated.age),
        None => false,
    }
}

/// Whether flows bring what is needed, and none of them what is shown to be as young as the need asks.
pub fn is_need_too_old(routes: &Routes<'_>, delays: &Delays, need: &VehicleNeed) -> bool
    ensures { result ≡ is_need_too_old routes.now.vehicle.now delays.now need.now }
{
    match need.within {
        Some(ms) => is_older(routes, delays, need, ms),
        None => false,
    }
}
