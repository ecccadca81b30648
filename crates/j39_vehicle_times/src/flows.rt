//! What is known of a flow and of a forward by itself, in microseconds.
ghost use Rattle.std.specs.Prelude.{◌≡◌, ◌≤◌, ◌<◌, ◌*◌, ◌^◌, IfSome};
ghost use Rattle.std.specs.List.{find};
ghost use Rattle.std.specs.Option.{option_copied};
ghost use Rattle.j39_vehicle_times.specs.Times.{askers_on, flow_at, first_input_at, jitter_ms, latest_ms, own, own_of};
ghost use Rattle.j39_vehicle_times.specs.Times.{pause_ns, pause_on, timed};
ghost use Rattle.j39_vehicle_times.specs.Times.{timing_on, us_of_ms, within_of};
ghost use Rattle.j39_vehicle_times.specs.inside.Chains.{direct_place, input_by, is_direct_at};

use crate::bus_delays::{Delays, delay_at};
use crate::clocks::{bits_at_most, longest_million};
use j39_load::{answered_within, askers_of, timing_of, us_of_bits};
use j39_network::{FlowPlan, Timing};
use j39_vehicle::{BusPlan, Forward, Vehicle};
use j39_vehicle_findings::{FlowAt, Routes, first_input, flows_on, is_direct};

/// How many microseconds so many milliseconds are.
pub fn us_of_ms(ms: u16) -> u64
    ensures value { result ≡ us_of_ms ms }
    ensures few { result < 2 ^ 26 }
{
    1_000 * u64::from(ms)
}

/// How many milliseconds behind its release a message of the flow is queued at most.
pub fn jitter_of(flow: &FlowPlan) -> u16
    ensures { result ≡ jitter_ms flow.now }
{
    match flow.pace {
        Some(pace) => pace.jitter,
        None => 0,
    }
}

/// How many requests that have a period ask for a flow of the bus at a place that comes only as an answer.
pub fn askers_on(buses: &[BusPlan], bus: usize, flow: &FlowPlan) -> u16
    ensures { result ≡ askers_on buses.now bus flow.now }
{
    match buses.get(bus) {
        Some(bus) => askers_of(bus.plan.requests.as_slice(), flow),
        None => 0,
    }
}

/// Within how many milliseconds of its moment a message is queued, where so many ask for its flow.
pub fn latest_of(askers: u16, flow: &FlowPlan) -> u16
    ensures { result ≡ latest_ms askers flow.now }
{
    if askers == 0 {
        return jitter_of(flow);
    }
    match flow.pace {
        Some(pace) => answered_within(pace),
        None => 0,
    }
}

/// In how many nanoseconds a message of the flow has its release, on a bus with this timing.
#[tactic(auto, using(crate::proofs::Nanoseconds::few_ns))]
fn pause_ns(timing: Timing, flow: &FlowPlan) -> Option<u64>
    ensures value { result ≡ pause_ns timing flow.now }
    ensures few { IfSome result (λ pause. pause < 2 ^ 36) }
{
    match flow.pause {
        Some(ms) => Some(u64::from(ms) * u64::from(longest_million(timing))),
        None => None,
    }
}

/// In how many nanoseconds a message of the flow at a place has its release, on its bus.
pub fn pause_on(vehicle: &Vehicle, at: FlowAt, flow: &FlowPlan) -> Option<u64>
    ensures value { result ≡ pause_on vehicle.now at flow.now }
    ensures few { IfSome result (λ pause. pause < 2 ^ 36) }
{
    match timing_on(&vehicle.buses, at.bus) {
        Some(timing) => pause_ns(timing, flow),
        None => None,
    }
}

/// What is known of the bus at a place.
pub fn timing_on(buses: &[BusPlan], bus: usize) -> Option<Timing>
    ensures { result ≡ timing_on buses.now bus }
{
    match buses.get(bus) {
        Some(bus) => timing_of(&bus.plan),
        None => None,
    }
}

/// The flow at a place of a bus.
pub fn flow_at(buses: &[BusPlan], at: FlowAt) -> Option<&FlowPlan>
    ensures { option_copied result ≡ flow_at buses.now at }
{
    flows_on(buses, at.bus).get(at.flow)
}

// How long a frame of the flow takes that was queued, where it has this delay in bits.
fn own_of(timing: Timing, flow: &FlowPlan, delay: u32) -> u64
    ensures value { result ≡ own_of timing flow.now delay }
    ensures few { result ≤ 9 * 2 ^ 32 }
{
    let jitter = bits_at_most(timing, jitter_of(flow));
    us_of_bits(timing, u64::from(delay).saturating_sub(jitter)) as u64
}

/// How long a frame of the flow takes that was queued.
pub fn own(vehicle: &Vehicle, delays: &Delays, at: FlowAt) -> Option<u64>
    ensures value { result ≡ own vehicle.now delays.now at }
    ensures few { IfSome result (λ own. own ≤ 9 * 2 ^ 32) }
{
    let Some(timing) = timing_on(&vehicle.buses, at.bus) else {
        return None;
    };
    let Some(flow) = flow_at(&vehicle.buses, at) else {
        return None;
    };
    match delay_at(delays, at) {
        Some(delay) => Some(own_of(timing, flow, delay)),
        None => None,
    }
}

// Whether the forward at a place is direct.
fn is_direct_at(vehicle: &Vehicle, place: usize) -> bool
    ensures { result ≡ is_direct_at vehicle.now place }
{
    match vehicle.forwards.get(place) {
        Some(forward) => is_direct(forward),
        None => false,
    }
}

// The first direct one of these forwards.
fn first_direct(vehicle: &Vehicle, places: &[usize]) -> Option<usize>
    ensures { result ≡ find (is_direct_at vehicle.now) places.now }
{
    places
        .iter()
        .copied()
        .find(|place| is_direct_at(vehicle, *place))
}

/// The place of the first direct forward that feeds the flow.
pub fn direct_place(routes: &Routes<'_>, at: FlowAt) -> Option<usize>
    ensures { result ≡ direct_place routes.now.vehicle.now at }
{
    first_direct(routes.vehicle, routes.tables.feeders(at))
}

/// The first input of the forward.
pub fn input_at(vehicle: &Vehicle, forward: &Forward) -> Option<FlowAt>
    ensures { result ≡ first_input_at vehicle.now forward.now }
{
    match first_input(vehicle, forward) {
        Some(flow) => Some(FlowAt {
            bus: forward.input.bus,
            flow,
        }),
        None => None,
    }
}

/// The flow that the forward at a place hears, by the tables of routes.
pub fn input_by(routes: &Routes<'_>, forward: usize) -> Option<FlowAt>
    ensures { result ≡ input_by routes.now.vehicle.now forward }
{
    let Some(hears) = routes.vehicle.forwards.get(forward) else {
        return None;
    };
    match routes.tables.input(forward) {
        Some(flow) => Some(FlowAt {
            bus: hears.input.bus,
            flow,
        }),
        None => None,
    }
}

/// In how many microseconds behind the end of what was heard at most the forward has queued it, or can send it.
pub fn within_of(forward: &Forward) -> Option<u64>
    ensures value { result ≡ within_of forward.now }
    ensures few { IfSome result (λ within. within < 2 ^ 26) }
{
    match forward.within {
        Some(ms) => Some(us_of_ms(ms)),
        None => None,
    }
}
