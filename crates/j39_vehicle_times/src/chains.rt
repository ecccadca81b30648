//! How long what comes along direct forwards takes, and how often it comes.
ghost use Rattle.std.specs.Prelude.{◌≡◌, ◌<◌, ◌≤◌, ◌^◌, Some, IfSome};
ghost use Rattle.j39_vehicle_times.specs.Times.{behind_at, behind_by, behind_of, behind_release, own, queued};
ghost use Rattle.j39_vehicle_times.specs.Times.{queued_of, interval};
ghost use Rattle.j39_vehicle_times.specs.Times.{interval_by, interval_us, sum_known, unasked_at, within_of};
ghost use Rattle.j39_vehicle_times.specs.inside.Chains.{hop_by};

use crate::bus_delays::{Delays, delay_at};
use crate::clocks::bits_at_most;
use crate::flows::{
    askers_on, direct_place, flow_at, input_at, input_by, jitter_of, latest_of, own, pause_on,
    timing_on, within_of,
};
use j39_load::us_of_bits;
use j39_network::{FlowPlan, Timing};
use j39_vehicle::{Forward, Vehicle};
use j39_vehicle_findings::{FlowAt, Routes};

// How long behind its moment it has ended, where its delay has so many bits: an answer's moment lies before its
// release.
fn behind_of(timing: Timing, askers: u16, flow: &FlowPlan, delay: u32) -> u64
    ensures value { result ≡ behind_of timing askers flow.now delay }
    ensures few { result < 2 ^ 36 }
{
    let latest = bits_at_most(timing, latest_of(askers, flow));
    let jitter = bits_at_most(timing, jitter_of(flow));
    let earlier = latest.saturating_sub(jitter);
    us_of_bits(timing, u64::from(delay) + earlier) as u64
}

// How long a message of the flow takes from its moment until it has ended, if no direct forward feeds it.
fn behind_release(vehicle: &Vehicle, delays: &Delays, at: FlowAt) -> Option<u64>
    ensures value { result ≡ behind_release vehicle.now delays.now at }
    ensures few { IfSome result (λ behind_at. behind_at < 2 ^ 36) }
{
    let Some(timing) = timing_on(&vehicle.buses, at.bus) else {
        return None;
    };
    let Some(flow) = flow_at(&vehicle.buses, at) else {
        return None;
    };
    let askers = askers_on(&vehicle.buses, at.bus, flow);
    match delay_at(delays, at) {
        Some(delay) => Some(behind_of(timing, askers, flow, delay)),
        None => None,
    }
}

// How long the forward takes, and what it sends until that has ended.
fn hop(vehicle: &Vehicle, delays: &Delays, forward: &Forward, at: FlowAt) -> Option<u64>
    ensures value { result ≡ sum_known (within_of forward.now) (own vehicle.now delays.now at) }
    ensures few { IfSome result (λ hop. hop < 2 ^ 36) }
{
    let Some(within) = within_of(forward) else {
        return None;
    };
    match own(vehicle, delays, at) {
        Some(own) => Some(within + own),
        None => None,
    }
}

// How long the forward at a place takes, and what it sends until that has ended.
fn hop_by(vehicle: &Vehicle, delays: &Delays, forward: usize, at: FlowAt) -> Option<u64>
    ensures value { result ≡ hop_by vehicle.now delays.now forward at }
    ensures few { IfSome result (λ hop. hop < 2 ^ 36) }
{
    match vehicle.forwards.get(forward) {
        Some(forward) => hop(vehicle, delays, forward, at),
        None => None,
    }
}

// How long it takes in all, where direct forwards took so long up to the flow, and none feeds this.
fn first_behind(vehicle: &Vehicle, delays: &Delays, hops: u64, at: FlowAt) -> Option<u64>
    requires { hops ≤ 2 ^ 45 }
    ensures value { result ≡ sum_known (Some hops) (behind_release vehicle.now delays.now at) }
    ensures few { IfSome result (λ behind_at. behind_at < 2 ^ 46) }
{
    match behind_release(vehicle, delays, at) {
        Some(behind) => Some(hops + behind),
        None => None,
    }
}

// The same, where no more direct forwards are followed.
fn last_behind(routes: &Routes<'_>, delays: &Delays, hops: u64, at: FlowAt) -> Option<u64>
    requires { hops ≤ 2 ^ 45 }
    ensures value { result ≡ sum_known (Some hops) (behind_by routes.now.vehicle.now delays.now 0 at) }
    ensures few { IfSome result (λ behind_at. behind_at < 2 ^ 46) }
{
    match direct_place(routes, at) {
        None => first_behind(routes.vehicle, delays, hops, at),
        Some(_forward) => None,
    }
}

/// How long a message of the flow takes until it has ended: from its release, which is that of the first one where
/// direct forwards sent it on.
pub fn behind(routes: &Routes<'_>, delays: &Delays, start: FlowAt) -> Option<u64>
    ensures value { result ≡ behind_at routes.now.vehicle.now delays.now start }
    ensures few { IfSome result (λ behind_at. behind_at < 2 ^ 46) }
{
    let mut at = start;
    let mut hops = 0;
    'chain: for _step in 0..routes.vehicle.forwards.len() {
        let Some(forward) = direct_place(routes, at) else {
            return first_behind(routes.vehicle, delays, hops, at);
        };
        let Some(hop) = hop_by(routes.vehicle, delays, forward, at) else {
            return None;
        };
        let Some(source) = input_by(routes, forward) else {
            return None;
        };
        hops += hop;
        at = source;
    }
    last_behind(routes, delays, hops, at)
}

/// In how many microseconds behind the release of the message that it sends the forward has queued it, if it is direct.
pub fn queued_of(routes: &Routes<'_>, delays: &Delays, forward: &Forward) -> Option<u64>
    ensures { result ≡ queued_of routes.now.vehicle.now delays.now forward.now }
{
    let Some(source) = input_at(routes.vehicle, forward) else {
        return None;
    };
    let Some(behind) = behind(routes, delays, source) else {
        return None;
    };
    match within_of(forward) {
        Some(within) => Some(behind + within),
        None => None,
    }
}

/// The same of the forward at a place: none where it isn't known.
pub fn queued(routes: &Routes<'_>, delays: &Delays, forward: usize) -> Option<u64>
    ensures { result ≡ queued routes.now.vehicle.now delays.now forward }
{
    match routes.vehicle.forwards.get(forward) {
        Some(forward) => queued_of(routes, delays, forward),
        None => None,
    }
}

// The flow, where something is known of its bus, and it isn't sent only where it is asked for.
fn unasked_at(vehicle: &Vehicle, at: FlowAt) -> Option<FlowPlan>
    ensures { result ≡ unasked_at vehicle.now at }
{
    let Some(_timing) = timing_on(&vehicle.buses, at.bus) else {
        return None;
    };
    match flow_at(&vehicle.buses, at) {
        Some(flow) if !flow.on_request => Some(*flow),
        _ => None,
    }
}

// In how many nanoseconds a message of the flow has its release, where no more direct forwards are followed.
fn last_interval(routes: &Routes<'_>, at: FlowAt) -> Option<u64>
    ensures value { result ≡ interval_by routes.now.vehicle.now 0 at }
    ensures few { IfSome result (λ interval. interval < 2 ^ 36) }
{
    let Some(flow) = unasked_at(routes.vehicle, at) else {
        return None;
    };
    match direct_place(routes, at) {
        None => pause_on(routes.vehicle, at, &flow),
        Some(_forward) => None,
    }
}

/// In how many nanoseconds a message of the flow has its release, however they lie.
pub fn interval(routes: &Routes<'_>, start: FlowAt) -> Option<u64>
    ensures value { result ≡ interval routes.now.vehicle.now start }
    ensures few { IfSome result (λ interval. interval < 2 ^ 36) }
{
    let mut at = start;
    'chain: for _step in 0..routes.vehicle.forwards.len() {
        let Some(flow) = unasked_at(routes.vehicle, at) else {
            return None;
        };
        let Some(forward) = direct_place(routes, at) else {
            return pause_on(routes.vehicle, at, &flow);
        };
        let Some(heard) = input_by(routes, forward) else {
            return None;
        };
        at = heard;
    }
    last_interval(routes, at)
}

/// In how many microseconds.
pub fn interval_us(routes: &Routes<'_>, at: FlowAt) -> Option<u64>
    ensures value { result ≡ interval_us routes.now.vehicle.now at }
    ensures few { IfSome result (λ interval. interval ≤ 2 ^ 36) }
{
    match interval(routes, at) {
        Some(ns) => Some(ns.div_ceil(1_000)),
        None => None,
    }
}
