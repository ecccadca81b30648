//! How old the values are that flows bring.
ghost use Rattle.std.specs.Prelude.{◌≡◌, ◌<◌, ◌^◌, Some, IfSome};
ghost use Rattle.j39_vehicle_times.specs.Times.{age, behind_at, old, interval_us, sum_known};
ghost use Rattle.j39_vehicle_times.specs.inside.Aging.{aged_by, aged_of, ends_here};

use crate::bus_delays::Delays;
use crate::chains::{behind, interval_us};
use crate::flows::{timing_on, within_of};
use j39_vehicle::Forward;
use j39_vehicle_findings::{FlowAt, Point, Routes, is_direct};

// How much older a value becomes than at the release of the message that brings it, until the next one has ended.
fn grown(routes: &Routes<'_>, delays: &Delays, at: FlowAt) -> Option<u64>
    ensures value { result
        ≡ sum_known (interval_us routes.now.vehicle.now at) (behind_at routes.now.vehicle.now delays.now at) }
    ensures few { IfSome result (λ grown. grown < 2 ^ 47) }
{
    let Some(interval) = interval_us(routes, at) else {
        return None;
    };
    match behind(routes, delays, at) {
        Some(behind) => Some(interval + behind),
        None => None,
    }
}

// How much older it becomes until what the forward sends has its release: that of the message which a direct one sends
// on is the same.
fn aged(routes: &Routes<'_>, delays: &Delays, forward: &Forward, heard: FlowAt) -> Option<u64>
    ensures value { result ≡ aged_of routes.now.vehicle.now delays.now heard forward.now }
    ensures few { IfSome result (λ aged. aged < 2 ^ 48) }
{
    if is_direct(forward) {
        return Some(0);
    }
    let Some(grown) = grown(routes, delays, heard) else {
        return None;
    };
    match within_of(forward) {
        Some(within) => Some(grown + within),
        None => None,
    }
}

// How much older data becomes until what the forward at a place sends has its release.
fn aged_by(routes: &Routes<'_>, delays: &Delays, forward: usize, heard: FlowAt) -> Option<u64>
    ensures value { result ≡ aged_by routes.now.vehicle.now delays.now forward heard }
    ensures few { IfSome result (λ aged. aged < 2 ^ 48) }
{
    match routes.vehicle.forwards.get(forward) {
        Some(forward) => aged(routes, delays, forward, heard),
        None => None,
    }
}

// Whether the trace ends at the point, on a bus of which something is known.
fn ends_here(routes: &Routes<'_>, point: Point) -> bool
    ensures { result ≡ ends_here routes.now.vehicle.now point }
{
    let Some(_timing) = timing_on(&routes.vehicle.buses, point.at.bus) else {
        return false;
    };
    routes.next_forward(point).is_none()
}

/// How old a value is, in microseconds, at the release of the message that brings it.
pub fn old(routes: &Routes<'_>, delays: &Delays, start: Point) -> Option<u64>
    ensures value { result ≡ old routes.now.vehicle.now delays.now start }
    ensures few { IfSome result (λ old. old < 2 ^ 58) }
{
    let mut point = start;
    let mut sum = 0;
    'trace: for _step in 0..routes.vehicle.forwards.len() {
        let Some(_timing) = timing_on(&routes.vehicle.buses, point.at.bus) else {
            return None;
        };
        let Some(forward) = routes.next_forward(point) else {
            return Some(sum);
        };
        let Some(before) = routes.goes_on(point, forward) else {
            return None;
        };
        let Some(aged) = aged_by(routes, delays, forward, before.at) else {
            return None;
        };
        sum += aged;
        point = before;
    }
    if ends_here(routes, point) {
        Some(sum)
    } else {
        None
    }
}

/// How old a value is where it is received, in microseconds, at most: none where this isn't known.
pub fn age(routes: &Routes<'_>, delays: &Delays, point: Point) -> Option<u64>
    ensures { result ≡ age routes.now.vehicle.now delays.now point }
{
    let Some(old) = old(routes, delays, point) else {
        return None;
    };
    match grown(routes, delays, point.at) {
        Some(grown) => Some(old + grown),
        None => None,
    }
}
