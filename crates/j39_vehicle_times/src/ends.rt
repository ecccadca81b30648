//! What is asked of a direct forward, between its first input and its first output.
ghost use Rattle.std.specs.Prelude.{◌≡◌};
ghost use Rattle.std.specs.List.{position};
ghost use Rattle.std.specs.Option.{option_copied};
ghost use Rattle.j39_vehicle_findings.specs.Buses.{groups_on};
ghost use Rattle.j39_vehicle_findings.specs.ForwardTests.{is_output};
ghost use Rattle.j39_vehicle_findings.specs.ForwardEnds.{output_flows};
ghost use Rattle.j39_vehicle_times.specs.TimeFindings.{first_output, period_ms};
ghost use Rattle.j39_vehicle_times.specs.FoundTimes.{direct_ends, ends_of, has_deadline, has_such_a_period, is_asked};
ghost use Rattle.j39_vehicle_times.specs.FoundTimes.{is_late_asked, is_late_asked_of, is_later, is_long, is_more_often};
ghost use Rattle.j39_vehicle_times.specs.FoundTimes.{comes_too_often, is_nearer, is_rarer, may_be_more, is_timed_bus};
ghost use Rattle.j39_vehicle_times.specs.FoundTimes.{goes_to_all, is_too_late, is_too_often};
ghost use Rattle.j39_vehicle_times.specs.FoundTimes.{is_too_rare, is_unlimited, is_known_within};

use crate::bus_delays::Delays;
use crate::chains::{interval, queued_of};
use crate::clocks::{longest_on, shortest_on};
use crate::flows::{askers_on, flow_at, input_at, latest_of, timing_on, us_of_ms};
use j39_network::{FlowPlan, To};
use j39_vehicle::{Forward, GroupAt, Vehicle};
use j39_vehicle_findings::{FlowAt, Routes, group_at, is_direct, is_output, output_flows};

/// Whether a number is known, and at most so large.
pub fn is_within(most: u64, number: Option<u64>) -> bool
    ensures { result ≡ is_known_within most number }
{
    match number {
        Some(number) => number <= most,
        None => false,
    }
}

fn output_place(vehicle: &Vehicle, forward: &Forward) -> Option<usize>
    ensures { result ≡ position (is_output forward.now) (output_flows vehicle.now forward.now) }
{
    output_flows(vehicle, forward)
        .iter()
        .position(|flow| is_output(forward, flow))
}

/// The first of the flows that the forward feeds.
pub fn first_output<'a>(vehicle: &'a Vehicle, forward: &Forward) -> Option<&'a FlowPlan>
    ensures { option_copied result ≡ first_output vehicle.now forward.now }
{
    match output_place(vehicle, forward) {
        Some(place) => output_flows(vehicle, forward).get(place),
        None => None,
    }
}

fn is_timed_bus(vehicle: &Vehicle, bus: usize) -> bool
    ensures { result ≡ is_timed_bus vehicle.now bus }
{
    timing_on(&vehicle.buses, bus).is_some()
}

/// Where a direct forward begins and ends: the place of its first input, and the plans of this and of its first output.
#[derive(Clone, Copy)]
pub struct Ends {
    pub at: FlowAt,
    pub input: FlowPlan,
    pub output: FlowPlan,
}

fn ends_of(vehicle: &Vehicle, forward: &Forward) -> Option<Ends>
    ensures { result ≡ ends_of vehicle.now forward.now }
{
    let Some(at) = input_at(vehicle, forward) else {
        return None;
    };
    let Some(input) = flow_at(&vehicle.buses, at) else {
        return None;
    };
    match first_output(vehicle, forward) {
        Some(output) => Some(Ends {
            at,
            input: *input,
            output: *output,
        }),
        None => None,
    }
}

// Those of a direct forward, where something is known of the bus where it sends.
fn direct_ends(vehicle: &Vehicle, forward: &Forward) -> Option<Ends>
    ensures { result ≡ direct_ends vehicle.now forward.now }
{
    if is_direct(forward) && is_timed_bus(vehicle, forward.output.bus) {
        ends_of(vehicle, forward)
    } else {
        None
    }
}

fn period_of(flow: &FlowPlan) -> Option<u16>
    ensures { result ≡ period_ms flow.now }
{
    match flow.pace {
        Some(pace) => Some(pace.period),
        None => None,
    }
}

// Whether the input's messages are so far apart in true time, where a million of the units of its clock last so long.
fn has_such_a_period(here: u32, input: &FlowPlan, apart: u64) -> bool
    ensures { result ≡ has_such_a_period here input.now apart }
{
    match period_of(input) {
        Some(own) => apart <= u64::from(own) * u64::from(here),
        None => false,
    }
}

// Whether the output has a period, and the input's messages may be nearer to each other.
fn is_nearer(here: u32, input: &FlowPlan, there: u32, output: &FlowPlan) -> bool
    ensures { result ≡ is_nearer here input.now there output.now }
{
    match period_of(output) {
        Some(period) => !has_such_a_period(here, input, u64::from(period) * u64::from(there)),
        None => false,
    }
}

// Whether the output has a period, and more answers of the input may come at once than are counted of it, where so many
// ask for either.
fn may_be_more(here: u16, there: u16, output: &FlowPlan) -> bool
    ensures { result ≡ may_be_more here there output.now }
{
    match period_of(output) {
        Some(_period) => there.max(1) < here,
        None => false,
    }
}

// Whether messages of the input on one bus may come more often, or more of them at once, than those of the output on
// another one may be sent.
fn comes_too_often(vehicle: &Vehicle, ends: &Ends, there: usize) -> bool
    ensures { result ≡ comes_too_often vehicle.now.buses.items ends.now.at.bus there ends.now.input ends.now.output }
{
    let buses = &vehicle.buses;
    let asking = askers_on(buses, ends.at.bus, &ends.input);
    let counted = askers_on(buses, there, &ends.output);
    let here = shortest_on(buses, ends.at.bus);
    let shortest = shortest_on(buses, there);
    is_more_often(here, &ends.input, shortest, &ends.output)
        || may_be_more(asking, counted, &ends.output)
}

// Whether the input's messages may come more often than those of the output may be sent.
fn is_more_often(here: u32, input: &FlowPlan, there: u32, output: &FlowPlan) -> bool
    ensures { result ≡ is_more_often here input.now there output.now }
{
    is_nearer(here, input, there, output) || output.on_request && !input.on_request
}

/// Whether what the forward hears may come more often than its output may be sent.
pub fn is_too_often(vehicle: &Vehicle, forward: &Forward) -> bool
    ensures { result ≡ is_too_often vehicle.now forward.now }
{
    let Some(ends) = direct_ends(vehicle, forward) else {
        return false;
    };
    comes_too_often(vehicle, &ends, forward.output.bus)
}

fn has_deadline(flow: &FlowPlan) -> bool
    ensures { result ≡ has_deadline flow.now }
{
    match flow.pace {
        Some(pace) => pace.deadline.is_some(),
        None => false,
    }
}

// Whether each message of the group is longer than a frame.
fn is_long(vehicle: &Vehicle, place: GroupAt) -> bool
    ensures { result ≡ is_long (groups_on vehicle.now.buses.items place.bus) place.group }
{
    match group_at(&vehicle.buses, place) {
        Some(group) => 8 < group.length,
        None => false,
    }
}

fn is_to_all(to: To) -> bool
    ensures { result ≡ goes_to_all to }
{
    match to {
        To::All => true,
        To::One(_) => false,
    }
}

// Whether the flow, one of the bus where the forward sends, is a broadcast without a written deadline all of whose
// messages go in packets.
fn is_unlimited(vehicle: &Vehicle, forward: &Forward, output: &FlowPlan) -> bool
    ensures { result ≡ is_unlimited vehicle.now forward.now output.now }
{
    if !is_to_all(output.to) || has_deadline(output) {
        return false;
    }
    let bus = forward.output.bus;
    let group = output.group;
    is_long(vehicle, GroupAt { bus, group })
}

// Whether it is asked that its messages are queued within its jitter.
fn is_asked(vehicle: &Vehicle, forward: &Forward, output: &FlowPlan) -> bool
    ensures { result ≡ is_asked vehicle.now forward.now output.now }
{
    !is_unlimited(vehicle, forward, output)
}

fn is_late_asked_of(vehicle: &Vehicle, forward: &Forward) -> bool
    ensures { result ≡ is_late_asked_of vehicle.now forward.now }
{
    match direct_ends(vehicle, forward) {
        Some(ends) => is_asked(vehicle, forward, &ends.output),
        None => false,
    }
}

/// Whether it is asked that the forward at a place queues each message within the jitter of its output.
pub fn is_late_asked(vehicle: &Vehicle, forward: usize) -> bool
    ensures { result ≡ is_late_asked vehicle.now forward }
{
    match vehicle.forwards.get(forward) {
        Some(forward) => is_late_asked_of(vehicle, forward),
        None => false,
    }
}

fn is_later(routes: &Routes<'_>, delays: &Delays, forward: &Forward, output: &FlowPlan) -> bool
    ensures { result ≡ is_later routes.now.vehicle.now delays.now forward.now output.now }
{
    let askers = askers_on(&routes.vehicle.buses, forward.output.bus, output);
    let latest = us_of_ms(latest_of(askers, output));
    is_asked(routes.vehicle, forward, output)
        && !is_within(latest, queued_of(routes, delays, forward))
}

/// Whether it is, and isn't shown that it does.
pub fn is_too_late(routes: &Routes<'_>, delays: &Delays, forward: &Forward) -> bool
    ensures { result ≡ is_too_late routes.now.vehicle.now delays.now forward.now }
{
    match direct_ends(routes.vehicle, forward) {
        Some(ends) => is_later(routes, delays, forward, &ends.output),
        None => false,
    }
}

// Whether messages of the input may stay away for longer than those of the output.
fn is_rarer(routes: &Routes<'_>, at: FlowAt, there: u32, output: &FlowPlan) -> bool
    ensures { result ≡ is_rarer routes.now.vehicle.now at there output.now }
{
    match output.pause {
        Some(ms) => !is_within(u64::from(ms) * u64::from(there), interval(routes, at)),
        None => false,
    }
}

/// Whether what the forward hears may stay away for longer than its output may.
pub fn is_too_rare(routes: &Routes<'_>, forward: &Forward) -> bool
    ensures { result ≡ is_too_rare routes.now.vehicle.now forward.now }
{
    let Some(ends) = direct_ends(routes.vehicle, forward) else {
        return false;
    };
    let there = longest_on(&routes.vehicle.buses, forward.output.bus);
    is_rarer(routes, ends.at, there, &ends.output)
}
