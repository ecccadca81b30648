//! One step of where what a flow brings comes from.
ghost use Rattle.std.specs.Prelude.{◌≡◌, ◌==◌};
ghost use Rattle.std.specs.List.{position};
ghost use Rattle.std.specs.Option.{option_copied};
ghost use Rattle.j39_vehicle_findings.specs.ForwardEnds.{listed};
ghost use Rattle.j39_vehicle_findings.specs.Traces as spec;
ghost use Rattle.j39_vehicle_findings.specs.Traces.{agreeing_in, behind_forward, carries, copied_into, first_agreeing};
ghost use Rattle.j39_vehicle_findings.specs.Traces.{goes_into};
ghost use Rattle.j39_vehicle_findings.specs.Traces.{is_sent_by, put_into};

use crate::buses::{flows_on, group_at};
use crate::forwards::{copies, listed, writes};
use crate::matching::agree;
use crate::point::{FlowAt, Point};
use j39_network::GroupPlan;
use j39_signal::Signal;
use j39_vehicle::{Forward, UnitAt, Vehicle};

/// Whether the forward copies, or writes the signal.
pub fn carries(signal: Option<usize>, forward: &Forward) -> bool
    ensures { result ≡ carries signal forward.now }
{
    match signal {
        None => copies(forward),
        Some(signal) => copies(forward) || writes(forward, signal),
    }
}

/// The first signal of the group that agrees with this one.
pub fn first_agreeing(group: &GroupPlan, signal: &Signal) -> Option<usize>
    ensures { result ≡ first_agreeing group.now signal.now }
{
    group.signals.iter().position(|other| agree(other, signal))
}

fn agreeing_in(group: &GroupPlan, signal: Option<&Signal>) -> Option<usize>
    ensures { result ≡ agreeing_in group.now (option_copied signal.entry) }
{
    match signal {
        Some(signal) => first_agreeing(group, signal),
        None => None,
    }
}

// Of a forward that copies, what goes into a signal of the group that it sends.
fn copied_into(vehicle: &Vehicle, forward: &Forward, signal: usize) -> Option<usize>
    ensures { result ≡ copied_into vehicle.now forward.now signal }
{
    let Some(heard) = group_at(&vehicle.buses, forward.input) else {
        return None;
    };
    match group_at(&vehicle.buses, forward.output) {
        Some(sent) => agreeing_in(heard, sent.signals.get(signal)),
        None => None,
    }
}

// The first place at which a signal goes into this one.
fn place_listed(forward: &Forward, signal: usize) -> Option<usize>
    ensures { result ≡ position (λ s. s.written == signal) (listed forward.now) }
{
    listed(forward)
        .iter()
        .position(|listed| listed.written == signal)
}

// Of one that lists signals, what goes into it.
fn put_into(forward: &Forward, signal: usize) -> Option<usize>
    ensures { result ≡ put_into forward.now signal }
{
    let Some(place) = place_listed(forward, signal) else {
        return None;
    };
    match listed(forward).get(place) {
        Some(listed) => Some(listed.read),
        None => None,
    }
}

/// What goes into a signal of the group that the forward sends.
pub fn goes_into(vehicle: &Vehicle, forward: &Forward, signal: usize) -> Option<usize>
    ensures { result ≡ goes_into vehicle.now forward.now signal }
{
    if copies(forward) {
        copied_into(vehicle, forward, signal)
    } else {
        put_into(forward, signal)
    }
}

/// Where the trace goes on behind the forward: with its first input, and with what goes into the signal.
pub fn behind_forward(
    vehicle: &Vehicle,
    signal: Option<usize>,
    forward: &Forward,
    input: Option<usize>,
) -> Option<Point>
    requires { input ≡ spec.first_input vehicle.now forward.now }
    ensures { result ≡ behind_forward vehicle.now signal forward.now }
{
    let Some(flow) = input else {
        return None;
    };
    let at = FlowAt {
        bus: forward.input.bus,
        flow,
    };
    match signal {
        None => Some(Point { at, signal: None }),
        Some(signal) => match goes_into(vehicle, forward, signal) {
            Some(signal) => Some(Point {
                at,
                signal: Some(signal),
            }),
            None => None,
        },
    }
}

/// Whether the flow at this point is sent by the unit.
pub fn is_sent_by(vehicle: &Vehicle, unit: UnitAt, point: Point) -> bool
    ensures { result ≡ is_sent_by vehicle.now unit point }
{
    if point.at.bus != unit.bus {
        return false;
    }
    match flows_on(&vehicle.buses, point.at.bus).get(point.at.flow) {
        Some(flow) => flow.sender == unit.unit,
        None => false,
    }
}
