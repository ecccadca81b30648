//! What a forward hears, what it sends, and what it carries.
ghost use Rattle.std.specs.Prelude.{◌≡◌};
ghost use Rattle.std.specs.List.{list_any};
ghost use Rattle.j39_network.specs.Serving.{meets};
ghost use Rattle.j39_vehicle_findings.specs.ForwardEnds.{need_of_hearer, input_flows, listed, output_flows};
ghost use Rattle.j39_vehicle_findings.specs.ForwardEnds.{units_of_gateway};
ghost use Rattle.j39_vehicle_findings.specs.ForwardTests.{copies, feeds, goes_to_receiver, is_unit_among, is_direct};
ghost use Rattle.j39_vehicle_findings.specs.ForwardTests.{is_between_units, is_followed, is_input, is_output};
ghost use Rattle.j39_vehicle_findings.specs.ForwardTests.{write_one_signal};
ghost use Rattle.j39_vehicle_findings.specs.ForwardTests.{writes};
ghost use Rattle.j39_vehicle_findings.specs.Traces.{first_input};

use crate::buses::{flows_on, requests_on};
use crate::point::FlowAt;
use j39_network::{FlowPlan, NeedPlan, RequestPlan, To, meets};
use j39_vehicle::{Forward, ForwardedSignal, Mode, UnitAt, Vehicle};

fn units_of_gateway(vehicle: &Vehicle, gateway: usize) -> &[UnitAt]
    ensures { result.now ≡ units_of_gateway vehicle.now gateway }
{
    match vehicle.gateways.get(gateway) {
        Some(gateway) => gateway.units.as_slice(),
        None => &[],
    }
}

fn is_among(units: &[UnitAt], bus: usize, unit: usize) -> bool
    ensures { result ≡ is_unit_among units.now bus unit }
{
    units
        .iter()
        .any(|other| other.bus == bus && other.unit == unit)
}

// Whether the flow brings the gateway's unit what it has to hear for the forward.
fn is_heard(requests: &[RequestPlan], forward: &Forward, flow: &FlowPlan) -> bool
    ensures { result ≡ meets requests.now (need_of_hearer forward.now) flow.now }
{
    let need = NeedPlan {
        unit: forward.hearer,
        group: forward.input.group,
        signal: None,
        from: forward.from,
        within: None,
    };
    meets(requests, &need, flow)
}

/// The flows of the bus where the forward hears.
pub fn input_flows<'a>(vehicle: &'a Vehicle, forward: &Forward) -> &'a [FlowPlan]
    ensures { result.now ≡ input_flows vehicle.now forward.now }
{
    flows_on(&vehicle.buses, forward.input.bus)
}

/// The flows of the bus where the forward sends.
pub fn output_flows<'a>(vehicle: &'a Vehicle, forward: &Forward) -> &'a [FlowPlan]
    ensures { result.now ≡ output_flows vehicle.now forward.now }
{
    flows_on(&vehicle.buses, forward.output.bus)
}

/// Whether the flow, one of the bus where the forward hears, is an input of it: it brings the gateway's unit what that
/// has to hear, and no unit of the gateway sends it.
pub fn is_input(vehicle: &Vehicle, forward: &Forward, flow: &FlowPlan) -> bool
    ensures { result ≡ is_input vehicle.now forward.now flow.now }
{
    let requests = requests_on(&vehicle.buses, forward.input.bus);
    is_heard(requests, forward, flow)
        && !is_among(
            units_of_gateway(vehicle, forward.gateway),
            forward.input.bus,
            flow.sender,
        )
}

// Whether a flow to these is meant.
fn goes_to(receiver: Option<To>, to: To) -> bool
    ensures { result ≡ goes_to_receiver receiver to }
{
    match receiver {
        None => true,
        Some(receiver) => to == receiver,
    }
}

/// Whether the flow, one of the bus where the forward sends, is an output of it.
pub fn is_output(forward: &Forward, flow: &FlowPlan) -> bool
    ensures { result ≡ is_output forward.now flow.now }
{
    flow.group == forward.output.group
        && flow.sender == forward.sender
        && goes_to(forward.to, flow.to)
}

/// Whether the forward feeds this flow.
pub fn feeds(vehicle: &Vehicle, at: FlowAt, forward: &Forward) -> bool
    ensures { result ≡ feeds vehicle.now at forward.now }
{
    if forward.output.bus != at.bus {
        return false;
    }
    match output_flows(vehicle, forward).get(at.flow) {
        Some(flow) => is_output(forward, flow),
        None => false,
    }
}

/// The place of the first flow that is an input of the forward.
pub fn first_input(vehicle: &Vehicle, forward: &Forward) -> Option<usize>
    ensures { result ≡ first_input vehicle.now forward.now }
{
    input_flows(vehicle, forward)
        .iter()
        .position(|flow| is_input(vehicle, forward, flow))
}

/// Whether a message of the output has the bytes of one of the input.
pub fn copies(forward: &Forward) -> bool
    ensures { result ≡ copies forward.now }
{
    forward.signals.is_none()
}

/// The signals that go into others, one by one.
pub fn listed(forward: &Forward) -> &[ForwardedSignal]
    ensures { result.now ≡ listed forward.now }
{
    match &forward.signals {
        Some(signals) => signals.as_slice(),
        None => &[],
    }
}

/// Whether some signal goes into that one of the output.
pub fn writes(forward: &Forward, signal: usize) -> bool
    ensures { result ≡ writes forward.now signal }
{
    listed(forward)
        .iter()
        .any(|listed| listed.written == signal)
}

/// Whether both write one signal.
pub fn write_one_signal(one: &Forward, other: &Forward) -> bool
    ensures { result ≡ write_one_signal one.now other.now }
{
    listed(one)
        .iter()
        .any(|listed| writes(other, listed.written))
}

/// Whether each message is sent on when it has been heard.
pub fn is_direct(forward: &Forward) -> bool
    ensures { result ≡ is_direct forward.now }
{
    match forward.mode {
        Mode::Direct => true,
        Mode::Periodic => false,
    }
}

// Whether the flow is an output of the one and an input of the other.
fn is_between(vehicle: &Vehicle, one: &Forward, other: &Forward, flow: &FlowPlan) -> bool
    ensures { result ≡ is_between_units vehicle.now one.now other.now flow.now }
{
    is_output(one, flow) && is_input(vehicle, other, flow)
}

// Whether some flow of the one's outputs is.
fn some_is_between(vehicle: &Vehicle, one: &Forward, other: &Forward) -> bool
    ensures { result ≡ list_any (is_between_units vehicle.now one.now other.now) (output_flows vehicle.now one.now) }
{
    output_flows(vehicle, one)
        .iter()
        .any(|flow| is_between(vehicle, one, other, flow))
}

/// Whether an output of the one is an input of the other.
pub fn is_followed(vehicle: &Vehicle, one: &Forward, other: &Forward) -> bool
    ensures { result ≡ is_followed vehicle.now one.now other.now }
{
    one.output.bus == other.input.bus
        && one.output.group == other.input.group
        && some_is_between(vehicle, one, other)
}
