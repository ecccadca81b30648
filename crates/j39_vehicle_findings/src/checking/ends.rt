//! Which forwards have no input or output, or several.
ghost use Rattle.std.specs.Prelude.{◌≡◌, nat_lt, count_by};
ghost use Rattle.std.specs.List.{list_any};
ghost use Rattle.j39_search.specs.Adding.{Adds};
ghost use Rattle.j39_vehicle_findings.specs.ForwardTests.{is_input, is_output};
ghost use Rattle.j39_vehicle_findings.specs.ForwardEnds.{input_flows, output_flows};
ghost use Rattle.j39_vehicle_findings.specs.FoundPaths.{end_findings, has_many_inputs, has_many_outputs, has_no_input};
ghost use Rattle.j39_vehicle_findings.specs.FoundPaths.{has_no_output};

use crate::checking::forward_faults::{ForwardFault, find_faulty};
use crate::finding::VehicleFinding;
use crate::forwards::{input_flows, is_input, is_output, output_flows};
use j39_search::FindResult;
use j39_vehicle::{Forward, Vehicle};

fn has_input(vehicle: &Vehicle, forward: &Forward) -> bool
    ensures { result ≡ list_any (is_input vehicle.now forward.now) (input_flows vehicle.now forward.now) }
{
    input_flows(vehicle, forward)
        .iter()
        .any(|flow| is_input(vehicle, forward, flow))
}

/// Whether no flow is an input of the forward.
pub fn has_no_input(vehicle: &Vehicle, forward: &Forward) -> bool
    ensures { result ≡ has_no_input vehicle.now forward.now }
{
    !has_input(vehicle, forward)
}

/// Whether several flows are inputs of the forward.
pub fn has_many_inputs(vehicle: &Vehicle, forward: &Forward) -> bool
    ensures { result ≡ has_many_inputs vehicle.now forward.now }
{
    let inputs = input_flows(vehicle, forward)
        .iter()
        .filter(|flow| is_input(vehicle, forward, flow))
        .count();
    1 < inputs
}

fn has_output(vehicle: &Vehicle, forward: &Forward) -> bool
    ensures { result ≡ list_any (is_output forward.now) (output_flows vehicle.now forward.now) }
{
    output_flows(vehicle, forward)
        .iter()
        .any(|flow| is_output(forward, flow))
}

/// Whether no flow is an output of the forward.
pub fn has_no_output(vehicle: &Vehicle, forward: &Forward) -> bool
    ensures { result ≡ has_no_output vehicle.now forward.now }
{
    !has_output(vehicle, forward)
}

/// Whether several flows are outputs of the forward.
pub fn has_many_outputs(vehicle: &Vehicle, forward: &Forward) -> bool
    ensures { result ≡ has_many_outputs vehicle.now forward.now }
{
    let outputs = output_flows(vehicle, forward)
        .iter()
        .filter(|flow| is_output(forward, flow))
        .count();
    1 < outputs
}

/// Adds the forwards that have no input or several, and no output or several.
pub fn find_in_ends(findings: &mut Vec<VehicleFinding>, vehicle: &Vehicle) -> FindResult
    ensures { Adds result findings.old.items findings.new.items (end_findings vehicle.now) }
{
    find_faulty(findings, vehicle, ForwardFault::NoInput)?;
    find_faulty(findings, vehicle, ForwardFault::ManyInputs)?;
    find_faulty(findings, vehicle, ForwardFault::NoOutput)?;
    find_faulty(findings, vehicle, ForwardFault::ManyOutputs)
}
