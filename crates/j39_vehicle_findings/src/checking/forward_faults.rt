//! What can be wrong with a forward by itself.
ghost use Rattle.std.specs.Prelude.{◌≡◌};
ghost use Rattle.j39_search.specs.Adding.{Adds};
ghost use Rattle.j39_search.specs.ListPlaces.{each};
ghost use Rattle.j39_vehicle_findings.specs.inside.ForwardFaults.{forward_fault_at, has_forward_fault};

use crate::checking::ends::{has_many_inputs, has_many_outputs, has_no_input, has_no_output};
use crate::checking::layouts::copies_other_layout;
use crate::finding::VehicleFinding;
use j39_search::{FindResult, TestRule, find_tested};
use j39_vehicle::{Forward, Vehicle};

/// What can be wrong with a forward by itself: with its inputs, with its outputs, or with the layout of what it copies.
#[derive(Clone, Copy)]
pub enum ForwardFault {
    NoInput,
    ManyInputs,
    NoOutput,
    ManyOutputs,
    LayoutDiffers,
}

#[derive(Clone, Copy)]
struct FaultyForward<'a> {
    vehicle: &'a Vehicle,
    fault: ForwardFault,
}

impl TestRule<Forward, VehicleFinding> for FaultyForward<'_> {
    ghost test = { λ rule. has_forward_fault rule.vehicle.now rule.fault };

    ghost make = { λ rule. forward_fault_at rule.fault };

    fn holds(&self, forward: &Forward) -> bool {
        match self.fault {
            ForwardFault::NoInput => has_no_input(self.vehicle, forward),
            ForwardFault::ManyInputs => has_many_inputs(self.vehicle, forward),
            ForwardFault::NoOutput => has_no_output(self.vehicle, forward),
            ForwardFault::ManyOutputs => has_many_outputs(self.vehicle, forward),
            ForwardFault::LayoutDiffers => copies_other_layout(self.vehicle, forward),
        }
    }

    fn finding(&self, place: usize) -> VehicleFinding {
        match self.fault {
            ForwardFault::NoInput => VehicleFinding::NoInput(place),
            ForwardFault::ManyInputs => VehicleFinding::ManyInputs(place),
            ForwardFault::NoOutput => VehicleFinding::NoOutput(place),
            ForwardFault::ManyOutputs => VehicleFinding::ManyOutputs(place),
            ForwardFault::LayoutDiffers => VehicleFinding::LayoutDiffers(place),
        }
    }
}

/// Adds the forwards with which this is wrong.
pub fn find_faulty(
    findings: &mut Vec<VehicleFinding>,
    vehicle: &Vehicle,
    fault: ForwardFault,
) -> FindResult
    ensures { Adds result findings.old.items findings.new.items
        (each (has_forward_fault vehicle.now fault) (forward_fault_at fault) 0 vehicle.now.forwards.items) }
{
    find_tested(
        findings,
        &FaultyForward { vehicle, fault },
        &vehicle.forwards,
    )
}
