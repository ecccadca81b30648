//! What is written of a vehicle file with the plans of its buses.
ghost use Rattle.std.specs.Prelude.{◌≡◌, ◌≤◌, length};
ghost use Rattle.j39_stream.specs.CommandEnds.{PutsText};
ghost use Rattle.j39_vehicle.specs.VehicleLimits.{bus_limit};
ghost use Rattle.j39_vehicle_text.specs.VehicleText.{IsVehicleReport, IsVehicleText, RefusesWith};

use crate::refusals::refusal;
use crate::vehicle_report::vehicle_report;
use j39_stream::{CommandResult, Sink, Verdict, put_all};
use j39_vehicle::{BusPlan, Vehicle, VehicleError, VehicleFile, resolve};
use std::alloc::Global;

fn put_report<W: Sink>(alloc: Global, vehicle: &Vehicle, sink: &mut W) -> CommandResult
    ensures { PutsText (IsVehicleReport vehicle.now) W.state sink.old sink.new result }
{
    let (text, verdict) = vehicle_report(alloc, vehicle)?;
    put_all(sink, text.as_slice())?;
    Ok(verdict)
}

// Writes which label names nothing in the plans of the buses.
fn refuse<W: Sink>(alloc: Global, error: &VehicleError, sink: &mut W) -> CommandResult
    ensures { PutsText (RefusesWith error.now) W.state sink.old sink.new result }
{
    let text = refusal(alloc, error)?;
    put_all(sink, text.as_slice())?;
    Ok(Verdict::Unreadable)
}

/// Writes what is wrong with the vehicle that a file and the plans of its buses describe, or why they describe none.
pub fn vehicle_text<W: Sink>(
    alloc: Global,
    file: &VehicleFile,
    buses: Vec<BusPlan>,
    sink: &mut W,
) -> CommandResult
    requires { length buses.items ≤ bus_limit }
    ensures { PutsText (IsVehicleText file.now buses.items) W.state sink.old sink.new result }
{
    match resolve(alloc, file, buses) {
        Ok(vehicle) => put_report(alloc, &vehicle, sink),
        Err(error) => refuse(alloc, &error, sink),
    }
}
