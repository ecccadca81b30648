//! What is written for a vehicle.
ghost use Rattle.std.specs.Prelude.{◌≡◌, ◌++◌, ◌∷◌, [], IfOk, IfSome, OnOk, OnSome, length};
ghost use Rattle.j39_app.specs.Answers.{IsOfBytes};
ghost use Rattle.j39_app.specs.Faults.{EndsByBus, EndsByBuses, EndsByFile, EndsByPlans, EndsByVehicle};
ghost use Rattle.j39_app.specs.VehicleAnswers.{IsRefusedBusOf, IsRefusedVehicleOf};
ghost use Rattle.j39_stream.specs.CommandEnds.{PutsText};
ghost use Rattle.j39_stream.specs.Streams.{plan_limits};
ghost use Rattle.j39_vehicle_text.specs.VehicleFileText.{IsBusPlanText, IsVehicleFileText};
ghost use Rattle.j39_vehicle_text.specs.VehicleText.{IsVehicleText};

use crate::{CommandResult, Fault, Folder, Sink, Verdict, bus_plan, vehicle_file, vehicle_text};
use j39_id::Label;
use j39_network::Plan;
use j39_vehicle::{BusPlan, BusTable, VehicleFile, plan_file};
use std::alloc::{AllocError, Global};

// What a vehicle file says. Where it is refused, writes why, and gives nothing.
fn vehicle_of<F: Folder, W: Sink>(
    alloc: Global,
    files: &F,
    name: &str,
    sink: &mut W,
) -> Result<Option<VehicleFile>, Fault>
    ensures ends { EndsByFile (IsOfBytes IsVehicleFileText) IsRefusedVehicleOf (Unit {0}) plan_limits
        (F.stays_shut files.now) (F.bytes_of files.now) F.File.state name.now W.state sink.old sink.new result }
    ensures writes_nothing { IfOk result (λ file. OnSome file (sink.new ≡ sink.old)) }
{
    vehicle_file(alloc, &mut files.open(name)?, sink)
}

// The plan of a bus, of the file of this name. Where it describes none, writes why, and gives none.
fn plan_named<F: Folder, W: Sink>(
    alloc: Global,
    files: &F,
    label: &Label,
    name: &str,
    sink: &mut W,
) -> Result<Option<Plan>, Fault>
    ensures ends { EndsByFile (IsOfBytes (IsBusPlanText label.now.bytes)) (IsRefusedBusOf label.now.bytes)
        (Unit {0}) plan_limits
        (F.stays_shut files.now) (F.bytes_of files.now) F.File.state name.now W.state sink.old sink.new result }
    ensures writes_nothing { IfOk result (λ plan. OnSome plan (sink.new ≡ sink.old)) }
{
    bus_plan(alloc, label, &mut files.open(name)?, sink)
}

// The same, of the file that the table of the bus names.
fn plan_of_bus<F: Folder, W: Sink>(
    alloc: Global,
    files: &F,
    vehicle: &str,
    table: &BusTable,
    sink: &mut W,
) -> Result<Option<Plan>, Fault>
    ensures ends { EndsByBus (F.stays_shut files.now)
        (F.bytes_of files.now) F.File.state vehicle.now table.now W.state sink.old sink.new result }
    ensures writes_nothing { IfOk result (λ plan. OnSome plan (sink.new ≡ sink.old)) }
{
    let name = plan_file(alloc, vehicle, table.plan.as_str())?;
    plan_named(alloc, files, &table.label, name.as_str(), sink)
}

// Adds a bus, with the label of its table.
fn add_bus(buses: &mut Vec<BusPlan>, label: Label, plan: Plan) -> Result<(), AllocError>
    ensures { OnOk result (buses.new.items ≡ buses.old.items ++ record { label = label; plan = plan } ∷ []) }
{
    buses.push(BusPlan { label, plan })?;
    Ok(())
}

// The buses of a vehicle, with their plans. The file of each is opened once that before it was read. Where one
// describes no plan, writes why, and gives none.
fn buses_of<F: Folder, W: Sink>(
    alloc: Global,
    files: &F,
    vehicle: &str,
    tables: &[BusTable],
    sink: &mut W,
) -> Result<Option<Vec<BusPlan>>, Fault>
    ensures ends { EndsByBuses (F.stays_shut files.now)
        (F.bytes_of files.now) F.File.state vehicle.now tables.now W.state sink.old sink.new result }
    ensures writes_nothing { IfOk result (λ buses. OnSome buses (sink.new ≡ sink.old)) }
    ensures count { IfOk result (λ found. IfSome found (λ buses. length buses.items ≡ length tables.now)) }
{
    let mut buses = Vec::new(alloc);
    for table in tables {
        match plan_of_bus(alloc, files, vehicle, table, sink)? {
            Some(plan) => add_bus(&mut buses, table.label, plan)?,
            None => return Ok(None),
        }
    }
    Ok(Some(buses))
}

// It holds its buffers and tables in a frame of its own.
#[inline(never)]
fn vehicle_by<W: Sink>(
    alloc: Global,
    file: &VehicleFile,
    buses: Vec<BusPlan>,
    sink: &mut W,
) -> CommandResult
    requires { length buses.items ≡ length file.now.buses.items }
    ensures { PutsText (IsVehicleText file.now buses.items) W.state sink.old sink.new result }
{
    vehicle_text(alloc, file, buses, sink)
}

// Writes what is wrong with the vehicle of a file, whose plans are read first.
fn vehicle_with<F: Folder, W: Sink>(
    alloc: Global,
    files: &F,
    vehicle: &str,
    file: &VehicleFile,
    sink: &mut W,
) -> CommandResult
    ensures { EndsByPlans (F.stays_shut files.now)
        (F.bytes_of files.now) F.File.state vehicle.now file.now W.state sink.old sink.new result }
{
    match buses_of(alloc, files, vehicle, &file.buses, sink)? {
        Some(buses) => vehicle_by(alloc, file, buses, sink),
        None => Ok(Verdict::Unreadable),
    }
}

/// Writes what is wrong with a vehicle. The files of its plans are opened once its own was read.
#[inline(never)]
pub(super) fn vehicle_files<F: Folder, W: Sink>(
    alloc: Global,
    files: &F,
    vehicle: &str,
    sink: &mut W,
) -> CommandResult
    ensures { EndsByVehicle (F.stays_shut files.now)
        (F.bytes_of files.now) F.File.state vehicle.now W.state sink.old sink.new result }
{
    match vehicle_of(alloc, files, vehicle, sink)? {
        Some(file) => vehicle_with(alloc, files, vehicle, &file, sink),
        None => Ok(Verdict::Unreadable),
    }
}
