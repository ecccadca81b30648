//! What is written of a vehicle.
ghost use Rattle.std.specs.Prelude.{◌≡◌, ◌++◌, ℕ, List, IfOk, OnOk, true};
ghost use Rattle.j39_vehicle_times.specs.BusDelays.{AreDelays};
ghost use Rattle.j39_vehicle_text.specs.CertifiedVehicle.{HasNoFindings, IsCertifiedVehicle};
ghost use Rattle.j39_vehicle_text.specs.VehicleText.{IsFoundBeyond, IsVehicleReport, end_line, end_verdict};
ghost use Rattle.j39_vehicle_text.specs.VehicleText.{vehicle_ok_line};

use crate::beyond_plans::BeyondPlans;
use crate::bus_blocks::write_blocks;
use crate::certificate::certify_vehicle;
use crate::forward_lines::write_forwards;
use crate::need_lines::write_needs;
use j39_stream::Verdict;
use j39_text::{ReportResult, TextBuffer, WriteResult};
use j39_vehicle::Vehicle;
use j39_vehicle_findings::{Routes, path_tables};
use j39_vehicle_times::Delays;
use std::alloc::{AllocError, Global};

// Writes the lines of forwards and needs, and finds what is wrong with times and queues too.
fn write_times(
    alloc: Global,
    text: &mut TextBuffer,
    vehicle: &Vehicle,
    delays: &Delays,
) -> Result<BeyondPlans, AllocError>
    requires { AreDelays vehicle.now delays.now }
    ensures { IfOk result (λ found. (lines : List ℕ) × IsFoundBeyond vehicle.now true lines found
        × (text.new ≡ text.old ++ lines)) }
{
    let tables = path_tables(alloc, vehicle)?;
    let routes = Routes {
        vehicle,
        tables: &tables,
    };
    write_forwards(text, &routes, delays)?;
    write_needs(alloc, text, &routes, delays)?;
    BeyondPlans::with_times(alloc, &routes, delays)
}

// The same, where the plans of the buses have no findings but of times, and else what is wrong with forwards and needs
// alone.
fn write_beyond(
    alloc: Global,
    text: &mut TextBuffer,
    vehicle: &Vehicle,
    delays: &Delays,
    timed: bool,
) -> Result<BeyondPlans, AllocError>
    requires { AreDelays vehicle.now delays.now }
    ensures { IfOk result (λ found. (lines : List ℕ) × IsFoundBeyond vehicle.now timed lines found
        × (text.new ≡ text.old ++ lines)) }
{
    if timed {
        write_times(alloc, text, vehicle, delays)
    } else {
        BeyondPlans::without_times(alloc, vehicle)
    }
}

#[tactic(auto, unfolding(crate::specs::VehicleText::vehicle_ok_line))]
fn write_ok(text: &mut TextBuffer, vehicle: &Vehicle) -> WriteResult
    ensures { OnOk result (text.new ≡ text.old ++ vehicle_ok_line vehicle.now) }
{
    text.field("ok ", vehicle.buses.len())?;
    text.field(" buses ", vehicle.gateways.len())?;
    text.field(" gateways ", vehicle.forwards.len())?;
    text.field(" forwards ", vehicle.needs.len())?;
    text.word(" needs\n")
}

// Writes how many findings there are, or how large a vehicle without any is.
#[tactic(auto, unfolding(crate::specs::VehicleText::end_line))]
fn write_end(text: &mut TextBuffer, vehicle: &Vehicle, count: u128) -> Result<Verdict, AllocError>
    requires { count ≡ 0 → HasNoFindings vehicle.now }
    ensures text { OnOk result (text.new ≡ text.old ++ end_line vehicle.now count) }
    ensures verdict { IfOk result (λ verdict. verdict ≡ end_verdict count) }
    ensures certified { OnOk result (count ≡ 0 → IsCertifiedVehicle vehicle.now) }
{
    if count == 0 {
        certify_vehicle(vehicle);
        write_ok(text, vehicle)?;
        return Ok(Verdict::Done);
    }
    text.field("findings ", count)?;
    text.end_line()?;
    Ok(Verdict::Findings)
}

/// What is written of a vehicle, with the verdict.
pub(super) fn vehicle_report(alloc: Global, vehicle: &Vehicle) -> ReportResult
    ensures { IfOk result (λ report. IsVehicleReport vehicle.now report.0 report.1) }
{
    let mut text = TextBuffer::new(alloc);
    let (plans, delays) = write_blocks(alloc, &mut text, &vehicle.buses)?;
    let found = write_beyond(alloc, &mut text, vehicle, &delays, plans.are_of_times)?;
    found.write(&mut text, vehicle)?;
    let verdict = write_end(&mut text, vehicle, plans.count + found.count())?;
    Ok((text, verdict))
}
