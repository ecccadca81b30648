//! Everything that is wrong with what the gateways of a vehicle send on.
ghost use Rattle.std.specs.Prelude.{◌≡◌, ◌≢◌, ◌⊎◌, [], List, Bool, IfOk, OnErr};
ghost use Rattle.j39_vehicle_findings.specs.FoundPaths.{path_findings, queue_findings};
ghost use Rattle.j39_vehicle_findings.specs.Loops.{DecidesLoops};

mod contents;
mod ends;
mod forward_faults;
mod layouts;
mod needs;
mod odds;
mod queues;
mod signals;
mod turns;

use crate::finding::VehicleFinding;
use crate::loops::loops_of;
use crate::routes::Routes;
use crate::tables::path_tables;
use contents::find_in_contents;
use ends::find_in_ends;
use j39_vehicle::Vehicle;
use needs::find_in_needs;
use queues::find_queues;
use std::alloc::{AllocError, Global};
use turns::find_loops;

/// What is wrong with the paths of a vehicle, in order.
pub type VehicleFindings = Vec<VehicleFinding>;

/// What is wrong with the forwards and the needs of a vehicle, whatever the plans of its buses say of times: G1 to G9,
/// by their numbers and then by their places in rising order.
pub fn find_in_paths(alloc: Global, vehicle: &Vehicle) -> Result<VehicleFindings, AllocError>
    ensures list { IfOk result (λ findings. (loops : List Bool) × DecidesLoops vehicle.now loops
        × (findings.items ≡ path_findings loops vehicle.now)) }
    ensures memory { OnErr result ((vehicle.now.forwards.items ≢ []) ⊎ (vehicle.now.needs.items ≢ [])) }
{
    let loops = loops_of(alloc, vehicle)?;
    let tables = path_tables(alloc, vehicle)?;
    let routes = Routes {
        vehicle,
        tables: &tables,
    };
    let mut findings = Vec::new(alloc);
    find_in_ends(&mut findings, vehicle)?;
    find_in_contents(&mut findings, vehicle)?;
    find_loops(&mut findings, &loops, vehicle)?;
    find_in_needs(&mut findings, &routes)?;
    Ok(findings)
}

/// On which buses a gateway may have one queue for frames of several units: G14, in order.
pub fn find_in_queues(alloc: Global, vehicle: &Vehicle) -> Result<VehicleFindings, AllocError>
    ensures list { IfOk result (λ findings. findings.items ≡ queue_findings vehicle.now) }
    ensures memory { OnErr result (queue_findings vehicle.now ≢ []) }
{
    let mut findings = Vec::new(alloc);
    find_queues(&mut findings, vehicle)?;
    Ok(findings)
}
