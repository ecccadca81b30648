//! Finding what a vehicle file names in the plans of its buses.
ghost use Rattle.std.specs.Prelude.{◌≤◌, length};
ghost use Rattle.j39_vehicle.specs.VehicleLimits.{bus_limit};
ghost use Rattle.j39_toml.specs.Outcome.{GivesGrowing};
ghost use Rattle.j39_vehicle.specs.Resolved.{found_faults, StandsForFile, VehicleGrows};

mod each;
mod forwards;
mod found;
mod gateways;
mod needs;
mod own;
mod signals;

use crate::file::VehicleFile;
use crate::reading::VehicleError;
use crate::vehicle::{BusPlan, Vehicle};
use each::resolve_each;
use forwards::ForwardResolver;
use gateways::GatewayResolver;
use needs::NeedResolver;
use std::alloc::Global;

/// The vehicle that a file describes with the plans of its buses.
///
/// Refuses the first label that names nothing in these: a unit of a gateway; of a forward a group, a unit, or a signal;
/// of a need a unit, a group, or a signal. A repeated signal is none that can be named.
#[tactic(auto, using(j39_toml::proofs::FirstFaults::faults_after))]
pub fn resolve(
    alloc: Global,
    file: &VehicleFile,
    buses: Vec<BusPlan>,
) -> Result<Vehicle, VehicleError>
    requires { length buses.items ≤ bus_limit }
    ensures { GivesGrowing (VehicleGrows buses.items file.now) result (found_faults buses.items file.now)
        (StandsForFile buses.items file.now) }
{
    let plans = buses.as_slice();
    let tables = file.gateways.as_slice();
    let gateways = resolve_each(alloc, &GatewayResolver { buses: plans }, tables)?;
    let resolver = ForwardResolver {
        buses: plans,
        gateways: tables,
    };
    let forwards = resolve_each(alloc, &resolver, file.forwards.as_slice())?;
    let needs = resolve_each(alloc, &NeedResolver { buses: plans }, file.needs.as_slice())?;
    Ok(Vehicle {
        buses,
        gateways,
        forwards,
        needs,
    })
}
