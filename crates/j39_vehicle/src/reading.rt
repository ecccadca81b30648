//! Reading a vehicle file.
ghost use Rattle.std.specs.Prelude.{◌≡◌, ◌≤◌, length, IsErrOf};
ghost use Rattle.toml.specs.View.{items_view, table_view};
ghost use Rattle.j39_network.specs.PlanLimits.{need_limit};
ghost use Rattle.j39_toml.specs.FileTrees.{tree_of, MayAskForRoom};
ghost use Rattle.j39_toml.specs.Outcome.{Gives, GivesGrowing};
ghost use Rattle.j39_vehicle.specs.VehicleLimits.{bus_limit, forward_limit, gateway_limit};
ghost use Rattle.j39_vehicle.specs.Schema.{elements_at};
ghost use Rattle.j39_toml.specs.declared.file_error.FileError.TheVariants as errors;
ghost use Rattle.j39_vehicle.specs.Growing.{FileGrows};
ghost use Rattle.j39_vehicle.specs.VehicleFaults.{faults, top_faults};
ghost use Rattle.j39_vehicle.specs.Described.{Reads, DescribesFile};

mod buses;
mod forward_labels;
mod forwards;
mod gateway_units;
mod gateways;
mod key;
mod named;
mod needs;
mod owned;
mod place;
mod signals;
mod text_kind;
mod values;
mod vehicle_error;

use crate::file::VehicleFile;
use crate::limits::{BUS_LIMIT, FORWARD_LIMIT, GATEWAY_LIMIT, VEHICLE_NEED_LIMIT};
use buses::BusReader;
use forwards::ForwardReader;
use gateways::GatewayReader;
pub use j39_toml::FileError;
use j39_toml::{elements, only, read_each, read_tree};
pub use key::Key;
use needs::NeedReader;
pub use place::Table;
use std::alloc::Global;
use toml::Value;
use values::number;
pub use vehicle_error::{VehicleError, VehicleFault};

const TOP_KEYS: [Key; 5] = [
    Key::Version,
    Key::Bus,
    Key::Gateway,
    Key::Forward,
    Key::Need,
];

// The tables of the top table's arrays.
#[derive(Clone, Copy)]
struct Arrays<'a> {
    buses: &'a [Value],
    gateways: &'a [Value],
    forwards: &'a [Value],
    needs: &'a [Value],
    ghost bus_count: { length buses.now ≤ bus_limit },
    ghost gateway_count: { length gateways.now ≤ gateway_limit },
    ghost forward_count: { length forwards.now ≤ forward_limit },
    ghost need_count: { length needs.now ≤ need_limit },
}

#[tactic(auto, using(j39_toml::proofs::FirstFaults::faults_after))]
fn top_arrays(members: &toml::Table) -> Result<Arrays<'_>, VehicleError>
    ensures { Gives result (top_faults (table_view members.now)) (λ a. let ms = table_view members.now in
        (items_view a.buses.now ≡ elements_at Key.Bus ms) × (items_view a.gateways.now ≡ elements_at Key.Gateway ms)
        × (items_view a.forwards.now ≡ elements_at Key.Forward ms)
        × (items_view a.needs.now ≡ elements_at Key.Need ms)) }
{
    only(members, Table::Top, &TOP_KEYS)?;
    number(members, Table::Top, Key::Version, 1, 1, true)?;
    let buses = elements(members, Table::Top, Key::Bus, BUS_LIMIT, false)?;
    let gateways = elements(members, Table::Top, Key::Gateway, GATEWAY_LIMIT, false)?;
    let forwards = elements(members, Table::Top, Key::Forward, FORWARD_LIMIT, false)?;
    let needs = elements(members, Table::Top, Key::Need, VEHICLE_NEED_LIMIT, false)?;
    Ok(Arrays {
        buses,
        gateways,
        forwards,
        needs,
    })
}

#[tactic(auto, using(j39_toml::proofs::FirstFaults::faults_after))]
fn read_top(alloc: Global, members: &toml::Table) -> Result<VehicleFile, VehicleError>
    ensures { GivesGrowing (FileGrows (table_view members.now)) result (faults (table_view members.now))
        (DescribesFile (table_view members.now)) }
{
    let arrays = top_arrays(members)?;
    let buses = read_each(alloc, &BusReader, arrays.buses)?;
    let gateways = read_each(alloc, &GatewayReader { buses: &buses }, arrays.gateways)?;
    let forwards = read_each(
        alloc,
        &ForwardReader {
            gateways: &gateways,
        },
        arrays.forwards,
    )?;
    let needs = read_each(alloc, &NeedReader { buses: &buses }, arrays.needs)?;
    Ok(VehicleFile {
        buses,
        gateways,
        forwards,
        needs,
    })
}

/// What a vehicle file says: TOML of UTF-8 bytes, with at most 16 buses, 64 gateways of 128 units each, 512 forwards of
/// 64 signals each, and 4096 needs. Labels of gateways, buses and units of gateways are those of the file; other units,
/// groups and signals aren't looked for, since they stand in the plans of the buses.
///
/// Refuses bytes that are no TOML text, and else the first fault, in the order of the file's tables and keys. Takes no
/// memory of bytes that are no UTF-8, or white space and comments alone.
pub fn read_vehicle(alloc: Global, bytes: &[u8]) -> Result<VehicleFile, VehicleError>
    ensures reads { Reads result (tree_of bytes.now) }
    ensures memory { IsErrOf result errors.Memory → MayAskForRoom bytes.now }
{
    match read_tree(alloc, bytes) {
        Ok(members) => read_top(alloc, &members),
        Err(error) => Err(error),
    }
}
