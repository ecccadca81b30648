//! The gateways of a vehicle file.
ghost use Rattle.std.specs.Prelude.{◌≡◌, [], map};
ghost use Rattle.toml.specs.View.{items_view, table_view};
ghost use Rattle.j39_toml.specs.Outcome.{Gives, GivesGrowing};
ghost use Rattle.j39_vehicle.specs.BusTables.{named_bus};
ghost use Rattle.j39_vehicle.specs.GatewayTables.{gateway_table_faults, named_gateway, units_faults, DescribesGateway};

use super::gateway_units::{are_on, units, units_cause};
use super::named::{known, untaken};
use super::values::label;
use super::{Key, Table, VehicleError, VehicleFault};
use crate::file::{BusTable, GatewayTable};
use crate::limits::GATEWAY_UNIT_LIMIT;
use j39_toml::{ReadElement, elements, only, refused, table_of};
use std::alloc::Global;
use toml::Value;

const GATEWAY_KEYS: [Key; 2] = [Key::Label, Key::Unit];

// Refuses a unit that can't stand in the array of units.
fn may_stand(index: usize, seen: &[GatewayTable], values: &[Value]) -> Result<(), VehicleError>
    ensures { Gives result (units_faults index (map named_gateway seen.now) (items_view values.now)) (λ _. Unit {0}) }
{
    match units_cause(seen, values) {
        Some(cause) => Err(refused(cause, Table::Gateway(index), Key::Unit)),
        None => Ok(()),
    }
}

#[tactic(auto, using(j39_toml::proofs::FirstFaults::faults_after), unfolding(crate::specs::GatewayTables::gateway_table_faults))]
fn gateway(
    alloc: Global,
    buses: &[BusTable],
    index: usize,
    seen: &[GatewayTable],
    members: &toml::Table,
) -> Result<GatewayTable, VehicleError>
    ensures { let faults = gateway_table_faults (map named_bus buses.now) index (map named_gateway seen.now)
        (table_view members.now) in
        GivesGrowing (faults ≡ []) result faults (DescribesGateway (table_view members.now)) }
{
    let table = Table::Gateway(index);
    only(members, table, &GATEWAY_KEYS)?;
    let label = label(members, table)?;
    let values = elements(members, table, Key::Unit, GATEWAY_UNIT_LIMIT, true)?;
    may_stand(index, seen, values)?;
    untaken(seen, label.as_str(), table, Key::Label)?;
    known(are_on(buses, values), table, Key::Unit)?;
    let units = units(alloc, values)?;
    Ok(GatewayTable { label, units })
}

/// The reader of gateways.
#[derive(Clone, Copy)]
pub struct GatewayReader<'a> {
    pub buses: &'a [BusTable],
}

impl ReadElement<GatewayTable, VehicleFault> for GatewayReader<'_> {
    ghost use Rattle.j39_vehicle.specs.LabelsSeen.{Named};
    ghost use Rattle.j39_vehicle.specs.Growing.{GatewayGrows};
    ghost use Rattle.j39_vehicle.specs.GatewayTables.{gateway_faults, gateway_name, IsGatewayOf};

    ghost Label = { Named };

    ghost label = { named_gateway };

    ghost data_label = { gateway_name };

    ghost faults = { λ r. gateway_faults (map named_bus r.buses.now) };

    ghost Grows = { λ r. GatewayGrows (map named_bus r.buses.now) };

    ghost Describes = { λ _. IsGatewayOf };

    #[tactic(auto, using(j39_toml::proofs::FirstFaults::faults_after), unfolding(crate::specs::GatewayTables::gateway_faults))]
    fn read(
        &self,
        alloc: Global,
        index: usize,
        seen: &[GatewayTable],
        value: &Value,
    ) -> Result<GatewayTable, VehicleError> {
        let table = Table::Gateway(index);
        gateway(
            alloc,
            self.buses,
            index,
            seen,
            table_of::<Table, Key>(value, table)?,
        )
    }
}
