//! The units of gateways.
ghost use Rattle.j39_vehicle.specs.Resolved as spec;

use super::each::{Resolve, resolve_each};
use super::found::unit_named;
use super::own::needed;
use crate::file::{GatewayTable, NameOnBus};
use crate::reading::{Key, Table, VehicleError};
use crate::vehicle::{BusPlan, Gateway, UnitAt};
use std::alloc::Global;

/// What the names of the units of the gateway at a place stand for.
#[derive(Clone, Copy)]
struct UnitResolver<'a> {
    buses: &'a [BusPlan],
    gateway: usize,
}

impl Resolve<NameOnBus, UnitAt> for UnitResolver<'_> {
    ghost faults = { λ r. spec.unit_found r.buses.now r.gateway };

    ghost Grows = { λ _. spec.NeverFoundGrows };

    ghost StandsFor = { λ r. spec.StandsForName r.buses.now };

    #[tactic(auto, unfolding(crate::specs::Resolved::unit_found, crate::specs::LabelsSeen::label_faults))]
    fn resolve(
        &self,
        _alloc: Global,
        _index: usize,
        name: &NameOnBus,
    ) -> Result<UnitAt, VehicleError> {
        let unit = unit_named(self.buses, name.text.as_str());
        needed(unit, Table::Gateway(self.gateway), Key::Unit)
    }
}

/// What the tables of gateways stand for.
#[derive(Clone, Copy)]
pub struct GatewayResolver<'a> {
    pub buses: &'a [BusPlan],
}

impl Resolve<GatewayTable, Gateway> for GatewayResolver<'_> {
    ghost faults = { λ r. spec.gateway_found r.buses.now };

    ghost Grows = { λ r. spec.GatewayFoundGrows r.buses.now };

    ghost StandsFor = { λ r. spec.StandsForGateway r.buses.now };

    #[tactic(auto, unfolding(crate::specs::Resolved::gateway_found))]
    fn resolve(
        &self,
        alloc: Global,
        index: usize,
        table: &GatewayTable,
    ) -> Result<Gateway, VehicleError> {
        let names = UnitResolver {
            buses: self.buses,
            gateway: index,
        };
        let units = resolve_each(alloc, &names, table.units.as_slice())?;
        Ok(Gateway {
            label: table.label,
            units,
        })
    }
}
