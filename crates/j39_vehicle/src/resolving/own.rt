//! A gateway's units, and what a table may give or leave out.
ghost use Rattle.std.specs.Prelude.{◌≡◌, ◌||◌, not, is_some, Some, option_map, position, string_bytes};
ghost use Rattle.std.specs.Str.{bytes_eq};
ghost use Rattle.j39_vehicle.specs.TextKinds.{name_of};
ghost use Rattle.j39_vehicle.specs.LabelsSeen.{label_faults};
ghost use Rattle.j39_toml.specs.Outcome.{Gives};
ghost use Rattle.j39_vehicle.specs.LabelsFound as spec;

use super::found::unit_place;
use crate::file::{GatewayTable, NameOnBus};
use crate::reading::{Key, Table, VehicleError};
use crate::vehicle::BusPlan;
use j39_toml::{Cause, refused};

/// The place of the gateway of a label.
pub fn gateway_labelled(gateways: &[GatewayTable], label: &str) -> Option<usize>
    ensures { result ≡ spec.gateway_labelled gateways.now label.now }
{
    gateways
        .iter()
        .position(|gateway| gateway.label.as_str() == label)
}

/// The units of the gateway of a label: none where there is none.
pub fn units_by<'a>(gateways: &'a [GatewayTable], label: &str) -> &'a [NameOnBus]
    ensures { result.now ≡ spec.units_by gateways.now label.now }
{
    match gateway_labelled(gateways, label) {
        Some(place) => match gateways.get(place) {
            Some(gateway) => gateway.units.as_slice(),
            None => &[],
        },
        None => &[],
    }
}

fn first_place(units: &[NameOnBus], bus: &str) -> Option<usize>
    ensures { result ≡ position (λ n. bytes_eq (name_of (string_bytes n.text)).bus bus.now) units.now }
{
    units.iter().position(|unit| unit.bus() == bus)
}

// The first of these units on a bus.
fn first_on<'a>(units: &'a [NameOnBus], bus: &str) -> Option<&'a NameOnBus>
    ensures { option_map (λ n. n.now) result ≡ spec.first_on units.now bus.now }
{
    match first_place(units, bus) {
        Some(place) => units.get(place),
        None => None,
    }
}

/// The gateway's unit beside a group on the bus at a place: the one that is given, or its first there.
pub fn own_unit(
    buses: &[BusPlan],
    units: &[NameOnBus],
    group: &NameOnBus,
    bus: usize,
    given: &Option<String>,
) -> Option<usize>
    ensures { result ≡ spec.own_unit buses.now units.now group.now bus given.now }
{
    match given {
        Some(label) => unit_place(buses, bus, label.as_str()),
        None => match first_on(units, group.bus()) {
            Some(unit) => unit_place(buses, bus, unit.label()),
            None => None,
        },
    }
}

/// What has to be found, or the fault that it isn't.
#[tactic(auto, unfolding(crate::specs::LabelsSeen::label_faults))]
pub fn needed<T>(found: Option<T>, table: Table, key: Key) -> Result<T, VehicleError>
    ensures { Gives result (label_faults table key (is_some found)) (λ x. found ≡ Some x) }
{
    match found {
        Some(found) => Ok(found),
        None => Err(refused(Cause::UnknownLabel, table, key)),
    }
}

/// What has to be found where a label or a word is given, and nothing where none is.
#[tactic(auto, unfolding(crate::specs::LabelsSeen::label_faults))]
pub fn given<T>(
    given: &Option<String>,
    found: Option<T>,
    table: Table,
    key: Key,
) -> Result<Option<T>, VehicleError>
    ensures { Gives result (label_faults table key (is_some found || not (is_some given.now))) (λ x. x ≡ found) }
{
    match found {
        Some(found) => Ok(Some(found)),
        None => {
            if given.is_some() {
                Err(refused(Cause::UnknownLabel, table, key))
            } else {
                Ok(None)
            }
        }
    }
}
