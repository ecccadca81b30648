//! What a forward names in its own file: its gateway, its buses, and units of the gateway on these.
ghost use Rattle.std.specs.Prelude.{◌≡◌, ◌&&◌, map, option_and_then, option_map, position, Some, string_bytes};
ghost use Rattle.std.specs.List.{list_any, slice_get};
ghost use Rattle.std.specs.Str.{bytes_eq};
ghost use Rattle.j39_vehicle.specs.TextKinds.{name_of};
ghost use Rattle.j39_toml.specs.Outcome.{Gives};
ghost use Rattle.j39_vehicle.specs.GatewayTables.{named_gateway};
ghost use Rattle.j39_vehicle.specs.ForwardTables as spec;

use super::named::{first_place, has_label, known};
use super::{Key, Table, VehicleError};
use crate::file::{GatewayTable, NameOnBus, before_point};

// The gateway of this label.
fn gateway_of<'a>(gateways: &'a [GatewayTable], label: &str) -> Option<&'a GatewayTable>
    ensures { option_map (λ g. g.now) result
        ≡ option_and_then (slice_get gateways.now) (position (λ g. bytes_eq g.label.bytes label.now) gateways.now) }
{
    match first_place(gateways, label) {
        Some(place) => gateways.get(place),
        None => None,
    }
}

// The units of the gateway of a label: none where no gateway has it.
#[tactic(auto, using(crate::proofs::UnitsOf::units_found))]
fn units_of<'a>(gateways: &'a [GatewayTable], label: &str) -> &'a [NameOnBus]
    ensures { map (λ n. string_bytes n.text) result.now
        ≡ spec.units_of_named (map named_gateway gateways.now) (Some label.now) }
{
    match gateway_of(gateways, label) {
        Some(gateway) => gateway.units.as_slice(),
        None => &[],
    }
}

fn any_on(units: &[NameOnBus], bus: &str) -> bool
    ensures { result ≡ list_any (λ n. bytes_eq (name_of (string_bytes n.text)).bus bus.now) units.now }
{
    units.iter().any(|unit| unit.bus() == bus)
}

// Whether one of the units is on the bus of a group.
#[tactic(auto, using(crate::proofs::UnitsOf::on_view))]
fn is_group_on(units: &[NameOnBus], group: &str) -> bool
    ensures { result ≡ spec.is_group_on (map (λ n. string_bytes n.text) units.now) (Some group.now) }
{
    any_on(units, before_point(group))
}

fn any_there(units: &[NameOnBus], bus: &str, label: &str) -> bool
    ensures { result ≡ list_any (λ n. bytes_eq (name_of (string_bytes n.text)).bus bus.now
        && bytes_eq (name_of (string_bytes n.text)).label label.now) units.now }
{
    units
        .iter()
        .any(|unit| unit.bus() == bus && unit.label() == label)
}

// Whether one of the units is on this bus and has the label.
#[tactic(auto, using(crate::proofs::UnitsOf::there_view))]
fn has_unit(units: &[NameOnBus], bus: &str, label: &str) -> bool
    ensures { result ≡ spec.has_unit (map (λ n. string_bytes n.text) units.now) bus.now label.now }
{
    any_there(units, bus, label)
}

// Whether one of the units is on the bus of a group and has the label, where one is asked for.
fn is_unit_beside(units: &[NameOnBus], group: &str, label: Option<&str>) -> bool
    ensures { result
        ≡ spec.is_unit_beside (map (λ n. string_bytes n.text) units.now) (Some group.now)
        (option_map (λ t. t.now) label.entry) }
{
    match label {
        None => true,
        Some(label) => has_unit(units, before_point(group), label),
    }
}

/// Refuses the first label that names nothing: a gateway that isn't there, a group on a bus where it has no unit, a
/// unit that it doesn't have there.
#[tactic(auto, using(j39_toml::proofs::FirstFaults::faults_after), unfolding(crate::specs::ForwardTables::known_faults))]
pub fn known_labels(
    gateways: &[GatewayTable],
    table: Table,
    gateway: &str,
    heard: &str,
    at_unit: Option<&str>,
    sent: &str,
    by_unit: Option<&str>,
) -> Result<(), VehicleError>
    ensures { Gives result (spec.known_faults table (map named_gateway gateways.now) (Some gateway.now) (Some heard.now)
        (option_map (λ t. t.now) at_unit.entry) (Some sent.now) (option_map (λ t. t.now) by_unit.entry))
        (λ _. Unit {0}) }
{
    let units = units_of(gateways, gateway);
    known(has_label(gateways, gateway), table, Key::Gateway)?;
    known(is_group_on(units, heard), table, Key::Group)?;
    known(is_unit_beside(units, heard, at_unit), table, Key::At)?;
    known(is_group_on(units, sent), table, Key::As)?;
    known(is_unit_beside(units, sent, by_unit), table, Key::By)
}
