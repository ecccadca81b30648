//! The units of a gateway.
ghost use Rattle.std.specs.Prelude.{◌≡◌, ◌++◌, IfOk, IfErr, length, map, string_bytes};
ghost use Rattle.std.specs.List.{list_all, list_any};
ghost use Rattle.std.specs.Str.{bytes_eq};
ghost use Rattle.toml.specs.View.{view, items_view};
ghost use Rattle.j39_toml.specs.declared.file_error.FileError.TheVariants.{Memory};
ghost use Rattle.j39_vehicle.specs.TextKinds.{name_of};
ghost use Rattle.j39_vehicle.specs.LabelsSeen.{is_label_among};
ghost use Rattle.j39_vehicle.specs.BusTables.{named_bus};
ghost use Rattle.j39_vehicle.specs.GatewayTables.{all_units, are_on, is_text_among, named_gateway, text_in, texts_in};
ghost use Rattle.j39_vehicle.specs.GatewayTables.{unit_cause, units_cause};

use super::VehicleError;
use super::named::has_label;
use super::owned::name;
use super::text_kind::TextKind;
use crate::file::{BusTable, GatewayTable, NameOnBus, before_point};
use j39_toml::Cause;
use std::alloc::Global;
use toml::Value;

// The text that an element is, and the empty one where it is none.
fn text_in(value: &Value) -> &str
    ensures { result.now ≡ text_in (view value.now) }
{
    match value.as_str() {
        Some(text) => text,
        None => "",
    }
}

fn is_before(before: &[Value], text: &str) -> bool
    ensures { result ≡ list_any (λ v. bytes_eq (text_in (view v)) text.now) before.now }
{
    before.iter().any(|value| text_in(value) == text)
}

fn has_unit(gateway: &GatewayTable, text: &str) -> bool
    ensures { result ≡ list_any (λ n. bytes_eq (string_bytes n.text) text.now) gateway.now.units.items }
{
    gateway.units.iter().any(|unit| unit.text.as_str() == text)
}

fn is_elsewhere(seen: &[GatewayTable], text: &str) -> bool
    ensures { result ≡ list_any (λ g. list_any (λ n. bytes_eq (string_bytes n.text) text.now) g.units.items) seen.now }
{
    seen.iter().any(|gateway| has_unit(gateway, text))
}

// Whether the text stands before, in the same gateway or in an earlier one.
#[tactic(auto, using(crate::proofs::Units::is_earlier))]
fn is_taken(seen: &[GatewayTable], before: &[Value], text: &str) -> bool
    ensures { result
        ≡ is_text_among (all_units (map named_gateway seen.now) ++ texts_in (items_view before.now)) text.now }
{
    is_elsewhere(seen, text) || is_before(before, text)
}

// The cause for which an element is refused behind those before it, in this gateway and in earlier ones.
fn unit_cause(seen: &[GatewayTable], before: &[Value], value: &Value) -> Option<Cause>
    ensures { result
        ≡ unit_cause (all_units (map named_gateway seen.now) ++ texts_in (items_view before.now)) (view value.now) }
{
    match value.as_str() {
        None => Some(Cause::WrongType),
        Some(text) => {
            if !TextKind::OnBus.takes(text) {
                Some(Cause::Range)
            } else if is_taken(seen, before, text) {
                Some(Cause::Repeated)
            } else {
                None
            }
        }
    }
}

/// The first cause for which one of the elements is refused, behind earlier gateways.
#[tactic(auto, using(crate::proofs::Units::one_more))]
pub fn units_cause(seen: &[GatewayTable], values: &[Value]) -> Option<Cause>
    ensures { result ≡ units_cause (all_units (map named_gateway seen.now)) (items_view values.now) }
{
    for (index, value) in values.iter().enumerate() {
        if let Some(cause) = unit_cause(seen, &values[..index], value) {
            return Some(cause);
        }
    }
    None
}

fn all_on(buses: &[BusTable], values: &[Value]) -> bool
    ensures { result
        ≡ list_all (λ v. is_label_among (map named_bus buses.now) (name_of (text_in (view v))).bus) values.now }
{
    values
        .iter()
        .all(|value| has_label(buses, before_point(text_in(value))))
}

/// Whether each element is on one of the buses.
#[tactic(auto, using(crate::proofs::Units::all_on_view))]
pub fn are_on(buses: &[BusTable], values: &[Value]) -> bool
    ensures { result ≡ are_on (map named_bus buses.now) (texts_in (items_view values.now)) }
{
    all_on(buses, values)
}

/// The elements as names on buses.
#[tactic(auto, using(crate::proofs::Units::texts_map))]
pub fn units(alloc: Global, values: &[Value]) -> Result<Vec<NameOnBus>, VehicleError>
    ensures same { IfOk result (λ units. map (λ n. string_bytes n.text) units.items ≡ texts_in
        (items_view values.now)) }
    ensures count { IfOk result (λ units. length units.items ≡ length values.now) }
    ensures memory { IfErr result (λ e. e ≡ Memory) }
{
    let mut units = Vec::new(alloc);
    for value in values {
        units.push(name(alloc, text_in(value))?)?;
    }
    Ok(units)
}
