//! What a place of a vehicle names. Past the last place there is nothing.
ghost use Rattle.std.specs.Prelude.{◌≡◌, ◌++◌, OnOk};
ghost use Rattle.j39_vehicle_text.specs.VehicleLabels.{bus_label, gateway_label, group_label_at, group_text_at};
ghost use Rattle.j39_vehicle_text.specs.VehicleLabels.{name_on_bus_text, signal_label_at, unit_label_at, unit_text_at};

use j39_text::{TextBuffer, WriteResult, group_label, signal_label, unit_label};
use j39_vehicle::{GroupAt, UnitAt, Vehicle};

/// The label of the bus at a place.
#[tactic(auto, unfolding(crate::specs::VehicleLabels::bus_label))]
pub(super) fn bus_label(vehicle: &Vehicle, bus: usize) -> &str
    ensures { result.now ≡ bus_label vehicle.now bus }
{
    match vehicle.buses.get(bus) {
        Some(bus) => bus.label.as_str(),
        None => "",
    }
}

/// The label of the gateway at a place.
#[tactic(auto, unfolding(crate::specs::VehicleLabels::gateway_label))]
pub(super) fn gateway_label(vehicle: &Vehicle, gateway: usize) -> &str
    ensures { result.now ≡ gateway_label vehicle.now gateway }
{
    match vehicle.gateways.get(gateway) {
        Some(gateway) => gateway.label.as_str(),
        None => "",
    }
}

/// The label of a group in the plan of its bus.
#[tactic(auto, unfolding(crate::specs::VehicleLabels::group_label_at))]
pub(super) fn group_label_at(vehicle: &Vehicle, place: GroupAt) -> &str
    ensures { result.now ≡ group_label_at vehicle.now place }
{
    match vehicle.buses.get(place.bus) {
        Some(bus) => group_label(&bus.plan, place.group),
        None => "",
    }
}

/// The label of a signal of a group in the plan of its bus.
#[tactic(auto, unfolding(crate::specs::VehicleLabels::signal_label_at))]
pub(super) fn signal_label_at(vehicle: &Vehicle, place: GroupAt, signal: usize) -> &str
    ensures { result.now ≡ signal_label_at vehicle.now place signal }
{
    match vehicle.buses.get(place.bus) {
        Some(bus) => signal_label(&bus.plan, place.group, signal),
        None => "",
    }
}

/// The label of a unit in the plan of its bus.
#[tactic(auto, unfolding(crate::specs::VehicleLabels::unit_label_at))]
pub(super) fn unit_label_at(vehicle: &Vehicle, place: UnitAt) -> &str
    ensures { result.now ≡ unit_label_at vehicle.now place }
{
    match vehicle.buses.get(place.bus) {
        Some(bus) => unit_label(&bus.plan, place.unit),
        None => "",
    }
}

// Writes a word, the label of a bus, a point, and a label on it.
#[tactic(auto, unfolding(crate::specs::VehicleLabels::name_on_bus_text))]
fn write_name(
    text: &mut TextBuffer,
    word: &str,
    vehicle: &Vehicle,
    bus: usize,
    label: &str,
) -> WriteResult
    ensures { OnOk result (text.new ≡ text.old ++ name_on_bus_text word.now vehicle.now bus label.now) }
{
    text.word(word)?;
    text.word(bus_label(vehicle, bus))?;
    text.word(".")?;
    text.word(label)
}

/// Writes a word and a group, as `BUS.GROUP`.
#[tactic(auto, unfolding(crate::specs::VehicleLabels::group_text_at))]
pub(super) fn write_group_at(
    text: &mut TextBuffer,
    word: &str,
    vehicle: &Vehicle,
    place: GroupAt,
) -> WriteResult
    ensures { OnOk result (text.new ≡ text.old ++ group_text_at word.now vehicle.now place) }
{
    write_name(
        text,
        word,
        vehicle,
        place.bus,
        group_label_at(vehicle, place),
    )
}

/// Writes a word and a unit, as `BUS.UNIT`.
#[tactic(auto, unfolding(crate::specs::VehicleLabels::unit_text_at))]
pub(super) fn write_unit_at(
    text: &mut TextBuffer,
    word: &str,
    vehicle: &Vehicle,
    place: UnitAt,
) -> WriteResult
    ensures { OnOk result (text.new ≡ text.old ++ unit_text_at word.now vehicle.now place) }
{
    write_name(
        text,
        word,
        vehicle,
        place.bus,
        unit_label_at(vehicle, place),
    )
}
