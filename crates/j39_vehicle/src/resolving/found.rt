//! Places in the plans of a vehicle's buses.
ghost use Rattle.std.specs.Prelude.{◌≡◌, ◌&&◌, not, position};
ghost use Rattle.std.specs.Str.{bytes_eq};
ghost use Rattle.j39_vehicle.specs.LabelsFound as spec;

use crate::file::{before_point, behind_point};
use crate::vehicle::{BusPlan, GroupAt, UnitAt};
use j39_network::{GroupPlan, To, UnitPlan};
use j39_signal::Signal;

/// The place of the bus of a label.
pub fn bus_place(buses: &[BusPlan], label: &str) -> Option<usize>
    ensures { result ≡ spec.bus_place buses.now label.now }
{
    buses.iter().position(|bus| bus.label.as_str() == label)
}

// The units of the bus at a place.
fn units_on(buses: &[BusPlan], bus: usize) -> &[UnitPlan]
    ensures { result.now ≡ spec.units_on buses.now bus }
{
    match buses.get(bus) {
        Some(bus) => bus.plan.units.as_slice(),
        None => &[],
    }
}

// The groups of the bus at a place.
fn groups_on(buses: &[BusPlan], bus: usize) -> &[GroupPlan]
    ensures { result.now ≡ spec.groups_of_bus buses.now bus }
{
    match buses.get(bus) {
        Some(bus) => bus.plan.groups.as_slice(),
        None => &[],
    }
}

// The signals of a group.
fn signals_of(buses: &[BusPlan], group: GroupAt) -> &[Signal]
    ensures { result.now ≡ spec.signals_in_group buses.now group }
{
    match groups_on(buses, group.bus).get(group.group) {
        Some(group) => group.signals.as_slice(),
        None => &[],
    }
}

fn first_unit(units: &[UnitPlan], label: &str) -> Option<usize>
    ensures { result ≡ position (λ u. bytes_eq u.label.bytes label.now) units.now }
{
    units.iter().position(|unit| unit.label.as_str() == label)
}

fn first_group(groups: &[GroupPlan], label: &str) -> Option<usize>
    ensures { result ≡ position (λ g. bytes_eq g.label.bytes label.now) groups.now }
{
    groups
        .iter()
        .position(|group| group.label.as_str() == label)
}

fn first_signal(signals: &[Signal], label: &str) -> Option<usize>
    ensures { result ≡ position (λ s. bytes_eq s.label.bytes label.now && not s.repeated) signals.now }
{
    signals.iter().position(|signal| signal.label().as_str() == label && !signal.is_repeated())
}

/// The place of the unit of a label on the bus at a place.
pub fn unit_place(buses: &[BusPlan], bus: usize, label: &str) -> Option<usize>
    ensures { result ≡ spec.unit_place buses.now bus label.now }
{
    first_unit(units_on(buses, bus), label)
}

/// The place of the group of a label on the bus at a place.
pub fn group_place(buses: &[BusPlan], bus: usize, label: &str) -> Option<usize>
    ensures { result ≡ spec.group_place buses.now bus label.now }
{
    first_group(groups_on(buses, bus), label)
}

/// The place of the signal of a label in a group, where it isn't repeated.
pub fn signal_place(buses: &[BusPlan], group: GroupAt, label: &str) -> Option<usize>
    ensures { result ≡ spec.signal_place buses.now group label.now }
{
    first_signal(signals_of(buses, group), label)
}

/// The unit that a name on a bus stands for.
pub fn unit_named(buses: &[BusPlan], name: &str) -> Option<UnitAt>
    ensures { result ≡ spec.unit_labelled buses.now name.now }
{
    let bus = bus_place(buses, before_point(name))?;
    let unit = unit_place(buses, bus, behind_point(name))?;
    Some(UnitAt { bus, unit })
}

/// The group that a name on a bus stands for.
pub fn group_named(buses: &[BusPlan], name: &str) -> Option<GroupAt>
    ensures { result ≡ spec.group_named buses.now name.now }
{
    let bus = bus_place(buses, before_point(name))?;
    let group = group_place(buses, bus, behind_point(name))?;
    Some(GroupAt { bus, group })
}

/// Whom a word names on the bus at a place.
pub fn receivers_on(buses: &[BusPlan], bus: usize, word: &str) -> Option<To>
    ensures { result ≡ spec.receivers_on buses.now bus word.now }
{
    if word == "all" {
        Some(To::All)
    } else {
        unit_place(buses, bus, word).map(To::One)
    }
}
