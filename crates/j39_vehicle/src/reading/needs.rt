//! The needs of a vehicle file.
ghost use Rattle.std.specs.Prelude.{◌≡◌, ◌≤◌, [], map, option_map, Some, string_bytes, IfOk, IfErr};
ghost use Rattle.std.specs.Option.{ForSome};
ghost use Rattle.toml.specs.View.{table_view};
ghost use Rattle.j39_toml.specs.declared.file_error.FileError.TheVariants.{Memory};
ghost use Rattle.j39_vehicle.specs.Words.{word_of};
ghost use Rattle.j39_vehicle.specs.TextKinds.{name_of};
ghost use Rattle.j39_vehicle.specs.Schema.{number_under, text_at};
ghost use Rattle.j39_vehicle.specs.LabelsSeen.{is_label_among};
ghost use Rattle.j39_toml.specs.Outcome.{Gives, GivesGrowing};
ghost use Rattle.j39_toml.specs.TableFaults.{table_faults};
ghost use Rattle.j39_vehicle.specs.BusTables.{named_bus};
ghost use Rattle.j39_vehicle.specs.NeedTables as spec;

use super::named::{has_label, known};
use super::owned::{name, optional_owned, owned};
use super::text_kind::TextKind;
use super::values::number;
use super::{Key, Table, VehicleError, VehicleFault};
use crate::file::{BusTable, NeedTable, before_point};
use j39_toml::{ReadElement, given_text, only, required_text, table_of};
use std::alloc::Global;
use toml::Value;

const NEED_KEYS: [Key; 5] = [Key::Unit, Key::Group, Key::Signal, Key::From, Key::Within];

// What stands at the keys of a need.
#[derive(Clone, Copy)]
struct NeedKeys<'a> {
    unit: &'a str,
    group: &'a str,
    signal: Option<&'a str>,
    from: &'a str,
    within: Option<u16>,
    ghost within_positive: { ForSome within (λ n. 1 ≤ n) },
}

#[tactic(auto, using(j39_toml::proofs::FirstFaults::faults_after))]
fn keys(members: &toml::Table, table: Table) -> Result<NeedKeys<'_>, VehicleError>
    ensures { let ms = table_view members.now in
        Gives result (table_faults word_of table spec.need_rules ms) (λ k.
        (text_at Key.Unit ms ≡ Some k.unit.now) × (text_at Key.Group ms ≡ Some k.group.now)
        × (text_at Key.Signal ms ≡ option_map (λ t. t.now) k.signal) × (text_at Key.From ms ≡ Some k.from.now)
        × (k.within ≡ number_under Key.Within ms)) }
{
    only(members, table, &NEED_KEYS)?;
    let unit = required_text(members, table, Key::Unit, TextKind::OnBus)?;
    let group = required_text(members, table, Key::Group, TextKind::Any)?;
    let signal = given_text(members, table, Key::Signal, TextKind::Any)?;
    let from = required_text(members, table, Key::From, TextKind::OnBus)?;
    let within = number(members, table, Key::Within, 1, 65_535, false)?;
    Ok(NeedKeys {
        unit,
        group,
        signal,
        from,
        within,
    })
}

// The need of these keys, with texts of its own.
fn stated(alloc: Global, keys: &NeedKeys<'_>) -> Result<NeedTable, VehicleError>
    ensures stated { IfOk result (λ d. (string_bytes d.unit.text ≡ keys.now.unit.now)
        × (string_bytes d.group ≡ keys.now.group.now)
        × (option_map string_bytes d.signal ≡ option_map (λ t. t.now) keys.now.signal)
        × (string_bytes d.from.text ≡ keys.now.from.now) × (d.within ≡ keys.now.within)) }
    ensures memory { IfErr result (λ e. e ≡ Memory) }
{
    Ok(NeedTable {
        unit: name(alloc, keys.unit)?,
        group: owned(alloc, keys.group)?,
        signal: optional_owned(alloc, keys.signal)?,
        from: name(alloc, keys.from)?,
        within: keys.within,
    })
}

// Whether a unit's bus is one of these.
fn is_on_bus(buses: &[BusTable], unit: &str) -> bool
    ensures { result ≡ is_label_among (map named_bus buses.now) (name_of unit.now).bus }
{
    has_label(buses, before_point(unit))
}

#[tactic(auto, using(j39_toml::proofs::FirstFaults::faults_after), unfolding(crate::specs::NeedTables::need_table_faults))]
fn need(
    alloc: Global,
    buses: &[BusTable],
    index: usize,
    members: &toml::Table,
) -> Result<NeedTable, VehicleError>
    ensures { let faults = spec.need_table_faults (map named_bus buses.now) index (table_view members.now) in
        GivesGrowing (faults ≡ []) result faults (spec.DescribesNeed (table_view members.now)) }
{
    let table = Table::Need(index);
    let keys = keys(members, table)?;
    known(is_on_bus(buses, keys.unit), table, Key::Unit)?;
    known(is_on_bus(buses, keys.from), table, Key::From)?;
    stated(alloc, &keys)
}

/// The reader of needs.
#[derive(Clone, Copy)]
pub struct NeedReader<'a> {
    pub buses: &'a [BusTable],
}

impl ReadElement<NeedTable, VehicleFault> for NeedReader<'_> {
    ghost use Rattle.j39_vehicle.specs.LabelsSeen.{Named, nameless};
    ghost use Rattle.j39_vehicle.specs.Growing.{NeedGrows};
    ghost use Rattle.j39_vehicle.specs.VehicleFaults.{no_name};
    ghost use Rattle.j39_vehicle.specs.NeedTables.{need_faults, IsNeedOf};

    ghost Label = { Named };

    ghost label = { λ _. nameless };

    ghost data_label = { no_name };

    ghost faults = { λ r i seen. need_faults (map named_bus r.buses.now) i };

    ghost Grows = { λ r. NeedGrows (map named_bus r.buses.now) };

    ghost Describes = { λ _. IsNeedOf };

    #[tactic(auto, using(j39_toml::proofs::FirstFaults::faults_after), unfolding(crate::specs::NeedTables::need_faults))]
    fn read(
        &self,
        alloc: Global,
        index: usize,
        _seen: &[NeedTable],
        value: &Value,
    ) -> Result<NeedTable, VehicleError> {
        need(
            alloc,
            self.buses,
            index,
            table_of::<Table, Key>(value, Table::Need(index))?,
        )
    }
}
