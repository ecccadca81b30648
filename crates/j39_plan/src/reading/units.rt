//! The units of a plan.
ghost use Rattle.std.specs.Prelude.{◌≡◌, ◌<◌, false, IfOk};
ghost use Rattle.j39_id.specs.Addresses.{null_address};
ghost use Rattle.j39_id.specs.Name.{is_arbitrary};
ghost use Rattle.toml.specs.View.{table_view};
ghost use Rattle.j39_toml.specs.Rules.{text_of, number_of};
ghost use Rattle.j39_toml.specs.TableFaults.{key_faults};
ghost use Rattle.j39_plan.specs.Since.{since, since_faults};
ghost use Rattle.j39_plan.specs.declared.reading.version.Version.TheVariants.{Fourth};
ghost use Rattle.j39_toml.specs.Outcome.{Gives};
ghost use Rattle.j39_plan.specs.UnitTables.{way_of, address_rule, chooser_rule, claims_of, claims_rule, queue_in};
ghost use Rattle.j39_plan.specs.UnitTables.{queue_of, queue_rule, silent_faults, unit_table_faults, DescribesUnit};

use super::keys::UNIT_KEYS;
use super::labels::untaken;
use super::names::{is_open, name};
use super::tables::{inner, only_known};
use super::text_kind::TextKind;
use super::values::{flag, number, short_text, text};
use super::{Cause, Key, PlanError, PlanFault, Table, Version};
use j39_id::{Address, Name};
use j39_network::{Queue, UnitPlan, Way};
use j39_toml::{ReadElement, refused, table_of};
use std::alloc::Global;
use toml::Value;

fn address(members: &toml::Table, table: Table) -> Result<Address, PlanError>
    ensures gives { Gives result (key_faults table (table_view members.now) address_rule)
        (λ a. a ≡ number_of address_rule (table_view members.now)) }
    ensures range { IfOk result (λ a. a < null_address) }
{
    let number = number(members, table, Key::Address, 0, 253, None)?;
    match Address::new(number as u8) {
        Some(address) => Ok(address),
        None => unreachable!(),
    }
}

fn way_of(word: &str) -> Way
    ensures { result ≡ way_of word.now }
{
    if word == "upward" {
        Way::Upward
    } else {
        Way::Lowest
    }
}

fn way(members: &toml::Table, table: Table) -> Result<Way, PlanError>
    ensures { Gives result (key_faults table (table_view members.now) chooser_rule)
        (λ w. w ≡ way_of (text_of chooser_rule (table_view members.now))) }
{
    let word = text(
        members,
        table,
        Key::Chooser,
        TextKind::Chooser,
        Some("lowest"),
    )?;
    Ok(way_of(word))
}

fn queue_in(word: &str) -> Queue
    ensures { result ≡ queue_in word.now }
{
    if word == "any" {
        Queue::Any
    } else {
        Queue::Priority
    }
}

fn queue(members: &toml::Table, table: Table) -> Result<Queue, PlanError>
    ensures { Gives result (key_faults table (table_view members.now) queue_rule)
        (λ q. q ≡ queue_in (text_of queue_rule (table_view members.now))) }
{
    let word = text(
        members,
        table,
        Key::Queue,
        TextKind::Queue,
        Some("priority"),
    )?;
    Ok(queue_in(word))
}

// How its controller chooses among frames that wait: by priority in a version that knows no other way.
#[tactic(auto)]
fn known_queue(version: Version, members: &toml::Table, table: Table) -> Result<Queue, PlanError>
    ensures { Gives result (since_faults table version (table_view members.now) (since Fourth queue_rule))
        (λ q. q ≡ queue_of version (table_view members.now)) }
{
    if version.knows(Version::Fourth) {
        queue(members, table)
    } else {
        Ok(Queue::Priority)
    }
}

// Whether it claims its address: it does in a version that knows no other.
fn known_claims(version: Version, members: &toml::Table, table: Table) -> Result<bool, PlanError>
    ensures { Gives result (since_faults table version (table_view members.now) (since Fourth claims_rule))
        (λ b. b ≡ claims_of version (table_view members.now)) }
{
    if version.knows(Version::Fourth) {
        flag(members, table, Key::Claims, true)
    } else {
        Ok(true)
    }
}

// Refuses a unit that doesn't claim and may choose.
#[tactic(auto, unfolding(crate::specs::UnitTables::silent_faults))]
fn silent_stays(index: usize, claims: bool, name: Name) -> Result<(), PlanError>
    ensures gives { Gives result (silent_faults index claims name) (λ _. Unit {0}) }
    ensures stays { IfOk result (λ _. claims ≡ false → is_arbitrary name ≡ false) }
{
    if !claims && name.is_arbitrary() {
        Err(refused(Cause::Range, Table::Unit(index), Key::Claims))
    } else {
        Ok(())
    }
}

#[tactic(auto, using(j39_toml::proofs::FirstFaults::faults_after), unfolding(crate::specs::UnitTables::unit_table_faults))]
fn unit(version: Version, index: usize, members: &toml::Table) -> Result<UnitPlan, PlanError>
    ensures { Gives result (unit_table_faults version index (table_view members.now))
        (DescribesUnit version (table_view members.now)) }
{
    let table = Table::Unit(index);
    only_known(members, table, version, &UNIT_KEYS)?;
    let label = short_text(members, table, Key::Label, TextKind::UnitLabel, None)?;
    let address = address(members, table)?;
    let way = way(members, table)?;
    let window = number(members, table, Key::Window, 1, 255, Some(255))?;
    let queue = known_queue(version, members, table)?;
    let inside = inner(members, table, Key::Name)?;
    let claims = known_claims(version, members, table)?;
    let name = name(version, index, inside)?;
    silent_stays(index, claims, name)?;
    Ok(UnitPlan {
        label,
        address,
        name,
        any_identity: is_open(version, inside, name),
        way,
        window: window as u8,
        queue,
        claims,
    })
}

/// The reader of units.
#[derive(Clone, Copy)]
pub struct UnitReader {
    pub version: Version,
}

impl ReadElement<UnitPlan, PlanFault> for UnitReader {
    ghost use Rattle.std.specs.Prelude.{ℕ, List};
    ghost use Rattle.j39_toml.specs.InOrder.{NeverGrows};
    ghost use Rattle.j39_plan.specs.UnitTables.{unit_faults, unit_label_in, IsUnitOf};

    ghost Label = { List ℕ };

    ghost label = { λ u. u.label.bytes };

    ghost data_label = { unit_label_in };

    ghost faults = { λ r. unit_faults r.version };

    ghost Grows = { λ _. NeverGrows };

    ghost Describes = { λ r. IsUnitOf r.version };

    #[tactic(auto, using(j39_toml::proofs::FirstFaults::faults_after), unfolding(crate::specs::UnitTables::unit_faults))]
    fn read(
        &self,
        _alloc: Global,
        index: usize,
        seen: &[UnitPlan],
        value: &Value,
    ) -> Result<UnitPlan, PlanError> {
        let table = Table::Unit(index);
        let unit = unit(self.version, index, table_of::<Table, Key>(value, table)?)?;
        untaken(seen, unit.label.as_str(), TextKind::UnitLabel, table)?;
        Ok(unit)
    }
}
