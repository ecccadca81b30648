//! The NAMEs of units.
ghost use Rattle.std.specs.Prelude.{◌≡◌, ◌<◌, ◌^◌, ◌%◌, true, IfOk};
ghost use Rattle.toml.specs.View.{table_view};
ghost use Rattle.j39_id.specs.Name.{name_number, first_out};
ghost use Rattle.j39_toml.specs.Outcome.{Gives};
ghost use Rattle.j39_plan.specs.UnitTables.{identity_rule, lacks_identity, name_faults, name_fields_of};
ghost use Rattle.j39_toml.specs.Rules.{number_of};
ghost use Rattle.j39_toml.specs.TableFaults.{key_faults};

use super::keys::NAME_KEYS;
use super::values::{flag, has_key, number};
use super::{Key, PlanError, Table, Version};
use j39_id::{Name, NameFields};
use j39_toml::only;

// The identity number, which the fourth version lets be absent.
fn identity(version: Version, members: &toml::Table, table: Table) -> Result<u32, PlanError>
    ensures gives { Gives result (key_faults table (table_view members.now) (identity_rule version))
        (λ n. n ≡ number_of (identity_rule version) (table_view members.now)) }
    ensures range { IfOk result (λ n. n < 2 ^ 21) }
{
    if version.knows(Version::Fourth) {
        number(members, table, Key::Identity, 0, 2_097_151, Some(0))
    } else {
        number(members, table, Key::Identity, 0, 2_097_151, None)
    }
}

// Whether a NAME leaves its identity number open.
fn lacks_identity(version: Version, members: &toml::Table) -> bool
    ensures { result ≡ lacks_identity version (table_view members.now) }
{
    version.knows(Version::Fourth) && !has_key(members, Key::Identity)
}

#[tactic(auto, using(j39_toml::proofs::FirstFaults::faults_after), unfolding(crate::specs::UnitTables::name_faults, crate::specs::UnitTables::name_fields_of))]
fn name_fields(
    version: Version,
    index: usize,
    members: &toml::Table,
) -> Result<NameFields, PlanError>
    ensures gives { Gives result (name_faults version index (table_view members.now))
        (λ f. f ≡ name_fields_of version (table_view members.now)) }
    ensures in_range { IfOk result (λ f. first_out f ≡ None) }
{
    let table = Table::UnitName(index);
    only(members, table, &NAME_KEYS)?;
    let identity = identity(version, members, table)?;
    let manufacturer = number(members, table, Key::Manufacturer, 0, 2047, Some(0))?;
    let ecu = number(members, table, Key::Ecu, 0, 7, Some(0))?;
    let function_instance = number(members, table, Key::FunctionInstance, 0, 31, Some(0))?;
    let function = number(members, table, Key::Function, 0, 255, Some(0))?;
    let system = number(members, table, Key::System, 0, 127, Some(0))?;
    let system_instance = number(members, table, Key::SystemInstance, 0, 15, Some(0))?;
    let industry = number(members, table, Key::Industry, 0, 7, Some(0))?;
    let is_arbitrary = flag(members, table, Key::Arbitrary, false)?;
    Ok(NameFields {
        identity,
        manufacturer: manufacturer as u16,
        ecu: ecu as u8,
        function_instance: function_instance as u8,
        function: function as u8,
        reserved: 0,
        system: system as u8,
        system_instance: system_instance as u8,
        industry: industry as u8,
        arbitrary: u8::from(is_arbitrary),
    })
}

/// The NAME that a table reports, with 0 for an identity number that is left open.
pub fn name(version: Version, index: usize, members: &toml::Table) -> Result<Name, PlanError>
    ensures gives { Gives result (name_faults version index (table_view members.now))
        (λ n. n ≡ name_number (name_fields_of version (table_view members.now))) }
    ensures range { IfOk result (λ n. n < 2 ^ 64) }
{
    let fields = name_fields(version, index, members)?;
    match Name::from_fields(fields) {
        Ok(name) => Ok(name),
        Err(_) => unreachable!(),
    }
}

/// Whether the NAME of a table leaves its identity number open, and so has 0 there.
pub fn is_open(version: Version, members: &toml::Table, name: Name) -> bool
    requires { name ≡ name_number (name_fields_of version (table_view members.now)) }
    ensures value { result ≡ lacks_identity version (table_view members.now) }
    ensures number { result ≡ true → name % 2 ^ 21 ≡ 0 }
{
    lacks_identity(version, members)
}
