//! The values of a table's keys.
ghost use Rattle.std.specs.Prelude.{◌≡◌, ◌≤◌, Some, IfSome, IfOk};
ghost use Rattle.toml.specs.View.{table_view};
ghost use Rattle.j39_vehicle.specs.declared.reading.text_kind.TextKind.TheVariants as texts;
ghost use Rattle.j39_vehicle.specs.Schema as schema;
ghost use Rattle.j39_toml.specs.Rules.{natural_in, truth};
ghost use Rattle.j39_toml.specs.TableFaults.{key_faults};
ghost use Rattle.j39_toml.specs.Outcome.{Gives};

use super::text_kind::TextKind;
use super::{Key, Table, VehicleError};
use arrayvec::ArrayString;
use j39_id::Label;
use j39_toml::{Cause, given_number, refused, required_text, value_at};

/// The number at a key, within a range, or none where the key is absent, unless it is needed.
pub fn number(
    members: &toml::Table,
    table: Table,
    key: Key,
    low: u16,
    high: u16,
    is_needed: bool,
) -> Result<Option<u16>, VehicleError>
    ensures gives { let rule = schema.rule key (natural_in low high) is_needed in
        Gives result (key_faults table (table_view members.now) rule)
        (λ given. given ≡ schema.number_under key (table_view members.now)) }
    ensures at_least { IfOk result (λ given. IfSome given (λ n. low ≤ n)) }
{
    match given_number(
        members,
        table,
        key,
        u32::from(low),
        u32::from(high),
        is_needed,
    )? {
        None => Ok(None),
        Some(number) => Ok(Some(number as u16)),
    }
}

/// The truth value at a key, or none where the key is absent.
#[tactic(auto, unfolding(j39_toml::specs::TableFaults::key_faults, j39_toml::specs::Rules::truth_found, j39_toml::specs::Rules::truth))]
pub fn optional_truth(
    members: &toml::Table,
    table: Table,
    key: Key,
) -> Result<Option<bool>, VehicleError>
    ensures { let rule = schema.optional key truth in
        Gives result (key_faults table (table_view members.now) rule)
        (λ given. given ≡ schema.truth_at key (table_view members.now)) }
{
    match value_at(members, key) {
        None => Ok(None),
        Some(value) => match value.as_bool() {
            None => Err(refused(Cause::WrongType, table, key)),
            Some(flag) => Ok(Some(flag)),
        },
    }
}

/// The label at the key of labels.
pub fn label(members: &toml::Table, table: Table) -> Result<Label, VehicleError>
    ensures { let rule = schema.needed Key.Label (schema.text_as texts.Label) in
        Gives result (key_faults table (table_view members.now) rule)
        (λ l. schema.text_at Key.Label (table_view members.now) ≡ Some l.bytes) }
{
    let text = required_text(members, table, Key::Label, TextKind::Label)?;
    match ArrayString::from(text) {
        Ok(label) => Ok(label),
        Err(_) => Err(refused(Cause::Range, table, Key::Label)),
    }
}
