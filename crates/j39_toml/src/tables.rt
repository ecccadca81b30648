//! Tables, their keys, and arrays of tables.
ghost use Rattle.std.specs.Prelude.{◌≡◌, ◌≤◌, string_bytes, Some, None, IfOk, IfSome, length, option_map};
ghost use Rattle.std.specs.List.{list_all};
ghost use Rattle.std.specs.Map.{keys_of};
ghost use Rattle.toml.specs.Data.{as_table};
ghost use Rattle.toml.specs.View.{view, table_view, items_view};
ghost use Rattle.j39_toml.specs.declared.cause.Cause.TheVariants.{UnknownKey};
ghost use Rattle.j39_toml.specs.declared.file_error.FileError.TheVariants as errors;
ghost use Rattle.j39_toml.specs.Rules.{array_found, array_up_to, elements_found, rule_of};
ghost use Rattle.j39_toml.specs.TableFaults.{fault, is_key_word, key_faults, table_only_faults, unknown_faults};
ghost use Rattle.j39_toml.specs.Outcome.{Gives};

use crate::keys::{FileKey, value_at};
use crate::values::refused;
use crate::{Cause, FileError, Place, TableFault};
use toml::Value;

/// The array at a key, of at most so many elements, or none where the key is absent, unless it is required.
#[tactic(auto, using(crate::proofs::TableViews::items_count_view), unfolding(crate::specs::TableFaults::key_faults, crate::specs::Rules::array_found, crate::specs::Rules::array_up_to))]
pub fn given_array<'a, T: Copy, K: FileKey>(
    members: &'a toml::Table,
    table: T,
    key: K,
    limit: usize,
    is_required: bool,
) -> Result<Option<&'a [Value]>, FileError<TableFault<T, K>>>
    ensures gives { let rule = rule_of K.word key (array_up_to limit) is_required in
        Gives result (key_faults table (table_view members.now) rule)
        (λ found. array_found K.word key (table_view members.now) ≡ option_map (λ vs. items_view vs.now) found) }
    ensures count { IfOk result (λ found. IfSome found (λ vs. length vs.now ≤ limit)) }
{
    match value_at(members, key) {
        None => {
            if is_required {
                Err(refused(Cause::Missing, table, key))
            } else {
                Ok(None)
            }
        }
        Some(value) => match value.as_array() {
            None => Err(refused(Cause::WrongType, table, key)),
            Some(values) => {
                if values.len() <= limit {
                    Ok(Some(values.as_slice()))
                } else {
                    Err(refused(Cause::TooMany, table, key))
                }
            }
        },
    }
}

/// The elements of the array at a key, of which there are at most so many: none where the key is absent, unless it is
/// required.
pub fn elements<'a, T: Copy, K: FileKey>(
    members: &'a toml::Table,
    table: T,
    key: K,
    limit: usize,
    is_required: bool,
) -> Result<&'a [Value], FileError<TableFault<T, K>>>
    ensures gives { let rule = rule_of K.word key (array_up_to limit) is_required in
        Gives result (key_faults table (table_view members.now) rule)
        (λ vs. items_view vs.now ≡ elements_found K.word key (table_view members.now)) }
    ensures count { IfOk result (λ vs. length vs.now ≤ limit) }
{
    match given_array(members, table, key, limit, is_required)? {
        Some(values) => Ok(values),
        None => Ok(&[]),
    }
}

/// The refusal of a table that has an unknown key.
pub fn unknown_key<T: Copy, K: FileKey>(table: T) -> FileError<TableFault<T, K>>
    ensures { result ≡ errors.Fault (fault UnknownKey table None) }
{
    FileError::Fault(TableFault {
        cause: Cause::UnknownKey,
        place: Place { table, key: None },
    })
}

fn is_named<K: FileKey>(name: &str, keys: &[K]) -> bool
    ensures { result ≡ is_key_word K.word keys.now name.now }
{
    keys.iter().any(|key| key.spelled() == name)
}

fn has_only<K: FileKey>(members: &toml::Table, keys: &[K]) -> bool
    ensures { result
        ≡ list_all (λ name. is_key_word K.word keys.now (string_bytes name)) (keys_of members.now.entries) }
{
    members.keys().all(|name| is_named(name.as_str(), keys))
}

/// Refuses a table with a key that is none of these.
#[tactic(auto, using(crate::proofs::TableViews::has_only_view), unfolding(crate::specs::TableFaults::unknown_faults))]
pub fn only<T: Copy, K: FileKey>(
    members: &toml::Table,
    table: T,
    keys: &[K],
) -> Result<(), FileError<TableFault<T, K>>>
    ensures { Gives result (unknown_faults K.word table keys.now (table_view members.now)) (λ _. Unit {0}) }
{
    if has_only(members, keys) {
        Ok(())
    } else {
        Err(unknown_key(table))
    }
}

/// The members of a value that is to be a table.
#[tactic(auto, unfolding(crate::specs::TableFaults::table_only_faults))]
pub fn table_of<T: Copy, K: FileKey>(
    value: &Value,
    table: T,
) -> Result<&toml::Table, FileError<TableFault<T, K>>>
    ensures { Gives result (table_only_faults table (view value.now))
        (λ t. Some (table_view t.now) ≡ as_table (view value.now)) }
{
    match value.as_table() {
        None => Err(FileError::Fault(TableFault {
            cause: Cause::WrongType,
            place: Place { table, key: None },
        })),
        Some(members) => Ok(members),
    }
}
