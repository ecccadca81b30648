//! Tables and arrays of tables.
ghost use Rattle.std.specs.Prelude.{◌≡◌, string_bytes, Some, option_map};
ghost use Rattle.std.specs.List.{list_all};
ghost use Rattle.std.specs.Map.{keys_of};
ghost use Rattle.toml.specs.Data.{as_table};
ghost use Rattle.toml.specs.View.{table_view, items_view};
ghost use Rattle.j39_plan.specs.Words.{word_of};
ghost use Rattle.j39_plan.specs.Schema as schema;
ghost use Rattle.j39_toml.specs.TableFaults.{key_faults, unknown_faults};
ghost use Rattle.j39_plan.specs.Since.{is_known_word, known_keys};
ghost use Rattle.j39_toml.specs.Outcome.{Gives};

use super::{Cause, Key, PlanError, Table, Version};
use j39_toml::{elements, refused, unknown_key, value_at};
use toml::Value;

/// The table at a key.
#[tactic(auto, unfolding(j39_toml::specs::TableFaults::key_faults, j39_toml::specs::Rules::table_found, j39_toml::specs::Rules::one_table))]
pub fn inner<'a>(
    members: &'a toml::Table,
    table: Table,
    key: Key,
) -> Result<&'a toml::Table, PlanError>
    ensures { let rule = schema.inner_table key in
        Gives result (key_faults table (table_view members.now) rule)
        (λ t. Some (table_view t.now) ≡ schema.table_of rule (table_view members.now)) }
{
    match value_at(members, key) {
        None => Err(refused(Cause::Missing, table, key)),
        Some(value) => match value.as_table() {
            None => Err(refused(Cause::WrongType, table, key)),
            Some(inner) => Ok(inner),
        },
    }
}

/// The table at a key, or none where the key is absent.
#[tactic(auto, unfolding(j39_toml::specs::TableFaults::key_faults, j39_toml::specs::Rules::table_found, j39_toml::specs::Rules::one_table))]
pub fn optional_inner<'a>(
    members: &'a toml::Table,
    table: Table,
    key: Key,
) -> Result<Option<&'a toml::Table>, PlanError>
    ensures { let rule = schema.optional_table key in
        Gives result (key_faults table (table_view members.now) rule)
        (λ found. option_map (λ t. table_view t.now) found ≡ schema.table_of rule (table_view members.now)) }
{
    match value_at(members, key) {
        None => Ok(None),
        Some(value) => match value.as_table() {
            None => Err(refused(Cause::WrongType, table, key)),
            Some(inner) => Ok(Some(inner)),
        },
    }
}

/// The array at a key, of at most so many elements, and an empty one where the key is absent.
#[tactic(auto, using(j39_toml::proofs::TableViews::items_count_view), unfolding(crate::specs::Schema::tables_of, j39_toml::specs::Rules::array_up_to))]
pub fn array<'a>(
    members: &'a toml::Table,
    table: Table,
    key: Key,
    limit: usize,
) -> Result<&'a [Value], PlanError>
    ensures { let rule = schema.tables key limit in
        Gives result (key_faults table (table_view members.now) rule)
        (λ vs. items_view vs.now ≡ schema.tables_of rule (table_view members.now)) }
{
    let values = elements(members, table, key, limit, false)?;
    Ok(values)
}

fn is_known(name: &str, version: Version, keys: &[(Key, Version)]) -> bool
    ensures { result ≡ is_known_word version keys.now name.now }
{
    keys.iter()
        .any(|key| version.knows(key.1) && key.0.word() == name)
}

fn has_known(members: &toml::Table, version: Version, keys: &[(Key, Version)]) -> bool
    ensures { result
        ≡ list_all (λ name. is_known_word version keys.now (string_bytes name)) (keys_of members.now.entries) }
{
    members
        .keys()
        .all(|name| is_known(name.as_str(), version, keys))
}

/// Refuses a table with a key that the version doesn't know, of these, each with the version since which it is known.
#[tactic(auto, using(crate::proofs::Tables::has_known_view), unfolding(j39_toml::specs::TableFaults::unknown_faults))]
pub fn only_known(
    members: &toml::Table,
    table: Table,
    version: Version,
    keys: &[(Key, Version)],
) -> Result<(), PlanError>
    ensures { let known = known_keys version keys.now in
        Gives result (unknown_faults word_of table known (table_view members.now)) (λ _. Unit {0}) }
{
    if has_known(members, version, keys) {
        Ok(())
    } else {
        Err(unknown_key(table))
    }
}
