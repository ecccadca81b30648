//! What is said of a signal beside its place and its scale: whether it is optional, its number, and the names of its
//! raw numbers.
ghost use Rattle.std.specs.Prelude.{◌≡◌, ◌≤◌, ◌^◌, ◌&&◌, if◌then◌else◌, true, false, Some, None, is_some, string_bytes};
ghost use Rattle.std.specs.Prelude.{unwrap_or, option_map, length, IfOk, IfSome, MatchOption};
ghost use Rattle.std.specs.List.{list_all};
ghost use Rattle.std.specs.Map.{keys_of, values_of};
ghost use Rattle.std.specs.Option.{option_map_or};
ghost use Rattle.std.specs.Char.{is_ascii_digit};
ghost use Rattle.std.specs.Str.Parse.{digits_value};
ghost use Rattle.toml.specs.Data.{as_str, no_members};
ghost use Rattle.toml.specs.View.{view, table_view};
ghost use Rattle.j39_id.specs.LabelForm.{is_label};
ghost use Rattle.j39_network.specs.PlanLimits.{spn_most, value_limit};
ghost use Rattle.j39_plan.specs.Schema as schema;
ghost use Rattle.j39_toml.specs.Rules.{flag_of};
ghost use Rattle.j39_plan.specs.ValueCauses.{has_labels, has_numbers, has_texts, is_decimal, is_number_below};
ghost use Rattle.j39_plan.specs.ValueCauses.{names_cause};
ghost use Rattle.j39_toml.specs.TableFaults.{key_faults};
ghost use Rattle.j39_plan.specs.MeaningTables.{AreValueNames, DescribesKeys, meaning_rules, optional_rule, raw_limit};
ghost use Rattle.j39_plan.specs.Since.{known_faults};
ghost use Rattle.j39_toml.specs.Outcome.{Gives};

use super::text_kind::TextKind;
use super::values::flag_if;
use super::{Cause, Key, PlanError, Table, Version};
use arrayvec::ArrayString;
use j39_id::Label;
use j39_network::limits::{SPN_MOST, VALUE_LIMIT};
use j39_network::{Meaning, ValueName};
use j39_toml::{given_number, refused, value_at};
use std::alloc::{AllocError, Global};
use toml::Value;

fn are_digits(bytes: &[u8]) -> bool
    ensures { result ≡ list_all is_ascii_digit bytes.now }
{
    bytes.iter().all(|byte| byte.is_ascii_digit())
}

#[tactic(auto, using(crate::proofs::Numbers::are_digits_view))]
fn is_decimal(name: &str) -> bool
    ensures { result ≡ is_decimal name.now }
{
    let bytes = name.as_bytes();
    are_digits(bytes) && (bytes.len() == 1 || (1 < bytes.len() && bytes[0] != b'0'))
}

// The number that a name is in decimal digits, without sign and leading zeros, where it is one below the limit.
fn number_below(limit: u64, name: &str) -> Option<u32>
    requires { limit ≤ 2 ^ 32 }
    ensures { result ≡ (if is_number_below limit name.now then Some (digits_value 10 name.now) else None) }
{
    if !is_decimal(name) {
        return None;
    }
    match name.parse::<u32>() {
        Ok(number) => {
            if u64::from(number) < limit {
                Some(number)
            } else {
                None
            }
        }
        Err(_) => None,
    }
}

fn label(value: &Value) -> Option<Label>
    ensures { MatchOption result (option_map_or is_label (as_str (view value.now)) false ≡ false)
        (λ l. (option_map_or is_label (as_str (view value.now)) false ≡ true)
        × (as_str (view value.now) ≡ Some l.bytes)) }
{
    let text = value.as_str()?;
    if !TextKind::Label.takes(text) {
        return None;
    }
    match ArrayString::from(text) {
        Ok(label) => Some(label),
        Err(_) => unreachable!(),
    }
}

// The raw number that a key of a table of names reports, and the name that its value is.
fn value_name(limit: u64, name: &str, value: &Value) -> Option<ValueName>
    requires { limit ≤ 2 ^ 32 }
    ensures { MatchOption result ((is_number_below limit name.now
        && option_map_or is_label (as_str (view value.now)) false) ≡ false)
        (λ n. ((is_number_below limit name.now && option_map_or is_label (as_str (view value.now)) false) ≡ true)
        × (n.raw ≡ digits_value 10 name.now) × (as_str (view value.now) ≡ Some n.name.bytes)) }
{
    let raw = number_below(limit, name)?;
    let name = label(value)?;
    Some(ValueName { raw, name })
}

fn is_text(value: &Value) -> bool
    ensures { result ≡ is_some (as_str (view value.now)) }
{
    value.as_str().is_some()
}

fn are_texts(names: &toml::Table) -> bool
    ensures { result ≡ list_all (λ value. is_some (as_str (view value))) (values_of names.now.entries) }
{
    names.values().all(|value| is_text(value))
}

#[tactic(auto, using(crate::proofs::Numbers::has_texts_view))]
fn has_texts(names: &toml::Table) -> bool
    ensures { result ≡ has_texts (table_view names.now) }
{
    are_texts(names)
}

fn is_number_below(limit: u64, name: &str) -> bool
    requires { limit ≤ 2 ^ 32 }
    ensures { result ≡ is_number_below limit name.now }
{
    number_below(limit, name).is_some()
}

fn are_numbers(limit: u64, names: &toml::Table) -> bool
    requires { limit ≤ 2 ^ 32 }
    ensures { result ≡ list_all (λ name. is_number_below limit (string_bytes name)) (keys_of names.now.entries) }
{
    names
        .keys()
        .all(|name| is_number_below(limit, name.as_str()))
}

#[tactic(auto, using(crate::proofs::Numbers::has_numbers_view))]
fn has_numbers(limit: u64, names: &toml::Table) -> bool
    requires { limit ≤ 2 ^ 32 }
    ensures { result ≡ has_numbers limit (table_view names.now) }
{
    are_numbers(limit, names)
}

fn is_label(value: &Value) -> bool
    ensures { result ≡ option_map_or is_label (as_str (view value.now)) false }
{
    label(value).is_some()
}

fn are_labels(names: &toml::Table) -> bool
    ensures { result
        ≡ list_all (λ value. option_map_or is_label (as_str (view value)) false) (values_of names.now.entries) }
{
    names.values().all(|value| is_label(value))
}

#[tactic(auto, using(crate::proofs::Numbers::has_labels_view))]
fn has_labels(names: &toml::Table) -> bool
    ensures { result ≡ has_labels (table_view names.now) }
{
    are_labels(names)
}

// Why a table isn't one of names of numbers below the limit.
#[tactic(auto, using(crate::proofs::Numbers::members_count_view))]
fn names_cause(limit: u64, names: &toml::Table) -> Option<Cause>
    requires { limit ≤ 2 ^ 32 }
    ensures { result ≡ names_cause limit (table_view names.now) }
{
    if names.len() > VALUE_LIMIT {
        Some(Cause::TooMany)
    } else if !has_texts(names) {
        Some(Cause::WrongType)
    } else if !has_numbers(limit, names) || !has_labels(names) {
        Some(Cause::Range)
    } else {
        None
    }
}

// The table of names at the key, which may stand only where this says so.
#[tactic(auto, unfolding(j39_toml::specs::TableFaults::key_faults, j39_toml::specs::Rules::table_found, crate::specs::ValueCauses::names_below))]
fn names<'a>(
    members: &'a toml::Table,
    table: Table,
    may: bool,
    limit: u64,
) -> Result<Option<&'a toml::Table>, PlanError>
    requires { limit ≤ 2 ^ 32 }
    ensures gives { let rule = schema.names Key.Values may limit in
        Gives result (key_faults table (table_view members.now) rule)
        (λ found. option_map (λ t. table_view t.now) found ≡ schema.table_of rule (table_view members.now)) }
    ensures named { IfOk result (λ found. IfSome found (λ t. names_cause limit (table_view t.now) ≡ None)) }
{
    let Some(value) = value_at(members, Key::Values) else {
        return Ok(None);
    };
    let Some(found) = value.as_table() else {
        return Err(refused(Cause::WrongType, table, Key::Values));
    };
    if !may {
        return Err(refused(Cause::Range, table, Key::Values));
    }
    match names_cause(limit, found) {
        Some(cause) => Err(refused(cause, table, Key::Values)),
        None => Ok(Some(found)),
    }
}

/// What is said of a signal, its names as the file has them.
#[derive(Clone, Copy)]
pub struct MeaningKeys<'a> {
    pub optional: bool,
    pub spn: Option<u32>,
    pub names: Option<&'a toml::Table>,
}

// Whether the signal is optional, which it can't be where it is repeated.
#[tactic(auto, unfolding(j39_toml::specs::Rules::flag_of))]
fn optional(members: &toml::Table, table: Table, repeated: bool) -> Result<bool, PlanError>
    ensures { Gives result (key_faults table (table_view members.now) (optional_rule repeated))
        (λ b. b ≡ flag_of (optional_rule false) (table_view members.now)) }
{
    flag_if(members, table, Key::Optional, !repeated)
}

fn raw_limit(bits: u32) -> u64
    ensures value { result ≡ raw_limit bits }
    ensures most { result ≤ 2 ^ 32 }
{
    1 << bits.min(32)
}

/// The same of a signal of so many bits, which is repeated or isn't, and a trouble code or none, where the version
/// knows it.
#[tactic(auto, using(j39_toml::proofs::FirstFaults::faults_after))]
pub fn meaning_keys<'a>(
    members: &'a toml::Table,
    table: Table,
    version: Version,
    repeated: bool,
    code: bool,
    bits: u32,
) -> Result<MeaningKeys<'a>, PlanError>
    ensures gives { Gives result (known_faults table version (table_view members.now)
        (meaning_rules repeated code bits))
        (DescribesKeys version (table_view members.now)) }
    ensures spn { IfOk result (λ m. IfSome m.spn (λ n. n ≤ spn_most)) }
    ensures named { IfOk result (λ m. IfSome m.names (λ t. names_cause (raw_limit bits) (table_view t.now) ≡ None)) }
{
    if !version.knows(Version::Fourth) {
        return Ok(MeaningKeys {
            optional: false,
            spn: None,
            names: None,
        });
    }
    let optional = optional(members, table, repeated)?;
    let spn = given_number(members, table, Key::Spn, 0, SPN_MOST, false)?;
    let names = names(members, table, !code, raw_limit(bits))?;
    Ok(MeaningKeys {
        optional,
        spn,
        names,
    })
}

// The names that a table reports.
fn value_names(alloc: Global, limit: u64, names: &toml::Table) -> Result<Vec<ValueName>, AllocError>
    requires limit { limit ≤ 2 ^ 32 }
    requires named { names_cause limit (table_view names.now) ≡ None }
    ensures names { IfOk result (λ v. AreValueNames (table_view names.now) v.items) }
    ensures count { IfOk result (λ v. length v.items ≤ value_limit) }
{
    let mut values = Vec::new(alloc);
    for (name, value) in names.iter() {
        match value_name(limit, name.as_str(), value) {
            Some(named) => values.push(named)?,
            None => unreachable!(),
        }
    }
    Ok(values)
}

/// What is said of a signal of so many bits.
pub fn meaning_of(alloc: Global, meant: MeaningKeys<'_>, bits: u32) -> Result<Meaning, AllocError>
    requires spn { IfSome meant.spn (λ n. n ≤ spn_most) }
    requires named { IfSome meant.names (λ t. names_cause (raw_limit bits) (table_view t.now) ≡ None) }
    ensures spn { IfOk result (λ m. m.spn ≡ meant.entry.spn) }
    ensures names { IfOk result (λ m. AreValueNames
        (unwrap_or (option_map (λ t. table_view t.now) meant.entry.names) no_members) m.values.items) }
{
    let values = match meant.names {
        Some(names) => value_names(alloc, raw_limit(bits), names)?,
        None => Vec::new(alloc),
    };
    Ok(Meaning {
        spn: meant.spn,
        values,
    })
}
