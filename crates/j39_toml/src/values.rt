//! The values of a table's keys.
ghost use Rattle.std.specs.Prelude.{◌≡◌, ◌≤◌, true, false, Some, option_map, IfSome, IfOk};
ghost use Rattle.toml.specs.View.{table_view};
ghost use Rattle.j39_toml.specs.declared.file_error.FileError.TheVariants as errors;
ghost use Rattle.j39_toml.specs.Rules.{natural_in, number_found, rule_of, text_found, text_where};
ghost use Rattle.j39_toml.specs.TableFaults.{fault, key_faults};
ghost use Rattle.j39_toml.specs.Outcome.{Gives};

use crate::keys::{FileKey, TextForm, value_at};
use crate::{Cause, FileError, Place, TableFault};

/// The refusal of a key's value.
pub fn refused<T: Copy, K: FileKey>(cause: Cause, table: T, key: K) -> FileError<TableFault<T, K>>
    ensures { result ≡ errors.Fault (fault cause table (Some key)) }
{
    FileError::Fault(TableFault {
        cause,
        place: Place {
            table,
            key: Some(key),
        },
    })
}

/// The number at a key, within a range, or none where the key is absent, unless it is required.
#[tactic(auto, unfolding(crate::specs::TableFaults::key_faults, crate::specs::Rules::number_found, crate::specs::Rules::integer_in))]
pub fn given_number<T: Copy, K: FileKey>(
    members: &toml::Table,
    table: T,
    key: K,
    low: u32,
    high: u32,
    is_required: bool,
) -> Result<Option<u32>, FileError<TableFault<T, K>>>
    ensures gives { let rule = rule_of K.word key (natural_in low high) is_required in
        Gives result (key_faults table (table_view members.now) rule)
        (λ given. given ≡ number_found K.word key (table_view members.now)) }
    ensures at_least { IfOk result (λ given. IfSome given (λ n. low ≤ n)) }
    ensures at_most { IfOk result (λ given. IfSome given (λ n. n ≤ high)) }
{
    match value_at(members, key) {
        None => {
            if is_required {
                Err(refused(Cause::Missing, table, key))
            } else {
                Ok(None)
            }
        }
        Some(value) => match value.as_integer() {
            None => Err(refused(Cause::WrongType, table, key)),
            Some(number) => {
                if number < i64::from(low) || i64::from(high) < number {
                    Err(refused(Cause::Range, table, key))
                } else {
                    Ok(Some(number as u32))
                }
            }
        },
    }
}

/// The text at a key, or none where the key is absent.
#[tactic(auto, unfolding(crate::specs::TableFaults::key_faults, crate::specs::Rules::text_found, crate::specs::Rules::text_where))]
pub fn given_text<'a, T: Copy, K: FileKey, P: TextForm>(
    members: &'a toml::Table,
    table: T,
    key: K,
    form: P,
) -> Result<Option<&'a str>, FileError<TableFault<T, K>>>
    ensures { let rule = rule_of K.word key (text_where P.fits form) false in
        Gives result (key_faults table (table_view members.now) rule)
        (λ found. option_map (λ t. t.now) found ≡ text_found K.word key (table_view members.now)) }
{
    match value_at(members, key) {
        None => Ok(None),
        Some(value) => match value.as_str() {
            None => Err(refused(Cause::WrongType, table, key)),
            Some(text) => {
                if form.is_taken(text) {
                    Ok(Some(text))
                } else {
                    Err(refused(Cause::Range, table, key))
                }
            }
        },
    }
}

/// The text at a key, which must be there.
#[tactic(auto, unfolding(crate::specs::TableFaults::key_faults, crate::specs::Rules::text_found, crate::specs::Rules::text_where))]
pub fn required_text<'a, T: Copy, K: FileKey, P: TextForm>(
    members: &'a toml::Table,
    table: T,
    key: K,
    form: P,
) -> Result<&'a str, FileError<TableFault<T, K>>>
    ensures gives { let rule = rule_of K.word key (text_where P.fits form) true in
        Gives result (key_faults table (table_view members.now) rule)
        (λ t. Some t.now ≡ text_found K.word key (table_view members.now)) }
    ensures taken { IfOk result (λ t. P.fits form t.now ≡ true) }
{
    match value_at(members, key) {
        None => Err(refused(Cause::Missing, table, key)),
        Some(value) => match value.as_str() {
            None => Err(refused(Cause::WrongType, table, key)),
            Some(text) => {
                if form.is_taken(text) {
                    Ok(text)
                } else {
                    Err(refused(Cause::Range, table, key))
                }
            }
        },
    }
}
