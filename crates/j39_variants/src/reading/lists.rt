//! Lists of alternatives.
ghost use Rattle.std.specs.Prelude.{◌≡◌, ◌++◌, map, option_map, IfOk};
ghost use Rattle.std.specs.List.{list_any};
ghost use Rattle.std.specs.Str.{bytes_eq};
ghost use Rattle.toml.specs.View.{items_view, table_view};
ghost use Rattle.j39_toml.specs.Outcome.{Gives};
ghost use Rattle.j39_toml.specs.Rules.{elements_found};
ghost use Rattle.j39_toml.specs.TableFaults.{key_faults};
ghost use Rattle.j39_plan.specs.LabelsSeen.{is_label_among};
ghost use Rattle.j39_plan.specs.Words.{word_of};
ghost use Rattle.j39_variants.specs.ChoiceTables.{choice_labels};
ghost use Rattle.j39_variants.specs.ListTables.{IsNamed, list_rule, misplaced_faults, named_faults};

use super::labels::{label_of, named};
use super::misplaced::is_misplaced;
use crate::{Alternative, Choice};
use j39_id::Label;
use j39_plan::{Cause, Key, PlanError, PlanFault, Table};
use j39_toml::{ReadElement, refused, value_at};
use std::alloc::{AllocError, Global};
use toml::Value;

/// The array at a key, of at least so many elements, or none where the key is absent, unless it is required.
#[tactic(auto, using(j39_toml::proofs::TableViews::items_count_view), unfolding(j39_toml::specs::TableFaults::key_faults, j39_toml::specs::Rules::array_found, crate::specs::ListTables::array_from))]
pub fn listed(
    members: &toml::Table,
    table: Table,
    key: Key,
    least: usize,
    is_required: bool,
) -> Result<&[Value], PlanError>
    ensures { Gives result (key_faults table (table_view members.now) (list_rule key least is_required))
        (λ vs. items_view vs.now ≡ elements_found word_of key (table_view members.now)) }
{
    match value_at(members, key) {
        None => {
            if is_required {
                Err(refused(Cause::Missing, table, key))
            } else {
                Ok(&[])
            }
        }
        Some(value) => match value.as_array() {
            None => Err(refused(Cause::WrongType, table, key)),
            Some(values) => {
                if least <= values.len() {
                    Ok(values.as_slice())
                } else {
                    Err(refused(Cause::Range, table, key))
                }
            }
        },
    }
}

/// The alternative that an element names, by its label.
#[derive(Clone, Copy)]
pub struct NamedAlternative {
    pub label: Label,
    pub at: Alternative,
}

fn is_spelled_so(seen: &[NamedAlternative], text: &str) -> bool
    ensures { result ≡ list_any (λ n. bytes_eq n.label.bytes text.now) seen.now }
{
    seen.iter().any(|named| named.label.as_str() == text)
}

/// Whether one of these has the label.
#[tactic(auto, using(j39_plan::proofs::Labelled::is_taken_view))]
pub fn is_among_named(seen: &[NamedAlternative], text: &str) -> bool
    ensures { result ≡ is_label_among (map (λ n. n.label.bytes) seen.now) text.now }
{
    is_spelled_so(seen, text)
}

// The alternative of a label that stands behind others.
#[tactic(auto, unfolding(crate::specs::ListTables::named_faults))]
fn named_behind(
    choices: &[Choice],
    table: Table,
    key: Key,
    seen: &[NamedAlternative],
    text: &str,
) -> Result<NamedAlternative, PlanError>
    ensures { Gives result (named_faults table key (map choice_labels choices.now)
        (map (λ n. n.label.bytes) seen.now) text.now)
        (IsNamed (map choice_labels choices.now) text.now) }
{
    match label_of(text) {
        None => Err(refused(Cause::UnknownLabel, table, key)),
        Some(label) => match named(choices, text) {
            None => Err(refused(Cause::UnknownLabel, table, key)),
            Some(at) => {
                if is_among_named(seen, text) {
                    Err(refused(Cause::Repeated, table, key))
                } else {
                    Ok(NamedAlternative { label, at })
                }
            }
        },
    }
}

// The same in a list of alternatives of one choice beside others, where there are these.
#[tactic(auto, using(j39_toml::proofs::FirstFaults::faults_after, crate::proofs::NamedChoices::misplaced_named))]
fn named_beside(
    choices: &[Choice],
    table: Table,
    key: Key,
    others: Option<&[NamedAlternative]>,
    seen: &[NamedAlternative],
    text: &str,
) -> Result<NamedAlternative, PlanError>
    ensures { let labels = map choice_labels choices.now in let behind = map (λ n. n.label.bytes) seen.now in
        Gives result (named_faults table key labels behind text.now
        ++ misplaced_faults table key labels (option_map
        (λ o. map (λ n. n.at.choice) o.now) others.entry) behind text.now) (IsNamed labels text.now) }
{
    let found = named_behind(choices, table, key, seen, text)?;
    match others {
        None => Ok(found),
        Some(others) => {
            if is_misplaced(choices, others, seen, found.at.choice) {
                Err(refused(Cause::Range, table, key))
            } else {
                Ok(found)
            }
        }
    }
}

/// The reader of the elements of a list: of alternatives of one choice beside others, where there are these, and else
/// of alternatives of any.
#[derive(Clone, Copy)]
pub struct ElementReader<'a, 'b> {
    pub choices: &'a [Choice],
    pub table: Table,
    pub key: Key,
    pub others: Option<&'b [NamedAlternative]>,
}

impl ReadElement<NamedAlternative, PlanFault> for ElementReader<'_, '_> {
    ghost use Rattle.std.specs.Prelude.{ℕ, List, option_map};
    ghost use Rattle.j39_variants.specs.ListTables.{IsNamedBy, element_faults, label_text_in};

    ghost Label = { List ℕ };

    ghost label = { λ n. n.label.bytes };

    ghost data_label = { label_text_in };

    ghost faults = { λ r. element_faults r.table r.key (map choice_labels r.choices.now)
        (option_map (λ o. map (λ n. n.at.choice) o.now) r.others) };

    ghost Grows = { λ _ _ _ _. Unit {0} };

    ghost Describes = { λ r. IsNamedBy (map choice_labels r.choices.now) };

    #[tactic(auto, unfolding(crate::specs::ListTables::element_faults))]
    fn read(
        &self,
        _alloc: Global,
        _index: usize,
        seen: &[NamedAlternative],
        value: &Value,
    ) -> Result<NamedAlternative, PlanError> {
        match value.as_str() {
            None => Err(refused(Cause::WrongType, self.table, self.key)),
            Some(text) => named_beside(self.choices, self.table, self.key, self.others, seen, text),
        }
    }
}

/// The alternatives of a list, without their labels.
pub fn alternatives(
    alloc: Global,
    list: &[NamedAlternative],
) -> Result<Vec<Alternative>, AllocError>
    ensures { IfOk result (λ v. v.items ≡ map (λ n. n.at) list.now) }
{
    list.iter().map(|named| named.at).collect(alloc)
}
