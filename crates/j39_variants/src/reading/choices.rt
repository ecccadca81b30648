//! The choices of a plan.
ghost use Rattle.std.specs.Prelude.{◌≡◌, ◌-◌, map, length};
ghost use Rattle.toml.specs.View.{table_view};
ghost use Rattle.j39_toml.specs.Outcome.{Gives, GivesGrowing};
ghost use Rattle.j39_variants.specs.ChoiceTables.{alternative_limit, choice_labels, choice_table_faults};
ghost use Rattle.j39_variants.specs.ChoiceTables.{new_label_faults, room_behind};
ghost use Rattle.j39_variants.specs.ChoiceTables.{DescribesChoice};

use super::labels::{is_among, is_in_choices, label_of};
use super::lists::listed;
use crate::Choice;
use j39_id::Label;
use j39_plan::{Cause, Key, PlanError, PlanFault, Table};
use j39_toml::{ReadElement, only, read_each, refused, table_of};
use std::alloc::Global;
use toml::Value;

/// The most choices of a plan.
pub const CHOICE_LIMIT: usize = 32;

/// The most alternatives of a plan.
pub const ALTERNATIVE_LIMIT: usize = 64;

// How many more alternatives there may be behind those of some choices.
#[tactic(auto, unfolding(crate::specs::ChoiceTables::room_behind))]
fn room_behind(choices: &[Choice]) -> usize
    ensures { result ≡ room_behind alternative_limit (map choice_labels choices.now) }
{
    let mut room = ALTERNATIVE_LIMIT;
    for choice in choices {
        room = room.saturating_sub(choice.alternatives.len());
    }
    room
}

// The label of an alternative behind those of its choice, and behind earlier choices.
#[tactic(auto, unfolding(crate::specs::ChoiceTables::new_label_faults))]
fn new_label(
    choices: &[Choice],
    table: Table,
    seen: &[Label],
    text: &str,
) -> Result<Label, PlanError>
    ensures { Gives result (new_label_faults table (map choice_labels choices.now)
        (map (λ l. l.bytes) seen.now) text.now)
        (λ l. l.bytes ≡ text.now) }
{
    match label_of(text) {
        None => Err(refused(Cause::Range, table, Key::Of)),
        Some(label) => {
            if is_in_choices(choices, text) || is_among(seen, text) {
                Err(refused(Cause::Repeated, table, Key::Of))
            } else if room_behind(choices) <= seen.len() {
                Err(refused(Cause::TooMany, table, Key::Of))
            } else {
                Ok(label)
            }
        }
    }
}

// The reader of the alternatives of a choice, behind earlier choices.
#[derive(Clone, Copy)]
struct AlternativeReader<'a> {
    choices: &'a [Choice],
    table: Table,
}

impl ReadElement<Label, PlanFault> for AlternativeReader<'_> {
    ghost use Rattle.std.specs.Prelude.{ℕ, List};
    ghost use Rattle.j39_variants.specs.ChoiceTables.{IsLabelOf, alternative_faults};
    ghost use Rattle.j39_variants.specs.ListTables.{label_text_in};

    ghost Label = { List ℕ };

    ghost label = { λ l. l.bytes };

    ghost data_label = { label_text_in };

    ghost faults = { λ r. alternative_faults r.table (map choice_labels r.choices.now) };

    ghost Grows = { λ _ _ _ _. Unit {0} };

    ghost Describes = { λ _. IsLabelOf };

    #[tactic(auto, unfolding(crate::specs::ChoiceTables::alternative_faults))]
    fn read(
        &self,
        _alloc: Global,
        _index: usize,
        seen: &[Label],
        value: &Value,
    ) -> Result<Label, PlanError> {
        match value.as_str() {
            None => Err(refused(Cause::WrongType, self.table, Key::Of)),
            Some(text) => new_label(self.choices, self.table, seen, text),
        }
    }
}

#[tactic(auto, using(j39_toml::proofs::FirstFaults::faults_after), unfolding(crate::specs::ChoiceTables::choice_table_faults))]
fn choice(
    alloc: Global,
    choices: &[Choice],
    index: usize,
    members: &toml::Table,
) -> Result<Choice, PlanError>
    ensures gives { GivesGrowing (Unit {0}) result
        (choice_table_faults index (map choice_labels choices.now) (table_view members.now))
        (DescribesChoice (table_view members.now)) }
{
    let table = Table::Choice(index);
    only(members, table, &[Key::Of])?;
    let values = listed(members, table, Key::Of, 2, true)?;
    let alternatives = read_each(alloc, &AlternativeReader { choices, table }, values)?;
    Ok(Choice { alternatives })
}

/// The reader of choices.
#[derive(Clone, Copy)]
pub struct ChoiceReader;

impl ReadElement<Choice, PlanFault> for ChoiceReader {
    ghost use Rattle.std.specs.Prelude.{ℕ, List};
    ghost use Rattle.j39_variants.specs.ChoiceTables.{IsChoiceOf, choice_faults, choice_labels_in};

    ghost Label = { List (List ℕ) };

    ghost label = { choice_labels };

    ghost data_label = { choice_labels_in };

    ghost faults = { λ _. choice_faults };

    ghost Grows = { λ _ _ _ _. Unit {0} };

    ghost Describes = { λ _. IsChoiceOf };

    #[tactic(auto, using(j39_toml::proofs::FirstFaults::faults_after), unfolding(crate::specs::ChoiceTables::choice_faults))]
    fn read(
        &self,
        alloc: Global,
        index: usize,
        seen: &[Choice],
        value: &Value,
    ) -> Result<Choice, PlanError> {
        choice(
            alloc,
            seen,
            index,
            table_of::<Table, Key>(value, Table::Choice(index))?,
        )
    }
}
