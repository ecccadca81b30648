//! What isn't built.
ghost use Rattle.std.specs.Prelude.{◌≡◌, ◌==◌, map, IfOk};
ghost use Rattle.std.specs.List.{list_any};
ghost use Rattle.toml.specs.View.{table_view};
ghost use Rattle.j39_toml.specs.Outcome.{GivesGrowing};
ghost use Rattle.j39_variants.specs.ChoiceTables.{choice_labels};
ghost use Rattle.j39_variants.specs.NeverTables.{DescribesNever, never_table_faults, others, alternatives_left};

use super::lists::{ElementReader, alternatives, listed};
use super::misplaced::size_of;
use crate::{Alternative, Choice};
use j39_plan::{Key, PlanError, PlanFault, Table};
use j39_toml::{ReadElement, only, read_each, table_of};
use std::alloc::{AllocError, Global};
use toml::Value;

/// The most boxes of variants that aren't built.
pub const NEVER_LIMIT: usize = 256;

fn is_place_among(list: &[Alternative], place: usize) -> bool
    ensures { result ≡ list_any (λ a. a.place == place) list.now }
{
    list.iter().any(|alternative| alternative.place == place)
}

// The alternatives of a choice whose places none of a list has.
fn alternatives_left(
    alloc: Global,
    choices: &[Choice],
    but: &[Alternative],
    choice: usize,
) -> Result<Vec<Alternative>, AllocError>
    ensures { IfOk result (λ v. v.items ≡ alternatives_left (map choice_labels choices.now) but.now choice) }
{
    (0..size_of(choices, choice))
        .filter(|place| !is_place_among(but, *place))
        .map(|place| Alternative { choice, place })
        .collect(alloc)
}

// The alternatives of one choice that some alternatives of it aren't.
#[tactic(auto, unfolding(crate::specs::NeverTables::others))]
fn others(
    alloc: Global,
    choices: &[Choice],
    but: &[Alternative],
) -> Result<Vec<Alternative>, AllocError>
    ensures { IfOk result (λ v. v.items ≡ others (map choice_labels choices.now) but.now) }
{
    match but.first() {
        None => Ok(Vec::new(alloc)),
        Some(first) => alternatives_left(alloc, choices, but, first.choice),
    }
}

#[tactic(auto, using(j39_toml::proofs::FirstFaults::faults_after), unfolding(crate::specs::NeverTables::never_table_faults))]
fn never(
    alloc: Global,
    choices: &[Choice],
    index: usize,
    members: &toml::Table,
) -> Result<Vec<Alternative>, PlanError>
    ensures { GivesGrowing (Unit {0}) result (never_table_faults (map choice_labels choices.now) index
        (table_view members.now))
        (λ v. DescribesNever (map choice_labels choices.now) (table_view members.now) v.items) }
{
    let table = Table::Never(index);
    only(members, table, &[Key::Of, Key::But])?;
    let of_values = listed(members, table, Key::Of, 1, true)?;
    let of_reader = ElementReader {
        choices,
        table,
        key: Key::Of,
        others: None,
    };
    let of_named = read_each(alloc, &of_reader, of_values)?;
    let but_values = listed(members, table, Key::But, 1, false)?;
    let beside = Some(of_named.as_slice());
    let but_reader = ElementReader {
        choices,
        table,
        key: Key::But,
        others: beside,
    };
    let but_named = read_each(alloc, &but_reader, but_values)?;
    let mut box_of = alternatives(alloc, &of_named)?;
    let but = alternatives(alloc, &but_named)?;
    box_of.extend_from_slice(&others(alloc, choices, &but)?)?;
    Ok(box_of)
}

/// The reader of boxes that aren't built.
#[derive(Clone, Copy)]
pub struct NeverReader<'a> {
    pub choices: &'a [Choice],
}

impl ReadElement<Vec<Alternative>, PlanFault> for NeverReader<'_> {
    ghost use Rattle.std.specs.Prelude.{ℕ, List, []};
    ghost use Rattle.j39_plan.specs.PlanFaults.{no_label};
    ghost use Rattle.j39_variants.specs.NeverTables.{IsNeverOf, never_faults};

    ghost Label = { List ℕ };

    ghost label = { λ _. [] };

    ghost data_label = { no_label };

    ghost faults = { λ r i seen. never_faults (map choice_labels r.choices.now) i };

    ghost Grows = { λ _ _ _ _. Unit {0} };

    ghost Describes = { λ r. IsNeverOf (map choice_labels r.choices.now) };

    #[tactic(auto, using(j39_toml::proofs::FirstFaults::faults_after), unfolding(crate::specs::NeverTables::never_faults))]
    fn read(
        &self,
        alloc: Global,
        index: usize,
        _seen: &[Vec<Alternative>],
        value: &Value,
    ) -> Result<Vec<Alternative>, PlanError> {
        never(
            alloc,
            self.choices,
            index,
            table_of::<Table, Key>(value, Table::Never(index))?,
        )
    }
}
