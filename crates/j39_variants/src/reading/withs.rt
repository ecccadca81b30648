//! What is there with which alternatives.
ghost use Rattle.std.specs.Prelude.{◌≡◌, map, None};
ghost use Rattle.toml.specs.View.{items_view, table_view};
ghost use Rattle.j39_toml.specs.Outcome.{GivesGrowing};
ghost use Rattle.j39_variants.specs.ChoiceTables.{choice_labels};
ghost use Rattle.j39_variants.specs.DescribedLines.{AreLists, DescribesLists, items_faults, lists_faults, tables_in};
ghost use Rattle.j39_variants.specs.ListTables.{IsList, list_faults, with_rule};

use super::item::ListedItem;
use super::lists::{ElementReader, alternatives, listed};
use crate::{Alternative, Choice, Lists};
use j39_plan::{Key, PlanError, PlanFault, Table, TopTable};
use j39_toml::{ReadElement, read_each, table_of};
use std::alloc::Global;
use toml::Value;

#[tactic(auto, using(j39_toml::proofs::FirstFaults::faults_after))]
fn list(
    alloc: Global,
    choices: &[Choice],
    table: Table,
    members: &toml::Table,
) -> Result<Vec<Alternative>, PlanError>
    ensures { GivesGrowing (Unit {0}) result (list_faults table with_rule (map choice_labels choices.now) None
        (table_view members.now))
        (λ v. IsList Key.With (map choice_labels choices.now) (table_view members.now) v.items) }
{
    let values = listed(members, table, Key::With, 1, false)?;
    let reader = ElementReader {
        choices,
        table,
        key: Key::With,
        others: None,
    };
    let named = read_each(alloc, &reader, values)?;
    Ok(alternatives(alloc, &named)?)
}

// The reader of the lists of what stands in an array of a plan.
#[derive(Clone, Copy)]
struct ListReader<'a> {
    choices: &'a [Choice],
    item: ListedItem,
}

impl ReadElement<Vec<Alternative>, PlanFault> for ListReader<'_> {
    ghost use Rattle.std.specs.Prelude.{ℕ, List, []};
    ghost use Rattle.j39_plan.specs.PlanFaults.{no_label};
    ghost use Rattle.j39_variants.specs.ListTables.{IsWith, with_faults};

    ghost Label = { List ℕ };

    ghost label = { λ _. [] };

    ghost data_label = { no_label };

    ghost faults = { λ r i seen. with_faults r.item (map choice_labels r.choices.now) i };

    ghost Grows = { λ _ _ _ _. Unit {0} };

    ghost Describes = { λ r. IsWith (map choice_labels r.choices.now) };

    #[tactic(auto, using(j39_toml::proofs::FirstFaults::faults_after), unfolding(crate::specs::ListTables::with_faults))]
    fn read(
        &self,
        alloc: Global,
        index: usize,
        _seen: &[Vec<Alternative>],
        value: &Value,
    ) -> Result<Vec<Alternative>, PlanError> {
        let table = self.item.table(index);
        list(
            alloc,
            self.choices,
            table,
            table_of::<Table, Key>(value, table)?,
        )
    }
}

fn lists_of(
    alloc: Global,
    choices: &[Choice],
    item: ListedItem,
    tables: &[Value],
) -> Result<Vec<Vec<Alternative>>, PlanError>
    ensures { GivesGrowing (Unit {0}) result (items_faults item (map choice_labels choices.now) (items_view tables.now))
        (λ v. AreLists (map choice_labels choices.now) (items_view tables.now) v.items) }
{
    read_each(alloc, &ListReader { choices, item }, tables)
}

/// With which alternatives each unit, group, flow, need and request goes, by the tables of a plan.
#[tactic(auto, using(j39_toml::proofs::FirstFaults::faults_after), unfolding(crate::specs::DescribedLines::lists_faults))]
pub fn lists(alloc: Global, choices: &[Choice], top: &TopTable<'_>) -> Result<Lists, PlanError>
    ensures { GivesGrowing (Unit {0}) result (lists_faults (map choice_labels choices.now) (tables_in top.now))
        (DescribesLists (map choice_labels choices.now) (tables_in top.now)) }
{
    let units = lists_of(alloc, choices, ListedItem::Unit, top.units)?;
    let groups = lists_of(alloc, choices, ListedItem::Group, top.groups)?;
    let flows = lists_of(alloc, choices, ListedItem::Flow, top.flows)?;
    let needs = lists_of(alloc, choices, ListedItem::Need, top.later.needs)?;
    let requests = lists_of(alloc, choices, ListedItem::Request, top.later.requests)?;
    Ok(Lists {
        units,
        groups,
        flows,
        needs,
        requests,
    })
}
