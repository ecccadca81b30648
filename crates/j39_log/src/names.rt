//! The names that a plan has: of raw numbers of its signals, and of suspect parameters.
ghost use Rattle.std.specs.Prelude.{◌≡◌, ◌≢◌, ◌<◌, ◌++◌, [], ◌∷◌, List, length, map, true, IfOk, OnOk, OnErr, IsTrue};
ghost use Rattle.std.specs.List.{list_all};
ghost use Rattle.j39_log.specs.NamedReports.{Numbered, HasNoMeanings, first_names, meaning_names, numbered_signals};
ghost use Rattle.j39_log.specs.NamedReports.{all_numbered, value_names};
ghost use Rattle.j39_log.specs.inside.NameTables.{AreNamesOf, has_no_meaning, has_no_meanings, names_in, signal_name};
ghost use Rattle.j39_log.specs.inside.NameTables.{names_of_tables, value_names_of};

use crate::name_table::NameTable;
use j39_network::{GroupPlan, Meaning, Plan, ValueName};
use j39_signal::Signal;
use j39_text::TextBuffer;
use std::alloc::{AllocError, Global};

/// Of each group, by place, and of each of its signals the names of raw numbers; and the names of suspect parameters.
#[derive(Drop)]
pub(crate) struct PlanNames {
    pub values: Vec<Vec<NameTable>>,
    pub parameters: NameTable,
}

/// The names of the raw numbers of a group's signals, and those of suspect parameters.
#[derive(Clone, Copy)]
pub(crate) struct GroupNames<'a> {
    pub values: &'a [NameTable],
    pub parameters: &'a NameTable,
}

// Whether a signal has no number, and no raw number of it a name.
fn has_no_meaning(meaning: &Meaning) -> bool
    ensures { result ≡ has_no_meaning meaning.now }
{
    meaning.spn.is_none() && meaning.values.is_empty()
}

fn have_no_meaning(meanings: &[Meaning]) -> bool
    ensures { result ≡ list_all has_no_meaning meanings.now }
{
    meanings.iter().all(|meaning| has_no_meaning(meaning))
}

// Whether no signal has a number, and none a name of a raw number.
fn has_no_meanings(groups: &[GroupPlan]) -> bool
    ensures { result ≡ has_no_meanings groups.now }
{
    groups
        .iter()
        .all(|group| have_no_meaning(group.meanings.as_slice()))
}

fn value_name(alloc: Global, label: &str) -> Result<TextBuffer, AllocError>
    ensures { IfOk result (λ text. text ≡ label.now) }
{
    let mut text = TextBuffer::new(alloc);
    text.word(label)?;
    Ok(text)
}

fn value_table(alloc: Global, values: &[ValueName]) -> Result<NameTable, AllocError>
    ensures { IfOk result (λ table. names_in table ≡ value_names values.now) }
{
    let mut table = NameTable::new(alloc);
    for named in values {
        table.add(named.raw, value_name(alloc, named.name.as_str())?)?;
    }
    Ok(table)
}

fn value_tables(alloc: Global, meanings: &[Meaning]) -> Result<Vec<NameTable>, AllocError>
    ensures { IfOk result (λ tables. map names_in tables.items ≡ map meaning_names meanings.now) }
{
    let mut tables = Vec::new(alloc);
    for meaning in meanings {
        tables.push(value_table(alloc, meaning.values.as_slice())?)?;
    }
    Ok(tables)
}

fn value_tables_of(alloc: Global, groups: &[GroupPlan]) -> Result<Vec<Vec<NameTable>>, AllocError>
    ensures { IfOk result (λ tables. map names_of_tables tables.items ≡ map value_names_of groups.now) }
{
    let mut tables = Vec::new(alloc);
    for group in groups {
        tables.push(value_tables(alloc, group.meanings.as_slice())?)?;
    }
    Ok(tables)
}

fn signal_name(alloc: Global, group: &GroupPlan, signal: &Signal) -> Result<TextBuffer, AllocError>
    ensures { IfOk result (λ text. text ≡ signal_name group.now signal.now) }
{
    let mut text = TextBuffer::new(alloc);
    text.word(group.label.as_str())?;
    text.word(".")?;
    text.word(signal.label().as_str())?;
    Ok(text)
}

// Names the suspect parameters that are signals of a group, behind those of others.
fn add_signals(alloc: Global, table: &mut NameTable, group: &GroupPlan) -> Result<(), AllocError>
    ensures { OnOk result ((before : List Numbered) → names_in table.old ≡ first_names before
        → names_in table.new ≡ first_names (before ++ numbered_signals group.now)) }
{
    let meanings = group.meanings.as_slice();
    for (place, meaning) in meanings.iter().enumerate() {
        let signal = &group.signals[place];
        if let Some(spn) = meaning.spn {
            table.add(spn, signal_name(alloc, group, signal)?)?;
        }
    }
    Ok(())
}

fn parameter_table(alloc: Global, groups: &[GroupPlan]) -> Result<NameTable, AllocError>
    ensures { IfOk result (λ table. names_in table ≡ first_names (all_numbered groups.now)) }
{
    let mut table = NameTable::new(alloc);
    for group in groups {
        add_signals(alloc, &mut table, group)?;
    }
    Ok(table)
}

/// The names that a plan has, if there are any.
pub(crate) fn plan_names(alloc: Global, plan: &Plan) -> Result<Option<PlanNames>, AllocError>
    ensures names { IfOk result (AreNamesOf plan.now) }
    ensures memory { OnErr result (plan.now.groups.items ≢ []) }
{
    let groups = plan.groups.as_slice();
    if has_no_meanings(groups) {
        return Ok(None);
    }
    let values = value_tables_of(alloc, groups)?;
    let parameters = parameter_table(alloc, groups)?;
    Ok(Some(PlanNames { values, parameters }))
}
