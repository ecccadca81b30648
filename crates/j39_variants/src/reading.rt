//! Reading the plan of a line of vehicles.
ghost use Rattle.std.specs.Prelude.{◌≡◌, map, IfOk, IsErrOf};
ghost use Rattle.toml.specs.View.{table_view};
ghost use Rattle.j39_toml.specs.FileTrees.{MayAskForRoom, tree_of};
ghost use Rattle.j39_toml.specs.Outcome.{GivesGrowing};
ghost use Rattle.j39_toml.specs.declared.file_error.FileError.TheVariants as errors;
ghost use Rattle.j39_toml.specs.InOrder.{Each};
ghost use Rattle.j39_variants.specs.ChoiceTables.{choice_labels};
ghost use Rattle.j39_variants.specs.DescribedLines.{AreChoices, DescribesProductLine, LineGrows, ReadsProductLine};
ghost use Rattle.j39_variants.specs.DescribedLines.{choices_faults, labels_of_choices};
ghost use Rattle.j39_variants.specs.DescribedLines.{product_line_faults, never_tables, nevers_faults};
ghost use Rattle.j39_variants.specs.NeverTables.{IsNeverOf};

mod choices;
mod item;
mod labels;
mod lists;
mod misplaced;
mod nevers;
mod withs;

use crate::{Alternative, Choice, ProductLine};
use choices::{CHOICE_LIMIT, ChoiceReader};
pub use item::ListedItem;
use j39_plan::{Key, PlanError, Table, read_top, top};
use j39_toml::{elements, read_each, read_tree};
pub use labels::named;
use nevers::{NEVER_LIMIT, NeverReader};
use std::alloc::Global;
use withs::lists;

#[tactic(auto, using(j39_toml::proofs::FirstFaults::faults_after), unfolding(crate::specs::DescribedLines::choices_faults))]
fn choices_of(alloc: Global, members: &toml::Table) -> Result<Vec<Choice>, PlanError>
    ensures gives { GivesGrowing (Unit {0}) result (choices_faults (table_view members.now))
        (λ v. AreChoices (table_view members.now) v.items) }
    ensures labels { IfOk result (λ v. map choice_labels v.items ≡ labels_of_choices (table_view members.now)) }
{
    let values = elements(members, Table::Top, Key::Choice, CHOICE_LIMIT, false)?;
    read_each(alloc, &ChoiceReader, values)
}

#[tactic(auto, using(j39_toml::proofs::FirstFaults::faults_after), unfolding(crate::specs::DescribedLines::nevers_faults))]
fn nevers_of(
    alloc: Global,
    choices: &[Choice],
    members: &toml::Table,
) -> Result<Vec<Vec<Alternative>>, PlanError>
    ensures { GivesGrowing (Unit {0}) result (nevers_faults (map choice_labels choices.now) (table_view members.now))
        (λ v. Each (IsNeverOf (map choice_labels choices.now)) (never_tables (table_view members.now)) v.items) }
{
    let values = elements(members, Table::Top, Key::Never, NEVER_LIMIT, false)?;
    read_each(alloc, &NeverReader { choices }, values)
}

#[tactic(auto, using(j39_toml::proofs::FirstFaults::faults_after))]
fn read_members(alloc: Global, members: &toml::Table) -> Result<ProductLine, PlanError>
    ensures { GivesGrowing (LineGrows (table_view members.now)) result (product_line_faults (table_view members.now))
        (DescribesProductLine (table_view members.now)) }
{
    let plan = read_top(alloc, members)?;
    let top = top(members)?;
    let choices = choices_of(alloc, members)?;
    let nevers = nevers_of(alloc, &choices, members)?;
    let lists = lists(alloc, &choices, &top)?;
    Ok(ProductLine {
        plan,
        choices,
        nevers,
        lists,
    })
}

/// The plan of a line of vehicles that a file describes: what `read_plan` reports of it, and behind that its choices,
/// at most 32 of 64 alternatives in all, at most 256 boxes of variants that aren't built, and with which alternatives
/// each unit, group, flow, need and request goes. Only version 4 knows of these.
///
/// Refuses what `read_plan` refuses, and else the first fault of these, in the order in which they stand here. Takes no
/// memory of bytes that are no UTF-8, or white space and comments alone.
pub fn read_product_line(alloc: Global, bytes: &[u8]) -> Result<ProductLine, PlanError>
    ensures reads { ReadsProductLine result (tree_of bytes.now) }
    ensures memory { IsErrOf result errors.Memory → MayAskForRoom bytes.now }
{
    let members = read_tree(alloc, bytes)?;
    read_members(alloc, &members)
}
