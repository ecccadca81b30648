//! The lines of the choices of a plan.
ghost use Rattle.std.specs.Prelude.{◌≡◌, ◌++◌, ◌==◌, ◌&&◌, OnOk};
ghost use Rattle.std.specs.List.{list_any};
ghost use Rattle.j39_load.specs.LineLists.{lines_of_each};
ghost use Rattle.j39_plan_text.specs.ChoiceLines.{alternative_line, choices_lines, items_lines, list_lines};
ghost use Rattle.j39_plan_text.specs.ChoiceLines.{lists_lines, named_line};

use super::values::write_word;
use crate::each::{WriteLines, write_each};
use j39_id::Label;
use j39_plan::{Key, Table};
use j39_text::{TextBuffer, WriteResult};
use j39_variants::{Alternative, Choice, ListedItem, ProductLine};

// Writes each alternative of a choice.
#[derive(Clone, Copy)]
struct OfChoice(usize);

impl WriteLines<Label> for OfChoice {
    ghost use Rattle.j39_plan_text.specs.ChoiceLines.{alternative_line};

    ghost lines = { λ w p l. alternative_line w.0 p l };

    #[tactic(auto, unfolding(crate::specs::ChoiceLines::alternative_line))]
    fn write(&self, text: &mut TextBuffer, _place: usize, label: &Label) -> WriteResult {
        write_word(text, Table::Choice(self.0), Key::Of, label.as_str())
    }
}

// Writes each choice.
#[derive(Clone, Copy)]
struct Choices;

impl WriteLines<Choice> for Choices {
    ghost use Rattle.j39_plan_text.specs.ChoiceLines.{choice_lines};

    ghost lines = { λ _. choice_lines };

    #[tactic(auto, unfolding(crate::specs::ChoiceLines::choice_lines))]
    fn write(&self, text: &mut TextBuffer, place: usize, choice: &Choice) -> WriteResult {
        write_each(text, &OfChoice(place), &choice.alternatives)
    }
}

// Writes those alternatives of a choice that a list names.
#[derive(Clone, Copy)]
struct NamedInChoice<'a> {
    table: Table,
    key: Key,
    list: &'a [Alternative],
    choice: usize,
}

fn is_named(list: &[Alternative], choice: usize, place: usize) -> bool
    ensures { result ≡ list_any (λ a. (a.choice == choice) && (a.place == place)) list.now }
{
    list.iter().any(|alternative| alternative.choice == choice && alternative.place == place)
}

impl WriteLines<Label> for NamedInChoice<'_> {
    ghost use Rattle.j39_plan_text.specs.ChoiceLines.{named_line};

    ghost lines = { λ w. named_line w.table w.key w.list.now w.choice };

    #[tactic(auto, unfolding(crate::specs::ChoiceLines::named_line))]
    fn write(&self, text: &mut TextBuffer, place: usize, label: &Label) -> WriteResult {
        if is_named(self.list, self.choice, place) {
            write_word(text, self.table, self.key, label.as_str())
        } else {
            Ok(())
        }
    }
}

// Writes the alternatives that a list names, in the order of the choices.
#[derive(Clone, Copy)]
struct NamedInChoices<'a> {
    table: Table,
    key: Key,
    list: &'a [Alternative],
}

impl WriteLines<Choice> for NamedInChoices<'_> {
    ghost use Rattle.j39_plan_text.specs.ChoiceLines.{named_alternative_lines};

    ghost lines = { λ w. named_alternative_lines w.table w.key w.list.now };

    #[tactic(auto, unfolding(crate::specs::ChoiceLines::named_alternative_lines))]
    fn write(&self, text: &mut TextBuffer, place: usize, choice: &Choice) -> WriteResult {
        let writer = NamedInChoice {
            table: self.table,
            key: self.key,
            list: self.list,
            choice: place,
        };
        write_each(text, &writer, &choice.alternatives)
    }
}

#[tactic(auto, unfolding(crate::specs::ChoiceLines::list_lines))]
fn write_list(
    text: &mut TextBuffer,
    choices: &[Choice],
    table: Table,
    key: Key,
    list: &[Alternative],
) -> WriteResult
    ensures { OnOk result (text.new ≡ text.old ++ list_lines choices.now table key list.now) }
{
    write_each(text, &NamedInChoices { table, key, list }, choices)
}

// Writes each box that isn't built.
#[derive(Clone, Copy)]
struct Nevers<'a> {
    choices: &'a [Choice],
}

impl WriteLines<Vec<Alternative>> for Nevers<'_> {
    ghost use Rattle.j39_plan_text.specs.ChoiceLines.{never_lines};

    ghost lines = { λ w. never_lines w.choices.now };

    #[tactic(auto, unfolding(crate::specs::ChoiceLines::never_lines))]
    fn write(&self, text: &mut TextBuffer, place: usize, list: &Vec<Alternative>) -> WriteResult {
        write_list(text, self.choices, Table::Never(place), Key::Of, list)
    }
}

// Writes the list of each unit, group, flow, need or request.
#[derive(Clone, Copy)]
struct Items<'a> {
    choices: &'a [Choice],
    item: ListedItem,
}

impl WriteLines<Vec<Alternative>> for Items<'_> {
    ghost use Rattle.j39_plan_text.specs.ChoiceLines.{item_lines};

    ghost lines = { λ w. item_lines w.choices.now w.item };

    #[tactic(auto, unfolding(crate::specs::ChoiceLines::item_lines))]
    fn write(&self, text: &mut TextBuffer, place: usize, list: &Vec<Alternative>) -> WriteResult {
        write_list(text, self.choices, self.item.table(place), Key::With, list)
    }
}

/// Writes each choice, each box that isn't built, and with which alternatives each unit, group, flow, need and request
/// goes.
#[tactic(auto, unfolding(crate::specs::ChoiceLines::choices_lines))]
pub(super) fn write_choices(text: &mut TextBuffer, line: &ProductLine) -> WriteResult
    ensures { OnOk result (text.new ≡ text.old ++ choices_lines line.now) }
{
    let choices = line.choices.as_slice();
    write_each(text, &Choices, choices)?;
    write_each(text, &Nevers { choices }, &line.nevers)?;
    write_lists(text, line)
}

#[tactic(auto, unfolding(crate::specs::ChoiceLines::items_lines))]
fn write_items(
    text: &mut TextBuffer,
    choices: &[Choice],
    item: ListedItem,
    lists: &[Vec<Alternative>],
) -> WriteResult
    ensures { OnOk result (text.new ≡ text.old ++ items_lines choices.now item lists.now) }
{
    write_each(text, &Items { choices, item }, lists)
}

#[tactic(auto, unfolding(crate::specs::ChoiceLines::lists_lines))]
fn write_lists(text: &mut TextBuffer, line: &ProductLine) -> WriteResult
    ensures { OnOk result (text.new ≡ text.old ++ lists_lines line.now) }
{
    let choices = line.choices.as_slice();
    write_items(text, choices, ListedItem::Unit, &line.lists.units)?;
    write_items(text, choices, ListedItem::Group, &line.lists.groups)?;
    write_items(text, choices, ListedItem::Flow, &line.lists.flows)?;
    write_items(text, choices, ListedItem::Need, &line.lists.needs)?;
    write_items(text, choices, ListedItem::Request, &line.lists.requests)
}
