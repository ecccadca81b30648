//! The lines of groups, with their signals and texts.
ghost use Rattle.std.specs.Prelude.{◌≡◌, ◌++◌, OnOk};
ghost use Rattle.std.specs.List.{slice_get};
ghost use Rattle.std.specs.Option.{option_copied};
ghost use Rattle.j39_plan_text.specs.ShowText.{group_form_lines, group_head_lines, kind_text};
ghost use Rattle.j39_plan_text.specs.ShowText.{signal_meaning_lines as meaning_lines};
ghost use Rattle.j39_plan_text.specs.ShowText.{signal_place_lines, signal_scale_lines};
ghost use Rattle.j39_plan_text.specs.ShowText.{signal_value_lines as signal_lines, when_lines};

use super::values::{
    write_front, write_number, write_optional, write_text, write_truth, write_word,
};
use crate::each::{WriteLines, write_each};
use j39_network::{GroupPlan, Meaning, TextPlan, ValueName};
use j39_plan::{Key, Table};
use j39_signal::{Kind, Selector, Signal};
use j39_text::{TextBuffer, WriteResult};

fn kind_word(kind: Kind) -> &'static str
    ensures { result.now ≡ kind_text kind }
{
    match kind {
        Kind::Measured => "measured",
        Kind::Discrete => "discrete",
        Kind::Raw => "raw",
        Kind::States => "states",
        Kind::Signed => "signed",
        Kind::Dtc => "dtc",
    }
}

// Writes each raw number of a signal that has a name, with it.
#[derive(Drop)]
struct ValueNames(Table);

impl WriteLines<ValueName> for ValueNames {
    ghost use Rattle.j39_plan_text.specs.ShowText.{name_of_value_line};

    ghost lines = { λ w _. name_of_value_line w.0 };

    #[tactic(auto, unfolding(crate::specs::ShowText::name_of_value_line, crate::specs::ShowText::value_line))]
    fn write(&self, text: &mut TextBuffer, _at: usize, value: &ValueName) -> WriteResult {
        write_front(text, self.0, Key::Values)?;
        text.number(value.raw)?;
        text.label(value.name.as_str())?;
        text.end_line()
    }
}

// What is said of a signal's meaning, if anything is.
#[tactic(auto, unfolding(crate::specs::ShowText::signal_meaning_lines))]
fn write_meaning(text: &mut TextBuffer, table: Table, meaning: Option<&Meaning>) -> WriteResult
    ensures { OnOk result (text.new ≡ text.old ++ meaning_lines table (option_copied meaning.entry)) }
{
    let Some(meaning) = meaning else {
        return Ok(());
    };
    write_optional(text, table, Key::Spn, meaning.spn)?;
    write_each(text, &ValueNames(table), &meaning.values)
}

// Where the bits of a signal are.
#[tactic(auto, unfolding(crate::specs::ShowText::signal_place_lines))]
fn write_signal_place(text: &mut TextBuffer, table: Table, signal: &Signal) -> WriteResult
    ensures { OnOk result (text.new ≡ text.old ++ signal_place_lines table signal.now) }
{
    write_word(text, table, Key::Label, signal.label().as_str())?;
    write_number(text, table, Key::Byte, signal.start() / 8 + 1)?;
    write_number(text, table, Key::Bit, signal.start() % 8 + 1)?;
    write_number(text, table, Key::Bits, signal.bits())?;
    write_word(text, table, Key::Kind, kind_word(signal.kind()))
}

// What the raw numbers of a signal are worth.
#[tactic(auto, unfolding(crate::specs::ShowText::signal_scale_lines))]
fn write_signal_scale(text: &mut TextBuffer, table: Table, signal: &Signal) -> WriteResult
    ensures { OnOk result (text.new ≡ text.old ++ signal_scale_lines table signal.now) }
{
    write_number(text, table, Key::Step, signal.step() as u64)?;
    write_number(text, table, Key::Per, signal.per())?;
    write_number(text, table, Key::Offset, signal.offset())?;
    write_text(text, table, Key::Unit, signal.unit().as_str())?;
    write_truth(text, table, Key::Repeated, signal.is_repeated())?;
    write_truth(text, table, Key::Optional, signal.is_optional())
}

#[tactic(auto, unfolding(crate::specs::ShowText::signal_value_lines))]
fn write_signal(text: &mut TextBuffer, table: Table, signal: &Signal) -> WriteResult
    ensures { OnOk result (text.new ≡ text.old ++ signal_lines table signal.now) }
{
    write_signal_place(text, table, signal)?;
    write_signal_scale(text, table, signal)
}

// Writes each signal of the group at a place, with its meaning.
#[derive(Drop)]
struct Signals<'a>(usize, &'a GroupPlan);

impl WriteLines<Signal> for Signals<'_> {
    ghost use Rattle.j39_plan_text.specs.ShowText.{signal_at_lines};

    ghost lines = { λ w. signal_at_lines w.0 w.1.now };

    #[tactic(auto, unfolding(crate::specs::ShowText::signal_at_lines))]
    fn write(&self, text: &mut TextBuffer, at: usize, signal: &Signal) -> WriteResult {
        let table = Table::Signal(self.0, at);
        write_signal(text, table, signal)?;
        write_meaning(text, table, self.1.meanings.get(at))
    }
}

// Writes each text of the group at a place.
#[derive(Drop)]
struct Texts(usize);

impl WriteLines<TextPlan> for Texts {
    ghost use Rattle.j39_plan_text.specs.ShowText.{planned_text_lines};

    ghost lines = { λ w. planned_text_lines w.0 };

    #[tactic(auto, unfolding(crate::specs::ShowText::planned_text_lines))]
    fn write(&self, text: &mut TextBuffer, at: usize, planned: &TextPlan) -> WriteResult {
        let table = Table::Text(self.0, at);
        write_word(text, table, Key::Label, planned.label.as_str())?;
        write_number(text, table, Key::Byte, planned.byte)?;
        write_optional(text, table, Key::Bytes, planned.bytes)
    }
}

#[tactic(auto, unfolding(crate::specs::ShowText::group_head_lines))]
fn write_group_head(text: &mut TextBuffer, table: Table, group: &GroupPlan) -> WriteResult
    ensures { OnOk result (text.new ≡ text.old ++ group_head_lines table group.now) }
{
    write_word(text, table, Key::Label, group.label.as_str())?;
    write_number(text, table, Key::Pgn, group.pgn)?;
    write_number(text, table, Key::Priority, group.priority)?;
    write_number(text, table, Key::Length, group.length)
}

#[tactic(auto, unfolding(crate::specs::ShowText::group_form_lines))]
fn write_group_form(text: &mut TextBuffer, table: Table, group: &GroupPlan) -> WriteResult
    ensures { OnOk result (text.new ≡ text.old ++ group_form_lines table group.now) }
{
    write_truth(text, table, Key::Private, group.private)?;
    write_number(text, table, Key::Most, group.most)?;
    write_optional(text, table, Key::Every, group.every)
}

// The bits that report a group's messages, if any do.
#[tactic(auto, unfolding(crate::specs::ShowText::when_lines))]
fn write_when(text: &mut TextBuffer, table: Table, when: Option<Selector>) -> WriteResult
    ensures { OnOk result (text.new ≡ text.old ++ when_lines table when) }
{
    let Some(selector) = when else {
        return Ok(());
    };
    write_number(text, table, Key::Byte, selector.start / 8 + 1)?;
    write_number(text, table, Key::Bit, selector.start % 8 + 1)?;
    write_number(text, table, Key::Bits, selector.bits)?;
    write_number(text, table, Key::Value, selector.value)
}

/// Writes each group.
pub(super) struct GroupLines;

impl WriteLines<GroupPlan> for GroupLines {
    ghost use Rattle.j39_plan_text.specs.ShowText.{group_lines};

    ghost lines = { λ _. group_lines };

    #[tactic(auto, unfolding(crate::specs::ShowText::group_lines))]
    fn write(&self, text: &mut TextBuffer, at: usize, group: &GroupPlan) -> WriteResult {
        let table = Table::Group(at);
        write_group_head(text, table, group)?;
        write_group_form(text, table, group)?;
        write_when(text, Table::GroupWhen(at), group.when)?;
        write_each(text, &Signals(at, group), &group.signals)?;
        write_each(text, &Texts(at), &group.texts)
    }
}
