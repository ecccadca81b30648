//! The lines of units.
ghost use Rattle.std.specs.Prelude.{◌≡◌, ◌++◌, OnOk};
ghost use Rattle.j39_plan_text.specs.ShowText.{chooser_text, identity_lines, lower_name_lines};
ghost use Rattle.j39_plan_text.specs.ShowText.{name_field_lines as name_lines, queue_text};
ghost use Rattle.j39_plan_text.specs.ShowText.{unit_way_lines, upper_name_lines};

use super::values::{write_number, write_truth, write_word};
use crate::each::WriteLines;
use j39_id::NameFields;
use j39_network::{Queue, UnitPlan, Way};
use j39_plan::{Key, Table};
use j39_text::{TextBuffer, WriteResult};

fn chooser_word(way: Way) -> &'static str
    ensures { result.now ≡ chooser_text way }
{
    match way {
        Way::Lowest => "lowest",
        Way::Upward => "upward",
    }
}

fn queue_word(queue: Queue) -> &'static str
    ensures { result.now ≡ queue_text queue }
{
    match queue {
        Queue::Priority => "priority",
        Queue::Any => "any",
    }
}

// The identity number, where the unit isn't of any.
fn write_identity(text: &mut TextBuffer, table: Table, any: bool, identity: u32) -> WriteResult
    ensures { OnOk result (text.new ≡ text.old ++ identity_lines table any identity) }
{
    if any {
        Ok(())
    } else {
        write_number(text, table, Key::Identity, identity)
    }
}

#[tactic(auto, unfolding(crate::specs::ShowText::lower_name_lines))]
fn write_lower_name(
    text: &mut TextBuffer,
    table: Table,
    any: bool,
    fields: NameFields,
) -> WriteResult
    ensures { OnOk result (text.new ≡ text.old ++ lower_name_lines table any fields) }
{
    write_identity(text, table, any, fields.identity)?;
    write_number(text, table, Key::Manufacturer, fields.manufacturer)?;
    write_number(text, table, Key::Ecu, fields.ecu)?;
    write_number(text, table, Key::FunctionInstance, fields.function_instance)?;
    write_number(text, table, Key::Function, fields.function)
}

#[tactic(auto, unfolding(crate::specs::ShowText::upper_name_lines))]
fn write_upper_name(text: &mut TextBuffer, table: Table, fields: NameFields) -> WriteResult
    ensures { OnOk result (text.new ≡ text.old ++ upper_name_lines table fields) }
{
    write_number(text, table, Key::System, fields.system)?;
    write_number(text, table, Key::SystemInstance, fields.system_instance)?;
    write_number(text, table, Key::Industry, fields.industry)?;
    write_truth(text, table, Key::Arbitrary, fields.arbitrary == 1)
}

#[tactic(auto, unfolding(crate::specs::ShowText::name_field_lines))]
fn write_name(text: &mut TextBuffer, table: Table, any: bool, fields: NameFields) -> WriteResult
    ensures { OnOk result (text.new ≡ text.old ++ name_lines table any fields) }
{
    write_lower_name(text, table, any, fields)?;
    write_upper_name(text, table, fields)
}

// How the unit chooses addresses, how many packets it grants, and which of its waiting frames it offers.
#[tactic(auto, unfolding(crate::specs::ShowText::unit_way_lines))]
fn write_ways(text: &mut TextBuffer, table: Table, unit: &UnitPlan) -> WriteResult
    ensures { OnOk result (text.new ≡ text.old ++ unit_way_lines table unit.now) }
{
    write_word(text, table, Key::Chooser, chooser_word(unit.way))?;
    write_number(text, table, Key::Window, unit.window)?;
    write_word(text, table, Key::Queue, queue_word(unit.queue))
}

/// Writes each unit.
pub(super) struct UnitLines;

impl WriteLines<UnitPlan> for UnitLines {
    ghost use Rattle.j39_plan_text.specs.ShowText.{unit_value_lines};

    ghost lines = { λ _. unit_value_lines };

    #[tactic(auto, unfolding(crate::specs::ShowText::unit_value_lines))]
    fn write(&self, text: &mut TextBuffer, at: usize, unit: &UnitPlan) -> WriteResult {
        let table = Table::Unit(at);
        write_word(text, table, Key::Label, unit.label.as_str())?;
        write_number(text, table, Key::Address, unit.address.number())?;
        write_ways(text, table, unit)?;
        write_name(
            text,
            Table::UnitName(at),
            unit.any_identity,
            unit.name.fields(),
        )?;
        write_truth(text, table, Key::Claims, unit.claims)
    }
}
