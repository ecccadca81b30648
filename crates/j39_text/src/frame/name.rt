//! The lines of a NAME.
ghost use Rattle.std.specs.Prelude.{◌≡◌, ◌++◌, OnOk};
ghost use Rattle.j39_text.specs.FrameText.{fields_line, lower_fields, middle_fields, name_lines, upper_fields};

use crate::{TextBuffer, WriteResult};
use j39_id::{Name, NameFields};

#[tactic(auto, unfolding(crate::specs::FrameText::lower_fields))]
fn write_lower_fields(text: &mut TextBuffer, fields: NameFields) -> WriteResult
    ensures { OnOk result (text.new ≡ text.old ++ lower_fields fields) }
{
    text.field("identity ", fields.identity)?;
    text.field(" manufacturer ", fields.manufacturer)?;
    text.field(" ecu ", fields.ecu)
}

#[tactic(auto, unfolding(crate::specs::FrameText::middle_fields))]
fn write_middle_fields(text: &mut TextBuffer, fields: NameFields) -> WriteResult
    ensures { OnOk result (text.new ≡ text.old ++ middle_fields fields) }
{
    text.field(" function_instance ", fields.function_instance)?;
    text.field(" function ", fields.function)?;
    text.field(" reserved ", fields.reserved)
}

#[tactic(auto, unfolding(crate::specs::FrameText::upper_fields))]
fn write_upper_fields(text: &mut TextBuffer, fields: NameFields) -> WriteResult
    ensures { OnOk result (text.new ≡ text.old ++ upper_fields fields) }
{
    text.field(" system ", fields.system)?;
    text.field(" system_instance ", fields.system_instance)?;
    text.field(" industry ", fields.industry)?;
    text.field(" arbitrary ", fields.arbitrary)
}

#[tactic(auto, unfolding(crate::specs::FrameText::fields_line))]
fn write_fields(text: &mut TextBuffer, fields: NameFields) -> WriteResult
    ensures { OnOk result (text.new ≡ text.old ++ fields_line fields) }
{
    write_lower_fields(text, fields)?;
    write_middle_fields(text, fields)?;
    write_upper_fields(text, fields)?;
    text.end_line()
}

// The digits of a NAME, and its fields in a line of their own.
#[tactic(auto, unfolding(crate::specs::FrameText::name_lines))]
pub(super) fn write_name(text: &mut TextBuffer, name: Name) -> WriteResult
    ensures { OnOk result (text.new ≡ text.old ++ name_lines name) }
{
    text.hex(&name.to_bits().to_be_bytes())?;
    text.end_line()?;
    write_fields(text, name.fields())
}
