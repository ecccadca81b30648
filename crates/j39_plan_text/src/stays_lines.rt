//! The lines that say which units of a plan stay.
ghost use Rattle.std.specs.Prelude.{◌≡◌, ◌++◌, OnOk};
ghost use Rattle.j39_plan_text.specs.AddressesText.{stays_text, stays_word, staying_line, staying_lines};
ghost use Rattle.j39_findings.specs.Standing.{stays_of};

use j39_findings::Standing;
use j39_network::UnitPlan;
use j39_text::{TextBuffer, WriteResult};

fn word_of(stays: bool) -> &'static str
    ensures { result.now ≡ stays_word stays }
{
    if stays { " stays " } else { " may move from " }
}

#[tactic(auto, unfolding(crate::specs::AddressesText::staying_line))]
fn write_unit(text: &mut TextBuffer, standing: &Standing, unit: &UnitPlan) -> WriteResult
    ensures { OnOk result (text.new ≡ text.old ++ staying_line (stays_of standing.now) unit.now) }
{
    text.word("unit ")?;
    text.word(unit.label.as_str())?;
    text.field(word_of(standing.stays(unit)), unit.address.number())?;
    text.end_line()
}

fn write_units(text: &mut TextBuffer, standing: &Standing, units: &[UnitPlan]) -> WriteResult
    ensures { OnOk result (text.new ≡ text.old ++ staying_lines (stays_of standing.now) units.now) }
{
    for unit in units {
        write_unit(text, standing, unit)?;
    }
    Ok(())
}

/// Writes of each unit whether it stays, and how many do.
#[tactic(auto, unfolding(crate::specs::AddressesText::stays_text))]
pub(super) fn write_stays(
    text: &mut TextBuffer,
    standing: &Standing,
    units: &[UnitPlan],
) -> WriteResult
    ensures { OnOk result (text.new ≡ text.old ++ stays_text (stays_of standing.now) units.now) }
{
    write_units(text, standing, units)?;
    let staying = units.iter().filter(|unit| standing.stays(unit)).count();
    text.field("stay ", staying)?;
    text.field(" of ", units.len())?;
    text.end_line()
}
