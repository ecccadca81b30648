//! What stands around the value in the line of a signal, which is the same in each report of it.
ghost use Rattle.std.specs.Prelude.{◌≡◌, ◌≢◌, [], ◌++◌, map, IfOk, OnOk, OnErr};
ghost use Rattle.j39_log.specs.LogReports.{signal_unit_text};
ghost use Rattle.j39_log.specs.inside.ValueLines.{items_of, value_line_of, value_lines_of};

use j39_id::Label;
use j39_network::GroupPlan;
use j39_signal::Signal;
use j39_text::{TextBuffer, WriteResult};
use std::alloc::{AllocError, Global};

/// The text before the value of a signal, the one behind it, and the whole line of one that is absent.
#[derive(Drop)]
pub struct ValueLine {
    pub before: TextBuffer,
    pub after: TextBuffer,
    pub absent: TextBuffer,
}

/// Writes one space and a unit, where there is one.
#[tactic(auto, unfolding(crate::specs::LogReports::signal_unit_text))]
pub(crate) fn write_unit(text: &mut TextBuffer, unit: &Label) -> WriteResult
    ensures { OnOk result (text.new ≡ text.old ++ signal_unit_text unit.now.bytes) }
{
    if unit.is_empty() {
        return Ok(());
    }
    text.word(" ")?;
    text.word(unit.as_str())
}

fn value_line(alloc: Global, signal: &Signal) -> Result<ValueLine, AllocError>
    ensures { IfOk result (λ line. line ≡ value_line_of signal.now) }
{
    let mut before = TextBuffer::new(alloc);
    before.word("  ")?;
    before.word(signal.label().as_str())?;
    before.word(" value ")?;
    let mut after = TextBuffer::new(alloc);
    write_unit(&mut after, signal.unit())?;
    after.end_line()?;
    let mut absent = TextBuffer::new(alloc);
    absent.word("  ")?;
    absent.word(signal.label().as_str())?;
    absent.word(" absent")?;
    absent.end_line()?;
    Ok(ValueLine {
        before,
        after,
        absent,
    })
}

// The lines of the values of signals, in order.
fn value_lines(alloc: Global, signals: &[Signal]) -> Result<Vec<ValueLine>, AllocError>
    ensures { IfOk result (λ lines. lines.items ≡ map value_line_of signals.now) }
{
    let mut lines = Vec::new(alloc);
    for signal in signals {
        lines.push(value_line(alloc, signal)?)?;
    }
    Ok(lines)
}

/// The lines of the values of each group's signals, in order.
pub(crate) fn value_lines_of(
    alloc: Global,
    groups: &[GroupPlan],
) -> Result<Vec<Vec<ValueLine>>, AllocError>
    ensures lines { IfOk result (λ lines. map items_of lines.items ≡ map value_lines_of groups.now) }
    ensures memory { OnErr result (groups.now ≢ []) }
{
    let mut lines = Vec::new(alloc);
    for group in groups {
        lines.push(value_lines(alloc, group.signals.as_slice())?)?;
    }
    Ok(lines)
}
