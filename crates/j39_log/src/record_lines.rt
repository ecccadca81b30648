//! The lines of the records of a group.
ghost use Rattle.std.specs.Prelude.{◌≡◌, ◌++◌, length, Some, OnOk};
ghost use Rattle.j39_network.specs.Records.{record_count};
ghost use Rattle.j39_log.specs.LogReports.{lines_of_all_records, lines_of_records, record_line, scaled_text};
ghost use Rattle.j39_log.specs.LogReports.{signal_state_text, value_text};

use crate::trouble_code::write_code;
use crate::value_line::write_unit;
use j39_network::GroupPlan;
use j39_signal::{Kind, Layout, Signal, State};
use j39_text::{TextBuffer, WriteResult, write_quotient};

#[tactic(auto, unfolding(crate::specs::LogReports::scaled_text, j39_text::specs::Texts::field_text))]
pub(crate) fn write_scaled(text: &mut TextBuffer, signal: &Signal, value: i64) -> WriteResult
    ensures { OnOk result (text.new ≡ text.old ++ scaled_text signal.now.per signal.now.unit.bytes value) }
{
    text.word(" value ")?;
    write_quotient(text, value, signal.per())?;
    write_unit(text, signal.unit())
}

// Writes a value, which of a trouble code is its raw number.
fn write_value(text: &mut TextBuffer, signal: &Signal, value: i64) -> WriteResult
    ensures { OnOk result (text.new ≡ text.old
        ++ value_text signal.now.kind signal.now.per signal.now.unit.bytes value) }
{
    match signal.kind() {
        Kind::Dtc => write_code(text, value.unsigned_abs()),
        _ => write_scaled(text, signal, value),
    }
}

#[tactic(auto, unfolding(crate::specs::LogReports::signal_state_text))]
pub(crate) fn write_state(text: &mut TextBuffer, signal: &Signal, state: State) -> WriteResult
    ensures { OnOk result (text.new ≡ text.old ++ signal_state_text signal.now state) }
{
    match state {
        State::Value(value) => write_value(text, signal, value),
        State::Specific(raw) => text.field(" specific ", raw),
        State::Reserved(raw) => text.field(" reserved ", raw),
        State::Fault(raw) => text.field(" fault ", raw),
        State::Absent => text.word(" absent"),
    }
}

#[tactic(auto, unfolding(crate::specs::LogReports::record_line))]
fn write_line(text: &mut TextBuffer, place: usize, signal: &Signal, state: State) -> WriteResult
    ensures { OnOk result (text.new ≡ text.old ++ record_line place signal.now state) }
{
    text.word("  ")?;
    text.word(signal.label().as_str())?;
    text.field("[", place)?;
    text.word("]")?;
    write_state(text, signal, state)?;
    text.end_line()
}

/// A record of a message, which stands so many bytes behind the first.
#[derive(Clone, Copy)]
pub(crate) struct GroupRecord<'a> {
    pub(crate) place: usize,
    pub(crate) behind: usize,
    pub(crate) layout: &'a Layout,
    pub(crate) signals: &'a [Signal],
    pub(crate) bytes: &'a [u8],
}

/// What writes the records of a group.
pub(crate) trait RecordWriter {
    ghost use Rattle.std.specs.Prelude.{◌≡◌, ◌++◌, ℕ, List, All, length, OnOk};
    ghost use Rattle.j39_signal.specs.declared.signal_parts.SignalParts.{SignalParts as ASignal};
    ghost use Rattle.j39_signal.specs.Places.{IsInside};
    ghost use Rattle.j39_network.specs.Records.{record_signals};

    /// It writes of groups with these signals.
    ghost fits: { Self → List ASignal → Type 0 };

    /// This is written of the record of a place, so many bytes behind the first, where a message has these bytes.
    ghost lines: { Self → List ASignal → List ℕ → ℕ → ℕ → List ℕ };

    fn write_record(&self, text: &mut TextBuffer, at: GroupRecord<'_>) -> WriteResult
        requires signals { at.layout.now.signals ≡ at.signals.now }
        requires fits { fits self.now at.signals.now }
        requires inside { All (IsInside (length at.bytes.now)) (record_signals at.behind at.signals.now) }
        ensures { let r = at.entry in OnOk result
            (text.new ≡ text.old ++ lines self.now r.signals.now r.bytes.now r.place r.behind) };
}

/// Writes records where the plan has no names.
pub(crate) struct NoNames;

impl RecordWriter for NoNames {
    ghost use Rattle.j39_network.specs.Records.{record_signals};
    ghost use Rattle.j39_log.specs.LogReports.{record_lines};

    ghost fits = { λ _ _. Unit {0} };

    ghost lines = { λ _ signals bytes place behind. record_lines place (record_signals behind signals) bytes };

    fn write_record(&self, text: &mut TextBuffer, at: GroupRecord<'_>) -> WriteResult {
        let signals = at.signals;
        for (i, signal) in signals.iter().enumerate() {
            if signal.is_repeated() {
                let state = at.layout.read_further(at.bytes, i, at.behind);
                write_line(text, at.place, signal, state)?;
            }
        }
        Ok(())
    }
}

// Few groups have records, so what writes them is no part of the code that writes a report.
#[inline(never)]
fn write_all_records<R: RecordWriter>(
    text: &mut TextBuffer,
    writer: &R,
    group: &GroupPlan,
    every: u8,
    layout: &Layout,
    bytes: &[u8],
) -> WriteResult
    requires signals { layout.now.signals ≡ group.now.signals.items }
    requires fits { R.fits writer.now group.now.signals.items }
    requires every { group.now.every ≡ Some every }
    ensures { OnOk result (text.new ≡ text.old
        ++ lines_of_records (R.lines writer.now group.now.signals.items bytes.now) every
        (record_count group.now (length bytes.now))) }
{
    let signals = group.signals.as_slice();
    let count = group.record_count(bytes.len());
    for record in 0..count {
        let behind = usize::from(every) * record;
        let at = GroupRecord {
            place: record + 1,
            behind,
            layout,
            signals,
            bytes,
        };
        writer.write_record(text, at)?;
    }
    Ok(())
}

/// Writes what the records of a group read that end inside the bytes.
pub(crate) fn write_records<R: RecordWriter>(
    text: &mut TextBuffer,
    writer: &R,
    group: &GroupPlan,
    layout: &Layout,
    bytes: &[u8],
) -> WriteResult
    requires signals { layout.now.signals ≡ group.now.signals.items }
    requires fits { R.fits writer.now group.now.signals.items }
    ensures { OnOk result (text.new ≡ text.old
        ++ lines_of_all_records (R.lines writer.now group.now.signals.items bytes.now) group.now (length bytes.now)) }
{
    match group.every {
        None => Ok(()),
        Some(every) => write_all_records(text, writer, group, every, layout, bytes),
    }
}
