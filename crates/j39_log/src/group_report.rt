//! The lines that report a group.
ghost use Rattle.std.specs.Prelude.{◌≡◌, ◌<◌, ◌≤◌, if◌then◌else◌, [], ◌∷◌, ◌++◌, codes, length, map, OnOk};
ghost use Rattle.std.specs.List.{HoldsAt};
ghost use Rattle.hex.specs.Hex.{encode_upper};
ghost use Rattle.j39_signal.specs.Bits.{raw_of};
ghost use Rattle.j39_signal.specs.Parts.{IsDivisor};
ghost use Rattle.j39_signal.specs.State.{state_of};
ghost use Rattle.j39_network.specs.Records.{single_signals, stands_once};
ghost use Rattle.j39_text.specs.Decimals.{quotient_text};
ghost use Rattle.j39_text.specs.Texts.{field};
ghost use Rattle.j39_log.specs.LogReports.{reading_lines, signal_line, signal_lines};
ghost use Rattle.j39_log.specs.inside.NameTables.{HasTables, lines_by};
ghost use Rattle.j39_log.specs.ReportHeads.{behind_head};
ghost use Rattle.j39_log.specs.inside.ValueLines.{value_line_of, value_lines_of};

use crate::named_lines::write_named;
use crate::names::GroupNames;
use crate::record_lines::{NoNames, write_records};
use crate::text_lines::write_texts;
use crate::trouble_code::write_code_line;
use crate::value_line::ValueLine;
use j39_id::Ident;
use j39_id::limits::FRAME_BYTES;
use j39_network::{GroupPlan, stands_once};
use j39_signal::{Kind, Layout, Signal, State};
use j39_text::{TextBuffer, WriteResult, write_destination, write_quotient};

// The number of a value. One digit, as most values of a few bits have, is written apart, which is faster.
#[inline(always)]
fn write_number(text: &mut TextBuffer, value: i64, per: u32) -> WriteResult
    requires { IsDivisor per }
    ensures { OnOk result (text.new ≡ text.old ++ quotient_text per value) }
{
    let magnitude = value.unsigned_abs();
    if per == 1 && 0 <= value && magnitude < 10 {
        text.bytes(&[b'0' + magnitude as u8])
    } else {
        write_quotient(text, value, per)
    }
}

// The line of a value, between what stands around it.
fn write_scaled(text: &mut TextBuffer, signal: &Signal, line: &ValueLine, value: i64) -> WriteResult
    ensures { OnOk result (text.new ≡ text.old
        ++ (line.now.before ++ (quotient_text signal.now.per value ++ line.now.after))) }
{
    text.bytes(line.before.as_slice())?;
    write_number(text, value, signal.per())?;
    text.bytes(line.after.as_slice())
}

// The line of a raw number that is no value, behind the word for it.
fn write_raw(text: &mut TextBuffer, signal: &Signal, word: &str, raw: u32) -> WriteResult
    ensures { OnOk result (text.new ≡ text.old
        ++ (codes "  " ++ (signal.now.label.bytes ++ (field word.now raw ++ 10 ∷ [])))) }
{
    text.word("  ")?;
    text.word(signal.label().as_str())?;
    text.field(word, raw)?;
    text.end_line()
}

// The line of a value, which of a trouble code is its raw number.
fn write_value(text: &mut TextBuffer, signal: &Signal, line: &ValueLine, value: i64) -> WriteResult
    requires { line.now ≡ value_line_of signal.now }
    ensures { OnOk result (text.new ≡ text.old ++ signal_line signal.now (State.Value value)) }
{
    match signal.kind() {
        Kind::Dtc => write_code_line(text, signal, value.unsigned_abs()),
        _ => write_scaled(text, signal, line, value),
    }
}

#[tactic(auto, unfolding(crate::specs::LogReports::signal_line, crate::specs::LogReports::signal_state_text))]
fn write_signal(
    text: &mut TextBuffer,
    signal: &Signal,
    line: &ValueLine,
    state: State,
) -> WriteResult
    requires { line.now ≡ value_line_of signal.now }
    ensures { OnOk result (text.new ≡ text.old ++ signal_line signal.now state) }
{
    match state {
        State::Value(value) => write_value(text, signal, line, value),
        State::Specific(raw) => write_raw(text, signal, " specific ", raw),
        State::Reserved(raw) => write_raw(text, signal, " reserved ", raw),
        State::Fault(raw) => write_raw(text, signal, " fault ", raw),
        State::Absent => text.bytes(line.absent.as_slice()),
    }
}

// The signal at place `i` of a layout, unless it is repeated or isn't there.
fn write_single(
    text: &mut TextBuffer,
    line: &ValueLine,
    layout: &Layout,
    signal: &Signal,
    i: usize,
    bytes: &[u8],
) -> WriteResult
    requires line { line.now ≡ value_line_of signal.now }
    requires place { i < length layout.now.signals }
    requires at { HoldsAt (λ s. s ≡ signal.now) layout.now.signals i }
    requires bytes { layout.now.length ≤ length bytes.now }
    ensures { OnOk result (text.new ≡ text.old ++ (if stands_once (length bytes.now) signal.now
        then signal_line signal.now (state_of signal.now (raw_of bytes.now signal.now)) else [])) }
{
    if stands_once(signal, bytes.len()) {
        let state = layout.read_there(bytes, i);
        write_signal(text, signal, line, state)
    } else {
        Ok(())
    }
}

// The signals of a group that aren't repeated, of those that aren't optional all, and of the others those that are
// there.
fn write_signals(
    text: &mut TextBuffer,
    signals: &[Signal],
    lines: &[ValueLine],
    layout: &Layout,
    bytes: &[u8],
) -> WriteResult
    requires signals { layout.now.signals ≡ signals.now }
    requires lines { lines.now ≡ map value_line_of signals.now }
    requires bytes { layout.now.length ≤ length bytes.now }
    ensures { OnOk result (text.new ≡ text.old
        ++ signal_lines (single_signals (length bytes.now) signals.now) bytes.now) }
{
    for (place, signal) in signals.iter().enumerate() {
        write_single(text, &lines[place], layout, signal, place, bytes)?;
    }
    Ok(())
}

/// Writes two digits for each byte. Those of a full frame are written apart, which is faster since their count is known
/// there.
#[inline(always)]
pub fn write_digits(text: &mut TextBuffer, bytes: &[u8]) -> WriteResult
    ensures { OnOk result (text.new ≡ text.old ++ encode_upper bytes.now) }
{
    if bytes.len() == FRAME_BYTES {
        text.hex(&bytes[..FRAME_BYTES])
    } else {
        text.hex(bytes)
    }
}

/// Writes who sent which bytes of a group to whom: the line of a report with this head.
#[tactic(auto, unfolding(crate::specs::ReportHeads::behind_head))]
pub(super) fn write_group_line(
    text: &mut TextBuffer,
    head: &[u8],
    ident: Ident,
    bytes: &[u8],
) -> WriteResult
    ensures { OnOk result (text.new ≡ text.old ++ (head.now ++ behind_head ident bytes.now)) }
{
    text.bytes(head)?;
    text.number(ident.sa)?;
    text.word(" to ")?;
    write_destination(text, ident)?;
    text.word(" bytes ")?;
    write_digits(text, bytes)?;
    text.end_line()
}

// The same by the states of the signals alone, as most plans have it.
#[tactic(auto, unfolding(crate::specs::LogReports::reading_lines, crate::specs::LogReports::all_records_lines))]
fn write_states(
    text: &mut TextBuffer,
    group: &GroupPlan,
    lines: &[ValueLine],
    layout: &Layout,
    bytes: &[u8],
) -> WriteResult
    requires signals { layout.now.signals ≡ group.now.signals.items }
    requires lines { lines.now ≡ value_lines_of group.now }
    requires bytes { layout.now.length ≤ length bytes.now }
    ensures { OnOk result (text.new ≡ text.old ++ reading_lines group.now bytes.now) }
{
    write_signals(text, group.signals.as_slice(), lines, layout, bytes)?;
    write_records(text, &NoNames, group, layout, bytes)?;
    write_texts(text, group.texts.as_slice(), bytes)
}

/// Writes what the signals, the records and the texts of a group read, in the form that the plan asks for.
#[inline(always)]
pub(super) fn write_readings(
    text: &mut TextBuffer,
    group: &GroupPlan,
    names: Option<GroupNames<'_>>,
    lines: &[ValueLine],
    layout: &Layout,
    bytes: &[u8],
) -> WriteResult
    requires signals { layout.now.signals ≡ group.now.signals.items }
    requires names { HasTables group.now names }
    requires lines { lines.now ≡ value_lines_of group.now }
    requires bytes { layout.now.length ≤ length bytes.now }
    ensures { OnOk result (text.new ≡ text.old ++ lines_by names.entry group.now bytes.now) }
{
    match names {
        None => write_states(text, group, lines, layout, bytes),
        Some(names) => write_named(text, names, group, layout, bytes),
    }
}
