//! The lines of signals and records where the plan has names.
ghost use Rattle.std.specs.Prelude.{◌≡◌, ◌≤◌, ◌<◌, [], ◌++◌, if◌then◌else◌, length, OnOk};
ghost use Rattle.std.specs.List.{HoldsAt};
ghost use Rattle.j39_signal.specs.Bits.{raw_of};
ghost use Rattle.j39_signal.specs.State.{shown_of};
ghost use Rattle.j39_network.specs.Records.{stands_once};
ghost use Rattle.j39_log.specs.LogReports.{suspect_parameter as parameter_of};
ghost use Rattle.j39_log.specs.NamedReports.{named_code_text, named_lines, named_record_line, named_signal_line};
ghost use Rattle.j39_log.specs.NamedReports.{named_signal_lines, named_single_signals, named_state_text};
ghost use Rattle.j39_log.specs.NamedReports.{named_value_text, parameter_name_text, raw_text};
ghost use Rattle.j39_log.specs.inside.NameTables.{named_by, names_in};

use crate::name_table::NameTable;
use crate::names::GroupNames;
use crate::record_lines::{GroupRecord, RecordWriter, write_records, write_scaled, write_state};
use crate::text_lines::write_texts;
use crate::trouble_code::{suspect_parameter, write_code};
use j39_network::{GroupPlan, stands_once};
use j39_signal::{Kind, Layout, Shown, Signal, State};
use j39_text::{TextBuffer, WriteResult};

// Writes the name of the suspect parameter that a trouble code reports, behind a space.
#[tactic(auto, unfolding(crate::specs::NamedReports::parameter_name_text))]
fn write_parameter_name(text: &mut TextBuffer, parameters: &NameTable, code: u64) -> WriteResult
    ensures { OnOk result (text.new ≡ text.old ++ parameter_name_text (names_in parameters.now) (parameter_of code)) }
{
    match parameters.get(suspect_parameter(code) as u32) {
        Some(name) => {
            text.word(" ")?;
            text.bytes(name.as_slice())
        }
        None => Ok(()),
    }
}

// Writes what a trouble code says, with the name of its suspect parameter.
#[tactic(auto, unfolding(crate::specs::NamedReports::named_code_text))]
fn write_named_code(text: &mut TextBuffer, parameters: &NameTable, code: u64) -> WriteResult
    ensures { OnOk result (text.new ≡ text.old ++ named_code_text (names_in parameters.now) code) }
{
    write_code(text, code)?;
    if code != 0 && code / 0x8000_0000 % 2 == 0 {
        write_parameter_name(text, parameters, code)
    } else {
        Ok(())
    }
}

// Writes a value, which of a trouble code is its raw number.
fn write_value(
    text: &mut TextBuffer,
    parameters: &NameTable,
    signal: &Signal,
    value: i64,
) -> WriteResult
    ensures { OnOk result (text.new ≡ text.old
        ++ named_value_text (names_in parameters.now) signal.now.kind signal.now.per signal.now.unit.bytes value) }
{
    match signal.kind() {
        Kind::Dtc => write_named_code(text, parameters, value.unsigned_abs()),
        _ => write_scaled(text, signal, value),
    }
}

#[tactic(auto, unfolding(crate::specs::NamedReports::named_state_text))]
fn write_named_state(
    text: &mut TextBuffer,
    parameters: &NameTable,
    signal: &Signal,
    state: State,
) -> WriteResult
    ensures { OnOk result (text.new ≡ text.old ++ named_state_text (names_in parameters.now) signal.now state) }
{
    match state {
        State::Value(value) => write_value(text, parameters, signal, value),
        _other => write_state(text, signal, state),
    }
}

// What a signal reads, and the names of its raw numbers and of suspect parameters.
#[derive(Clone, Copy)]
struct NamedReading<'a> {
    signal: &'a Signal,
    values: &'a NameTable,
    parameters: &'a NameTable,
    shown: Shown,
}

impl NamedReading<'_> {
    #[tactic(auto, unfolding(crate::specs::NamedReports::raw_text))]
    fn write_shown(&self, text: &mut TextBuffer) -> WriteResult
        requires { self.now.shown ≡ shown_of self.now.signal.now self.now.shown.raw }
        ensures { OnOk result (text.new ≡ text.old
            ++ raw_text (names_in self.now.parameters.now)
            (self.now.signal.now, names_in self.now.values.now) self.now.shown.raw) }
    {
        match self.values.get(self.shown.raw) {
            Some(name) => {
                write_scaled(text, self.signal, self.shown.value)?;
                text.word(" = ")?;
                text.bytes(name.as_slice())
            }
            None => write_named_state(text, self.parameters, self.signal, self.shown.state),
        }
    }

    // The line of a signal of a group.
    #[tactic(auto, unfolding(crate::specs::NamedReports::named_signal_line))]
    fn write_signal(&self, text: &mut TextBuffer) -> WriteResult
        requires { self.now.shown ≡ shown_of self.now.signal.now self.now.shown.raw }
        ensures { OnOk result (text.new ≡ text.old ++ named_signal_line self.now.signal.now
            (raw_text (names_in self.now.parameters.now)
            (self.now.signal.now, names_in self.now.values.now) self.now.shown.raw)) }
    {
        text.word("  ")?;
        text.word(self.signal.label().as_str())?;
        self.write_shown(text)?;
        text.end_line()
    }

    // The line of a signal in the record of a place.
    #[tactic(auto, unfolding(crate::specs::NamedReports::named_record_line))]
    fn write_line(&self, text: &mut TextBuffer, place: usize) -> WriteResult
        requires { self.now.shown ≡ shown_of self.now.signal.now self.now.shown.raw }
        ensures { OnOk result (text.new ≡ text.old ++ named_record_line place self.now.signal.now
            (raw_text (names_in self.now.parameters.now)
            (self.now.signal.now, names_in self.now.values.now) self.now.shown.raw)) }
    {
        text.word("  ")?;
        text.word(self.signal.label().as_str())?;
        text.field("[", place)?;
        text.word("]")?;
        self.write_shown(text)?;
        text.end_line()
    }
}

// That of the signal at place `i` of a layout, unless it is repeated or isn't there.
fn write_single(
    text: &mut TextBuffer,
    values: &NameTable,
    parameters: &NameTable,
    layout: &Layout,
    signal: &Signal,
    i: usize,
    bytes: &[u8],
) -> WriteResult
    requires place { i < length layout.now.signals }
    requires at { HoldsAt (λ s. s ≡ signal.now) layout.now.signals i }
    requires bytes { layout.now.length ≤ length bytes.now }
    ensures { OnOk result (text.new ≡ text.old ++ (if stands_once (length bytes.now) signal.now
        then named_signal_line signal.now (raw_text (names_in parameters.now) (signal.now, names_in values.now)
        (raw_of bytes.now signal.now))
        else [])) }
{
    if stands_once(signal, bytes.len()) {
        let shown = layout.show(bytes, i);
        let reading = NamedReading {
            signal,
            values,
            parameters,
            shown,
        };
        reading.write_signal(text)
    } else {
        Ok(())
    }
}

// The signals of a group that aren't repeated, of those that aren't optional all, and of the others those that are
// there.
fn write_signals(
    text: &mut TextBuffer,
    values: &[NameTable],
    parameters: &NameTable,
    signals: &[Signal],
    layout: &Layout,
    bytes: &[u8],
) -> WriteResult
    requires signals { layout.now.signals ≡ signals.now }
    requires names { length values.now ≡ length signals.now }
    requires bytes { layout.now.length ≤ length bytes.now }
    ensures { OnOk result (text.new ≡ text.old
        ++ named_signal_lines (names_in parameters.now)
        (named_single_signals (length bytes.now) (named_by values.now signals.now)) bytes.now) }
{
    for (place, signal) in signals.iter().enumerate() {
        write_single(
            text,
            &values[place],
            parameters,
            layout,
            signal,
            place,
            bytes,
        )?;
    }
    Ok(())
}

impl RecordWriter for GroupNames<'_> {
    ghost use Rattle.std.specs.Prelude.{◌≡◌, length};
    ghost use Rattle.j39_log.specs.NamedReports.{named_record_lines, named_record_signals};
    ghost use Rattle.j39_log.specs.inside.NameTables.{named_by, names_in};

    ghost fits = { λ names signals. length names.values.now ≡ length signals };

    ghost lines = { λ names signals bytes place behind. named_record_lines (names_in names.parameters.now) place
        (named_record_signals behind (named_by names.values.now signals)) bytes };

    fn write_record(&self, text: &mut TextBuffer, at: GroupRecord<'_>) -> WriteResult {
        let (values, signals) = (self.values, at.signals);
        for (i, signal) in signals.iter().enumerate() {
            let names = &values[i];
            if signal.is_repeated() {
                let shown = at.layout.show_further(at.bytes, i, at.behind);
                let reading = NamedReading {
                    signal,
                    values: names,
                    parameters: self.parameters,
                    shown,
                };
                reading.write_line(text, at.place)?;
            }
        }
        Ok(())
    }
}

/// Writes what the signals, the records and the texts of a group read, with the names that the plan has. Few plans have
/// any, so this is no part of the code that writes a report without.
#[inline(never)]
#[tactic(auto, unfolding(crate::specs::NamedReports::named_lines, crate::specs::NamedReports::all_named_records_lines))]
pub(crate) fn write_named(
    text: &mut TextBuffer,
    names: GroupNames<'_>,
    group: &GroupPlan,
    layout: &Layout,
    bytes: &[u8],
) -> WriteResult
    requires signals { layout.now.signals ≡ group.now.signals.items }
    requires names { length names.values.now ≡ length group.now.signals.items }
    requires bytes { layout.now.length ≤ length bytes.now }
    ensures { OnOk result (text.new ≡ text.old
        ++ named_lines (names_in names.entry.parameters.now)
        (named_by names.entry.values.now group.now.signals.items) group.now bytes.now) }
{
    write_signals(
        text,
        names.values,
        names.parameters,
        group.signals.as_slice(),
        layout,
        bytes,
    )?;
    write_records(text, &names, group, layout, bytes)?;
    write_texts(text, group.texts.as_slice(), bytes)
}
