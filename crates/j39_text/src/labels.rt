//! What a place of a plan names. Past the last place there is nothing.
ghost use Rattle.std.specs.Prelude.{◌≡◌, ◌++◌, OnOk};
ghost use Rattle.j39_text.specs.Labels.{group_label, group_pgn, group_selector_end, group_text, need_signal_text};
ghost use Rattle.j39_text.specs.Labels.{need_text};
ghost use Rattle.j39_text.specs.Labels.{signal_bits, signal_end, signal_label, signals_of, text_end, text_label};
ghost use Rattle.j39_text.specs.Labels.{texts_of, unit_address, unit_label, units_text};

use crate::{TextBuffer, WriteResult};
use j39_network::{NeedPlan, Plan, TextPlan};
use j39_signal::Signal;

#[tactic(auto, unfolding(crate::specs::Labels::unit_label))]
pub fn unit_label(plan: &Plan, unit: usize) -> &str
    ensures { result.now ≡ unit_label plan.now unit }
{
    match plan.units.get(unit) {
        Some(unit) => unit.label.as_str(),
        None => "",
    }
}

#[tactic(auto, unfolding(crate::specs::Labels::unit_address))]
pub fn unit_address(plan: &Plan, unit: usize) -> u8
    ensures { result ≡ unit_address plan.now unit }
{
    match plan.units.get(unit) {
        Some(unit) => unit.address.number(),
        None => 0,
    }
}

#[tactic(auto, unfolding(crate::specs::Labels::group_label))]
pub fn group_label(plan: &Plan, group: usize) -> &str
    ensures { result.now ≡ group_label plan.now group }
{
    match plan.groups.get(group) {
        Some(group) => group.label.as_str(),
        None => "",
    }
}

#[tactic(auto, unfolding(crate::specs::Labels::group_pgn))]
pub fn group_pgn(plan: &Plan, group: usize) -> u32
    ensures { result ≡ group_pgn plan.now group }
{
    match plan.groups.get(group) {
        Some(group) => group.pgn,
        None => 0,
    }
}

#[tactic(auto, unfolding(crate::specs::Labels::signals_of))]
fn signals_of(plan: &Plan, group: usize) -> &[Signal]
    ensures { result.now ≡ signals_of plan.now group }
{
    match plan.groups.get(group) {
        Some(group) => group.signals.as_slice(),
        None => &[],
    }
}

#[tactic(auto, unfolding(crate::specs::Labels::signal_label))]
pub fn signal_label(plan: &Plan, group: usize, signal: usize) -> &str
    ensures { result.now ≡ signal_label plan.now group signal }
{
    match signals_of(plan, group).get(signal) {
        Some(signal) => signal.label().as_str(),
        None => "",
    }
}

#[tactic(auto, unfolding(crate::specs::Labels::signal_bits))]
pub fn signal_bits(plan: &Plan, group: usize, signal: usize) -> u8
    ensures { result ≡ signal_bits plan.now group signal }
{
    match signals_of(plan, group).get(signal) {
        Some(signal) => signal.bits(),
        None => 0,
    }
}

/// The first place after a signal, in bits from 0.
#[tactic(auto, unfolding(crate::specs::Labels::signal_end))]
pub fn signal_end(plan: &Plan, group: usize, signal: usize) -> u32
    ensures { result ≡ signal_end plan.now group signal }
{
    match signals_of(plan, group).get(signal) {
        Some(signal) => u32::from(signal.start()) + u32::from(signal.bits()),
        None => 0,
    }
}

#[tactic(auto, unfolding(crate::specs::Labels::texts_of))]
fn texts_of(plan: &Plan, group: usize) -> &[TextPlan]
    ensures { result.now ≡ texts_of plan.now group }
{
    match plan.groups.get(group) {
        Some(group) => group.texts.as_slice(),
        None => &[],
    }
}

#[tactic(auto, unfolding(crate::specs::Labels::text_label))]
pub fn text_label(plan: &Plan, group: usize, text: usize) -> &str
    ensures { result.now ≡ text_label plan.now group text }
{
    match texts_of(plan, group).get(text) {
        Some(text) => text.label.as_str(),
        None => "",
    }
}

/// The last byte of a text, counted from 1.
#[tactic(auto, unfolding(crate::specs::Labels::text_end))]
pub fn text_end(plan: &Plan, group: usize, text: usize) -> u16
    ensures { result ≡ text_end plan.now group text }
{
    match texts_of(plan, group).get(text) {
        Some(text) => text.last_byte(),
        None => 0,
    }
}

/// The first place behind the bits of a group's selector, in bits from 0; 0 where it has none.
#[tactic(auto, unfolding(crate::specs::Labels::group_selector_end))]
pub fn group_selector_end(plan: &Plan, group: usize) -> u32
    ensures { result ≡ group_selector_end plan.now group }
{
    match plan.groups.get(group) {
        Some(group) => match group.when {
            Some(selector) => selector.end(),
            None => 0,
        },
        None => 0,
    }
}

/// Writes a word and two units.
#[tactic(auto, unfolding(crate::specs::Labels::units_text))]
pub fn write_units(
    text: &mut TextBuffer,
    word: &str,
    plan: &Plan,
    first: usize,
    second: usize,
) -> WriteResult
    ensures { OnOk result (text.new ≡ text.old ++ units_text word.now plan.now first second) }
{
    text.labels(word, unit_label(plan, first), unit_label(plan, second))
}

/// Writes a word and a group.
#[tactic(auto, unfolding(crate::specs::Labels::group_text))]
pub fn write_group(text: &mut TextBuffer, word: &str, plan: &Plan, group: usize) -> WriteResult
    ensures { OnOk result (text.new ≡ text.old ++ group_text word.now plan.now group) }
{
    text.word(word)?;
    text.word(group_label(plan, group))
}

#[tactic(auto, unfolding(crate::specs::Labels::need_signal_text))]
fn write_need_signal(text: &mut TextBuffer, plan: &Plan, need: &NeedPlan) -> WriteResult
    ensures { OnOk result (text.new ≡ text.old ++ need_signal_text plan.now need.now) }
{
    match need.signal {
        Some(signal) => text.label(signal_label(plan, need.group, signal)),
        None => Ok(()),
    }
}

/// Writes the need at a place: its unit, its group, and its signal where it names one.
#[tactic(auto, unfolding(crate::specs::Labels::need_text))]
pub fn write_need(text: &mut TextBuffer, plan: &Plan, place: usize, need: &NeedPlan) -> WriteResult
    ensures { OnOk result (text.new ≡ text.old ++ need_text plan.now place need.now) }
{
    text.place("need ", place)?;
    text.label(unit_label(plan, need.unit))?;
    text.label(group_label(plan, need.group))?;
    write_need_signal(text, plan, need)
}
