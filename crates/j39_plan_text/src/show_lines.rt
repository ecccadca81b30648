//! The lines of the values of a plan.
ghost use Rattle.std.specs.Prelude.{◌≡◌, ◌<◌, ◌++◌, OnOk};
ghost use Rattle.j39_plan_text.specs.ShowText.{error_lines, kept_line, kept_lines, gap_lines, known_timing_lines};
ghost use Rattle.j39_plan_text.specs.ShownLines.{line_text};
ghost use Rattle.j39_plan_text.specs.ShowText.{show_text, timing_lines, top_lines};

mod choices;
mod flows;
mod groups;
mod units;
mod values;

use crate::each::write_each;
use choices::write_choices;
use flows::{Flows, Needs, Requests};
use groups::GroupLines;
use j39_claim::AddressSet;
use j39_id::Address;
use j39_load::bits_of_second;
use j39_network::{ErrorRate, Plan, Timing};
use j39_plan::{Key, Table};
use j39_text::{TextBuffer, WriteResult};
use j39_variants::ProductLine;
use units::UnitLines;
use values::{write_number, write_truth};

// An address that is kept free.
#[tactic(auto, unfolding(crate::specs::ShowText::kept_line))]
fn write_kept(text: &mut TextBuffer, kept: &AddressSet, address: u8) -> WriteResult
    requires { address < 254 }
    ensures { OnOk result (text.new ≡ text.old ++ kept_line kept.now address) }
{
    let Some(place) = Address::new(address) else {
        return Ok(());
    };
    if kept.has(place) {
        write_number(text, Table::Top, Key::KeepFree, address)
    } else {
        Ok(())
    }
}

// Each of 128 to 247 that is kept free.
fn write_all_kept(text: &mut TextBuffer, kept: &AddressSet) -> WriteResult
    ensures { OnOk result (text.new ≡ text.old ++ kept_lines kept.now 120) }
{
    for place in 0..120 {
        write_kept(text, kept, 128 + place)?;
    }
    Ok(())
}

#[tactic(auto, unfolding(crate::specs::ShowText::error_lines))]
fn write_errors(text: &mut TextBuffer, errors: Option<ErrorRate>) -> WriteResult
    ensures { OnOk result (text.new ≡ text.old ++ error_lines errors) }
{
    match errors {
        Some(errors) => {
            write_number(text, Table::TimingErrors, Key::Count, errors.count)?;
            write_number(text, Table::TimingErrors, Key::Every, errors.every)
        }
        None => Ok(()),
    }
}

#[tactic(auto, unfolding(crate::specs::ShowText::gap_lines))]
fn write_gaps(text: &mut TextBuffer, timing: Timing) -> WriteResult
    ensures { OnOk result (text.new ≡ text.old ++ gap_lines timing) }
{
    let table = Table::Timing;
    write_number(text, table, Key::BroadcastGap, timing.broadcast_gap)?;
    write_number(
        text,
        table,
        Key::BroadcastGapMost,
        timing.broadcast_gap_most,
    )?;
    write_number(text, table, Key::Drift, timing.drift)
}

#[tactic(auto, unfolding(crate::specs::ShowText::known_timing_lines))]
fn write_known_timing(text: &mut TextBuffer, timing: Timing) -> WriteResult
    ensures { OnOk result (text.new ≡ text.old ++ known_timing_lines timing) }
{
    let table = Table::Timing;
    write_number(text, table, Key::Bitrate, bits_of_second(timing.bitrate))?;
    write_number(text, table, Key::Unplanned, timing.unplanned)?;
    write_number(
        text,
        table,
        Key::UnplannedPriority,
        timing.unplanned_priority,
    )?;
    write_number(
        text,
        table,
        Key::TransportPriority,
        timing.transport_priority,
    )?;
    write_gaps(text, timing)?;
    write_errors(text, timing.errors)
}

#[tactic(auto, unfolding(crate::specs::ShowText::timing_lines))]
fn write_timing(text: &mut TextBuffer, timing: Option<Timing>) -> WriteResult
    ensures { OnOk result (text.new ≡ text.old ++ timing_lines timing) }
{
    match timing {
        Some(timing) => write_known_timing(text, timing),
        None => Ok(()),
    }
}

#[tactic(auto, unfolding(crate::specs::ShowText::top_lines))]
fn write_top(text: &mut TextBuffer, plan: &Plan) -> WriteResult
    ensures { OnOk result (text.new ≡ text.old ++ top_lines plan.now) }
{
    write_all_kept(text, &plan.keep_free)?;
    write_number(text, Table::Top, Key::Strangers, plan.strangers)?;
    write_truth(text, Table::Top, Key::Live, plan.live)?;
    write_timing(text, plan.timing)
}

/// Writes each value of a plan.
#[tactic(auto, unfolding(crate::specs::ShowText::show_text))]
pub(super) fn write_plan(text: &mut TextBuffer, plan: &Plan) -> WriteResult
    ensures { OnOk result (text.new ≡ text.old ++ show_text plan.now) }
{
    write_top(text, plan)?;
    write_each(text, &UnitLines, &plan.units)?;
    write_each(text, &GroupLines, &plan.groups)?;
    write_each(text, &Flows(plan), &plan.flows)?;
    write_each(text, &Needs(plan), &plan.needs)?;
    write_each(text, &Requests(plan), &plan.requests)
}

/// Writes each value of a plan, and its choices.
#[tactic(auto, unfolding(crate::specs::ShownLines::line_text))]
pub(super) fn write_line(text: &mut TextBuffer, line: &ProductLine) -> WriteResult
    ensures { OnOk result (text.new ≡ text.old ++ line_text line.now) }
{
    write_plan(text, &line.plan)?;
    write_choices(text, line)
}
