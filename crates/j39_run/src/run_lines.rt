//! The lines of a run.
ghost use Rattle.std.specs.Prelude.{◌≡◌, ◌++◌, OnOk, drop, length, map};
ghost use Rattle.std.specs.List.{range_with_len};
ghost use Rattle.j39_bus.specs.Stations.{station_at};
ghost use Rattle.j39_world.specs.Sent.{sent_of};
ghost use Rattle.j39_bus.specs.Reports.{reported_of};
ghost use Rattle.j39_run.specs.Views.{unit_state};
ghost use Rattle.j39_run.specs.RunText.{halt_lines, line_cause, refused_line, report_line, report_lines, report_route};
ghost use Rattle.j39_run.specs.RunText.{sent_line, sent_lines, settled_line, state_text, step_cause, unit_line};
ghost use Rattle.j39_run.specs.RunText.{unit_lines};

use crate::halt::Halt;
use crate::unit_state::{UnitState, state_of};
use j39_bus::{Bus, Report, StepError};
use j39_id::{Frame, print_frame};
use j39_network::Plan;
use j39_schedule::LineFault;
use j39_text::{TextBuffer, WriteResult, unit_label};

#[tactic(auto, unfolding(crate::specs::RunText::sent_line))]
fn write_frame(text: &mut TextBuffer, frame: &Frame) -> WriteResult
    ensures { OnOk result (text.new ≡ text.old ++ sent_line (sent_of frame.now)) }
{
    text.bytes(print_frame(frame).as_slice())?;
    text.end_line()
}

/// Writes the frames from this place on.
pub fn write_frames(text: &mut TextBuffer, frames: &[Frame], from: usize) -> WriteResult
    ensures { OnOk result (text.new ≡ text.old ++ sent_lines (map sent_of (drop from frames.now))) }
{
    for place in from..frames.len() {
        write_frame(text, &frames[place])?;
    }
    Ok(())
}

fn step_cause(error: StepError) -> &'static str
    ensures { result.now ≡ step_cause error }
{
    match error {
        StepError::UnknownUnit => "UnknownUnit",
        StepError::NoSuchFlow => "NoSuchFlow",
        StepError::NotStarted => "NotStarted",
        StepError::AlreadyStarted => "AlreadyStarted",
        StepError::NothingUndelivered => "NothingUndelivered",
        StepError::TransferOpen => "TransferOpen",
        StepError::NotSettled => "NotSettled",
        StepError::NoAddress => "NoAddress",
        StepError::Busy => "Busy",
        StepError::WrongLength => "WrongLength",
        StepError::WrongSelector => "WrongSelector",
        StepError::NothingToSend => "NothingToSend",
        StepError::NoSession => "NoSession",
        StepError::CannotRest => "CannotRest",
        StepError::Memory => "Memory",
    }
}

fn line_cause(fault: LineFault) -> &'static str
    ensures { result.now ≡ line_cause fault }
{
    match fault {
        LineFault::LongLine => "LongLine",
        LineFault::UnknownWord => "UnknownWord",
        LineFault::WordCount => "WordCount",
        LineFault::UnknownLabel => "UnknownLabel",
        LineFault::BadNumber => "BadNumber",
        LineFault::BadHex => "BadHex",
    }
}

#[tactic(auto, unfolding(crate::specs::RunText::refused_line))]
fn write_refused(text: &mut TextBuffer, place: usize, cause: &str) -> WriteResult
    ensures { OnOk result (text.new ≡ text.old ++ refused_line place cause.now) }
{
    text.place("refused line ", place)?;
    text.word(" ")?;
    text.word(cause)?;
    text.end_line()
}

pub fn write_halt(text: &mut TextBuffer, halt: Halt) -> WriteResult
    ensures { OnOk result (text.new ≡ text.old ++ halt_lines halt) }
{
    match halt {
        Halt::End => Ok(()),
        Halt::Step(place, cause) => write_refused(text, place, step_cause(cause)),
        Halt::Line(place, fault) => write_refused(text, place, line_cause(fault)),
        Halt::Full(place) => write_refused(text, place, "TooManyFrames"),
    }
}

#[tactic(auto, unfolding(crate::specs::RunText::state_text))]
fn write_state(text: &mut TextBuffer, state: UnitState) -> WriteResult
    ensures { OnOk result (text.new ≡ text.old ++ state_text state) }
{
    match state {
        UnitState::Off => text.word(" off"),
        UnitState::NoAddress => text.word(" none"),
        UnitState::At(address) => text.field(" address ", address.number()),
    }
}

#[tactic(auto, unfolding(crate::specs::RunText::unit_line))]
fn write_unit(text: &mut TextBuffer, plan: &Plan, unit: usize, state: UnitState) -> WriteResult
    ensures { OnOk result (text.new ≡ text.old ++ unit_line plan.now unit state) }
{
    text.word("unit ")?;
    text.word(unit_label(plan, unit))?;
    write_state(text, state)?;
    text.end_line()
}

pub fn write_units(text: &mut TextBuffer, plan: &Plan, bus: &Bus) -> WriteResult
    requires { length bus.now.units ≡ length plan.now.units.items }
    ensures { OnOk result (text.new ≡ text.old ++ unit_lines plan.now 0
        (map (λ u. unit_state (station_at bus.now.units u)) (range_with_len 0 (length plan.now.units.items)))) }
{
    for unit in 0..plan.units.len() {
        write_unit(text, plan, unit, state_of(bus, unit))?;
    }
    Ok(())
}

pub fn settled_line(settled: bool) -> &'static str
    ensures { result.now ≡ settled_line settled }
{
    if settled {
        "settled\n"
    } else {
        "not settled\n"
    }
}

#[tactic(auto, unfolding(crate::specs::RunText::report_route))]
fn write_route(text: &mut TextBuffer, plan: &Plan, report: &Report) -> WriteResult
    ensures { OnOk result (text.new ≡ text.old ++ report_route plan.now (reported_of report.now)) }
{
    text.word("report ")?;
    text.word(unit_label(plan, report.receiver))?;
    text.word(" from ")?;
    text.word(unit_label(plan, report.sender))?;
    text.place(" flow ", report.flow)
}

#[tactic(auto, unfolding(crate::specs::RunText::report_line))]
fn write_report(text: &mut TextBuffer, plan: &Plan, report: &Report) -> WriteResult
    ensures { OnOk result (text.new ≡ text.old ++ report_line plan.now (reported_of report.now)) }
{
    write_route(text, plan, report)?;
    text.word(" bytes ")?;
    text.hex(report.bytes.as_slice())?;
    text.end_line()
}

pub fn write_reports(text: &mut TextBuffer, plan: &Plan, reports: &[Report]) -> WriteResult
    ensures { OnOk result (text.new ≡ text.old ++ report_lines plan.now (map reported_of reports.now)) }
{
    for report in reports {
        write_report(text, plan, report)?;
    }
    Ok(())
}
