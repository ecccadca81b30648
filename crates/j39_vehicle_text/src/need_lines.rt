//! The lines of needs.
ghost use Rattle.std.specs.Prelude.{◌≡◌, ◌++◌, Some, None, OnOk};
ghost use Rattle.j39_vehicle_times.specs.declared.needs.NeedFlow.{NeedFlow as ReportedFlows};
ghost use Rattle.j39_vehicle_text.specs.NeedLines.{reported_flow_text, content_text, group_of_flow, limit_text};
ghost use Rattle.j39_vehicle_text.specs.NeedLines.{meant_text, met_text};
ghost use Rattle.j39_vehicle_text.specs.NeedLines.{need_age_text, origin_content, origin_text, reported_text};
ghost use Rattle.j39_vehicle_text.specs.NeedLines.{vehicle_need_lines, vehicle_need_text};

use crate::labels::{group_label_at, signal_label_at, write_unit_at};
use crate::ways::write_way;
use j39_plan_text::{WriteLines, write_each};
use j39_text::{TextBuffer, WriteResult};
use j39_vehicle::{GroupAt, Vehicle, VehicleNeed};
use j39_vehicle_findings::{FlowAt, Point, Routes, flows_on};
use j39_vehicle_times::{Delays, NeedFlow, flow_of_need, need_flow_count, us_of_ms};
use std::alloc::Global;

// The signal that is meant, if one is.
#[tactic(auto, unfolding(crate::specs::NeedLines::meant_text))]
fn write_meant(
    text: &mut TextBuffer,
    vehicle: &Vehicle,
    group: GroupAt,
    signal: Option<usize>,
) -> WriteResult
    ensures { OnOk result (text.new ≡ text.old ++ meant_text vehicle.now group signal) }
{
    match signal {
        Some(signal) => text.label(signal_label_at(vehicle, group, signal)),
        None => Ok(()),
    }
}

// A group, and the signal of it that is meant.
#[tactic(auto, unfolding(crate::specs::NeedLines::content_text))]
fn write_content(
    text: &mut TextBuffer,
    vehicle: &Vehicle,
    group: GroupAt,
    signal: Option<usize>,
) -> WriteResult
    ensures { OnOk result (text.new ≡ text.old ++ content_text vehicle.now group signal) }
{
    text.label(group_label_at(vehicle, group))?;
    write_meant(text, vehicle, group, signal)
}

// Who needs what from whom.
#[tactic(auto, unfolding(crate::specs::NeedLines::vehicle_need_text))]
fn write_need(
    text: &mut TextBuffer,
    vehicle: &Vehicle,
    place: usize,
    need: &VehicleNeed,
) -> WriteResult
    ensures { OnOk result (text.new ≡ text.old ++ vehicle_need_text vehicle.now place need.now) }
{
    let group = GroupAt {
        bus: need.unit.bus,
        group: need.group,
    };
    text.place("need ", place)?;
    write_unit_at(text, " ", vehicle, need.unit)?;
    write_content(text, vehicle, group, need.signal)?;
    write_unit_at(text, " from ", vehicle, need.from)
}

// The group of the flow at a point.
fn group_of_flow(vehicle: &Vehicle, at: FlowAt) -> usize
    ensures { result ≡ group_of_flow vehicle.now at }
{
    match flows_on(&vehicle.buses, at.bus).get(at.flow) {
        Some(flow) => flow.group,
        None => 0,
    }
}

#[tactic(auto, unfolding(crate::specs::NeedLines::origin_content))]
fn write_origin_content(text: &mut TextBuffer, vehicle: &Vehicle, point: Point) -> WriteResult
    ensures { OnOk result (text.new ≡ text.old ++ origin_content vehicle.now point) }
{
    let group = GroupAt {
        bus: point.at.bus,
        group: group_of_flow(vehicle, point.at),
    };
    write_content(text, vehicle, group, point.signal)
}

// What the origin sends, where there is one.
#[tactic(auto, unfolding(crate::specs::NeedLines::origin_text))]
fn write_origin(text: &mut TextBuffer, routes: &Routes<'_>, start: Point) -> WriteResult
    ensures { OnOk result (text.new ≡ text.old ++ origin_text routes.now.vehicle.now start) }
{
    match routes.origin(start) {
        Some(point) => write_origin_content(text, routes.vehicle, point),
        None => Ok(()),
    }
}

// How old it may be.
#[tactic(auto, unfolding(crate::specs::NeedLines::limit_text))]
fn write_limit(text: &mut TextBuffer, within: Option<u16>) -> WriteResult
    ensures { OnOk result (text.new ≡ text.old ++ limit_text within) }
{
    match within {
        Some(within) => text.field(" of ", us_of_ms(within)),
        None => Ok(()),
    }
}

// How old it is at most, of how old it may be.
#[tactic(auto, unfolding(crate::specs::NeedLines::need_age_text))]
fn write_known_age(text: &mut TextBuffer, age: u64, within: Option<u16>) -> WriteResult
    ensures { OnOk result (text.new ≡ text.old ++ need_age_text (Some age) within) }
{
    text.field(" age ", age)?;
    write_limit(text, within)?;
    text.word(" us")
}

// How old it may be, where it isn't known how old it is.
#[tactic(auto, unfolding(crate::specs::NeedLines::need_age_text))]
fn write_unknown_age(text: &mut TextBuffer, within: u16) -> WriteResult
    ensures { OnOk result (text.new ≡ text.old ++ need_age_text None (Some within)) }
{
    text.word(" old")?;
    write_limit(text, Some(within))?;
    text.word(" us")
}

// The same, where it is asked.
#[tactic(auto, unfolding(crate::specs::NeedLines::need_age_text))]
fn write_unknown_age_where(text: &mut TextBuffer, within: Option<u16>) -> WriteResult
    ensures { OnOk result (text.new ≡ text.old ++ need_age_text None within) }
{
    match within {
        Some(within) => write_unknown_age(text, within),
        None => Ok(()),
    }
}

fn write_age(text: &mut TextBuffer, age: Option<u64>, within: Option<u16>) -> WriteResult
    ensures { OnOk result (text.new ≡ text.old ++ need_age_text age within) }
{
    match age {
        Some(age) => write_known_age(text, age, within),
        None => write_unknown_age_where(text, within),
    }
}

// Which flow's age it is, where several meet the need.
#[tactic(auto, unfolding(crate::specs::NeedLines::reported_flow_text))]
fn write_age_flow(
    text: &mut TextBuffer,
    routes: &Routes<'_>,
    need: &VehicleNeed,
    stated: NeedFlow,
) -> WriteResult
    ensures { OnOk result
        (text.new ≡ text.old ++ reported_flow_text routes.now.vehicle.now need.now stated.flow stated.age) }
{
    match stated.age {
        Some(_) if 1 < need_flow_count(routes, need) => text.place(" flow ", stated.flow),
        _ => Ok(()),
    }
}

// Of the flow that meets the need what its origin sends, by which forwards, and how old it is.
#[tactic(auto, unfolding(crate::specs::NeedLines::reported_text))]
fn write_reported(
    alloc: Global,
    text: &mut TextBuffer,
    routes: &Routes<'_>,
    need: &VehicleNeed,
    stated: NeedFlow,
) -> WriteResult
    ensures { OnOk result (text.new ≡ text.old ++ reported_text routes.now.vehicle.now need.now stated) }
{
    let at = FlowAt {
        bus: need.unit.bus,
        flow: stated.flow,
    };
    let signal = need.signal;
    let start = Point { at, signal };
    write_origin(text, routes, start)?;
    write_way(alloc, text, routes, start)?;
    write_age(text, stated.age, need.within)?;
    write_age_flow(text, routes, need, stated)
}

// The same, or that no flow meets it.
#[tactic(auto, unfolding(crate::specs::NeedLines::met_text))]
fn write_met(
    alloc: Global,
    text: &mut TextBuffer,
    routes: &Routes<'_>,
    need: &VehicleNeed,
    met: Option<NeedFlow>,
) -> WriteResult
    ensures { OnOk result (text.new ≡ text.old ++ met_text routes.now.vehicle.now need.now met) }
{
    match met {
        Some(stated) => write_reported(alloc, text, routes, need, stated),
        None => text.word(" unmet"),
    }
}

// Writes each need, and what of it is known.
#[derive(Drop)]
struct NeedAges<'a> {
    alloc: Global,
    routes: &'a Routes<'a>,
    delays: &'a Delays,
}

impl WriteLines<VehicleNeed> for NeedAges<'_> {
    ghost use Rattle.j39_vehicle_text.specs.NeedLines.{vehicle_need_line};

    ghost lines = { λ w. vehicle_need_line w.routes.now.vehicle.now w.delays.now };

    #[tactic(auto, unfolding(crate::specs::NeedLines::vehicle_need_line))]
    fn write(&self, text: &mut TextBuffer, at: usize, need: &VehicleNeed) -> WriteResult {
        write_need(text, self.routes.vehicle, at, need)?;
        let met = flow_of_need(self.routes, self.delays, need);
        write_met(self.alloc, text, self.routes, need, met)?;
        text.end_line()
    }
}

/// Writes a line for each need.
pub(super) fn write_needs(
    alloc: Global,
    text: &mut TextBuffer,
    routes: &Routes<'_>,
    delays: &Delays,
) -> WriteResult
    ensures { OnOk result (text.new ≡ text.old ++ vehicle_need_lines routes.now.vehicle.now delays.now) }
{
    let writer = NeedAges {
        alloc,
        routes,
        delays,
    };
    write_each(text, &writer, &routes.vehicle.needs)
}
