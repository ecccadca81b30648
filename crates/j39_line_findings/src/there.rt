//! What is there in a variant, and its places in the file.
ghost use Rattle.std.specs.Prelude.{◌≡◌, IfOk};
ghost use Rattle.j39_line_findings.specs.Conditions.{is_part_there};
ghost use Rattle.j39_line_findings.specs.There.{IsPresent, is_flow_there, is_need_there, is_receiver_there};
ghost use Rattle.j39_line_findings.specs.There.{is_kind_there, is_request_there, missed_needs, place_in_file};
ghost use Rattle.j39_line_findings.specs.There.{places_of_those};

use crate::missed_needs::{
    is_group_there, is_in_at, is_need_asked_for, is_need_missed, is_source_there, is_unit_there,
};
use crate::part::LinePart;
use j39_network::To;
use j39_variants::ProductLine;
use std::alloc::{AllocError, Global};

fn is_receiver_there(line: &ProductLine, variant: &[usize], to: To) -> bool
    ensures { result ≡ is_receiver_there line.now variant.now to }
{
    match to {
        To::All => true,
        To::One(unit) => is_unit_there(line, variant, unit),
    }
}

fn is_flow_there(line: &ProductLine, variant: &[usize], place: usize) -> bool
    ensures { result ≡ is_flow_there line.now variant.now place }
{
    match line.plan.flows.get(place) {
        Some(flow) => {
            is_in_at(variant, &line.lists.flows, place)
                && is_group_there(line, variant, flow.group)
                && is_unit_there(line, variant, flow.sender)
                && is_receiver_there(line, variant, flow.to)
        }
        None => false,
    }
}

fn is_request_there(line: &ProductLine, variant: &[usize], place: usize) -> bool
    ensures { result ≡ is_request_there line.now variant.now place }
{
    match line.plan.requests.get(place) {
        Some(request) => {
            is_in_at(variant, &line.lists.requests, place)
                && is_group_there(line, variant, request.group)
                && is_unit_there(line, variant, request.sender)
                && is_receiver_there(line, variant, request.to)
        }
        None => false,
    }
}

fn is_need_there(line: &ProductLine, variant: &[usize], place: usize) -> bool
    ensures { result ≡ is_need_there line.now variant.now place }
{
    is_need_asked_for(line, variant, place) && is_source_there(line, variant, place)
}

/// Whether a part is there in a variant; a need, where it is asked for.
pub fn is_part_there(line: &ProductLine, variant: &[usize], part: LinePart) -> bool
    ensures { result ≡ is_part_there line.now variant.now part }
{
    match part {
        LinePart::Unit(unit) => is_unit_there(line, variant, unit),
        LinePart::Group(group) => is_group_there(line, variant, group),
        LinePart::Flow(flow) => is_flow_there(line, variant, flow),
        LinePart::Need(need) => is_need_asked_for(line, variant, need),
        LinePart::Request(request) => is_request_there(line, variant, request),
    }
}

// What is looked for in a variant.
#[derive(Clone, Copy)]
enum PartKind {
    Unit,
    Group,
    Flow,
    Need,
    Request,
    MissedNeed,
}

fn is_kind_there(line: &ProductLine, variant: &[usize], kind: PartKind, place: usize) -> bool
    ensures { result ≡ is_kind_there line.now variant.now kind place }
{
    match kind {
        PartKind::Unit => is_unit_there(line, variant, place),
        PartKind::Group => is_group_there(line, variant, place),
        PartKind::Flow => is_flow_there(line, variant, place),
        PartKind::Need => is_need_there(line, variant, place),
        PartKind::Request => is_request_there(line, variant, place),
        PartKind::MissedNeed => is_need_missed(line, variant, place),
    }
}

// Those of so many places of the file at which it is there, in order.
fn places_there(
    alloc: Global,
    line: &ProductLine,
    variant: &[usize],
    kind: PartKind,
    count: usize,
) -> Result<Vec<usize>, AllocError>
    ensures { IfOk result (λ v. v.items ≡ places_of_those (is_kind_there line.now variant.now kind) count) }
{
    (0..count)
        .filter(|place| is_kind_there(line, variant, kind, *place))
        .collect(alloc)
}

/// The needs that are asked for in a variant, and are not in its plan.
pub(crate) fn missed_needs(
    alloc: Global,
    line: &ProductLine,
    variant: &[usize],
) -> Result<Vec<usize>, AllocError>
    ensures { IfOk result (λ v. v.items ≡ missed_needs line.now variant.now) }
{
    places_there(
        alloc,
        line,
        variant,
        PartKind::MissedNeed,
        line.plan.needs.len(),
    )
}

/// The places in the file of what is there in a variant, in order.
#[derive(Drop)]
pub struct Present {
    pub units: Vec<usize>,
    pub groups: Vec<usize>,
    pub flows: Vec<usize>,
    pub needs: Vec<usize>,
    pub requests: Vec<usize>,
}

impl Present {
    /// What is there in a variant.
    pub fn new(alloc: Global, line: &ProductLine, variant: &[usize]) -> Result<Self, AllocError>
        ensures { IfOk result (IsPresent line.now variant.now) }
    {
        let plan = &line.plan;
        Ok(Present {
            units: places_there(alloc, line, variant, PartKind::Unit, plan.units.len())?,
            groups: places_there(alloc, line, variant, PartKind::Group, plan.groups.len())?,
            flows: places_there(alloc, line, variant, PartKind::Flow, plan.flows.len())?,
            needs: places_there(alloc, line, variant, PartKind::Need, plan.needs.len())?,
            requests: places_there(alloc, line, variant, PartKind::Request, plan.requests.len())?,
        })
    }
}

/// The place in the file of what has a place in the plan of a variant.
pub fn place_in_file(places: &[usize], place: usize) -> usize
    ensures { result ≡ place_in_file places.now place }
{
    match places.get(place) {
        Some(found) => *found,
        None => 0,
    }
}
