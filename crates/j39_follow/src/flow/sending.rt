//! A message as it was sent, and the flow that it fits.
ghost use Rattle.std.specs.Prelude.{◌≡◌, ◌<◌, ◌↔◌, ℕ, Some, false, get_or, IsTrue, length};
ghost use Rattle.std.specs.List.{position};
ghost use Rattle.j39_network.specs.declared.plan.flow_plan.FlowPlan.{FlowPlan as APlannedFlow};
ghost use Rattle.j39_log.specs.GroupSpans.{HasAllOf};
ghost use Rattle.j39_follow.specs.inside.Reporting.{is_all};
ghost use Rattle.j39_follow.specs.Fits.{IsSentGroup, MayBeGroup, fits, fits_all, fitting_flow};
ghost use Rattle.j39_follow.specs.Fits.{is_for_all as goes_to_all, may_have_bytes, is_unit, reaches as is_reached};

use j39_log::{Groups, Span};
use j39_network::{FlowPlan, GroupPlan, To};
use j39_signal::is_selected;

/// Whom a message went to. Units are given by their places, from 0.
#[derive(Clone, Copy, PartialEq, Eq)]
pub enum Aim {
    /// All other units.
    All,
    /// The unit behind the destination's address.
    One(usize),
    /// An address behind which no unit stands.
    Neither,
}

/// Who sent a message, to whom.
#[derive(Clone, Copy, PartialEq, Eq)]
pub struct Sending {
    /// The unit behind the source, if it is one of the plan.
    pub sender: Option<usize>,
    pub aim: Aim,
    /// Whether it came in one frame that names no destination.
    pub unaddressed: bool,
}

// Whether a message to these goes to whom a flow is meant for.
fn reaches(to: To, aim: Aim, unaddressed: bool) -> bool
    ensures { result ≡ is_reached to aim unaddressed }
{
    match (to, aim) {
        (To::All, Aim::All) => true,
        (To::One(unit), Aim::One(receiver)) => unit == receiver,
        (To::One(_), Aim::All) => unaddressed,
        _ => false,
    }
}

/// Whether this unit is the sender.
pub(crate) fn is_sender(sender: Option<usize>, unit: usize) -> bool
    ensures { result ≡ is_unit sender unit }
{
    sender == Some(unit)
}

fn is_fit(group: usize, sent: Sending, flow: &FlowPlan) -> bool
    ensures { result ≡ fits group sent flow.now }
{
    flow.group == group
        && is_sender(sent.sender, flow.sender)
        && reaches(flow.to, sent.aim, sent.unaddressed)
}

// Whether a flow goes to all.
fn is_for_all(flow: &FlowPlan) -> bool
    ensures { result ≡ goes_to_all flow.now.to }
{
    match flow.to {
        To::All => true,
        To::One(_) => false,
    }
}

// Whether a message went to all.
fn is_to_all(aim: Aim) -> bool
    ensures { result ≡ is_all aim }
{
    matches!(aim, Aim::All)
}

// The first flow of a group that fits what was sent, by its place.
fn first_flow(groups: &Groups<'_>, group: usize, sent: Sending) -> Option<usize>
    ensures { result ≡ position (fits group sent) groups.now.flows.items }
{
    let plan = groups.plan();
    for place in groups.first_flow(group)..plan.flows.len() {
        if is_fit(group, sent, &plan.flows[place]) {
            return Some(place);
        }
    }
    None
}

// The first flow of a group that goes to all and fits what was sent, by its place; none before this one fits.
fn flow_to_all(groups: &Groups<'_>, group: usize, sent: Sending, first: usize) -> Option<usize>
    requires { (k : ℕ) (flow : APlannedFlow) → k < first
        → fits group sent (get_or groups.now.flows.items k flow) ≡ false }
    ensures { result ≡ position (fits_all group sent) groups.now.flows.items }
{
    let plan = groups.plan();
    for place in first..plan.flows.len() {
        let flow = &plan.flows[place];
        if is_for_all(flow) && is_fit(group, sent, flow) {
            return Some(place);
        }
    }
    None
}

// The flow of a group that a message to all is of, of which this is the first that fits.
fn flow_of_all(groups: &Groups<'_>, group: usize, sent: Sending, first: usize) -> usize
    requires { position (fits group sent) groups.now.flows.items ≡ Some first }
    ensures { fitting_flow groups.now group sent ≡ Some result }
{
    match flow_to_all(groups, group, sent, first) {
        Some(flow) => flow,
        None => first,
    }
}

/// The flow of a group that what was sent is of, by its place: the first that fits and goes to all, else the first that
/// fits.
pub fn flow_of(groups: &Groups<'_>, group: usize, sent: Sending) -> Option<usize>
    ensures { result ≡ fitting_flow groups.now group sent }
{
    match first_flow(groups, group, sent) {
        Some(first) => {
            if is_to_all(sent.aim) {
                Some(flow_of_all(groups, group, sent, first))
            } else {
                Some(first)
            }
        }
        None => None,
    }
}

// Whether messages of a group may have so many bytes.
fn has_length(group: &GroupPlan, bytes: usize) -> bool
    ensures { result ≡ may_have_bytes group.now bytes }
{
    usize::from(group.length) <= bytes && bytes <= usize::from(group.most)
}

// Whether a group may be that of these bytes of this number, as they were sent.
fn may_be_group(groups: &Groups<'_>, place: usize, pgn: u32, bytes: &[u8], sent: Sending) -> bool
    requires { place < length groups.now.groups.items }
    ensures { IsTrue result ↔ MayBeGroup groups.now pgn bytes.now sent place }
{
    let group = groups.group(place);
    if group.pgn != pgn {
        return false;
    }
    if !has_length(group, bytes.len()) {
        return false;
    }
    if !is_selected(group.when, bytes) {
        return false;
    }
    if !group.private {
        return true;
    }
    flow_of(groups, place, sent).is_some()
}

// The first such group, which stands in the span of its number.
fn group_in(groups: &Groups<'_>, span: Span, pgn: u32, bytes: &[u8], sent: Sending) -> Option<usize>
    requires { HasAllOf groups.now.groups.items pgn span }
    ensures { IsSentGroup groups.now pgn bytes.now sent result }
{
    for place in span.first..span.end {
        if may_be_group(groups, place, pgn, bytes, sent) {
            return Some(place);
        }
    }
    None
}

/// The group of these bytes of a number, by its place: the first that has so many and whose selector takes them, if it
/// isn't private, or a flow of it fits.
pub fn group_of(groups: &Groups<'_>, pgn: u32, bytes: &[u8], sent: Sending) -> Option<usize>
    ensures { IsSentGroup groups.now pgn bytes.now sent result }
{
    let Some(span) = groups.span(pgn) else {
        return None;
    };
    group_in(groups, span, pgn, bytes, sent)
}
