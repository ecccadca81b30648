//! What a flow sends, to whom, and which requests it answers.
ghost use Rattle.std.specs.Prelude.{◌≡◌};
ghost use Rattle.j39_findings.specs.Found.{do_receivers_meet, is_one_frame_to_all, may_be_one_frame_to_all};
ghost use Rattle.j39_findings.specs.Found.{may_name_receiver, sends, sends_beside, serves_all, serves_one};

use j39_id::limits::FRAME_BYTES;
use j39_id::{PDU2_FIRST, pf_of};
use j39_network::{FlowPlan, GroupPlan, RequestPlan, To, serves};

/// Whether each message of the group is sent in one frame, which has no destination.
pub fn is_one_frame_to_all(group: &GroupPlan) -> bool
    ensures { result ≡ is_one_frame_to_all group.now }
{
    pf_of(group.pgn) >= PDU2_FIRST && usize::from(group.most) <= FRAME_BYTES
}

/// Whether some message of the group is sent in one frame, which has no destination.
pub fn may_be_one_frame_to_all(group: &GroupPlan) -> bool
    ensures { result ≡ may_be_one_frame_to_all group.now }
{
    pf_of(group.pgn) >= PDU2_FIRST && usize::from(group.length) <= FRAME_BYTES
}

/// Whether the flow sends the group, which its label names.
pub fn sends(groups: &[GroupPlan], group: &GroupPlan, flow: &FlowPlan) -> bool
    ensures { result ≡ sends groups.now group.now flow.now }
{
    match groups.get(flow.group) {
        Some(sent) => sent.label.as_str() == group.label.as_str(),
        None => false,
    }
}

/// Whether one unit can hear a message of either flow.
pub fn do_receivers_meet(
    first: &GroupPlan,
    second: &GroupPlan,
    flow: &FlowPlan,
    other: &FlowPlan,
) -> bool
    ensures { result ≡ do_receivers_meet first.now second.now flow.now other.now }
{
    flow.to == To::All
        || other.to == To::All
        || flow.to == other.to
        || may_be_one_frame_to_all(first) && may_be_one_frame_to_all(second)
}

/// Whether the other flow sends the second group from the same unit, to receivers that meet those of the first flow.
pub fn sends_beside(
    groups: &[GroupPlan],
    first: &GroupPlan,
    second: &GroupPlan,
    flow: &FlowPlan,
    other: &FlowPlan,
) -> bool
    ensures { result ≡ sends_beside groups.now first.now second.now flow.now other.now }
{
    other.sender == flow.sender
        && sends(groups, second, other)
        && do_receivers_meet(first, second, flow, other)
}

/// Whether some message of the group that is asked for can name a receiver.
pub fn may_name_receiver(groups: &[GroupPlan], request: &RequestPlan) -> bool
    ensures { result ≡ may_name_receiver groups.now request.now }
{
    match groups.get(request.group) {
        Some(group) => !is_one_frame_to_all(group),
        None => false,
    }
}

/// Whether the flow answers the request, to one unit.
pub fn serves_one(request: &RequestPlan, flow: &FlowPlan) -> bool
    ensures { result ≡ serves_one request.now flow.now }
{
    serves(request, flow) && flow.to != To::All
}

/// Whether the flow answers the request, to all.
pub fn serves_all(request: &RequestPlan, flow: &FlowPlan) -> bool
    ensures { result ≡ serves_all request.now flow.now }
{
    serves(request, flow) && flow.to == To::All
}
