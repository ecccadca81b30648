//! Ends of flows, and who is planned at their addresses.
ghost use Rattle.std.specs.Prelude.{◌≡◌};
ghost use Rattle.j39_line_findings.specs.FlowEnds.{are_at_one_address, are_ends_in_pool, has_end_in_pool};
ghost use Rattle.j39_line_findings.specs.FlowEnds.{has_pool_address};
ghost use Rattle.j39_line_findings.specs.FlowEnds.{is_end, is_end_in_pool};

use j39_id::addresses::is_in_pool;
use j39_network::{FlowPlan, To};
use j39_variants::ProductLine;

/// Whether a unit sends the flow, or is the one unit to which it goes.
pub fn is_end(flow: &FlowPlan, unit: usize) -> bool
    ensures { result ≡ is_end flow.now unit }
{
    flow.sender == unit || flow.to == To::One(unit)
}

/// Whether two units are planned at one address.
pub fn are_at_one_address(line: &ProductLine, unit: usize, other: usize) -> bool
    ensures { result ≡ are_at_one_address line.now unit other }
{
    match (line.plan.units.get(unit), line.plan.units.get(other)) {
        (Some(planned), Some(another)) => planned.address == another.address,
        _ => false,
    }
}

fn has_pool_address(line: &ProductLine, unit: usize) -> bool
    ensures { result ≡ has_pool_address line.now unit }
{
    match line.plan.units.get(unit) {
        Some(planned) => is_in_pool(planned.address.number()),
        None => false,
    }
}

fn is_end_in_pool(line: &ProductLine, flow: &FlowPlan, unit: usize) -> bool
    ensures { result ≡ is_end_in_pool line.now flow.now unit }
{
    is_end(flow, unit) && has_pool_address(line, unit)
}

#[tactic(auto, unfolding(crate::specs::FlowEnds::are_ends_in_pool))]
fn are_ends_in_pool(line: &ProductLine, flow: &FlowPlan) -> bool
    ensures { result ≡ are_ends_in_pool line.now flow.now }
{
    (0..line.plan.units.len()).any(|unit| is_end_in_pool(line, flow, unit))
}

/// Whether an end of a flow is planned at an address to which others may move.
#[tactic(auto, unfolding(crate::specs::FlowEnds::has_end_in_pool))]
pub fn has_end_in_pool(line: &ProductLine, place: usize) -> bool
    ensures { result ≡ has_end_in_pool line.now place }
{
    match line.plan.flows.get(place) {
        Some(flow) => are_ends_in_pool(line, flow),
        None => false,
    }
}
