//! Lists of parts, of each of which some part isn't there.
ghost use Rattle.std.specs.Prelude.{◌≡◌, ◌∷◌, ◌++◌, [], IfOk, OnOk};
ghost use Rattle.j39_load.specs.LineLists.{lines_of_each};
ghost use Rattle.j39_line_findings.specs.Conditions.{answer_with, flow_where, flows_where, source_parts, sources_of};
ghost use Rattle.j39_line_witnesses.specs.FlowTests.{flow_test};
ghost use Rattle.j39_line_witnesses.specs.Presences.{parts_in};

use crate::flow_tests::FlowTest;
use j39_line_findings::{LinePart, provides};
use j39_network::{FlowPlan, NeedPlan, RequestPlan, serves};
use j39_variants::ProductLine;
use std::alloc::{AllocError, Global};

fn add_parts(
    alloc: Global,
    found: &mut Vec<Vec<LinePart>>,
    parts: &[LinePart],
) -> Result<(), AllocError>
    ensures { OnOk result (parts_in found.new.items ≡ parts_in found.old.items ++ parts.now ∷ []) }
{
    let list = parts.to_vec(alloc)?;
    found.push(list)?;
    Ok(())
}

fn add_flow_where(
    alloc: Global,
    line: &ProductLine,
    found: &mut Vec<Vec<LinePart>>,
    test: &FlowTest,
    place: usize,
    flow: &FlowPlan,
) -> Result<(), AllocError>
    ensures { OnOk result (parts_in found.new.items
        ≡ parts_in found.old.items ++ flow_where (flow_test line.now.plan.groups.items test.now) place flow.now) }
{
    if test.holds(&line.plan.groups, flow) {
        add_parts(alloc, found, &[LinePart::Flow(place)])?;
    }
    Ok(())
}

/// The flows of the file of which it is so, each by itself.
pub(crate) fn flows_where(
    alloc: Global,
    line: &ProductLine,
    test: &FlowTest,
) -> Result<Vec<Vec<LinePart>>, AllocError>
    ensures { IfOk result (λ v. parts_in v.items ≡ flows_where line.now
        (flow_test line.now.plan.groups.items test.now)) }
{
    let mut found = Vec::new(alloc);
    for (place, flow) in line.plan.flows.iter().enumerate() {
        add_flow_where(alloc, line, &mut found, test, place, flow)?;
    }
    Ok(found)
}

fn add_answer(
    alloc: Global,
    found: &mut Vec<Vec<LinePart>>,
    place: usize,
    flow: &FlowPlan,
    asked: usize,
    request: &RequestPlan,
) -> Result<(), AllocError>
    ensures { OnOk result (parts_in found.new.items ≡ parts_in found.old.items
        ++ answer_with place flow.now asked request.now) }
{
    if serves(request, flow) {
        add_parts(
            alloc,
            found,
            &[LinePart::Flow(place), LinePart::Request(asked)],
        )?;
    }
    Ok(())
}

// Adds the flow with each request that it answers.
fn add_answers(
    alloc: Global,
    requests: &[RequestPlan],
    found: &mut Vec<Vec<LinePart>>,
    place: usize,
    flow: &FlowPlan,
) -> Result<(), AllocError>
    ensures { OnOk result (parts_in found.new.items
        ≡ parts_in found.old.items ++ lines_of_each (answer_with place flow.now) 0 requests.now) }
{
    for (asked, request) in requests.iter().enumerate() {
        add_answer(alloc, found, place, flow, asked, request)?;
    }
    Ok(())
}

fn add_source(
    alloc: Global,
    line: &ProductLine,
    found: &mut Vec<Vec<LinePart>>,
    need: &NeedPlan,
    place: usize,
    flow: &FlowPlan,
) -> Result<(), AllocError>
    ensures { OnOk result (parts_in found.new.items ≡ parts_in found.old.items
        ++ source_parts line.now need.now place flow.now) }
{
    if !provides(need, flow) {
        return Ok(());
    }
    if flow.on_request {
        add_answers(alloc, &line.plan.requests, found, place, flow)
    } else {
        add_parts(alloc, found, &[LinePart::Flow(place)])
    }
}

/// The flows that bring what is needed, each by itself, or with each request that it answers, where it is sent only as
/// an answer.
pub(crate) fn sources_of(
    alloc: Global,
    line: &ProductLine,
    need: &NeedPlan,
) -> Result<Vec<Vec<LinePart>>, AllocError>
    ensures { IfOk result (λ v. parts_in v.items ≡ sources_of line.now need.now) }
{
    let mut found = Vec::new(alloc);
    for (place, flow) in line.plan.flows.iter().enumerate() {
        add_source(alloc, line, &mut found, need, place, flow)?;
    }
    Ok(found)
}
