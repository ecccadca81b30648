//! On which conditions a variant of a line of vehicles has a finding that doesn't count what is there.
ghost use Rattle.std.specs.Prelude.{◌≡◌, ◌++◌, [], IfOk, OnOk};
ghost use Rattle.j39_findings.specs.declared.checking.finding.Finding.TheVariants.{AnswerAstray, FlowContested};
ghost use Rattle.j39_findings.specs.declared.checking.finding.Finding.TheVariants.{NeedUnmet};
ghost use Rattle.j39_findings.specs.declared.checking.finding.Finding.TheVariants.{PrivateUnsent, RequestUnanswered};
ghost use Rattle.j39_findings.specs.declared.checking.finding.Finding.TheVariants.{RequestUnheard};
ghost use Rattle.j39_load.specs.declared.findings.load_finding.LoadFinding.TheVariants.{NoPeriod};
ghost use Rattle.j39_load.specs.LineLists.{lines_of_each};
ghost use Rattle.j39_line_findings.specs.Conditions.{astray_by, conditions_of, conditions_of_load, conditions_of_plan};
ghost use Rattle.j39_line_findings.specs.Conditions.{contested_by, is_beside_end};
ghost use Rattle.j39_line_findings.specs.Conditions.{unserved_condition};
ghost use Rattle.j39_line_witnesses.specs.FlowTests.{flow_test};
ghost use Rattle.j39_line_witnesses.specs.Presences.{conditions_in};

use crate::flow_tests::FlowTest;
use crate::lists::{flows_where, sources_of};
use crate::presence::{
    ConditionList, Presence, add_lacking, add_together, where_lacking, where_together,
};
use crate::private_pairs::conditions_of_groups;
use j39_findings::Finding;
use j39_findings::sending::may_name_receiver;
use j39_line_findings::{LineFinding, LinePart, are_at_one_address, has_end_in_pool, is_end};
use j39_load::LoadFinding;
use j39_network::{FlowPlan, RequestPlan, To};
use j39_variants::ProductLine;
use std::alloc::{AllocError, Global};

// A request is there, and no flow that answers it.
fn unserved_condition(
    alloc: Global,
    line: &ProductLine,
    place: usize,
    request: &RequestPlan,
) -> ConditionList
    ensures { IfOk result (λ v. conditions_in v.items ≡ unserved_condition line.now place request.now) }
{
    let flows = flows_where(alloc, line, &FlowTest::Serves(request))?;
    where_lacking(alloc, &[LinePart::Request(place)], flows)
}

// A request and this flow are there, if it answers it in one way, and none that does in the other.
fn add_astray_by(
    alloc: Global,
    line: &ProductLine,
    found: &mut Vec<Presence>,
    place: usize,
    one: &FlowTest,
    other: &FlowTest,
    answered: usize,
    flow: &FlowPlan,
) -> Result<(), AllocError>
    ensures { OnOk result (conditions_in found.new.items ≡ conditions_in found.old.items ++ astray_by line.now place
        (flow_test line.now.plan.groups.items one.now)
        (flow_test line.now.plan.groups.items other.now) answered flow.now) }
{
    if one.holds(&line.plan.groups, flow) {
        let flows = flows_where(alloc, line, other)?;
        add_lacking(
            alloc,
            found,
            &[LinePart::Request(place), LinePart::Flow(answered)],
            flows,
        )?;
    }
    Ok(())
}

fn astray_by_each(
    alloc: Global,
    line: &ProductLine,
    place: usize,
    one: &FlowTest,
    other: &FlowTest,
) -> ConditionList
    ensures { IfOk result (λ v. conditions_in v.items ≡ lines_of_each (astray_by line.now place
        (flow_test line.now.plan.groups.items one.now)
        (flow_test line.now.plan.groups.items other.now)) 0 line.now.plan.flows.items) }
{
    let mut found = Vec::new(alloc);
    for (answered, flow) in line.plan.flows.iter().enumerate() {
        add_astray_by(alloc, line, &mut found, place, one, other, answered, flow)?;
    }
    Ok(found)
}

// Whether a unit is planned at the address of an end of the flow, which is another one.
fn is_beside_end(line: &ProductLine, flow: &FlowPlan, unit: usize) -> bool
    ensures { result ≡ is_beside_end line.now flow.now unit }
{
    (0..line.plan.units.len()).any(|end| is_end(flow, end)
        && unit != end
        && are_at_one_address(line, unit, end))
}

fn add_contested_by(
    alloc: Global,
    line: &ProductLine,
    found: &mut Vec<Presence>,
    place: usize,
    flow: &FlowPlan,
    unit: usize,
) -> Result<(), AllocError>
    ensures { OnOk result (conditions_in found.new.items ≡ conditions_in found.old.items
        ++ contested_by line.now place flow.now unit) }
{
    if is_beside_end(line, flow, unit) {
        add_together(alloc, found, &[LinePart::Flow(place), LinePart::Unit(unit)])?;
    }
    Ok(())
}

fn contested_by_each(
    alloc: Global,
    line: &ProductLine,
    place: usize,
    flow: &FlowPlan,
) -> ConditionList
    ensures { IfOk result (λ v. conditions_in v.items
        ≡ lines_of_each (λ u _. contested_by line.now place flow.now u) 0 line.now.plan.units.items) }
{
    let mut found = Vec::new(alloc);
    for unit in 0..line.plan.units.len() {
        add_contested_by(alloc, line, &mut found, place, flow, unit)?;
    }
    Ok(found)
}

// ---- what isn't there, of a place

// A private group is there, and no flow of it.
fn conditions_of_unsent(alloc: Global, line: &ProductLine, place: usize) -> ConditionList
    ensures { IfOk result (λ v. conditions_in v.items ≡ conditions_of_plan line.now (PrivateUnsent place)) }
{
    let Some(group) = line.plan.groups.get(place) else {
        return Ok(Vec::new(alloc));
    };
    if !group.private {
        return Ok(Vec::new(alloc));
    }
    let flows = flows_where(alloc, line, &FlowTest::Sends(group))?;
    where_lacking(alloc, &[LinePart::Group(place)], flows)
}

// A need is asked for, and no flow that brings what is needed is there, with a request where it is only asked for.
fn conditions_of_unmet(alloc: Global, line: &ProductLine, place: usize) -> ConditionList
    ensures { IfOk result (λ v. conditions_in v.items ≡ conditions_of_plan line.now (NeedUnmet place)) }
{
    let Some(need) = line.plan.needs.get(place) else {
        return Ok(Vec::new(alloc));
    };
    let sources = sources_of(alloc, line, need)?;
    where_lacking(alloc, &[LinePart::Need(place)], sources)
}

fn conditions_of_unanswered(alloc: Global, line: &ProductLine, place: usize) -> ConditionList
    ensures { IfOk result (λ v. conditions_in v.items ≡ conditions_of_plan line.now (RequestUnanswered place)) }
{
    match line.plan.requests.get(place) {
        Some(request) => {
            if request.to != To::All {
                unserved_condition(alloc, line, place, request)
            } else {
                Ok(Vec::new(alloc))
            }
        }
        None => Ok(Vec::new(alloc)),
    }
}

fn conditions_of_unheard(alloc: Global, line: &ProductLine, place: usize) -> ConditionList
    ensures { IfOk result (λ v. conditions_in v.items ≡ conditions_of_plan line.now (RequestUnheard place)) }
{
    match line.plan.requests.get(place) {
        Some(request) => {
            if request.to != To::All {
                Ok(Vec::new(alloc))
            } else {
                unserved_condition(alloc, line, place, request)
            }
        }
        None => Ok(Vec::new(alloc)),
    }
}

// A request and a flow that answers it in the wrong way are there, and none that does in the right one.
fn conditions_of_astray(alloc: Global, line: &ProductLine, place: usize) -> ConditionList
    ensures { IfOk result (λ v. conditions_in v.items ≡ conditions_of_plan line.now (AnswerAstray place)) }
{
    let Some(request) = line.plan.requests.get(place) else {
        return Ok(Vec::new(alloc));
    };
    let one = FlowTest::ServesOne(request);
    let all = FlowTest::ServesAll(request);
    match request.to {
        To::All => astray_by_each(alloc, line, place, &one, &all),
        To::One(_) => {
            if may_name_receiver(&line.plan.groups, request) {
                astray_by_each(alloc, line, place, &all, &one)
            } else {
                Ok(Vec::new(alloc))
            }
        }
    }
}

// A flow and a unit at the address of an end are there, on a live bus where units move to no end of the flow.
fn conditions_of_contested(alloc: Global, line: &ProductLine, place: usize) -> ConditionList
    ensures { IfOk result (λ v. conditions_in v.items ≡ conditions_of_plan line.now (FlowContested place)) }
{
    let Some(flow) = line.plan.flows.get(place) else {
        return Ok(Vec::new(alloc));
    };
    if line.plan.live && !has_end_in_pool(line, place) {
        contested_by_each(alloc, line, place, flow)
    } else {
        Ok(Vec::new(alloc))
    }
}

// A flow without a period is there, where the plan has timing.
fn conditions_of_no_period(alloc: Global, line: &ProductLine, place: usize) -> ConditionList
    ensures { IfOk result (λ v. conditions_in v.items ≡ conditions_of_load line.now (NoPeriod place)) }
{
    let Some(flow) = line.plan.flows.get(place) else {
        return Ok(Vec::new(alloc));
    };
    if line.plan.timing.is_some() && flow.pace.is_none() {
        where_together(alloc, &[LinePart::Flow(place)])
    } else {
        Ok(Vec::new(alloc))
    }
}

// ---- of each finding

fn conditions_of_plan(alloc: Global, line: &ProductLine, finding: Finding) -> ConditionList
    ensures { IfOk result (λ v. conditions_in v.items ≡ conditions_of_plan line.now finding) }
{
    match finding {
        Finding::SameName(i, j) | Finding::SameFixedAddress(i, j) | Finding::SilentAddress(i, j) =>
            where_together(alloc, &[LinePart::Unit(i), LinePart::Unit(j)]),
        Finding::TooFewAddresses(_) => Ok(Vec::new(alloc)),
        Finding::BadPgn(g)
        | Finding::SignalWidth(g, _)
        | Finding::SignalOutside(g, _)
        | Finding::SignalOverlap(g, _, _)
        | Finding::RecordOverlap(g, _, _)
        | Finding::TextOutside(g, _)
        | Finding::WhenOutside(g) => where_together(alloc, &[LinePart::Group(g)]),
        Finding::SamePgn(g, h) => conditions_of_groups(alloc, line, g, h),
        Finding::FlowToOne(f) | Finding::FlowToSelf(f) => where_together(
            alloc,
            &[LinePart::Flow(f)],
        ),
        Finding::FlowRepeated(f, h) => where_together(
            alloc,
            &[LinePart::Flow(f), LinePart::Flow(h)],
        ),
        Finding::KeptAddress(u) | Finding::SilentInPool(u) => where_together(
            alloc,
            &[LinePart::Unit(u)],
        ),
        Finding::PrivateUnsent(g) => conditions_of_unsent(alloc, line, g),
        Finding::NeedUnmet(d) => conditions_of_unmet(alloc, line, d),
        Finding::RequestUnanswered(r) => conditions_of_unanswered(alloc, line, r),
        Finding::RequestUnheard(r) => conditions_of_unheard(alloc, line, r),
        Finding::AnswerAstray(r) => conditions_of_astray(alloc, line, r),
        Finding::RequestRepeated(r, s) => where_together(
            alloc,
            &[LinePart::Request(r), LinePart::Request(s)],
        ),
        Finding::FlowContested(f) => conditions_of_contested(alloc, line, f),
    }
}

fn conditions_of_load(alloc: Global, line: &ProductLine, finding: LoadFinding) -> ConditionList
    ensures { IfOk result (λ v. conditions_in v.items ≡ conditions_of_load line.now finding) }
{
    match finding {
        LoadFinding::NoPeriod(f) => conditions_of_no_period(alloc, line, f),
        LoadFinding::Overload(_)
        | LoadFinding::LateFlow(_)
        | LoadFinding::NeedTooOld(_)
        | LoadFinding::AskedTooOften(_) => Ok(Vec::new(alloc)),
    }
}

/// On which conditions a variant has the finding; of one that counts what is there, none.
pub fn conditions_of(alloc: Global, line: &ProductLine, finding: LineFinding) -> ConditionList
    ensures { IfOk result (λ v. conditions_in v.items ≡ conditions_of line.now finding) }
{
    match finding {
        LineFinding::OfPlan(finding) => conditions_of_plan(alloc, line, finding),
        LineFinding::OfLoad(finding) => conditions_of_load(alloc, line, finding),
    }
}
