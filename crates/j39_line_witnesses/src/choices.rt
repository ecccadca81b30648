//! Which alternatives of the witness of a finding are reported.
ghost use Rattle.std.specs.Prelude.{◌≡◌, ◌++◌, IfOk, OnOk, [], map, not, true};
ghost use Rattle.std.specs.List.{list_all, list_any, slice_get};
ghost use Rattle.std.specs.Option.{option_map_or};
ghost use Rattle.j39_load.specs.LineLists.{lines_of_each};
ghost use Rattle.j39_load.specs.declared.findings.load_finding.LoadFinding.TheVariants.{AskedTooOften};
ghost use Rattle.j39_line_findings.specs.Conditions.{are_there, meets_condition};
ghost use Rattle.j39_line_findings.specs.declared.line_finding.LineFinding.TheVariants.{OfLoad};
ghost use Rattle.j39_variant_search.specs.VariantSearch.{box_flags};
ghost use Rattle.j39_line_witnesses.specs.PartBoxes.{parts_box};
ghost use Rattle.j39_line_witnesses.specs.Presences.{condition_of, conditions_in};
ghost use Rattle.j39_line_witnesses.specs.ReportedChoices.{asking_part, asking_parts, choices_by, choices_counted};
ghost use Rattle.j39_line_witnesses.specs.ReportedChoices.{choices_if_met, choices_met};
ghost use Rattle.j39_line_witnesses.specs.ReportedChoices.{choices_of_condition, choices_of_parts, counted_parts};
ghost use Rattle.j39_line_witnesses.specs.ReportedChoices.{counted_with};
ghost use Rattle.j39_line_witnesses.specs.ReportedChoices.{is_in_some, is_none, lacking_choices, parts_of_asked};
ghost use Rattle.j39_line_witnesses.specs.ReportedChoices.{reported_choices};

use crate::boxes::parts_box;
use crate::conditions::conditions_of;
use crate::presence::Presence;
use j39_line_findings::{LineFinding, LinePart, goes_by_conditions, is_part_there};
use j39_load::{LoadFinding, asked_every};
use j39_network::{FlowPlan, RequestPlan};
use j39_variants::ProductLine;
use std::alloc::{AllocError, Global};

type Choices = Result<Vec<bool>, AllocError>;

fn has_any(choice: &[bool]) -> bool
    ensures { result ≡ list_any (λ has. has) choice.now }
{
    choice.iter().any(|has| *has)
}

fn lacks_any(choice: &[bool]) -> bool
    ensures { result ≡ list_any not choice.now }
{
    choice.iter().any(|has| !*has)
}

fn all_have(within: &[Vec<bool>]) -> bool
    ensures { result ≡ list_all (λ choice. list_any (λ has. has) choice.items) within.now }
{
    within.iter().all(|choice| has_any(choice))
}

fn each_lacks(alloc: Global, within: &[Vec<bool>]) -> Choices
    ensures { IfOk result (λ choices. choices.items ≡ map (λ choice. list_any not choice.items) within.now) }
{
    within.iter().map(|choice| lacks_any(choice)).collect(alloc)
}

// Whether some variant, possible or not, is in a box.
fn is_in_some(within: &[Vec<bool>]) -> bool
    ensures { result ≡ is_in_some (box_flags within.now) }
{
    all_have(within)
}

// Of each choice, whether one of these parts isn't there with each of its alternatives.
fn choices_of_parts(alloc: Global, line: &ProductLine, parts: &[LinePart]) -> Choices
    ensures { IfOk result (λ choices. choices.items ≡ choices_of_parts line.now parts.now) }
{
    let within = parts_box(alloc, line, parts)?;
    let choices = each_lacks(alloc, &within)?;
    Ok(choices)
}

// Adds the parts of a list, where all of it may be there together with others.
fn add_counted(
    alloc: Global,
    line: &ProductLine,
    counted: &mut Vec<LinePart>,
    together: &[LinePart],
    parts: &[LinePart],
) -> Result<(), AllocError>
    ensures { OnOk result (counted.new.items ≡ counted.old.items ++ counted_with line.now together.now parts.now) }
{
    let mut all = together.to_vec(alloc)?;
    all.extend_from_slice(parts)?;
    let within = parts_box(alloc, line, &all)?;
    if is_in_some(&within) {
        counted.extend_from_slice(parts)?;
    }
    Ok(())
}

fn add_all_counted(
    alloc: Global,
    line: &ProductLine,
    counted: &mut Vec<LinePart>,
    together: &[LinePart],
    lacking: &[Vec<LinePart>],
) -> Result<(), AllocError>
    ensures { OnOk result (counted.new.items
        ≡ counted.old.items
        ++ lines_of_each (λ _ parts. counted_with line.now together.now parts.items) 0 lacking.now) }
{
    for parts in lacking {
        add_counted(alloc, line, counted, together, parts)?;
    }
    Ok(())
}

fn copied(alloc: Global, parts: &[LinePart]) -> Result<Vec<LinePart>, AllocError>
    ensures { IfOk result (λ v. v.items ≡ parts.now) }
{
    parts.to_vec(alloc)
}

// The parts that count in a condition.
fn counted_parts(
    alloc: Global,
    line: &ProductLine,
    condition: &Presence,
) -> Result<Vec<LinePart>, AllocError>
    ensures { IfOk result (λ parts. parts.items ≡ counted_parts line.now (condition_of condition.now)) }
{
    let together = condition.together.as_slice();
    let lacking = condition.lacking.as_slice();
    let mut counted = copied(alloc, together)?;
    add_all_counted(alloc, line, &mut counted, together, lacking)?;
    Ok(counted)
}

fn are_there(line: &ProductLine, variant: &[usize], parts: &[LinePart]) -> bool
    ensures { result ≡ are_there line.now variant.now parts.now }
{
    parts.iter().all(|part| is_part_there(line, variant, *part))
}

fn are_any_there(line: &ProductLine, variant: &[usize], lists: &[Vec<LinePart>]) -> bool
    ensures { result ≡ list_any (λ parts. are_there line.now variant.now parts.items) lists.now }
{
    lists.iter().any(|parts| are_there(line, variant, parts))
}

fn meets_condition(line: &ProductLine, variant: &[usize], condition: &Presence) -> bool
    ensures { result ≡ meets_condition line.now variant.now (condition_of condition.now) }
{
    let are_all = are_there(line, variant, &condition.together);
    let are_any = are_any_there(line, variant, &condition.lacking);
    are_all && !are_any
}

// Adds the choices of a condition, where a variant meets it.
fn add_met(
    alloc: Global,
    line: &ProductLine,
    variant: &[usize],
    met: &mut Vec<Vec<bool>>,
    condition: &Presence,
) -> Result<(), AllocError>
    ensures { OnOk result (box_flags met.new.items ≡ box_flags met.old.items
        ++ choices_if_met line.now variant.now (condition_of condition.now)) }
{
    if meets_condition(line, variant, condition) {
        let parts = counted_parts(alloc, line, condition)?;
        let choices = choices_of_parts(alloc, line, &parts)?;
        met.push(choices)?;
    }
    Ok(())
}

fn each_met(
    alloc: Global,
    line: &ProductLine,
    variant: &[usize],
    conditions: &[Presence],
) -> Result<Vec<Vec<bool>>, AllocError>
    ensures { IfOk result (λ met. box_flags met.items
        ≡ lines_of_each (λ _ condition. choices_if_met line.now variant.now
        (condition_of condition)) 0 conditions.now) }
{
    let mut met = Vec::new(alloc);
    for condition in conditions {
        add_met(alloc, line, variant, &mut met, condition)?;
    }
    Ok(met)
}

// The choices of each condition that a variant meets.
fn choices_met(
    alloc: Global,
    line: &ProductLine,
    variant: &[usize],
    conditions: &[Presence],
) -> Result<Vec<Vec<bool>>, AllocError>
    ensures { IfOk result (λ met. box_flags met.items ≡ choices_met line.now variant.now
        (conditions_in conditions.now)) }
{
    let met = each_met(alloc, line, variant, conditions)?;
    Ok(met)
}

fn is_none(choices: &[bool]) -> bool
    ensures { result ≡ is_none choices.now }
{
    !has_any(choices)
}

fn is_any_none(met: &[Vec<bool>]) -> bool
    ensures { result ≡ list_any (λ choices. is_none choices.items) met.now }
{
    met.iter().any(|choices| is_none(choices))
}

fn first_of(alloc: Global, met: &[Vec<bool>]) -> Choices
    ensures { IfOk result (λ choices. choices.items ≡ option_map_or (λ first. first.items) (slice_get met.now 0) []) }
{
    match met.get(0) {
        Some(first) => Ok(first.to_vec(alloc)?),
        None => Ok(Vec::new(alloc)),
    }
}

// Those of the first; none where one of the conditions is met whatever a variant takes.
fn choices_by(alloc: Global, met: &[Vec<bool>]) -> Choices
    ensures { IfOk result (λ choices. choices.items ≡ choices_by (box_flags met.now)) }
{
    let is_whole = is_any_none(met);
    if is_whole {
        return Ok(Vec::new(alloc));
    }
    let first = first_of(alloc, met)?;
    Ok(first)
}

// Adds a request that has a period, where the flow answers it.
fn add_asking(
    parts: &mut Vec<LinePart>,
    flow: &FlowPlan,
    place: usize,
    request: &RequestPlan,
) -> Result<(), AllocError>
    ensures { OnOk result (parts.new.items ≡ parts.old.items ++ asking_part flow.now place request.now) }
{
    if asked_every(flow, request).is_some() {
        parts.push(LinePart::Request(place))?;
    }
    Ok(())
}

fn add_all_asking(
    requests: &[RequestPlan],
    parts: &mut Vec<LinePart>,
    flow: &FlowPlan,
) -> Result<(), AllocError>
    ensures { OnOk result (parts.new.items ≡ parts.old.items ++ lines_of_each (asking_part flow.now) 0 requests.now) }
{
    for (place, request) in requests.iter().enumerate() {
        add_asking(parts, flow, place, request)?;
    }
    Ok(())
}

// A flow, and each request with a period that it answers.
fn parts_of_asked(
    alloc: Global,
    line: &ProductLine,
    place: usize,
) -> Result<Vec<LinePart>, AllocError>
    ensures { IfOk result (λ parts. parts.items ≡ parts_of_asked line.now place) }
{
    let mut parts = Vec::new(alloc);
    parts.push(LinePart::Flow(place))?;
    if let Some(flow) = line.plan.flows.get(place) {
        add_all_asking(&line.plan.requests, &mut parts, flow)?;
    }
    Ok(parts)
}

fn choices_of_asked(alloc: Global, line: &ProductLine, place: usize) -> Choices
    ensures { IfOk result (λ choices. choices.items ≡ choices_counted line.now (OfLoad (AskedTooOften place))) }
{
    let parts = parts_of_asked(alloc, line, place)?;
    choices_of_parts(alloc, line, &parts)
}

fn all_choices(alloc: Global, line: &ProductLine) -> Choices
    ensures { IfOk result (λ choices. choices.items ≡ map (λ choice. true) line.now.choices.items) }
{
    line.choices.iter().map(|_choice| true).collect(alloc)
}

fn choices_of_load(alloc: Global, line: &ProductLine, finding: LoadFinding) -> Choices
    ensures { IfOk result (λ choices. choices.items ≡ choices_counted line.now (OfLoad finding)) }
{
    match finding {
        LoadFinding::NoPeriod(_)
        | LoadFinding::Overload(_)
        | LoadFinding::LateFlow(_)
        | LoadFinding::NeedTooOld(_) => all_choices(alloc, line),
        LoadFinding::AskedTooOften(flow) => choices_of_asked(alloc, line, flow),
    }
}

// Those of a finding that counts what is there.
fn choices_counted(alloc: Global, line: &ProductLine, finding: LineFinding) -> Choices
    ensures { IfOk result (λ choices. choices.items ≡ choices_counted line.now finding) }
{
    match finding {
        LineFinding::OfPlan(_) => all_choices(alloc, line),
        LineFinding::OfLoad(finding) => choices_of_load(alloc, line, finding),
    }
}

/// Of each choice, whether the alternative that the witness of a finding takes is reported.
pub fn reported_choices(
    alloc: Global,
    line: &ProductLine,
    witness: &[usize],
    finding: LineFinding,
) -> Choices
    ensures { IfOk result (λ choices. choices.items ≡ reported_choices line.now witness.now finding) }
{
    if goes_by_conditions(line, finding) {
        let conditions = conditions_of(alloc, line, finding)?;
        let met = choices_met(alloc, line, witness, &conditions)?;
        let choices = choices_by(alloc, &met)?;
        Ok(choices)
    } else {
        choices_counted(alloc, line, finding)
    }
}
