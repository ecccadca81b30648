//! What is wrong with what a plan asks of its bus.
ghost use Rattle.std.specs.Prelude.{◌≡◌, ◌≢◌, ◌∷◌, ◌++◌, [], length, IfOk, IfSome, IfNone, OnOk, OnErr};
ghost use Rattle.j39_load.specs.LoadFindings.{all_findings, is_whole_late, load_findings};
ghost use Rattle.j39_load.specs.LineLists.{lines_of_each};
ghost use Rattle.j39_load.specs.inside.FlowSearch.{found_at};

use crate::findings::ages::{find_old_needs, is_in_limit};
use crate::findings::asking::find_asked_too_often;
use crate::findings::load_finding::LoadFinding;
use crate::frames::bits_of_second;
use crate::waits::{Delay, WholeTime};
use j39_network::{Plan, Timing};
use j39_search::FindResult;
use std::alloc::{AllocError, Global};

/// What is looked for at each flow.
#[derive(Clone, Copy)]
pub(crate) enum FlowFault {
    WithoutPeriod,
    Lateness,
}

// Whether the deadline of long messages to all is written, and they aren't shown to be whole within it.
fn is_whole_late(whole: &WholeTime) -> bool
    ensures { result ≡ is_whole_late whole.now }
{
    match whole.limit {
        Some(limit) => !is_in_limit(limit, whole.time_of_each()),
        None => false,
    }
}

fn finding_at(fault: FlowFault, flow: usize, delay: Option<Delay>) -> Option<LoadFinding>
    ensures some { IfSome result (λ finding. found_at fault flow delay ≡ finding ∷ []) }
    ensures none { IfNone result (found_at fault flow delay ≡ []) }
{
    match (fault, delay) {
        (FlowFault::WithoutPeriod, None) => Some(LoadFinding::NoPeriod(flow)),
        (FlowFault::Lateness, Some(Delay::Late | Delay::Beyond(_))) => Some(LoadFinding::LateFlow(
            flow,
        )),
        (FlowFault::Lateness, Some(Delay::Whole(whole))) if is_whole_late(&whole) => {
            Some(LoadFinding::LateFlow(flow))
        }
        _ => None,
    }
}

// Adds what is found at the flows of these delays.
#[tactic(auto, unfolding(crate::specs::LineLists::lines_of_each))]
fn find_each(
    findings: &mut Vec<LoadFinding>,
    fault: FlowFault,
    delays: &[Option<Delay>],
) -> FindResult
    ensures found { OnOk result (findings.new.items ≡ findings.old.items
        ++ lines_of_each (found_at fault) 0 delays.now) }
    ensures memory { OnErr result (lines_of_each (found_at fault) 0 delays.now ≢ []) }
{
    for (flow, delay) in delays.iter().enumerate() {
        if let Some(finding) = finding_at(fault, flow, *delay) {
            findings.push(finding)?;
        }
    }
    Ok(())
}

// What is wrong with a load of so many bits in a second and with these delays of the flows. Asks for memory only where
// something is.
fn load_findings(
    alloc: Global,
    timing: Timing,
    load: u64,
    delays: &[Option<Delay>],
) -> Result<Vec<LoadFinding>, AllocError>
    ensures findings { IfOk result (λ findings. findings.items ≡ load_findings timing load delays.now) }
    ensures memory { OnErr result (load_findings timing load delays.now ≢ []) }
{
    let mut findings = Vec::new(alloc);
    find_each(&mut findings, FlowFault::WithoutPeriod, delays)?;
    if u64::from(bits_of_second(timing.bitrate)) < load {
        findings.push(LoadFinding::Overload(load))?;
    }
    find_each(&mut findings, FlowFault::Lateness, delays)?;
    Ok(findings)
}

/// With what is wrong with the ages of what the units of the plan need, and with how often its flows are asked for.
pub(crate) fn all_findings(
    alloc: Global,
    plan: &Plan,
    timing: Timing,
    load: u64,
    delays: &[Option<Delay>],
) -> Result<Vec<LoadFinding>, AllocError>
    requires { length delays.now ≡ length plan.now.flows.items }
    ensures findings { IfOk result (λ findings. findings.items ≡ all_findings plan.now timing load delays.now) }
    ensures memory { OnErr result (all_findings plan.now timing load delays.now ≢ []) }
{
    let mut findings = load_findings(alloc, timing, load, delays)?;
    find_old_needs(
        &mut findings,
        timing,
        &plan.requests,
        &plan.flows,
        delays,
        &plan.needs,
    )?;
    find_asked_too_often(&mut findings, &plan.requests, &plan.flows)?;
    Ok(findings)
}
