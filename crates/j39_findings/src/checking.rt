//! Everything that is wrong with a plan.
ghost use Rattle.std.specs.Prelude.{◌≡◌, ◌≢◌, [], IfOk, IsOk, OnErr};
ghost use Rattle.j39_search.specs.Adding.{Adds};
ghost use Rattle.j39_findings.specs.Findings.{AreFindings, Clean};
ghost use Rattle.j39_findings.specs.Found.{found};

mod checked_plan;
mod contested;
mod finding;
mod flows;
mod groups;
mod kept;
mod needs;
mod private;
mod records;
mod refused;
mod requests;
mod signals;
mod silent;
mod texts;
mod units;

pub use checked_plan::{CheckedPlan, checked};
use contested::find_contested;
pub use finding::{Finding, Findings};
use flows::find_in_flows;
use groups::find_in_groups;
use j39_network::Plan;
use j39_search::FindResult;
use kept::find_kept;
use needs::find_in_needs;
use private::find_unsent;
use records::find_in_records;
pub use refused::{Refused, RefusedCause};
use requests::find_in_requests;
use signals::find_in_signals;
use silent::find_silent;
use std::alloc::{AllocError, Global};
use texts::find_in_texts;
use units::find_in_units;

// Adds all that is wrong with the plan, by the findings' numbers and then by their places in rising order.
fn find_all(findings: &mut Vec<Finding>, plan: &Plan) -> FindResult
    ensures { Adds result findings.old.items findings.new.items (found plan.now) }
{
    find_in_units(findings, &plan.keep_free, plan.strangers, &plan.units)?;
    find_in_groups(findings, &plan.groups, &plan.flows)?;
    find_in_signals(findings, &plan.groups)?;
    find_in_flows(findings, &plan.groups, &plan.flows)?;
    find_kept(findings, &plan.keep_free, &plan.units)?;
    find_unsent(findings, &plan.groups, &plan.flows)?;
    find_in_records(findings, &plan.groups)?;
    find_in_texts(findings, &plan.groups)?;
    find_in_needs(findings, &plan.requests, &plan.flows, &plan.needs)?;
    find_in_requests(findings, &plan.groups, &plan.flows, &plan.requests)?;
    find_silent(findings, &plan.keep_free, plan.strangers, &plan.units)?;
    find_contested(findings, plan)
}

/// All that is wrong with the plan, and nothing else, by the findings' numbers and then by their places in rising
/// order. A plan in which nothing is wrong takes no memory.
pub fn check(alloc: Global, plan: &Plan) -> Result<Findings, AllocError>
    ensures list { IfOk result (λ findings. findings.items ≡ found plan.now) }
    ensures exact { IfOk result (λ findings. AreFindings plan.now findings.items) }
    ensures memory { OnErr result (found plan.now ≢ []) }
    ensures clean { Clean plan.now → IsOk result }
{
    let mut findings = Vec::new(alloc);
    find_all(&mut findings, plan)?;
    Ok(findings)
}
