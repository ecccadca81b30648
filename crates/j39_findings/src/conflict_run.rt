//! A run that shows the conflict of two units.
ghost use Rattle.std.specs.Prelude.{◌≡◌, ◌≢◌, IfOk, OnErr, option_map};
ghost use Rattle.j39_findings.specs.ConflictRuns.{are_in_conflict, conflict_steps, steps_between, run_of_places};
ghost use Rattle.j39_findings.specs.ConflictRuns.{conflict_run};

use crate::checking::Finding;
use j39_network::{Plan, Step, UnitPlan, may_be_one};
use std::alloc::{AllocError, Global};

#[tactic(auto, unfolding(crate::specs::ConflictRuns::are_in_conflict))]
fn are_in_conflict(first: &UnitPlan, second: &UnitPlan) -> bool
    ensures { result ≡ are_in_conflict first.now second.now }
{
    !first.name.is_arbitrary()
        && !second.name.is_arbitrary()
        && first.address == second.address
        && first.claims
        && second.claims
        && !may_be_one(first, second)
}

fn conflict_steps(alloc: Global, larger: usize, smaller: usize) -> Result<Vec<Step>, AllocError>
    ensures { IfOk result (λ steps. steps.items ≡ conflict_steps larger smaller) }
{
    Ok(vec![in alloc;
        Step::Up(larger),
        Step::Up(smaller),
        Step::Give(smaller, larger),
        Step::Give(larger, smaller),
    ]?)
}

// The places of the unit with the larger NAME and of the other.
#[tactic(auto, unfolding(crate::specs::ConflictRuns::steps_between))]
fn larger_first(
    first: usize,
    second: usize,
    first_unit: &UnitPlan,
    second_unit: &UnitPlan,
) -> (usize, usize)
    ensures { conflict_steps result.0 result.1 ≡ steps_between first second first_unit.now second_unit.now }
{
    if first_unit.name < second_unit.name {
        (second, first)
    } else {
        (first, second)
    }
}

// The places of two units in conflict, that of the larger NAME first.
#[tactic(auto, unfolding(crate::specs::ConflictRuns::run_of_places, crate::specs::ConflictRuns::run_of_units))]
fn conflict(plan: &Plan, first: usize, second: usize) -> Option<(usize, usize)>
    ensures { option_map (λ p. conflict_steps p.0 p.1) result ≡ run_of_places plan.now first second }
{
    if first >= second {
        return None;
    }
    let first_unit = plan.units.get(first)?;
    let second_unit = plan.units.get(second)?;
    if are_in_conflict(first_unit, second_unit) {
        Some(larger_first(first, second, first_unit, second_unit))
    } else {
        None
    }
}

/// The steps of a run that shows a conflict: both units are switched on, and each hears the other's claim.
///
/// There are such steps exactly for a finding that two fixed units of the plan, the first before the second, have one
/// address, where they can't be one unit. The unit of the larger NAME is named first and is left without an address.
#[tactic(auto, unfolding(crate::specs::ConflictRuns::conflict_run))]
pub fn bad_run(
    alloc: Global,
    plan: &Plan,
    finding: &Finding,
) -> Result<Option<Vec<Step>>, AllocError>
    ensures run { IfOk result (λ found. option_map (λ steps. steps.items) found ≡ conflict_run plan.now finding.now) }
    ensures memory { OnErr result (conflict_run plan.now finding.now ≢ None) }
{
    let Finding::SameFixedAddress(first, second) = *finding else {
        return Ok(None);
    };
    match conflict(plan, first, second) {
        Some((larger, smaller)) => Ok(Some(conflict_steps(alloc, larger, smaller)?)),
        None => Ok(None),
    }
}
