//! What is reported of the load of a plan.
ghost use Rattle.std.specs.Prelude.{◌≡◌, ◌≢◌, ◌⊎◌, [], None, Some, length, IfOk, OnErr};
ghost use Rattle.j39_load.specs.BusTimes.{timing_of};
ghost use Rattle.j39_load.specs.LoadAnswers.{IsLoadAnswer};
ghost use Rattle.j39_load.specs.LoadFindings.{AreLoadFindings, IsFullOfDamage};

use crate::findings::faults::all_findings;
use crate::findings::load_finding::LoadFinding;
use crate::live_claims::timing_of;
use crate::loads::Loads;
use crate::waits::Delay;
use j39_network::{Plan, Timing};
use std::alloc::{AllocError, Global};

/// What a plan asks of its bus, how long its messages take, and what is wrong with it.
#[derive(Drop)]
pub struct LoadAnswer {
    pub loads: Loads,
    /// The delay of each flow, in order, and none where it isn't known how often it is sent.
    pub delays: Vec<Option<Delay>>,
    pub findings: Vec<LoadFinding>,
}

impl LoadAnswer {
    /// What is reported of a plan with this timing. No memory is asked for where it has neither flows nor requests,
    /// unless damaged frames alone are too many for the bus.
    pub fn new(alloc: Global, timing: Timing, plan: &Plan) -> Result<Self, AllocError>
        ensures answer { IfOk result (IsLoadAnswer plan.now timing) }
        ensures flows { IfOk result (λ answer. length answer.loads.flows.items ≡ length plan.now.flows.items) }
        ensures delays { IfOk result (λ answer. length answer.delays.items ≡ length plan.now.flows.items) }
        ensures memory { OnErr result ((plan.now.flows.items ≢ [])
            ⊎ ((plan.now.requests.items ≢ []) ⊎ IsFullOfDamage (Some timing))) }
    {
        let loads = Loads::new(alloc, timing, plan)?;
        let delays = loads.delays(alloc)?;
        let findings = all_findings(alloc, plan, timing, loads.total(), delays.as_slice())?;
        Ok(LoadAnswer {
            loads,
            delays,
            findings,
        })
    }
}

/// What is wrong with what a plan asks of its bus: nothing where nothing is known of this, and no memory is asked for
/// then. Nor is it of a plan without flows and requests, unless damaged frames alone are too many for the bus.
pub fn check_load(alloc: Global, plan: &Plan) -> Result<Vec<LoadFinding>, AllocError>
    ensures findings { IfOk result (λ findings. AreLoadFindings plan.now (timing_of plan.now) findings.items) }
    ensures memory { OnErr result ((timing_of plan.now ≢ None)
        × ((plan.now.flows.items ≢ []) ⊎ ((plan.now.requests.items ≢ []) ⊎ IsFullOfDamage (timing_of plan.now)))) }
{
    let Some(timing) = timing_of(plan) else {
        return Ok(Vec::new(alloc));
    };
    let answer = LoadAnswer::new(alloc, timing, plan)?;
    Ok(answer.findings)
}
