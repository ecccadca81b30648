//! What is wrong with a plan, what it asks of its bus, and how long its messages take.
ghost use Rattle.std.specs.Prelude.{◌≡◌, ◌+◌, length, IfOk, Option};
ghost use Rattle.std.specs.List.{list_all};
ghost use Rattle.j39_answer.specs.PlanAnswers.{IsBusAnswer, IsPlanAnswer, are_of_times, delays_in, is_of_times};
ghost use Rattle.j39_answer.specs.PlanAnswers.{load_findings_in};
ghost use Rattle.j39_load.specs.BusTimes.{timing_of};
ghost use Rattle.j39_load.specs.LoadFindings.{load_finding_number};

use j39_findings::{Findings, check};
use j39_load::{Delay, LoadAnswer, LoadFinding, timing_of};
use j39_network::Plan;
use std::alloc::{AllocError, Global};

/// Everything that is wrong with a plan and with what it asks of its bus, with the loads and the delays that show it.
#[derive(Drop)]
pub struct PlanAnswer {
    /// What is wrong with what the plan says.
    pub findings: Findings,
    /// What it asks of its bus, how long its messages take, and what is wrong with that; none where nothing is known of
    /// the bus.
    pub load: Option<LoadAnswer>,
}

// What the plan asks of its bus, where something is known of this.
fn load_of(alloc: Global, plan: &Plan) -> Result<Option<LoadAnswer>, AllocError>
    ensures { IfOk result (IsBusAnswer plan.now (timing_of plan.now)) }
{
    match timing_of(plan) {
        Some(timing) => {
            let load = LoadAnswer::new(alloc, timing, plan)?;
            Ok(Some(load))
        }
        None => Ok(None),
    }
}

// Whether a finding is one of a bus that is too full, of a late flow, or of an old need: F17, F18 or F20.
fn is_of_times(number: u8) -> bool
    ensures { result ≡ is_of_times number }
{
    matches!(number, 17 | 18 | 20)
}

// Whether each of these is.
fn all_of_times(findings: &[LoadFinding]) -> bool
    ensures { result ≡ list_all (λ finding. is_of_times (load_finding_number finding)) findings.now }
{
    findings.iter().all(|finding| is_of_times(finding.number()))
}

impl PlanAnswer {
    /// What is known of the plan.
    pub fn new(alloc: Global, plan: &Plan) -> Result<Self, AllocError>
        ensures { IfOk result (IsPlanAnswer plan.now) }
    {
        let load = load_of(alloc, plan)?;
        let findings = check(alloc, plan)?;
        Ok(PlanAnswer { findings, load })
    }

    /// What is wrong with what the plan asks of its bus: nothing where nothing is known of this.
    pub fn load_findings(&self) -> &[LoadFinding]
        ensures { result.now ≡ load_findings_in self.now }
    {
        match &self.load {
            Some(load) => load.findings.as_slice(),
            None => &[],
        }
    }

    /// How many findings there are.
    pub fn count(&self) -> usize
        ensures { result ≡ length self.now.findings.items + length (load_findings_in self.now) }
    {
        self.findings.len() + self.load_findings().len()
    }

    /// Whether each of them is F17, F18 or F20: what is reported of times stands all the same.
    pub fn are_of_times(&self) -> bool
        ensures { result ≡ are_of_times self.now.findings.items (load_findings_in self.now) }
    {
        self.findings.is_empty() && all_of_times(self.load_findings())
    }

    /// The delay of each flow, in order: none of a plan of whose bus nothing is known.
    pub fn into_delays(self, alloc: Global) -> Vec<Option<Delay>>
        ensures { result.items ≡ delays_in self }
    {
        let PlanAnswer {
            findings: _findings,
            load,
        } = self;
        match load {
            Some(load) => load.delays,
            None => Vec::new(alloc),
        }
    }
}
