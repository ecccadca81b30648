//! Which needs no flow meets.
ghost use Rattle.j39_search.specs.Adding.{Adds};
ghost use Rattle.j39_findings.specs.Found.{is_unmet, need_findings};
ghost use Rattle.j39_network.specs.Serving.{meets};

use crate::checking::finding::Finding;
use j39_network::{FlowPlan, NeedPlan, RequestPlan, is_met};
use j39_search::{FindResult, TestRule, find_tested};

#[derive(Clone, Copy)]
struct NeedUnmet<'a> {
    requests: &'a [RequestPlan],
    flows: &'a [FlowPlan],
}

impl TestRule<NeedPlan, Finding> for NeedUnmet<'_> {
    ghost use Rattle.j39_findings.specs.declared.checking.finding.Finding.TheVariants.{NeedUnmet as NeedsUnmet};

    ghost test = { λ rule. is_unmet rule.requests.now rule.flows.now };

    ghost make = { λ _ n. NeedsUnmet n };

    fn holds(&self, need: &NeedPlan) -> bool {
        !is_met(self.requests, self.flows, need)
    }

    fn finding(&self, place: usize) -> Finding {
        Finding::NeedUnmet(place)
    }
}

/// Adds the needs that no flow meets. Of each need the flows are looked at up to the first that meets it, and one
/// number distinguishes most of them from it. Requests are looked at only for flows that are sent as answers.
#[tactic(auto, unfolding(crate::specs::Found::need_findings))]
pub fn find_in_needs(
    findings: &mut Vec<Finding>,
    requests: &[RequestPlan],
    flows: &[FlowPlan],
    needs: &[NeedPlan],
) -> FindResult
    ensures { Adds result findings.old.items findings.new.items (need_findings requests.now flows.now needs.now) }
{
    find_tested(findings, &NeedUnmet { requests, flows }, needs)
}
