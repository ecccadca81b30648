//! Which flows send private groups.
ghost use Rattle.std.specs.Prelude.{◌≡◌};
ghost use Rattle.j39_search.specs.Adding.{Adds};
ghost use Rattle.j39_findings.specs.Found.{are_sent_together, is_private_unsent, is_sent, is_sent_beside, sends_first};
ghost use Rattle.j39_findings.specs.Found.{unsent_findings};

use crate::checking::finding::Finding;
use crate::sending::{sends, sends_beside};
use j39_network::{FlowPlan, GroupPlan};
use j39_search::{FindResult, TestRule, find_tested};

fn is_sent_beside(
    groups: &[GroupPlan],
    flows: &[FlowPlan],
    first: &GroupPlan,
    second: &GroupPlan,
    flow: &FlowPlan,
) -> bool
    ensures { result ≡ is_sent_beside groups.now flows.now first.now second.now flow.now }
{
    flows
        .iter()
        .any(|other| sends_beside(groups, first, second, flow, other))
}

// Whether the flow sends the first group, and another one of the same unit sends the second beside it.
fn sends_first(
    groups: &[GroupPlan],
    flows: &[FlowPlan],
    first: &GroupPlan,
    second: &GroupPlan,
    flow: &FlowPlan,
) -> bool
    ensures { result ≡ sends_first groups.now flows.now first.now second.now flow.now }
{
    sends(groups, first, flow) && is_sent_beside(groups, flows, first, second, flow)
}

/// Whether a unit sends both groups to receivers that meet.
pub fn are_sent_together(
    groups: &[GroupPlan],
    flows: &[FlowPlan],
    first: &GroupPlan,
    second: &GroupPlan,
) -> bool
    ensures { result ≡ are_sent_together groups.now flows.now first.now second.now }
{
    flows
        .iter()
        .any(|flow| sends_first(groups, flows, first, second, flow))
}

fn is_sent(groups: &[GroupPlan], flows: &[FlowPlan], group: &GroupPlan) -> bool
    ensures { result ≡ is_sent groups.now flows.now group.now }
{
    flows.iter().any(|flow| sends(groups, group, flow))
}

fn is_private_unsent(groups: &[GroupPlan], flows: &[FlowPlan], group: &GroupPlan) -> bool
    ensures { result ≡ is_private_unsent groups.now flows.now group.now }
{
    group.private && !is_sent(groups, flows, group)
}

#[derive(Clone, Copy)]
struct PrivateUnsent<'a> {
    groups: &'a [GroupPlan],
    flows: &'a [FlowPlan],
}

impl TestRule<GroupPlan, Finding> for PrivateUnsent<'_> {
    ghost use Rattle.j39_findings.specs.declared.checking.finding.Finding.TheVariants.{PrivateUnsent as PrivatesUnsent};

    ghost test = { λ rule. is_private_unsent rule.groups.now rule.flows.now };

    ghost make = { λ _ g. PrivatesUnsent g };

    fn holds(&self, group: &GroupPlan) -> bool {
        is_private_unsent(self.groups, self.flows, group)
    }

    fn finding(&self, place: usize) -> Finding {
        Finding::PrivateUnsent(place)
    }
}

/// Adds the private groups that no flow sends.
#[tactic(auto, unfolding(crate::specs::Found::unsent_findings))]
pub fn find_unsent(
    findings: &mut Vec<Finding>,
    groups: &[GroupPlan],
    flows: &[FlowPlan],
) -> FindResult
    ensures { Adds result findings.old.items findings.new.items (unsent_findings groups.now flows.now) }
{
    find_tested(findings, &PrivateUnsent { groups, flows }, groups)
}
