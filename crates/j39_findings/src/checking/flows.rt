//! What is wrong with the flows of a plan.
ghost use Rattle.std.specs.Prelude.{◌≡◌};
ghost use Rattle.j39_search.specs.Adding.{Adds};
ghost use Rattle.j39_findings.specs.Found.{are_one_flow, cannot_go_to_one, flow_findings, goes_to_its_sender};

use crate::checking::finding::Finding;
use crate::sending::is_one_frame_to_all;
use j39_network::{FlowPlan, GroupPlan, To};
use j39_search::{FindResult, PairRule, TestRule, find_pairs, find_tested};

fn cannot_go_to_one(groups: &[GroupPlan], flow: &FlowPlan) -> bool
    ensures { result ≡ cannot_go_to_one groups.now flow.now }
{
    match groups.get(flow.group) {
        Some(group) => flow.to != To::All && is_one_frame_to_all(group),
        None => false,
    }
}

#[derive(Clone, Copy)]
struct FlowToOne<'a> {
    groups: &'a [GroupPlan],
}

impl TestRule<FlowPlan, Finding> for FlowToOne<'_> {
    ghost use Rattle.j39_findings.specs.declared.checking.finding.Finding.TheVariants.{FlowToOne as FlowsToOne};

    ghost test = { λ rule. cannot_go_to_one rule.groups.now };

    ghost make = { λ _ f. FlowsToOne f };

    fn holds(&self, flow: &FlowPlan) -> bool {
        cannot_go_to_one(self.groups, flow)
    }

    fn finding(&self, place: usize) -> Finding {
        Finding::FlowToOne(place)
    }
}

#[derive(Clone, Copy)]
struct FlowToSelf;

impl TestRule<FlowPlan, Finding> for FlowToSelf {
    ghost use Rattle.j39_findings.specs.declared.checking.finding.Finding.TheVariants.{FlowToSelf as FlowsToSelf};

    ghost test = { λ _. goes_to_its_sender };

    ghost make = { λ _ f. FlowsToSelf f };

    fn holds(&self, flow: &FlowPlan) -> bool {
        flow.to == To::One(flow.sender)
    }

    fn finding(&self, place: usize) -> Finding {
        Finding::FlowToSelf(place)
    }
}

#[derive(Clone, Copy)]
struct FlowRepeated;

impl PairRule<FlowPlan, Finding> for FlowRepeated {
    ghost use Rattle.j39_findings.specs.declared.checking.finding.Finding.TheVariants.{FlowRepeated as FlowsRepeated};

    ghost test = { λ _. are_one_flow };

    ghost make = { λ _ f h. FlowsRepeated f h };

    fn holds(&self, first: &FlowPlan, second: &FlowPlan) -> bool {
        first.group == second.group && first.sender == second.sender && first.to == second.to
    }

    fn finding(&self, first: usize, second: usize) -> Finding {
        Finding::FlowRepeated(first, second)
    }
}

#[tactic(auto, using(j39_search::proofs::AddingLemmas::refuses, j39_search::proofs::AddingLemmas::some_left, j39_search::proofs::AddingLemmas::some_right, j39_search::proofs::AddingLemmas::adds_behind), unfolding(crate::specs::Found::flow_findings, j39_search::specs::ListPlaces::each))]
pub fn find_in_flows(
    findings: &mut Vec<Finding>,
    groups: &[GroupPlan],
    flows: &[FlowPlan],
) -> FindResult
    ensures { Adds result findings.old.items findings.new.items (flow_findings groups.now flows.now) }
{
    find_tested(findings, &FlowToOne { groups }, flows)?;
    find_tested(findings, &FlowToSelf, flows)?;
    find_pairs(findings, &FlowRepeated, flows)
}
