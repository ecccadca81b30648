//! Which requests are answered, and how.
ghost use Rattle.std.specs.Prelude.{◌≡◌};
ghost use Rattle.j39_search.specs.Adding.{Adds};
ghost use Rattle.j39_findings.specs.Found.{ask_for_one_number, ask_the_same, goes_unanswered, goes_unheard};
ghost use Rattle.j39_findings.specs.Found.{is_all_astray};
ghost use Rattle.j39_findings.specs.Found.{is_answered_astray, is_one_astray, is_served_to_all, is_served_to_one};
ghost use Rattle.j39_findings.specs.Found.{request_findings};
ghost use Rattle.j39_network.specs.Serving.{is_served};

use crate::checking::finding::Finding;
use crate::checking::groups::WhenOutside;
use crate::sending::{may_name_receiver, serves_all, serves_one};
use j39_network::{FlowPlan, GroupPlan, RequestPlan, To, is_served};
use j39_search::{FindResult, PairRule, TestRule, find_pairs, find_tested};

fn is_served_to_one(flows: &[FlowPlan], request: &RequestPlan) -> bool
    ensures { result ≡ is_served_to_one flows.now request.now }
{
    flows.iter().any(|flow| serves_one(request, flow))
}

fn is_served_to_all(flows: &[FlowPlan], request: &RequestPlan) -> bool
    ensures { result ≡ is_served_to_all flows.now request.now }
{
    flows.iter().any(|flow| serves_all(request, flow))
}

// Whether one unit is asked, and only answers to all, though it could answer to one.
fn is_one_astray(groups: &[GroupPlan], flows: &[FlowPlan], request: &RequestPlan) -> bool
    ensures { result ≡ is_one_astray groups.now flows.now request.now }
{
    request.to != To::All
        && may_name_receiver(groups, request)
        && is_served_to_all(flows, request)
        && !is_served_to_one(flows, request)
}

// Whether all are asked, and each answer goes to one unit.
fn is_all_astray(flows: &[FlowPlan], request: &RequestPlan) -> bool
    ensures { result ≡ is_all_astray flows.now request.now }
{
    request.to == To::All && is_served_to_one(flows, request) && !is_served_to_all(flows, request)
}

#[derive(Clone, Copy)]
struct RequestUnanswered<'a> {
    flows: &'a [FlowPlan],
}

impl TestRule<RequestPlan, Finding> for RequestUnanswered<'_> {
    ghost use Rattle.j39_findings.specs.declared.checking.finding.Finding.TheVariants.{RequestUnanswered as RequestsUnanswered};

    ghost test = { λ rule. goes_unanswered rule.flows.now };

    ghost make = { λ _ r. RequestsUnanswered r };

    fn holds(&self, request: &RequestPlan) -> bool {
        request.to != To::All && !is_served(self.flows, request)
    }

    fn finding(&self, place: usize) -> Finding {
        Finding::RequestUnanswered(place)
    }
}

#[derive(Clone, Copy)]
struct RequestUnheard<'a> {
    flows: &'a [FlowPlan],
}

impl TestRule<RequestPlan, Finding> for RequestUnheard<'_> {
    ghost use Rattle.j39_findings.specs.declared.checking.finding.Finding.TheVariants.{RequestUnheard as RequestsUnheard};

    ghost test = { λ rule. goes_unheard rule.flows.now };

    ghost make = { λ _ r. RequestsUnheard r };

    fn holds(&self, request: &RequestPlan) -> bool {
        request.to == To::All && !is_served(self.flows, request)
    }

    fn finding(&self, place: usize) -> Finding {
        Finding::RequestUnheard(place)
    }
}

#[derive(Clone, Copy)]
struct AnswerAstray<'a> {
    groups: &'a [GroupPlan],
    flows: &'a [FlowPlan],
}

impl TestRule<RequestPlan, Finding> for AnswerAstray<'_> {
    ghost use Rattle.j39_findings.specs.declared.checking.finding.Finding.TheVariants.{AnswerAstray as AnswersAstray};

    ghost test = { λ rule. is_answered_astray rule.groups.now rule.flows.now };

    ghost make = { λ _ r. AnswersAstray r };

    fn holds(&self, request: &RequestPlan) -> bool {
        is_one_astray(self.groups, self.flows, request) || is_all_astray(self.flows, request)
    }

    fn finding(&self, place: usize) -> Finding {
        Finding::AnswerAstray(place)
    }
}

fn ask_for_one_number(groups: &[GroupPlan], first: &RequestPlan, second: &RequestPlan) -> bool
    ensures { result ≡ ask_for_one_number groups.now first.now second.now }
{
    match (groups.get(first.group), groups.get(second.group)) {
        (Some(one), Some(other)) => one.pgn == other.pgn,
        _ => false,
    }
}

#[derive(Clone, Copy)]
struct RequestRepeated<'a> {
    groups: &'a [GroupPlan],
}

impl PairRule<RequestPlan, Finding> for RequestRepeated<'_> {
    ghost use Rattle.j39_findings.specs.declared.checking.finding.Finding.TheVariants.{RequestRepeated as RequestsRepeated};

    ghost test = { λ rule. ask_the_same rule.groups.now };

    ghost make = { λ _ r s. RequestsRepeated r s };

    fn holds(&self, first: &RequestPlan, second: &RequestPlan) -> bool {
        ask_for_one_number(self.groups, first, second)
            && first.sender == second.sender
            && first.to == second.to
    }

    fn finding(&self, first: usize, second: usize) -> Finding {
        Finding::RequestRepeated(first, second)
    }
}

/// Adds the requests that no flow answers, those that are answered to others than who asks, and those that are one on
/// the bus; and, by its number, before the last of these, the groups whose selectors end outside.
pub fn find_in_requests(
    findings: &mut Vec<Finding>,
    groups: &[GroupPlan],
    flows: &[FlowPlan],
    requests: &[RequestPlan],
) -> FindResult
    ensures { Adds result findings.old.items findings.new.items (request_findings groups.now flows.now requests.now) }
{
    find_tested(findings, &RequestUnanswered { flows }, requests)?;
    find_tested(findings, &RequestUnheard { flows }, requests)?;
    find_tested(findings, &AnswerAstray { groups, flows }, requests)?;
    find_tested(findings, &WhenOutside, groups)?;
    find_pairs(findings, &RequestRepeated { groups }, requests)
}
