//! What is wrong with the groups of a plan.
ghost use Rattle.std.specs.Prelude.{◌≡◌};
ghost use Rattle.j39_signal.specs.Selectors.{differ_in_value};
ghost use Rattle.j39_search.specs.Adding.{Adds};
ghost use Rattle.j39_findings.specs.Found.{is_for_no_plan, is_wrongly_private, has_bad_pgn, have_same_pgn};
ghost use Rattle.j39_findings.specs.Found.{is_selector_outside, group_findings};

use crate::checking::finding::Finding;
use crate::checking::private::are_sent_together;
use j39_id::proprietary::is_proprietary;
use j39_id::services::is_service;
use j39_id::{EXTENDED_PAGE, Pgn};
use j39_network::{FlowPlan, GroupPlan};
use j39_search::{FindResult, PairRule, TestRule, find_pairs, find_tested};
use j39_signal::Selector;

fn is_for_no_plan(pgn: u32) -> bool
    ensures { result ≡ is_for_no_plan pgn }
{
    Pgn::new(pgn).is_none() || pgn >= EXTENDED_PAGE || is_service(pgn)
}

// Whether the number is a maker's own and the group isn't private, or the other way round.
fn is_wrongly_private(group: &GroupPlan) -> bool
    ensures { result ≡ is_wrongly_private group.now }
{
    if group.private {
        !is_proprietary(group.pgn)
    } else {
        is_proprietary(group.pgn)
    }
}

#[derive(Clone, Copy)]
struct BadPgn;

impl TestRule<GroupPlan, Finding> for BadPgn {
    ghost use Rattle.j39_findings.specs.declared.checking.finding.Finding.TheVariants.{BadPgn as BadPgns};

    ghost test = { λ _. has_bad_pgn };

    ghost make = { λ _ g. BadPgns g };

    fn holds(&self, group: &GroupPlan) -> bool {
        is_for_no_plan(group.pgn) || is_wrongly_private(group)
    }

    fn finding(&self, place: usize) -> Finding {
        Finding::BadPgn(place)
    }
}

// Whether the bits of its selector end behind its shortest messages.
fn is_selector_outside(group: &GroupPlan) -> bool
    ensures { result ≡ is_selector_outside group.now }
{
    match group.when {
        Some(selector) => 8 * u32::from(group.length) < selector.end(),
        None => false,
    }
}

/// Groups whose selectors end outside. By their number they stand among what is wrong with requests.
#[derive(Clone, Copy)]
pub(super) struct WhenOutside;

impl TestRule<GroupPlan, Finding> for WhenOutside {
    ghost use Rattle.j39_findings.specs.declared.checking.finding.Finding.TheVariants.{WhenOutside as WhensOutside};

    ghost test = { λ _. is_selector_outside };

    ghost make = { λ _ g. WhensOutside g };

    fn holds(&self, group: &GroupPlan) -> bool {
        is_selector_outside(group)
    }

    fn finding(&self, place: usize) -> Finding {
        Finding::WhenOutside(place)
    }
}

// Whether two selectors differ in the value alone, so that no payload is taken by both.
fn differ_in_value(first: Option<Selector>, second: Option<Selector>) -> bool
    ensures { result ≡ differ_in_value first second }
{
    match (first, second) {
        (Some(one), Some(other)) => {
            one.start == other.start && one.bits == other.bits && one.value != other.value
        }
        _ => false,
    }
}

#[derive(Clone, Copy)]
struct SamePgn<'a> {
    groups: &'a [GroupPlan],
    flows: &'a [FlowPlan],
}

impl PairRule<GroupPlan, Finding> for SamePgn<'_> {
    ghost use Rattle.j39_findings.specs.declared.checking.finding.Finding.TheVariants.{SamePgn as SamePgns};

    ghost test = { λ rule. have_same_pgn rule.groups.now rule.flows.now };

    ghost make = { λ _ g h. SamePgns g h };

    fn holds(&self, first: &GroupPlan, second: &GroupPlan) -> bool {
        first.pgn == second.pgn
            && !differ_in_value(first.when, second.when)
            && (!first.private
                || !second.private
                || are_sent_together(self.groups, self.flows, first, second))
    }

    fn finding(&self, first: usize, second: usize) -> Finding {
        Finding::SamePgn(first, second)
    }
}

#[tactic(auto, using(j39_search::proofs::AddingLemmas::refuses, j39_search::proofs::AddingLemmas::some_left, j39_search::proofs::AddingLemmas::some_right, j39_search::proofs::AddingLemmas::adds_behind), unfolding(crate::specs::Found::group_findings, j39_search::specs::ListPlaces::each))]
pub fn find_in_groups(
    findings: &mut Vec<Finding>,
    groups: &[GroupPlan],
    flows: &[FlowPlan],
) -> FindResult
    ensures { Adds result findings.old.items findings.new.items (group_findings groups.now flows.now) }
{
    find_tested(findings, &BadPgn, groups)?;
    find_pairs(findings, &SamePgn { groups, flows }, groups)
}
