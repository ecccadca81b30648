//! What is wrong with the signals of each group of a plan.
ghost use Rattle.j39_search.specs.Adding.{Adds};
ghost use Rattle.j39_signal.specs.Places.{shares_bit};
ghost use Rattle.j39_search.specs.ListPlaces.{each};
ghost use Rattle.j39_network.specs.SignalPlaces.{room_of_signal};
ghost use Rattle.j39_findings.specs.Found.{has_other_width, ends_outside, width_findings, outside_findings};
ghost use Rattle.j39_findings.specs.Found.{overlap_findings, signal_findings};

use crate::checking::finding::Finding;
use j39_network::GroupPlan;
use j39_search::{FindResult, PairRule, Rule, TestRule, find_each, find_pairs, find_tested};
use j39_signal::Signal;

#[derive(Clone, Copy)]
struct SignalWidth {
    group: usize,
}

impl TestRule<Signal, Finding> for SignalWidth {
    ghost use Rattle.j39_findings.specs.declared.checking.finding.Finding.TheVariants.{SignalWidth as Widths};

    ghost test = { λ _. has_other_width };

    ghost make = { λ rule s. Widths rule.group s };

    fn holds(&self, signal: &Signal) -> bool {
        !signal.width_fits()
    }

    fn finding(&self, place: usize) -> Finding {
        Finding::SignalWidth(self.group, place)
    }
}

#[derive(Clone, Copy)]
struct SignalOutside {
    group: usize,
    length: u16,
    most: u16,
}

impl SignalOutside {
    ghost use Rattle.std.specs.Prelude.{◌≡◌};

    // The bytes inside which the signal has to end.
    fn room(&self, signal: &Signal) -> u16
        ensures { result ≡ room_of_signal self.now.length self.now.most signal.now }
    {
        if signal.is_optional() {
            self.most
        } else {
            self.length
        }
    }
}

impl TestRule<Signal, Finding> for SignalOutside {
    ghost use Rattle.j39_findings.specs.declared.checking.finding.Finding.TheVariants.{SignalOutside as Outsides};

    ghost test = { λ rule. ends_outside rule.length rule.most };

    ghost make = { λ rule s. Outsides rule.group s };

    fn holds(&self, signal: &Signal) -> bool {
        !signal.is_inside(self.room(signal))
    }

    fn finding(&self, place: usize) -> Finding {
        Finding::SignalOutside(self.group, place)
    }
}

#[derive(Clone, Copy)]
struct SignalOverlap {
    group: usize,
}

impl PairRule<Signal, Finding> for SignalOverlap {
    ghost use Rattle.j39_findings.specs.declared.checking.finding.Finding.TheVariants.{SignalOverlap as Overlaps};

    ghost test = { λ _. shares_bit };

    ghost make = { λ rule s t. Overlaps rule.group s t };

    fn holds(&self, first: &Signal, second: &Signal) -> bool {
        first.shares_bit(second)
    }

    fn finding(&self, first: usize, second: usize) -> Finding {
        Finding::SignalOverlap(self.group, first, second)
    }
}

#[derive(Clone, Copy)]
struct Widths;

impl Rule<GroupPlan, Finding> for Widths {
    ghost gives = { λ _ g group. width_findings g group };

    fn find(&self, findings: &mut Vec<Finding>, place: usize, group: &GroupPlan) -> FindResult {
        find_tested(findings, &SignalWidth { group: place }, &group.signals)
    }
}

#[derive(Clone, Copy)]
struct Outsides;

impl Rule<GroupPlan, Finding> for Outsides {
    ghost gives = { λ _ g group. outside_findings g group };

    #[tactic(auto, unfolding(j39_search::specs::ListPlaces::each))]
    fn find(&self, findings: &mut Vec<Finding>, place: usize, group: &GroupPlan) -> FindResult {
        let rule = SignalOutside {
            group: place,
            length: group.length,
            most: group.most,
        };
        find_tested(findings, &rule, &group.signals)
    }
}

#[derive(Clone, Copy)]
struct Overlaps;

impl Rule<GroupPlan, Finding> for Overlaps {
    ghost gives = { λ _ g group. overlap_findings g group };

    fn find(&self, findings: &mut Vec<Finding>, place: usize, group: &GroupPlan) -> FindResult {
        find_pairs(findings, &SignalOverlap { group: place }, &group.signals)
    }
}

#[tactic(auto, using(j39_search::proofs::AddingLemmas::refuses, j39_search::proofs::AddingLemmas::some_left, j39_search::proofs::AddingLemmas::some_right, j39_search::proofs::AddingLemmas::adds_behind), unfolding(crate::specs::Found::signal_findings))]
pub fn find_in_signals(findings: &mut Vec<Finding>, groups: &[GroupPlan]) -> FindResult
    ensures { Adds result findings.old.items findings.new.items (signal_findings groups.now) }
{
    find_each(findings, &Widths, groups)?;
    find_each(findings, &Outsides, groups)?;
    find_each(findings, &Overlaps, groups)
}
