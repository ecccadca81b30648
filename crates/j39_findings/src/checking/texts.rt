//! Which texts of groups lie outside of the bytes of their messages.
ghost use Rattle.std.specs.Prelude.{◌≡◌};
ghost use Rattle.j39_search.specs.Adding.{Adds};
ghost use Rattle.j39_findings.specs.Found.{lies_outside, outside_text_findings, text_findings};

use crate::checking::finding::Finding;
use j39_network::{GroupPlan, TextPlan};
use j39_search::{FindResult, Rule, TestRule, find_each, find_tested};

fn lies_outside(group: &GroupPlan, text: &TextPlan) -> bool
    ensures { result ≡ lies_outside group.now text.now }
{
    text.byte > group.length + 1 || text.last_byte() > group.most
}

#[derive(Clone, Copy)]
struct TextOutside<'a> {
    place: usize,
    group: &'a GroupPlan,
}

impl TestRule<TextPlan, Finding> for TextOutside<'_> {
    ghost use Rattle.j39_findings.specs.declared.checking.finding.Finding.TheVariants.{TextOutside as TextsOutside};

    ghost test = { λ rule. lies_outside rule.group.now };

    ghost make = { λ rule t. TextsOutside rule.place t };

    fn holds(&self, text: &TextPlan) -> bool {
        lies_outside(self.group, text)
    }

    fn finding(&self, place: usize) -> Finding {
        Finding::TextOutside(self.place, place)
    }
}

#[derive(Clone, Copy)]
struct OutsideTexts;

impl Rule<GroupPlan, Finding> for OutsideTexts {
    ghost gives = { λ _ g group. outside_text_findings g group };

    fn find(&self, findings: &mut Vec<Finding>, place: usize, group: &GroupPlan) -> FindResult {
        find_tested(findings, &TextOutside { place, group }, &group.texts)
    }
}

/// Adds the texts that lie outside.
#[tactic(auto, unfolding(crate::specs::Found::text_findings))]
pub fn find_in_texts(findings: &mut Vec<Finding>, groups: &[GroupPlan]) -> FindResult
    ensures { Adds result findings.old.items findings.new.items (text_findings groups.now) }
{
    find_each(findings, &OutsideTexts, groups)
}
