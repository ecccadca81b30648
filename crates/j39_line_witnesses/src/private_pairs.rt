//! On which conditions two groups of one number are found.
ghost use Rattle.std.specs.Prelude.{◌≡◌, ◌++◌, ◌∷◌, ◌&&◌, [], IfOk, OnOk, if◌then◌else◌};
ghost use Rattle.j39_load.specs.LineLists.{lines_of_each};
ghost use Rattle.j39_line_findings.specs.Conditions.{conditions_of_groups, sent_together, sent_with, sent_with_any};
ghost use Rattle.j39_line_findings.specs.Conditions.{where_together};
ghost use Rattle.j39_line_findings.specs.declared.part.LinePart.TheVariants.{Group};
ghost use Rattle.j39_line_witnesses.specs.Presences.{conditions_in};

use crate::presence::{ConditionList, Presence, add_together, where_together};
use j39_findings::sending::{sends, sends_beside};
use j39_line_findings::LinePart;
use j39_network::{FlowPlan, GroupPlan};
use j39_variants::ProductLine;
use std::alloc::{AllocError, Global};

// Two private groups, by their places in the file.
#[derive(Clone, Copy)]
struct PrivatePair<'a> {
    line: &'a ProductLine,
    first: usize,
    second: usize,
    group: &'a GroupPlan,
    other: &'a GroupPlan,
}

impl PrivatePair<'_> {
    fn add_sent_with(
        &self,
        alloc: Global,
        found: &mut Vec<Presence>,
        place: usize,
        flow: &FlowPlan,
        at: usize,
        beside: &FlowPlan,
    ) -> Result<(), AllocError>
        ensures { OnOk result (conditions_in found.new.items ≡ conditions_in found.old.items
            ++ sent_with self.now.line.now self.now.first self.now.second self.now.group.now self.now.other.now place flow.now at beside.now) }
    {
        if sends_beside(&self.line.plan.groups, self.group, self.other, flow, beside) {
            add_together(
                alloc,
                found,
                &[
                    LinePart::Group(self.first),
                    LinePart::Group(self.second),
                    LinePart::Flow(place),
                    LinePart::Flow(at),
                ],
            )?;
        }
        Ok(())
    }

    fn add_beside(
        &self,
        alloc: Global,
        found: &mut Vec<Presence>,
        place: usize,
        flow: &FlowPlan,
    ) -> Result<(), AllocError>
        ensures { OnOk result (conditions_in found.new.items ≡ conditions_in found.old.items
            ++ lines_of_each
            (sent_with self.now.line.now self.now.first self.now.second self.now.group.now self.now.other.now place flow.now)
            0 self.now.line.now.plan.flows.items) }
    {
        for (at, beside) in self.line.plan.flows.iter().enumerate() {
            self.add_sent_with(alloc, found, place, flow, at, beside)?;
        }
        Ok(())
    }

    fn add_sent_with_any(
        &self,
        alloc: Global,
        found: &mut Vec<Presence>,
        place: usize,
        flow: &FlowPlan,
    ) -> Result<(), AllocError>
        ensures { OnOk result (conditions_in found.new.items ≡ conditions_in found.old.items
            ++ sent_with_any self.now.line.now self.now.first self.now.second self.now.group.now self.now.other.now place flow.now) }
    {
        if sends(&self.line.plan.groups, self.group, flow) {
            self.add_beside(alloc, found, place, flow)?;
        }
        Ok(())
    }

    fn sent_together(&self, alloc: Global) -> ConditionList
        ensures { IfOk result (λ v. conditions_in v.items
            ≡ sent_together self.now.line.now self.now.first self.now.second self.now.group.now self.now.other.now) }
    {
        let mut found = Vec::new(alloc);
        for (place, flow) in self.line.plan.flows.iter().enumerate() {
            self.add_sent_with_any(alloc, &mut found, place, flow)?;
        }
        Ok(found)
    }
}

// Of two groups at their places in the file.
fn conditions_of_both(
    alloc: Global,
    line: &ProductLine,
    first: usize,
    second: usize,
    group: &GroupPlan,
    other: &GroupPlan,
) -> ConditionList
    ensures { IfOk result (λ v. conditions_in v.items ≡ if group.now.private && other.now.private
        then sent_together line.now first second group.now other.now
        else where_together (Group first ∷ Group second ∷ [])) }
{
    if group.private && other.private {
        let pair = PrivatePair {
            line,
            first,
            second,
            group,
            other,
        };
        pair.sent_together(alloc)
    } else {
        where_together(alloc, &[LinePart::Group(first), LinePart::Group(second)])
    }
}

/// On which conditions two groups of one number are found: both are there, and of two private ones two flows by which
/// one unit sends both to receivers that meet.
pub(crate) fn conditions_of_groups(
    alloc: Global,
    line: &ProductLine,
    first: usize,
    second: usize,
) -> ConditionList
    ensures { IfOk result (λ v. conditions_in v.items ≡ conditions_of_groups line.now first second) }
{
    match line.plan.groups.get(first) {
        Some(group) => match line.plan.groups.get(second) {
            Some(other) => conditions_of_both(alloc, line, first, second, group, other),
            None => where_together(alloc, &[LinePart::Group(first), LinePart::Group(second)]),
        },
        None => where_together(alloc, &[LinePart::Group(first), LinePart::Group(second)]),
    }
}
