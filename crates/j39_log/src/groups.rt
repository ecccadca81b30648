//! The groups of a plan as a reader of frames finds them.
ghost use Rattle.std.specs.Prelude.{◌≡◌, ◌<◌, ℕ, false, get_or, length, All, IfErr, IfOk, OnOk};
ghost use Rattle.std.specs.List.{HoldsAt, position};
ghost use Rattle.j39_network.specs.PlannedGroups.{IsSendable, layout_of};
ghost use Rattle.j39_log.specs.LogFrames.{is_planned_as, planned};
ghost use Rattle.j39_network.specs.PlanLimits.{group_limit};
ghost use Rattle.j39_network.specs.declared.plan.flow_plan.FlowPlan.{FlowPlan as APlannedFlow};
ghost use Rattle.j39_log.specs.inside.FirstFlows.{first_flow, is_flow_of};
ghost use Rattle.j39_log.specs.GroupSpans.{HasAllOf, IsSpanOf};
ghost use Rattle.j39_log.specs.inside.Catalogs.{IsBadCatalog};
ghost use Rattle.j39_log.specs.inside.NameTables.{AreGroupNames};
ghost use Rattle.j39_log.specs.ReportHeads.{report_head};
ghost use Rattle.j39_log.specs.inside.ValueLines.{value_lines_of};

use crate::catalog::{Catalog, CatalogError, Span};
use crate::names::GroupNames;
use crate::value_line::ValueLine;
use j39_network::limits::GROUP_LIMIT;
use j39_network::{GroupPlan, Plan};
use j39_signal::{Layout, is_selected};
use std::alloc::Global;
use std::marker::Model;

/// A plan whose groups are found by their numbers without a look at each. Contracts see the plan.
#[derive(Drop)]
pub struct Groups<'a> {
    plan: &'a Plan,
    catalog: Catalog,
}

impl<'a> Model for Groups<'a> {
    ghost use Rattle.std.specs.Coded.{codes, coded_ℕ};
    ghost use Rattle.std.specs.FinSet as set;
    ghost use Rattle.std.specs.Ordering.{nat_cmp};
    ghost use Rattle.j39_network.specs.declared.plan.Plan.{Plan as Planned};
    ghost use Rattle.j39_log.specs.inside.Catalogs.{IsCatalogOf};

    ghost Value = { Planned };

    ghost coded = { Prim.hlevel (codes, set.code {R = nat_cmp} coded_ℕ) };

    ghost view = { λ g. g.plan.now };

    ghost invariant = { λ g. IsCatalogOf g.plan.now g.catalog };
}

// Whether the group has this number, isn't private, and has messages of these bytes.
#[inline(always)]
fn is_planned_as(group: &GroupPlan, pgn: u32, bytes: &[u8]) -> bool
    ensures { result ≡ is_planned_as pgn bytes.now group.now }
{
    (!group.private && group.pgn == pgn)
        && (usize::from(group.length) <= bytes.len()
            && (bytes.len() <= usize::from(group.most) && is_selected(group.when, bytes)))
}

// The place of the first such group, which stands in the span of its number.
#[inline(always)]
fn place_in(groups: &[GroupPlan], span: Span, pgn: u32, bytes: &[u8]) -> Option<usize>
    requires { HasAllOf groups.now pgn span }
    ensures { result ≡ position (is_planned_as pgn bytes.now) groups.now }
{
    for place in span.first..span.end {
        if is_planned_as(&groups[place], pgn, bytes) {
            return Some(place);
        }
    }
    None
}

impl<'a> Groups<'a> {
    /// The groups of a plan, if each has a layout.
    pub fn new(alloc: Global, plan: &'a Plan) -> Result<Self, CatalogError>
        ensures plan { IfOk result (λ groups. groups ≡ plan.now) }
        ensures readable { OnOk result (All IsSendable plan.now.groups.items) }
        ensures refused { IfErr result (IsBadCatalog plan.now.groups.items) }
    {
        let catalog = Catalog::new(alloc, plan)?;
        Ok(Groups { plan, catalog })
    }

    /// The plan.
    pub fn plan(&self) -> &Plan
        ensures { result.now ≡ self.now }
    {
        self.plan
    }

    /// Where the groups of a number stand, if there are any.
    pub fn span(&self, pgn: u32) -> Option<Span>
        ensures { IsSpanOf self.now.groups.items pgn result }
    {
        self.catalog.spans.get(&pgn).copied()
    }

    /// The place of the first group of this number that isn't private and has messages of these bytes. It is looked for
    /// at each frame.
    #[inline(always)]
    pub fn place(&self, pgn: u32, bytes: &[u8]) -> Option<usize>
        ensures { result ≡ planned self.now pgn bytes.now }
    {
        match self.span(pgn) {
            Some(span) => place_in(self.plan.groups.as_slice(), span, pgn, bytes),
            None => None,
        }
    }

    /// The group at a place.
    pub fn group(&self, place: usize) -> &GroupPlan
        requires { place < length self.now.groups.items }
        ensures { HoldsAt (λ group. group ≡ result.now) self.now.groups.items place }
    {
        &self.plan.groups[place]
    }

    /// The place of the first flow of the group at a place, or how many flows there are; 0 at a place that no group can
    /// have.
    pub fn first_flow(&self, place: usize) -> usize
        ensures first { place < group_limit → result ≡ first_flow place self.now.flows.items }
        ensures before { (k : ℕ) (flow : APlannedFlow) → k < result
            → is_flow_of place (get_or self.now.flows.items k flow) ≡ false }
    {
        if place < GROUP_LIMIT {
            self.catalog.flows[place]
        } else {
            0
        }
    }

    /// What a report of the group at a place begins with.
    pub fn head(&self, place: usize) -> &[u8]
        requires { place < length self.now.groups.items }
        ensures { HoldsAt (λ group. report_head group ≡ result.now) self.now.groups.items place }
    {
        self.catalog.heads[place].as_slice()
    }

    /// The layout of the group at a place.
    pub fn layout(&self, place: usize) -> &Layout
        requires { place < length self.now.groups.items }
        ensures { HoldsAt (λ group. layout_of group ≡ result.now) self.now.groups.items place }
    {
        &self.catalog.layouts[place]
    }

    /// The names that the plan has, of the group at a place, if it has any. It is asked for at each report.
    #[inline(always)]
    pub(crate) fn names(&self, place: usize) -> Option<GroupNames<'_>>
        requires { place < length self.now.groups.items }
        ensures { HoldsAt (λ group. AreGroupNames self.now group result) self.now.groups.items place }
    {
        match &self.catalog.names {
            Some(names) => Some(GroupNames {
                values: names.values[place].as_slice(),
                parameters: &names.parameters,
            }),
            None => None,
        }
    }

    /// What stands around the values of the signals of the group at a place.
    pub fn lines(&self, place: usize) -> &[ValueLine]
        requires { place < length self.now.groups.items }
        ensures { HoldsAt (λ group. value_lines_of group ≡ result.now) self.now.groups.items place }
    {
        &self.catalog.lines[place]
    }
}
