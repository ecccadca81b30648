//! The layouts of a plan's groups, what their reports have in common, and where the groups of one number stand.
ghost use Rattle.std.specs.Prelude.{◌≡◌, ◌≢◌, ◌<◌, List, [], ◌∷◌, ◌++◌, length, map, All, OnOk, OnErr, IfOk, IfErr};
ghost use Rattle.j39_log.specs.inside.Catalogs.{IsBadCatalog, IsCatalogOf, IsIndex, extended};
ghost use Rattle.j39_network.specs.PlannedGroups.{IsSendable, layout_of as parts_of};
ghost use Rattle.j39_network.specs.declared.plan.group_plan.GroupPlan.{GroupPlan as APlannedGroup};

use crate::first_flows::first_flows;
use crate::names::{PlanNames, plan_names};
use crate::report_head::report_heads;
use crate::value_line::{ValueLine, value_lines_of};
use j39_network::limits::GROUP_LIMIT;
use j39_network::{GroupFault, GroupPlan, Plan, layout_of};
use j39_signal::Layout;
use j39_text::TextBuffer;
use std::alloc::{AllocError, Global};
use std::collections::HashMap;

/// Why there is no catalog of a plan.
#[derive(Clone, Copy)]
pub enum CatalogError {
    /// The first group that is refused, by its place.
    BadGroup(usize),
    /// An allocation was refused.
    Memory,
}

/// Where the groups of one number stand: from the first of them to behind the last. In a plan without findings it is
/// one group, or they are private.
#[derive(Clone, Copy)]
pub struct Span {
    pub first: usize,
    pub end: usize,
}

/// The groups of a plan: by place what their reports begin with, their layouts and what stands around the values of
/// their signals, the names that the plan has, by its number where they stand, and where their flows begin.
#[derive(Drop)]
pub(crate) struct Catalog {
    pub heads: Vec<TextBuffer>,
    pub layouts: Vec<Layout>,
    pub lines: Vec<Vec<ValueLine>>,
    pub names: Option<PlanNames>,
    pub spans: HashMap<u32, Span>,
    pub flows: [usize; GROUP_LIMIT],
}

// The layouts of the groups, by place.
fn layouts_of(alloc: Global, groups: &[GroupPlan]) -> Result<Vec<Layout>, CatalogError>
    ensures layouts { IfOk result (λ layouts. layouts.items ≡ map parts_of groups.now) }
    ensures readable { OnOk result (All IsSendable groups.now) }
    ensures refused { IfErr result (IsBadCatalog groups.now) }
{
    let mut layouts = Vec::new(alloc);
    for (place, group) in groups.iter().enumerate() {
        match layout_of(alloc, group) {
            Ok(layout) => {
                let Ok(()) = layouts.push(layout) else {
                    return Err(CatalogError::Memory);
                };
            }
            Err(GroupFault::Memory) => return Err(CatalogError::Memory),
            Err(GroupFault::Refused) => return Err(CatalogError::BadGroup(place)),
        }
    }
    Ok(layouts)
}

// The span of a number with one more group, at this place behind the others.
fn extended(span: Option<Span>, place: usize) -> Span
    requires { place < usize.MAX }
    ensures { result ≡ extended span place }
{
    Span {
        first: match span {
            Some(span) => span.first,
            None => place,
        },
        end: place + 1,
    }
}

// The place of a group after others.
fn add_place(
    spans: &mut HashMap<u32, Span>,
    group: &GroupPlan,
    place: usize,
) -> Result<(), AllocError>
    requires { place < usize.MAX }
    ensures { OnOk result ((before : List APlannedGroup) → length before ≡ place → IsIndex before spans.old
        → IsIndex (before ++ group.now ∷ []) spans.new) }
{
    let span = extended(spans.get(&group.pgn).copied(), place);
    match spans.insert(group.pgn, span) {
        Ok(_) => Ok(()),
        Err(_) => Err(AllocError),
    }
}

// The span of each number.
fn spans_of(alloc: Global, groups: &[GroupPlan]) -> Result<HashMap<u32, Span>, AllocError>
    ensures index { IfOk result (IsIndex groups.now) }
    ensures memory { OnErr result (groups.now ≢ []) }
{
    let mut spans = HashMap::new(alloc);
    for (place, group) in groups.iter().enumerate() {
        add_place(&mut spans, group, place)?;
    }
    Ok(spans)
}

impl Catalog {
    pub fn new(alloc: Global, plan: &Plan) -> Result<Self, CatalogError>
        ensures catalog { IfOk result (IsCatalogOf plan.now) }
        ensures readable { OnOk result (All IsSendable plan.now.groups.items) }
        ensures refused { IfErr result (IsBadCatalog plan.now.groups.items) }
    {
        let layouts = layouts_of(alloc, plan.groups.as_slice())?;
        let Ok(heads) = report_heads(alloc, plan.groups.as_slice()) else {
            return Err(CatalogError::Memory);
        };
        let Ok(lines) = value_lines_of(alloc, plan.groups.as_slice()) else {
            return Err(CatalogError::Memory);
        };
        let Ok(names) = plan_names(alloc, plan) else {
            return Err(CatalogError::Memory);
        };
        let Ok(spans) = spans_of(alloc, plan.groups.as_slice()) else {
            return Err(CatalogError::Memory);
        };
        Ok(Catalog {
            heads,
            layouts,
            lines,
            names,
            spans,
            flows: first_flows(plan.flows.as_slice()),
        })
    }
}
