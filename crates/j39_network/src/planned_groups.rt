//! The layouts of planned groups.
ghost use Rattle.std.specs.Prelude.{◌≡◌, ◌↔◌, All, IsTrue, IfOk, IfErr, OnOk};
ghost use Rattle.j39_signal.specs.Places.{IsAlwaysInside};
ghost use Rattle.j39_network.specs.PlannedGroups.{IsSelectorInside};
ghost use Rattle.j39_network.specs.PlannedGroups.{HasGroupFault, IsSendable, layout_of as parts_of};

use crate::GroupPlan;
use j39_id::Pgn;
use j39_signal::{Layout, LayoutError};
use std::alloc::Global;

/// Why a planned group has no layout.
#[derive(Clone, Copy)]
pub enum GroupFault {
    /// Its number is no group's, its signals don't lay out its payloads, or its selector ends outside.
    Refused,
    /// Memory was refused, and nothing but that stands against the group.
    Memory,
}

// Whether each signal that isn't optional ends inside the shortest messages.
fn are_always_inside(group: &GroupPlan) -> bool
    ensures { IsTrue result ↔ All (IsAlwaysInside group.now.length) group.now.signals.items }
{
    group.signals.iter().all(|signal| signal.is_optional() || signal.is_inside(group.length))
}

// Whether the bits of its selector lie inside each of its messages.
fn is_selector_inside(group: &GroupPlan) -> bool
    ensures { IsTrue result ↔ IsSelectorInside group.now }
{
    match group.when {
        Some(selector) => selector.end() <= 8 * u32::from(group.length),
        None => true,
    }
}

/// The layout of a planned group whose number is one of a group: of all its messages, from the shortest to the longest.
pub fn layout_of(alloc: Global, group: &GroupPlan) -> Result<Layout, GroupFault>
    ensures layout { IfOk result (λ layout. layout ≡ parts_of group.now) }
    ensures sendable { OnOk result (IsSendable group.now) }
    ensures refused { IfErr result (HasGroupFault group.now) }
{
    if Pgn::new(group.pgn).is_none() {
        return Err(GroupFault::Refused);
    }
    if !are_always_inside(group) {
        return Err(GroupFault::Refused);
    }
    if !is_selector_inside(group) {
        return Err(GroupFault::Refused);
    }
    let layout = match Layout::new(alloc, group.most, group.signals.as_slice()) {
        Ok(layout) => layout,
        Err(LayoutError::Memory) => return Err(GroupFault::Memory),
        Err(_other) => return Err(GroupFault::Refused),
    };
    let Some(layout) = layout.from_length(group.length) else {
        unreachable!()
    };
    match layout.with_selector(group.when) {
        Some(layout) => Ok(layout),
        None => unreachable!(),
    }
}
