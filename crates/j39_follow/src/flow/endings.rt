//! What is written at the end of a log.
ghost use Rattle.std.specs.Prelude.{◌≡◌, ◌<◌, ◌++◌, ℕ, List, Some, codes, OnOk};
ghost use Rattle.std.specs.List.{slice_get};
ghost use Rattle.j39_id.specs.Limits.{unit_limit};
ghost use Rattle.j39_id.specs.declared.frame.Frame.{Frame as AFrame};
ghost use Rattle.j39_follow.specs.FollowText.{AreUnitLines, IsUnitLine, flow_ends, group_ends, route_text};
ghost use Rattle.j39_follow.specs.FollowText.{is_first_of as comes_first, others_of_number as others, rest_line};
ghost use Rattle.j39_follow.specs.FollowText.{flow_sent_line, to_text, unit_end_line};
ghost use Rattle.j39_text.specs.Texts.{field};
ghost use Rattle.j39_follow.specs.declared.message.Sort.{Sort as ASort};
ghost use Rattle.j39_follow.specs.inside.Recounting.{Recounts};
ghost use Rattle.j39_follow.specs.inside.Tallies.{IsTally};

use crate::address::holders::Holders;
use crate::flow::tally::{Tally, first_of};
use j39_network::{FlowPlan, GroupPlan, Plan, To, UnitPlan};
use j39_text::{TextBuffer, WriteResult, group_label, unit_label};

/// Writes whom a flow or a request goes to.
#[tactic(auto, unfolding(crate::specs::FollowText::to_text))]
pub fn write_to(text: &mut TextBuffer, plan: &Plan, to: To) -> WriteResult
    ensures { OnOk result (text.new ≡ text.old ++ to_text plan.now to) }
{
    match to {
        To::All => text.word("all"),
        To::One(unit) => text.word(unit_label(plan, unit)),
    }
}

/// Writes which group goes from whom to whom.
#[tactic(auto, unfolding(crate::specs::FollowText::route_text))]
pub(crate) fn write_route(
    text: &mut TextBuffer,
    plan: &Plan,
    group: usize,
    sender: usize,
    to: To,
) -> WriteResult
    ensures { OnOk result (text.new ≡ text.old ++ route_text plan.now group sender to) }
{
    text.word(" ")?;
    text.word(group_label(plan, group))?;
    text.word(" from ")?;
    text.word(unit_label(plan, sender))?;
    text.word(" to ")?;
    write_to(text, plan, to)
}

#[tactic(auto, unfolding(crate::specs::FollowText::flow_sent_line))]
fn write_flow(
    text: &mut TextBuffer,
    plan: &Plan,
    place: usize,
    flow: &FlowPlan,
    times: u64,
) -> WriteResult
    ensures { OnOk result (text.new ≡ text.old ++ flow_sent_line plan.now place flow.now times) }
{
    text.place("flow ", place)?;
    write_route(text, plan, flow.group, flow.sender, flow.to)?;
    text.field(" sent ", times)?;
    text.end_line()
}

// Writes how often each flow was sent.
fn write_flows(text: &mut TextBuffer, plan: &Plan, tally: &Tally) -> WriteResult
    ensures { OnOk result ((sent : List ASort) → IsTally plan.now tally.now sent
        → text.new ≡ text.old ++ flow_ends plan.now sent) }
{
    for place in 0..plan.flows.len() {
        write_flow(text, plan, place, &plan.flows[place], tally.of_flow(place))?;
    }
    Ok(())
}

// Whether the group at a place is the first of its number.
fn is_first_of(plan: &Plan, place: usize, group: &GroupPlan) -> bool
    ensures { result ≡ comes_first plan.now place group.now }
{
    first_of(plan, group.pgn) == Some(place)
}

// How much else there was of the number of a group, reported at the first that has it.
fn others_of(plan: &Plan, tally: &Tally, place: usize, group: &GroupPlan) -> u64
    requires { slice_get plan.now.groups.items place ≡ Some group.now }
    ensures { (sent : List ASort) → IsTally plan.now tally.now sent → result ≡ others plan.now sent place group.now }
{
    if is_first_of(plan, place, group) {
        tally.of_others(place)
    } else {
        0
    }
}

#[tactic(auto, unfolding(crate::specs::FollowText::rest_line))]
fn write_group(text: &mut TextBuffer, group: &GroupPlan, unplanned: u64, others: u64) -> WriteResult
    ensures { OnOk result (text.new ≡ text.old ++ rest_line group.now unplanned others) }
{
    text.word("group ")?;
    text.word(group.label.as_str())?;
    text.field(" no_flow ", unplanned)?;
    text.field(" other ", others)?;
    text.end_line()
}

// Writes how often each group was sent without a flow, and what else there was of its number.
fn write_groups(text: &mut TextBuffer, plan: &Plan, tally: &Tally) -> WriteResult
    ensures { OnOk result ((sent : List ASort) → IsTally plan.now tally.now sent
        → text.new ≡ text.old ++ group_ends plan.now sent) }
{
    for place in 0..plan.groups.len() {
        let group = &plan.groups[place];
        write_group(
            text,
            group,
            tally.of_group(place),
            others_of(plan, tally, place, group),
        )?;
    }
    Ok(())
}

#[tactic(auto, unfolding(crate::specs::FollowText::unit_end_line))]
fn write_standing(text: &mut TextBuffer, unit: &UnitPlan, address: u8) -> WriteResult
    ensures { OnOk result (text.new ≡ text.old ++ unit_end_line unit.now (field (codes " address ") address)) }
{
    text.word("unit ")?;
    text.word(unit.label.as_str())?;
    text.field(" address ", address)?;
    text.end_line()
}

#[tactic(auto, unfolding(crate::specs::FollowText::unit_end_line))]
fn write_nowhere(text: &mut TextBuffer, unit: &UnitPlan, words: &str) -> WriteResult
    ensures { OnOk result (text.new ≡ text.old ++ unit_end_line unit.now words.now) }
{
    text.word("unit ")?;
    text.word(unit.label.as_str())?;
    text.word(words)?;
    text.end_line()
}

// Writes where a unit stands.
fn write_unit(
    text: &mut TextBuffer,
    plan: &Plan,
    holders: &Holders,
    place: usize,
    unit: &UnitPlan,
) -> WriteResult
    requires there { slice_get plan.now.units.items place ≡ Some unit.now }
    requires room { place < unit_limit }
    ensures { OnOk result ((frames : List AFrame) → Recounts plan.now holders.now frames
        → (piece : List ℕ) × IsUnitLine plan.now frames place unit.now piece × (text.new ≡ text.old ++ piece)) }
{
    if let Some(address) = holders.address(plan, place, unit) {
        return write_standing(text, unit, address);
    }
    if holders.was_heard(place) {
        write_nowhere(text, unit, " none")
    } else {
        write_nowhere(text, unit, " unclaimed")
    }
}

// Writes where each unit stands.
fn write_units(text: &mut TextBuffer, plan: &Plan, holders: &Holders) -> WriteResult
    ensures { OnOk result ((frames : List AFrame) → Recounts plan.now holders.now frames
        → (piece : List ℕ) × AreUnitLines plan.now frames 0 plan.now.units.items piece
        × (text.new ≡ text.old ++ piece)) }
{
    for place in 0..plan.units.len() {
        write_unit(text, plan, holders, place, &plan.units[place])?;
    }
    Ok(())
}

/// Writes how often each flow was sent and each group, and where each unit stands.
pub(crate) fn write_endings(
    text: &mut TextBuffer,
    plan: &Plan,
    tally: &Tally,
    holders: &Holders,
) -> WriteResult
    ensures { OnOk result ((sent : List ASort) (frames : List AFrame) → IsTally plan.now tally.now sent
        → Recounts plan.now holders.now frames
        → (units : List ℕ) × AreUnitLines plan.now frames 0 plan.now.units.items units
        × (text.new ≡ text.old ++ (flow_ends plan.now sent ++ (group_ends plan.now sent ++ units)))) }
{
    write_flows(text, plan, tally)?;
    write_groups(text, plan, tally)?;
    write_units(text, plan, holders)
}
