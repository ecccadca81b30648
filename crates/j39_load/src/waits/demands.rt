//! What is wanted of the broadcasts of units.
ghost use Rattle.std.specs.Prelude.{◌≡◌, ◌≤◌, ◌<◌, ◌++◌, All, IfOk, IfSome, OnOk, length, map};
ghost use Rattle.j39_load.specs.Demands.{announcements_demand, demand_by, demands_by, demands_of, most_packets};
ghost use Rattle.j39_load.specs.Demands.{packets_demand, under_way_of, want_of, wanted_by, wants_of};
ghost use Rattle.j39_id.specs.Limits.{unit_limit};
ghost use Rattle.j39_load.specs.SoundLoads.{AreSoundIfAny, IsSoundBroadcast};
ghost use Rattle.j39_load.specs.inside.Broadcasting.{AreSoundBroadcasts};
ghost use Rattle.j39_timing.specs.Waits.{IsWant, IsWanted, as_demand};

use crate::frames::{Broadcast, BroadcastPart, FlowFrames};
use j39_id::limits::UNIT_LIMIT;
use j39_timing::{Want, Wanted};
use std::alloc::{AllocError, Global};

/// Where what is wanted of the packets of the unit at a place stands.
pub(crate) fn packets_demand(unit: usize) -> usize
    ensures { result ≡ packets_demand unit }
{
    unit
}

/// And of its announcements.
pub(crate) fn announcements_demand(unit: usize) -> usize
    requires { unit < unit_limit }
    ensures { result ≡ announcements_demand unit }
{
    UNIT_LIMIT + unit
}

// What the flow of these frames wants, where it is of the unit at a place.
fn wanted_by(unit: usize, frames: &Option<FlowFrames>) -> Option<Broadcast>
    requires { AreSoundIfAny frames.now }
    ensures wanted { result ≡ wanted_by unit frames.now }
    ensures sound { IfSome result IsSoundBroadcast }
{
    let Some(frames) = frames else {
        return None;
    };
    let Some(broadcast) = frames.want else {
        return None;
    };
    if broadcast.sender == unit {
        Some(broadcast)
    } else {
        None
    }
}

// What all flows want of it, among all frames.
fn wants_of(
    alloc: Global,
    all: &[Option<FlowFrames>],
    unit: usize,
) -> Result<Vec<Broadcast>, AllocError>
    requires { All AreSoundIfAny all.now }
    ensures wants { IfOk result (λ wants. wants.items ≡ wants_of all.now unit) }
    ensures sound { IfOk result (λ wants. AreSoundBroadcasts wants.items) }
    ensures few { IfOk result (λ wants. length wants.items ≤ length all.now) }
{
    let mut wants = Vec::new(alloc);
    for frames in all {
        if let Some(broadcast) = wanted_by(unit, frames) {
            wants.push(broadcast)?;
        }
    }
    Ok(wants)
}

// The most packets that one message of these has.
fn most_packets(broadcasts: &[Broadcast]) -> u8
    ensures { result ≡ most_packets broadcasts.now }
{
    let mut most = 0;
    for broadcast in broadcasts {
        most = broadcast.packets.max(most);
    }
    most
}

// What a flow wants of its unit's announcements, or of its packets.
fn want_of(part: BroadcastPart, broadcast: &Broadcast) -> Want
    requires { IsSoundBroadcast broadcast.now }
    ensures want { result ≡ want_of part broadcast.now }
    ensures sound { IsWant result }
{
    Want {
        frames: match part {
            BroadcastPart::Packets => u16::from(broadcast.packets),
            BroadcastPart::Announcements => 1,
        },
        period: broadcast.apart,
        jitter: broadcast.late,
        more: broadcast.askers.max(1),
    }
}

// The frames of the message that is under way.
fn under_way_of(part: BroadcastPart, broadcasts: &[Broadcast]) -> u16
    ensures frames { result ≡ under_way_of part broadcasts.now }
    ensures few { result < 256 }
{
    match part {
        BroadcastPart::Packets => u16::from(most_packets(broadcasts)),
        BroadcastPart::Announcements => 0,
    }
}

// What each flow wants of them.
fn each_want(
    alloc: Global,
    part: BroadcastPart,
    broadcasts: &[Broadcast],
) -> Result<Vec<Want>, AllocError>
    requires { AreSoundBroadcasts broadcasts.now }
    ensures wants { IfOk result (λ wants. wants.items ≡ map (want_of part) broadcasts.now) }
    ensures sound { IfOk result (λ wants. All IsWant wants.items) }
{
    let mut wants = Vec::with_capacity(alloc, broadcasts.len())?;
    for broadcast in broadcasts {
        wants.push_reserved(want_of(part, broadcast));
    }
    Ok(wants)
}

// What is wanted of the announcements of the unit at a place, or of its packets, among all frames.
fn demand_by(
    alloc: Global,
    part: BroadcastPart,
    all: &[Option<FlowFrames>],
    unit: usize,
) -> Result<Wanted, AllocError>
    requires sound { All AreSoundIfAny all.now }
    requires few { length all.now ≤ 2000 }
    ensures demand { IfOk result (λ wanted. as_demand wanted ≡ demand_by part (wants_of all.now unit)) }
    ensures sound { IfOk result IsWanted }
{
    let broadcasts = wants_of(alloc, all, unit)?;
    let wants = each_want(alloc, part, broadcasts.as_slice())?;
    Ok(Wanted {
        under_way: under_way_of(part, broadcasts.as_slice()),
        wants,
    })
}

// Adds that of each unit.
fn add_demands(
    demands: &mut Vec<Wanted>,
    alloc: Global,
    part: BroadcastPart,
    all: &[Option<FlowFrames>],
) -> Result<(), AllocError>
    requires sound { All AreSoundIfAny all.now }
    requires few { length all.now ≤ 2000 }
    requires demands { All IsWanted demands.old.items }
    ensures demands { OnOk result (map as_demand demands.new.items ≡ map as_demand demands.old.items
        ++ demands_by part all.now) }
    ensures sound { OnOk result (All IsWanted demands.new.items) }
{
    for unit in 0..UNIT_LIMIT {
        let demand = demand_by(alloc, part, all, unit)?;
        demands.push(demand)?;
    }
    Ok(())
}

/// What is wanted of the packets of each unit, and behind these of the announcements of each, among all frames.
pub(crate) fn demands_of(
    alloc: Global,
    all: &[Option<FlowFrames>],
) -> Result<Vec<Wanted>, AllocError>
    requires sound { All AreSoundIfAny all.now }
    requires few { length all.now ≤ 2000 }
    ensures demands { IfOk result (λ demands. map as_demand demands.items ≡ demands_of all.now) }
    ensures sound { IfOk result (λ demands. All IsWanted demands.items) }
{
    let mut demands = Vec::new(alloc);
    add_demands(&mut demands, alloc, BroadcastPart::Packets, all)?;
    add_demands(&mut demands, alloc, BroadcastPart::Announcements, all)?;
    Ok(demands)
}
