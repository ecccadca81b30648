//! What the broadcasts of each unit of a plan ask of the bus.
ghost use Rattle.std.specs.Prelude.{◌≡◌, ◌≢◌, ◌+◌, ◌<◌, ◌≤◌, ◌*◌, ◌^◌, [], All, length, sum_by, IfOk, IfSome, OnErr};
ghost use Rattle.j39_load.specs.Broadcasts.{announced_packets, bits_each, bits_of_announcements, bits_of_firsts};
ghost use Rattle.j39_load.specs.Broadcasts.{broadcast_by, broadcast_frames, broadcasts_by, each_unit_load};
ghost use Rattle.j39_load.specs.Broadcasts.{known_unit_load, least_announced, least_packets, load_of_announcements};
ghost use Rattle.j39_load.specs.Broadcasts.{load_of_firsts, load_of_packets, unit_loads_of};
ghost use Rattle.j39_load.specs.SoundLoads.{AreSound, IsSoundBroadcast, IsSoundIfKnown, IsSoundIfSent};
ghost use Rattle.j39_load.specs.inside.Broadcasting.{AreSoundBroadcasts};
ghost use Rattle.j39_load.specs.inside.PlannedBuses.{on_bus, units_in};

use crate::frames::{
    Broadcast, Extreme, FlowFrames, Messages, PlannedBus, any_unit, bits_each, broadcast_ident,
    spaced_stream,
};
use crate::loads::flow_load::FlowLoad;
use crate::loads::unit_load::UnitLoad;
use crate::waits::{announcements_demand, packets_demand};
use j39_id::Pgn;
use j39_id::services::{CONNECTION_MANAGEMENT, DATA_TRANSFER};
use j39_network::Timing;
use std::alloc::{AllocError, Global};

// The flow's long messages to all, where the unit at this place sends them.
fn broadcast_by(unit: usize, load: &Option<FlowLoad>) -> Option<Broadcast>
    requires { IsSoundIfKnown load.now }
    ensures broadcast { result ≡ broadcast_by unit load.now }
    ensures sound { IfSome result IsSoundBroadcast }
{
    let Some(load) = load else {
        return None;
    };
    let Messages::ToAll(broadcast) = load.messages else {
        return None;
    };
    if broadcast.sender == unit {
        Some(broadcast)
    } else {
        None
    }
}

// All broadcasts of the unit at this place.
fn broadcasts_by(
    alloc: Global,
    unit: usize,
    loads: &[Option<FlowLoad>],
) -> Result<Vec<Broadcast>, AllocError>
    requires { All IsSoundIfKnown loads.now }
    ensures broadcasts { IfOk result (λ broadcasts. broadcasts.items ≡ broadcasts_by unit loads.now) }
    ensures sound { IfOk result (λ broadcasts. AreSoundBroadcasts broadcasts.items) }
    ensures few { IfOk result (λ broadcasts. length broadcasts.items ≤ length loads.now) }
{
    let mut broadcasts = Vec::new(alloc);
    for load in loads {
        if let Some(broadcast) = broadcast_by(unit, load) {
            broadcasts.push(broadcast)?;
        }
    }
    Ok(broadcasts)
}

// The least number of packets of these.
fn least_packets(broadcasts: &[Broadcast]) -> u8
    requires { AreSoundBroadcasts broadcasts.now }
    ensures least { result ≡ least_packets broadcasts.now }
    ensures some { 1 ≤ result }
{
    let mut least = 255;
    for broadcast in broadcasts {
        least = broadcast.least_packets.min(least);
    }
    least
}

// How many bits the packets of these broadcasts take in a second, if all are sent that are wanted.
fn wanted_packets(timing: Timing, broadcasts: &[Broadcast]) -> u64
    requires sound { AreSoundBroadcasts broadcasts.now }
    requires few { length broadcasts.now ≤ 2 ^ 16 }
    ensures { result ≡ sum_by (λ b. bits_each timing b.packets b.period) broadcasts.now }
{
    let mut bits = 0;
    for broadcast in broadcasts {
        bits += u64::from(bits_each(timing, broadcast.packets, broadcast.period));
    }
    bits
}

// How many bits the first frames of its messages take, where some go in one frame.
fn bits_of_firsts(timing: Timing, broadcast: &Broadcast) -> u32
    requires sound { IsSoundBroadcast broadcast.now }
    ensures bits { result ≡ bits_of_firsts timing broadcast.now }
    ensures few { result ≤ 168000 }
{
    if broadcast.has_short {
        bits_each(timing, 1, broadcast.period)
    } else {
        0
    }
}

// How many bits the first frames of the messages of all these broadcasts take.
fn load_of_firsts(timing: Timing, broadcasts: &[Broadcast]) -> u64
    requires sound { AreSoundBroadcasts broadcasts.now }
    requires few { length broadcasts.now ≤ 2 ^ 16 }
    ensures bits { result ≡ load_of_firsts timing broadcasts.now }
    ensures few { result ≤ length broadcasts.now * 168000 }
{
    let mut bits = 0;
    for broadcast in broadcasts {
        bits += u64::from(bits_of_firsts(timing, broadcast));
    }
    bits
}

// How many bits its announcements take, where none goes in one frame.
fn bits_of_announcements(timing: Timing, broadcast: &Broadcast) -> u32
    requires sound { IsSoundBroadcast broadcast.now }
    ensures bits { result ≡ bits_of_announcements timing broadcast.now }
    ensures few { result ≤ 168000 }
{
    if broadcast.has_short {
        0
    } else {
        bits_each(timing, 1, broadcast.period)
    }
}

// How many bits the announcements of all these broadcasts take, if all are sent that are wanted.
fn wanted_announcements(timing: Timing, broadcasts: &[Broadcast]) -> u64
    requires sound { AreSoundBroadcasts broadcasts.now }
    requires few { length broadcasts.now ≤ 2 ^ 16 }
    ensures { result ≡ sum_by (bits_of_announcements timing) broadcasts.now }
{
    let mut bits = 0;
    for broadcast in broadcasts {
        bits += u64::from(bits_of_announcements(timing, broadcast));
    }
    bits
}

// The least number of packets behind such an announcement.
fn announced_packets(broadcast: &Broadcast) -> u8
    requires sound { IsSoundBroadcast broadcast.now }
    ensures least { result ≡ announced_packets broadcast.now }
    ensures some { 1 ≤ result }
{
    if broadcast.has_short {
        255
    } else {
        broadcast.least_packets
    }
}

// The least number of packets behind the announcement of one of these broadcasts.
fn least_announced(broadcasts: &[Broadcast]) -> u8
    requires { AreSoundBroadcasts broadcasts.now }
    ensures least { result ≡ least_announced broadcasts.now }
    ensures some { 1 ≤ result }
{
    let mut least = 255;
    for broadcast in broadcasts {
        least = announced_packets(broadcast).min(least);
    }
    least
}

// How many packets the longest message of each has, together.
fn all_packets(broadcasts: &[Broadcast]) -> u32
    requires { length broadcasts.now ≤ 2 ^ 16 }
    ensures sum { result ≡ sum_by (λ b. b.packets) broadcasts.now }
    ensures few { result ≤ 2 ^ 24 }
{
    let mut packets = 0;
    for broadcast in broadcasts {
        packets += u32::from(broadcast.packets);
    }
    packets
}

// How many bits these broadcasts take in a second at most: their packets, the first frames of those of which some
// messages go in one frame, and the announcements of the others.
fn bits_per_second(timing: Timing, broadcasts: &[Broadcast]) -> u64
    requires sound { AreSoundBroadcasts broadcasts.now }
    requires few { length broadcasts.now ≤ 2 ^ 16 }
    ensures bits { result
        ≡ load_of_packets timing broadcasts.now + (load_of_firsts timing broadcasts.now + load_of_announcements timing broadcasts.now) }
    ensures few { result < 2 ^ 34 }
{
    let gap = timing.broadcast_gap;
    let packets = wanted_packets(timing, broadcasts).min(u64::from(bits_each(timing, 1, gap)));
    let firsts = load_of_firsts(timing, broadcasts);
    let spaced = u64::from(bits_each(timing, 1, u16::from(least_announced(broadcasts)) * gap));
    let announcements = wanted_announcements(timing, broadcasts).min(spaced);
    packets + (firsts + announcements)
}

// Frames of a group of the transport protocol, from a unit to all, which are queued at least so many gaps apart, and of
// which what stands at a place is wanted.
fn broadcast_frames(
    bus: &PlannedBus<'_>,
    pgn: Pgn,
    unit: usize,
    gaps: u8,
    place: usize,
) -> FlowFrames
    requires unit { unit < length (units_in bus.now) }
    requires gaps { 1 ≤ gaps }
    ensures frames { result ≡ on_bus broadcast_frames bus.now pgn unit gaps place }
    ensures fits { AreSound result }
{
    let greatest_ident = broadcast_ident(bus, pgn, Extreme::Greatest, unit);
    FlowFrames {
        stream: spaced_stream(bus.timing, gaps, place),
        least_ident: broadcast_ident(bus, pgn, Extreme::Least, unit),
        greatest_ident,
        any_sender: any_unit(bus, unit),
        any_receiver: None,
        last_ident: greatest_ident,
        twin_ident: None,
        want: None,
    }
}

// What these broadcasts of the unit at a place ask of the bus, where there are any.
fn unit_load(bus: &PlannedBus<'_>, unit: usize, broadcasts: &[Broadcast]) -> Option<UnitLoad>
    requires unit { unit < length (units_in bus.now) }
    requires sound { AreSoundBroadcasts broadcasts.now }
    requires few { length broadcasts.now ≤ 2 ^ 16 }
    ensures load { result ≡ on_bus known_unit_load bus.now unit broadcasts.now }
    ensures sound { IsSoundIfSent result }
{
    if broadcasts.is_empty() {
        return None;
    }
    let least = least_packets(broadcasts);
    Some(UnitLoad {
        packets: broadcast_frames(bus, DATA_TRANSFER, unit, 1, packets_demand(unit)),
        announcements: broadcast_frames(
            bus,
            CONNECTION_MANAGEMENT,
            unit,
            least,
            announcements_demand(unit),
        ),
        flows: broadcasts.len() as u32,
        all_packets: all_packets(broadcasts),
        bits_per_second: bits_per_second(bus.timing, broadcasts),
    })
}

// What the broadcasts of each unit ask of the bus, in order, by what the flows do.
fn each_unit_load(
    alloc: Global,
    bus: &PlannedBus<'_>,
    loads: &[Option<FlowLoad>],
) -> Result<Vec<Option<UnitLoad>>, AllocError>
    requires sound { All IsSoundIfKnown loads.now }
    requires few { length loads.now ≤ 2 ^ 16 }
    ensures loads { IfOk result (λ result. result.items ≡ on_bus each_unit_load bus.now loads.now) }
    ensures count { IfOk result (λ result. length result.items ≡ length (units_in bus.now)) }
    ensures sound { IfOk result (λ result. All IsSoundIfSent result.items) }
{
    let mut unit_loads = Vec::new(alloc);
    for unit in 0..bus.plan.units.len() {
        let broadcasts = broadcasts_by(alloc, unit, loads)?;
        unit_loads.push(unit_load(bus, unit, broadcasts.as_slice()))?;
    }
    Ok(unit_loads)
}

/// What the broadcasts of each unit ask of the bus, in order, by what the flows do. No memory is asked for where there
/// are none.
pub(crate) fn unit_loads_of(
    alloc: Global,
    bus: &PlannedBus<'_>,
    loads: &[Option<FlowLoad>],
) -> Result<Vec<Option<UnitLoad>>, AllocError>
    requires sound { All IsSoundIfKnown loads.now }
    requires few { length loads.now ≤ 2 ^ 16 }
    ensures loads { IfOk result (λ result. result.items ≡ on_bus unit_loads_of bus.now loads.now) }
    ensures count { IfOk result (λ result. length result.items ≤ length (units_in bus.now)) }
    ensures sound { IfOk result (λ result. All IsSoundIfSent result.items) }
    ensures memory { OnErr result (loads.now ≢ []) }
{
    if loads.is_empty() {
        return Ok(Vec::new(alloc));
    }
    each_unit_load(alloc, bus, loads)
}
