//! What each flow of a plan asks of the bus.
ghost use Rattle.std.specs.Prelude.{◌≡◌, ◌≢◌, [], ◌^◌, ◌<◌, ◌≤◌, ℕ, max, All, length, IfOk, IfSome, OnErr};
ghost use Rattle.j39_network.specs.declared.plan.to.To.TheVariants.{One};
ghost use Rattle.std.specs.Option.{option_map};
ghost use Rattle.j39_load.specs.Loads.{bits_inside as bits_in_time, broadcast_of, flow_load, has_short};
ghost use Rattle.j39_load.specs.FlowLoads.{load_of_flow};
ghost use Rattle.j39_load.specs.Loads.{load_of_messages, messages_of, packet_frames};
ghost use Rattle.j39_load.specs.FlowLoads.{loads_of};
ghost use Rattle.j39_load.specs.Loads.{single_frames, singles_of, time_limit};
ghost use Rattle.j39_load.specs.SoundLoads.{AreSound, AreSoundIfAny, AreSoundMessages, HaveFitPeriod, IsSoundBroadcast};
ghost use Rattle.j39_load.specs.SoundLoads.{IsSoundIfKnown, IsSoundLoad};
ghost use Rattle.j39_load.specs.AnswerStreams.{load_for};
ghost use Rattle.j39_load.specs.inside.FewFrames.{HaveFewFrames};
ghost use Rattle.j39_load.specs.inside.PlannedBuses.{on_bus, stays_in, units_in};
ghost use Rattle.j39_tp.specs.Chunks.{packets_of};

use crate::frames::{
    Broadcast, Extreme, FlowFrames, Messages, PlannedBus, any_unit, bits_at_least, bits_at_most,
    bits_inside, group_ident, load_of, packet_ident, packet_stream, session_ident, single_stream,
    twin_ident,
};
use crate::loads::answers::{askers_of, frames_for, messages_for};
use crate::loads::flow_load::FlowLoad;
use j39_id::limits::FRAME_BYTES;
use j39_network::{FlowPlan, GroupPlan, Pace, Timing, To};
use j39_tp::Size;
use std::alloc::{AllocError, Global};

// Within how many bits of its release each frame of a flow of this pace has to be on the bus.
fn limit(timing: Timing, pace: Pace) -> u32
    ensures limit { result ≡ time_limit timing pace }
    ensures few { result < 2 ^ 31 }
{
    let period = bits_at_least(timing, pace.period);
    match pace.deadline {
        Some(deadline) => bits_inside(timing, deadline).min(period),
        None => period,
    }
}

// The frames of a flow's messages that go in one frame.
fn single_frames(bus: &PlannedBus<'_>, flow: &FlowPlan, pace: Pace, group: &GroupPlan) -> FlowFrames
    requires sender { flow.now.sender < length (units_in bus.now) }
    requires receiver { (v : ℕ) → flow.now.to ≡ One v → v < length (units_in bus.now) }
    ensures frames { result ≡ on_bus single_frames bus.now flow.now pace group.now }
    ensures fits { AreSound result }
    ensures paced { result.stream.period < 2 ^ 31 }
    ensures few { result.stream.frames ≤ 512 }
{
    let greatest_ident = group_ident(bus, Extreme::Greatest, group, flow);
    FlowFrames {
        stream: single_stream(bus.timing, group, pace),
        least_ident: group_ident(bus, Extreme::Least, group, flow),
        greatest_ident,
        any_sender: any_unit(bus, flow.sender),
        any_receiver: None,
        last_ident: greatest_ident,
        twin_ident: twin_ident(group, flow),
        want: None,
    }
}

// Those of its long messages to the unit at a place, each of so many packets.
fn packet_frames(
    bus: &PlannedBus<'_>,
    flow: &FlowPlan,
    unit: usize,
    pace: Pace,
    packets: u8,
) -> FlowFrames
    requires sender { flow.now.sender < length (units_in bus.now) }
    requires receiver { (v : ℕ) → flow.now.to ≡ One v → v < length (units_in bus.now) }
    requires to { unit < length (units_in bus.now) }
    ensures frames { result ≡ on_bus packet_frames bus.now flow.now unit pace packets }
    ensures fits { AreSound result }
    ensures few { result.stream.frames ≤ 512 }
{
    FlowFrames {
        stream: packet_stream(bus, packets, unit, pace),
        least_ident: packet_ident(bus, Extreme::Least, flow),
        greatest_ident: packet_ident(bus, Extreme::Greatest, flow),
        any_sender: any_unit(bus, flow.sender),
        any_receiver: any_unit(bus, unit),
        last_ident: session_ident(bus, Extreme::Greatest, flow, unit),
        twin_ident: None,
        want: None,
    }
}

// How many packets the shortest long message of the group has.
fn least_packets(group: &GroupPlan) -> u8
    ensures { result ≡ max 2 (packets_of group.now.length) }
{
    match Size::new(group.length) {
        Some(size) => size.packets(),
        None => 2,
    }
}

// Some messages of the group go in one frame.
fn has_short(group: &GroupPlan) -> bool
    ensures { result ≡ has_short group.now }
{
    usize::from(group.length) <= FRAME_BYTES
}

// Within how many bits each long message of a flow of this pace has to be whole, where it is written.
fn deadline(timing: Timing, pace: Pace) -> Option<u32>
    ensures { result ≡ option_map (bits_in_time timing) pace.deadline }
{
    match pace.deadline {
        Some(deadline) => Some(bits_inside(timing, deadline)),
        None => None,
    }
}

// The long messages of a flow to all, each of so many packets at most.
fn broadcast(
    timing: Timing,
    flow: &FlowPlan,
    pace: Pace,
    group: &GroupPlan,
    packets: u8,
) -> Broadcast
    requires { packets ≡ packets_of group.now.most }
    ensures broadcast { result ≡ broadcast_of timing flow.now pace group.now }
    ensures sound { IsSoundBroadcast result }
{
    Broadcast {
        sender: flow.sender,
        packets,
        least_packets: least_packets(group),
        has_short: has_short(group),
        period: pace.period,
        apart: bits_at_least(timing, pace.period),
        jitter: bits_at_most(timing, pace.jitter),
        late: bits_at_most(timing, pace.jitter),
        askers: 0,
        deadline: deadline(timing, pace),
    }
}

// The messages of a flow, by the longest.
fn messages_of(bus: &PlannedBus<'_>, flow: &FlowPlan, pace: Pace, group: &GroupPlan) -> Messages
    requires sender { flow.now.sender < length (units_in bus.now) }
    requires receiver { (v : ℕ) → flow.now.to ≡ One v → v < length (units_in bus.now) }
    ensures messages { result ≡ on_bus messages_of bus.now flow.now pace group.now }
    ensures sound { AreSoundMessages result }
    ensures paced { HaveFitPeriod result }
    ensures few { HaveFewFrames result }
{
    let Some(size) = Size::new(group.most) else {
        return Messages::Short(single_frames(bus, flow, pace, group));
    };
    let packets = size.packets();
    match flow.to {
        To::All => Messages::ToAll(broadcast(bus.timing, flow, pace, group, packets)),
        To::One(unit) => {
            let frames = packet_frames(bus, flow, unit, pace, packets);
            Messages::ToOne(frames)
        }
    }
}

// The single frames of a flow, where it has long messages too.
fn singles_of(
    bus: &PlannedBus<'_>,
    flow: &FlowPlan,
    pace: Pace,
    group: &GroupPlan,
) -> Option<FlowFrames>
    requires sender { flow.now.sender < length (units_in bus.now) }
    requires receiver { (v : ℕ) → flow.now.to ≡ One v → v < length (units_in bus.now) }
    ensures singles { result ≡ on_bus singles_of bus.now flow.now pace group.now }
    ensures fits { AreSoundIfAny result }
    ensures few { IfSome result (λ f. f.stream.frames ≤ 512) }
{
    if usize::from(group.most) > FRAME_BYTES && has_short(group) {
        Some(single_frames(bus, flow, pace, group))
    } else {
        None
    }
}

// How many bits these messages of a flow take in a second at most, of this period in milliseconds; broadcasts count
// with those of their unit.
fn load_of_messages(timing: Timing, messages: &Messages, period: u16) -> u32
    requires period { 1 ≤ period }
    requires sound { AreSoundMessages messages.now }
    requires few { HaveFewFrames messages.now }
    ensures { result ≡ load_of_messages timing messages.now period }
{
    match messages {
        Messages::Short(frames) => load_of(timing, frames.stream, period),
        Messages::ToOne(frames) => load_of(timing, frames.stream, period),
        Messages::ToAll(_broadcast) => 0,
    }
}

fn flow_load(bus: &PlannedBus<'_>, flow: &FlowPlan, pace: Pace, group: &GroupPlan) -> FlowLoad
    requires sender { flow.now.sender < length (units_in bus.now) }
    requires receiver { (v : ℕ) → flow.now.to ≡ One v → v < length (units_in bus.now) }
    ensures load { result ≡ on_bus flow_load bus.now flow.now pace group.now }
    ensures sound { IsSoundLoad result }
    ensures few { HaveFewFrames result.messages }
    ensures few_singles { IfSome result.singles (λ f. f.stream.frames ≤ 512) }
{
    let messages = messages_of(bus, flow, pace, group);
    FlowLoad {
        messages,
        singles: singles_of(bus, flow, pace, group),
        limit: limit(bus.timing, pace),
        bits_per_second: load_of_messages(bus.timing, &messages, pace.period),
    }
}

// What is asked of the bus by a flow for which so many requests ask.
fn load_for(timing: Timing, pace: Pace, askers: u16, load: FlowLoad) -> FlowLoad
    requires sound { IsSoundLoad load }
    requires few { HaveFewFrames load.messages }
    requires few_singles { IfSome load.singles (λ f. f.stream.frames ≤ 512) }
    ensures load { result ≡ load_for timing pace askers load }
    ensures sound { IsSoundLoad result }
{
    FlowLoad {
        messages: messages_for(timing, pace, askers, load.messages),
        singles: match load.singles {
            Some(frames) => Some(frames_for(timing, pace, askers, frames)),
            None => None,
        },
        limit: load.limit,
        bits_per_second: load.bits_per_second,
    }
}

// What a flow asks of the bus, where it is known how often it is sent.
fn load_of_flow(bus: &PlannedBus<'_>, flow: &FlowPlan) -> Option<FlowLoad>
    requires group { flow.now.group < length bus.now.plan.now.groups.items }
    requires sender { flow.now.sender < length (units_in bus.now) }
    requires receiver { (v : ℕ) → flow.now.to ≡ One v → v < length (units_in bus.now) }
    ensures load { result ≡ load_of_flow bus.now.timing bus.now.plan.now (stays_in bus.now) flow.now }
    ensures sound { IsSoundIfKnown result }
{
    match flow.pace {
        Some(pace) => {
            let group = &bus.plan.groups[flow.group];
            let askers = askers_of(bus.plan.requests.as_slice(), flow);
            let load = flow_load(bus, flow, pace, group);
            Some(load_for(bus.timing, pace, askers, load))
        }
        None => None,
    }
}

/// What each flow of a plan asks of the bus, in order. No memory is asked for where there are none.
pub(crate) fn loads_of(
    alloc: Global,
    bus: &PlannedBus<'_>,
) -> Result<Vec<Option<FlowLoad>>, AllocError>
    ensures loads { IfOk result (λ loads. loads.items ≡ loads_of bus.now.timing bus.now.plan.now (stays_in bus.now)) }
    ensures count { IfOk result (λ loads. length loads.items ≡ length bus.now.plan.now.flows.items) }
    ensures sound { IfOk result (λ loads. All IsSoundIfKnown loads.items) }
    ensures memory { OnErr result (bus.now.plan.now.flows.items ≢ []) }
{
    let mut loads = Vec::with_capacity(alloc, bus.plan.flows.len())?;
    for place in 0..bus.plan.flows.len() {
        loads.push_reserved(load_of_flow(bus, &bus.plan.flows[place]));
    }
    Ok(loads)
}
