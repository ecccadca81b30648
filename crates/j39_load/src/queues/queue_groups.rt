//! Which frames may go before one of a unit whose controller keeps no order, and how long these wait.
ghost use Rattle.std.specs.Prelude.{◌≡◌, ◌≤◌, ◌<◌, ◌^◌, ◌+◌, ◌++◌, ◌==◌, ℕ, false, All, IfOk, IfSome, IfNone, OnOk};
ghost use Rattle.std.specs.Prelude.{length, map, [], ◌∷◌};
ghost use Rattle.std.specs.List.{cons_option};
ghost use Rattle.std.specs.Option.{ForSome, option_map_or};
ghost use Rattle.j39_load.specs.Ages.{least};
ghost use Rattle.j39_load.specs.AnyQueues.{AreAtMost, IsQueueGroupLevel, IsQueueGroupWait, are_of_unit, is_member};
ghost use Rattle.j39_load.specs.AnyQueues.{is_of_queue_group, keep_order, least_of, leasts_of, own_least, stream_with};
ghost use Rattle.j39_load.specs.AnyQueues.{streams_with};
ghost use Rattle.j39_load.specs.AnyQueues.{with_unplanned};
ghost use Rattle.j39_load.specs.Demands.{demands_of};
ghost use Rattle.j39_load.specs.SoundLoads.{AreSoundIfAny};
ghost use Rattle.j39_timing.specs.Waits.{IsStream, IsWanted, as_demand};

use crate::findings::smaller;
use crate::frames::{FlowFrames, add_damage, bits_of_ms};
use j39_id::limits::UNIT_LIMIT;
use j39_network::Timing;
use j39_timing::{Stream, Wanted, frame_bits, least_wait};
use std::alloc::{AllocError, Global};

// The place is that of the unit, where there is one.
fn is_place(place: Option<usize>, unit: usize) -> bool
    ensures { result ≡ option_map_or (λ v. v == unit) place false }
{
    match place {
        Some(place) => place == unit,
        None => false,
    }
}

// The unit at a place keeps no order, and sends these frames or answers them.
fn are_of_unit(frames: &FlowFrames, unit: usize) -> bool
    ensures { result ≡ are_of_unit frames.now unit }
{
    is_place(frames.any_sender, unit) || is_place(frames.any_receiver, unit)
}

/// Whether every unit that sends these frames or answers them keeps order.
pub(crate) fn keep_order(frames: &FlowFrames) -> bool
    ensures { result ≡ keep_order frames.now }
{
    !(frames.any_sender.is_some() || frames.any_receiver.is_some())
}

// The least identifier of these frames, where they are of the unit at a place.
fn own_least(unit: usize, frames: &Option<FlowFrames>) -> Option<u64>
    ensures { (place : ℕ) → result ≡ least (own_least unit place frames.now) }
{
    match frames {
        Some(frames) if are_of_unit(frames, unit) => Some(frames.least_ident),
        _ => None,
    }
}

// The least identifier of all frames of the unit at a place, where it keeps no order and has some.
#[tactic(auto, unfolding(crate::specs::LineLists::lines_of_each))]
fn least_of(all: &[Option<FlowFrames>], unit: usize) -> Option<u64>
    ensures { result ≡ least_of all.now unit }
{
    let mut least = None;
    for frames in all {
        least = smaller(least, own_least(unit, frames));
    }
    least
}

/// For each unit the least identifier of all its frames, where it keeps no order and has some.
pub(crate) fn leasts_of(
    alloc: Global,
    all: &[Option<FlowFrames>],
) -> Result<Vec<Option<u64>>, AllocError>
    ensures { IfOk result (λ leasts. leasts.items ≡ leasts_of all.now) }
{
    let mut leasts = Vec::new(alloc);
    for unit in 0..UNIT_LIMIT {
        leasts.push(least_of(all, unit))?;
    }
    Ok(leasts)
}

// The unit belongs to the queue group of some frames, with identifiers up to a level.
fn is_member(leasts: &[Option<u64>], own: &FlowFrames, level: u64, unit: usize) -> bool
    ensures { result ≡ is_member leasts.now own.now level unit }
{
    if unit >= leasts.len() {
        return false;
    }
    match leasts[unit] {
        Some(least) => are_of_unit(own, unit) || least < level,
        None => false,
    }
}

// Whether the unit at a place is a member of the group; where there is no place, nobody is.
fn is_member_at(leasts: &[Option<u64>], own: &FlowFrames, level: u64, place: Option<usize>) -> bool
    ensures { result ≡ option_map_or (is_member leasts.now own.now level) place false }
{
    match place {
        Some(unit) => is_member(leasts, own, level, unit),
        None => false,
    }
}

// These frames are of a unit of the queue group.
fn is_of_queue_group(
    leasts: &[Option<u64>],
    own: &FlowFrames,
    level: u64,
    frames: &FlowFrames,
) -> bool
    ensures { result ≡ is_of_queue_group leasts.now own.now level frames.now }
{
    is_member_at(leasts, own, level, frames.any_sender)
        || is_member_at(leasts, own, level, frames.any_receiver)
}

// The greatest identifier of these frames, where they are of the queue group and have one above this.
fn raised(
    leasts: &[Option<u64>],
    own: &FlowFrames,
    level: u64,
    most: u64,
    frames: &Option<FlowFrames>,
) -> u64
    ensures above { most ≤ result }
    ensures at_most { AreAtMost leasts.now own.now level result frames.now }
    ensures least { (other : ℕ) → most ≤ other → AreAtMost leasts.now own.now level other frames.now → result ≤ other }
{
    let Some(frames) = frames else {
        return most;
    };
    if is_of_queue_group(leasts, own, level, frames) && frames.last_ident > most {
        frames.last_ident
    } else {
        most
    }
}

// The level up to which the queue group with identifiers up to a level reaches.
fn next_level(
    leasts: &[Option<u64>],
    all: &[Option<FlowFrames>],
    own: &FlowFrames,
    level: u64,
) -> u64
    ensures above { level ≤ result }
    ensures at_most { All (AreAtMost leasts.now own.now level result) all.now }
    ensures least { (other : ℕ) → level ≤ other → All (AreAtMost leasts.now own.now level other) all.now
        → result ≤ other }
{
    let mut most = level;
    for sent in all {
        most = raised(leasts, own, level, most, sent);
    }
    most
}

// The level of the queue group of some frames among all.
fn queue_group_level(leasts: &[Option<u64>], all: &[Option<FlowFrames>], own: &FlowFrames) -> u64
    ensures level { IsQueueGroupLevel leasts.now all.now own.now result }
{
    let mut level = own.last_ident;
    let mut next = next_level(leasts, all, own, level);
    while level < next {
        level = next;
        next = next_level(leasts, all, own, level);
    }
    level
}

// Frames of a unit in which one may wait that isn't planned, with an identifier below this end, where there are such
// frames.
fn with_unplanned(timing: Timing, ends: u64, own: &FlowFrames) -> FlowFrames
    ensures { result ≡ with_unplanned timing ends own.now }
{
    let last_ident = if timing.unplanned == 0 {
        own.last_ident
    } else {
        own.last_ident.max(ends)
    };
    FlowFrames { last_ident, ..*own }
}

// Adds the stream of these frames, where they are of the queue group, or one of them may have a smaller identifier than
// its level.
fn add_with(
    streams: &mut Vec<Stream>,
    leasts: &[Option<u64>],
    own: &FlowFrames,
    level: u64,
    frames: &Option<FlowFrames>,
) -> Result<(), AllocError>
    requires frames { AreSoundIfAny frames.now }
    requires streams { All IsStream streams.old.items }
    ensures streams { OnOk result (streams.new.items
        ≡ streams.old.items ++ cons_option (stream_with leasts.now own.now level frames.now) []) }
    ensures fit { OnOk result (All IsStream streams.new.items) }
    ensures few { OnOk result (length streams.new.items ≤ length streams.old.items + 1) }
{
    let Some(frames) = frames else {
        return Ok(());
    };
    if is_of_queue_group(leasts, own, level, frames) || frames.least_ident < level {
        streams.push(frames.stream)?;
    }
    Ok(())
}

// The streams of what comes of damage, and of all frames that may go before those of the queue group, with these.
fn streams_with(
    alloc: Global,
    timing: Timing,
    leasts: &[Option<u64>],
    all: &[Option<FlowFrames>],
    own: &FlowFrames,
    level: u64,
) -> Result<Vec<Stream>, AllocError>
    requires { All AreSoundIfAny all.now }
    ensures streams { IfOk result (λ streams. streams.items ≡ streams_with timing leasts.now all.now own.now level) }
    ensures fit { IfOk result (λ streams. All IsStream streams.items) }
    ensures few { IfOk result (λ streams. length streams.items ≤ length all.now + 2) }
{
    let mut streams = Vec::new(alloc);
    add_damage(&mut streams, timing)?;
    for sent in all {
        add_with(&mut streams, leasts, own, level, sent)?;
    }
    Ok(streams)
}

/// The least wait of at most 65,535 ms that has room for a frame of these, among all, in a unit that keeps no order.
pub(crate) fn queue_group_wait(
    alloc: Global,
    timing: Timing,
    ends: u64,
    leasts: &[Option<u64>],
    demands: &[Wanted],
    all: &[Option<FlowFrames>],
    own: &FlowFrames,
) -> Result<Option<u32>, AllocError>
    requires fit { All AreSoundIfAny all.now }
    requires few { length all.now ≤ 2000 }
    requires demands { map as_demand demands.now ≡ demands_of all.now }
    requires sound { All IsWanted demands.now }
    requires bits { own.now.stream.bits ≤ 160 }
    ensures wait { IfOk result (IsQueueGroupWait timing ends leasts.now all.now own.now) }
    ensures short { IfOk result (λ wait. ForSome wait (λ bits. bits < 2 ^ 27)) }
{
    let with = with_unplanned(timing, ends, own);
    let level = queue_group_level(leasts, all, &with);
    let streams = streams_with(alloc, timing, leasts, all, &with, level)?;
    let most = bits_of_ms(timing, 65_535);
    let longest = u32::from(frame_bits(8)) * (1 + u32::from(timing.unplanned));
    Ok(least_wait(
        demands,
        longest - u32::from(own.stream.bits),
        streams.as_slice(),
        most,
    ))
}
