//! Until when frames are buffered.
ghost use Rattle.std.specs.Prelude.{◌≡◌, ◌≤◌, ◌<◌, ◌^◌, ◌∷◌, [], All, length, map, IfOk, None, slice_index_or};
ghost use Rattle.j39_load.specs.Ages.{least};
ghost use Rattle.j39_load.specs.AnyQueues.{IsBufferedFor, IsBuffering, AreBufferingDelays, later_frames, leasts_of};
ghost use Rattle.j39_load.specs.AnyQueues.{may_be_passed};
ghost use Rattle.j39_load.specs.AnyQueues.{buffered_for, buffered, buffered_at, least_unbounded, unbounded_at};
ghost use Rattle.j39_load.specs.Demands.{demands_of};
ghost use Rattle.j39_load.specs.SoundLoads.{AreSound, AreSoundIfAny, FitIfAny};
ghost use Rattle.j39_load.specs.inside.BufferingDelays.{AreFitBufferingDelays, IsShortWait, buffering_of};
ghost use Rattle.j39_timing.specs.Waits.{IsStream, IsWanted, as_demand};

use crate::findings::smaller;
use crate::frames::FlowFrames;
use crate::queues::queue_groups::{keep_order, leasts_of, queue_group_wait};
use crate::waits::demands_of;
use j39_network::Timing;
use j39_timing::{Stream, Wanted};
use std::alloc::{AllocError, Global};

/// All frames of a plan at the end of their buffering delays: frames of a unit that keeps no order as many bits later
/// as they wait there at most.
#[derive(Drop)]
pub(crate) struct BufferingDelays {
    /// The frames, at their places.
    pub frames: Vec<Option<FlowFrames>>,
    /// How many bits later they are, where that is known.
    pub waits: Vec<Option<u32>>,
    /// The least identifier of those of which it isn't.
    pub least_unbounded: Option<u64>,
    /// What is wanted of the broadcasts of units.
    pub demands: Vec<Wanted>,
}

impl BufferingDelays {
    /// For how many bits the frames at a place are buffered, where that is known.
    pub fn wait_at(&self, place: usize) -> Option<u32>
        requires { AreFitBufferingDelays self.now }
        ensures wait { result ≡ slice_index_or (buffering_of self.now).waits place None }
        ensures short { IsShortWait result }
    {
        if place < self.waits.len() {
            self.waits[place]
        } else {
            None
        }
    }

    /// Whether one of those of which no wait is known may go before a frame of this identifier.
    pub fn may_be_passed(&self, ident: u64) -> bool
        ensures { result ≡ may_be_passed (buffering_of self.now) ident }
    {
        match self.least_unbounded {
            Some(least) => least < ident,
            None => false,
        }
    }
}

// For how many bits these frames are buffered at most, among all.
fn buffering_delay(
    alloc: Global,
    timing: Timing,
    ends: u64,
    leasts: &[Option<u64>],
    demands: &[Wanted],
    all: &[Option<FlowFrames>],
    frames: &Option<FlowFrames>,
) -> Result<Option<u32>, AllocError>
    requires demands { map as_demand demands.now ≡ demands_of all.now }
    requires sound { All IsWanted demands.now }
    requires leasts { leasts.now ≡ leasts_of all.now }
    requires fit { All AreSoundIfAny all.now }
    requires few { length all.now ≤ 2000 }
    requires frames { AreSoundIfAny frames.now }
    ensures bounded { IfOk result (IsBufferedFor timing ends all.now frames.now) }
    ensures short { IfOk result IsShortWait }
{
    match frames {
        Some(frames) if !keep_order(frames) => {
            queue_group_wait(alloc, timing, ends, leasts, demands, all, frames)
        }
        _ => Ok(Some(0)),
    }
}

// The waits of all frames in their queues, at their places.
fn waits_of(
    alloc: Global,
    timing: Timing,
    ends: u64,
    demands: &[Wanted],
    all: &[Option<FlowFrames>],
) -> Result<Vec<Option<u32>>, AllocError>
    requires demands { map as_demand demands.now ≡ demands_of all.now }
    requires sound { All IsWanted demands.now }
    requires fit { All AreSoundIfAny all.now }
    requires few { length all.now ≤ 2000 }
    ensures bounded { IfOk result (λ waits. AreBufferingDelays timing ends all.now waits.items) }
    ensures short { IfOk result (λ waits. All IsShortWait waits.items) }
{
    let leasts = leasts_of(alloc, all)?;
    let mut waits = Vec::new(alloc);
    for frames in all {
        let wait = buffering_delay(alloc, timing, ends, leasts.as_slice(), demands, all, frames)?;
        waits.push(wait)?;
    }
    Ok(waits)
}

// The wait at a place, where it is known.
fn buffered_for(waits: &[Option<u32>], place: usize) -> u32
    requires place { place < length waits.now }
    requires short { All IsShortWait waits.now }
    ensures bounded { result ≡ buffered_for waits.now place }
    ensures short { result < 2 ^ 27 }
{
    match waits[place] {
        Some(wait) => wait,
        None => 0,
    }
}

// The frames of a flow, released so many bits later.
fn later_frames(frames: &FlowFrames, more: u32) -> FlowFrames
    requires frames { AreSound frames.now }
    requires more { more < 2 ^ 27 }
    ensures frames { result ≡ later_frames more frames.now }
    ensures fit { IsStream result.stream }
{
    let stream = frames.stream;
    FlowFrames {
        stream: Stream {
            frames: stream.frames,
            period: stream.period,
            bits: stream.bits,
            jitter: stream.jitter + more,
            wanted: stream.wanted,
        },
        ..*frames
    }
}

fn buffered_at(
    waits: &[Option<u32>],
    place: usize,
    frames: &Option<FlowFrames>,
) -> Option<FlowFrames>
    requires place { place < length waits.now }
    requires short { All IsShortWait waits.now }
    requires frames { AreSoundIfAny frames.now }
    ensures frames { result ∷ [] ≡ buffered_at waits.now place frames.now }
    ensures fit { FitIfAny result }
{
    match frames {
        Some(frames) => Some(later_frames(frames, buffered_for(waits, place))),
        None => None,
    }
}

// All frames, queued at the end of their buffering delays.
#[tactic(auto, unfolding(crate::specs::LineLists::lines_of_each))]
fn buffered(
    alloc: Global,
    waits: &[Option<u32>],
    all: &[Option<FlowFrames>],
) -> Result<Vec<Option<FlowFrames>>, AllocError>
    requires count { length waits.now ≡ length all.now }
    requires short { All IsShortWait waits.now }
    requires frames { All AreSoundIfAny all.now }
    ensures frames { IfOk result (λ frames. frames.items ≡ buffered waits.now all.now) }
    ensures fit { IfOk result (λ frames. All FitIfAny frames.items) }
    ensures count { IfOk result (λ frames. length frames.items ≡ length all.now) }
{
    let mut later = Vec::new(alloc);
    for (place, frames) in all.iter().enumerate() {
        later.push(buffered_at(waits, place, frames))?;
    }
    Ok(later)
}

// The identifier of these frames, where no wait is known of them.
fn unbounded_at(waits: &[Option<u32>], place: usize, frames: &Option<FlowFrames>) -> Option<u64>
    requires place { place < length waits.now }
    ensures { result ≡ least (unbounded_at waits.now place frames.now) }
{
    match (frames, waits[place]) {
        (Some(frames), None) => Some(frames.least_ident),
        _ => None,
    }
}

// The least identifier of frames of which no wait is known.
#[tactic(auto, unfolding(crate::specs::LineLists::lines_of_each))]
fn least_unbounded(waits: &[Option<u32>], all: &[Option<FlowFrames>]) -> Option<u64>
    requires { length waits.now ≡ length all.now }
    ensures { result ≡ least_unbounded waits.now all.now }
{
    let mut least = None;
    for (place, frames) in all.iter().enumerate() {
        least = smaller(least, unbounded_at(waits, place, frames));
    }
    least
}

/// All these frames at the end of their buffering delays.
pub(crate) fn buffering_delays_of(
    alloc: Global,
    timing: Timing,
    ends: u64,
    all: &[Option<FlowFrames>],
) -> Result<BufferingDelays, AllocError>
    requires fit { All AreSoundIfAny all.now }
    requires few { length all.now ≤ 2000 }
    ensures buffering { IfOk result (λ buffering_delays. IsBuffering timing ends all.now
        (buffering_of buffering_delays)) }
    ensures fit { IfOk result AreFitBufferingDelays }
{
    let demands = demands_of(alloc, all)?;
    let waits = waits_of(alloc, timing, ends, demands.as_slice(), all)?;
    let frames = buffered(alloc, waits.as_slice(), all)?;
    let least = least_unbounded(waits.as_slice(), all);
    Ok(BufferingDelays {
        frames,
        waits,
        least_unbounded: least,
        demands,
    })
}
