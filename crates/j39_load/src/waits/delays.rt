//! How long the frames of the flows of a plan wait.
ghost use Rattle.std.specs.Prelude.{◌≡◌, ◌≢◌, ◌≤◌, ◌<◌, ◌^◌, ◌+◌, ◌++◌, [], All, length, IfOk, IfNone, IfSome, OnOk};
ghost use Rattle.std.specs.Prelude.{OnErr, Some};
ghost use Rattle.std.specs.Option.{ForSome};
ghost use Rattle.j39_load.specs.AnyQueues.{IsBuffering};
ghost use Rattle.j39_load.specs.Asked.{frames_asked};
ghost use Rattle.j39_load.specs.AskedLoads.{asked_in};
ghost use Rattle.j39_load.specs.Delays.{HasDelay, IsFrameDelay, IsShortDelay, IsWaitIn, IsWaitOf, AreFlowDelays};
ghost use Rattle.j39_load.specs.Delays.{HasNoneWithin, IsDelayWithin, any_delay, blocking, frames_before, going_before};
ghost use Rattle.j39_load.specs.Delays.{blocking_of, judged, keeps_up, own_before, streams_before, whole_time};
ghost use Rattle.j39_load.specs.AnswerStreams.{are_asked_for};
ghost use Rattle.j39_load.specs.SoundLoads.{AreSound, FitIfAny, IsSoundBroadcast, IsSoundLoad};
ghost use Rattle.j39_load.specs.inside.BufferingDelays.{AreFitBufferingDelays, IsShortWait, buffering_of};
ghost use Rattle.j39_load.specs.inside.TurnTimes.{AreShortTurns, AreTurns, IsDelayBy, IsShortTurn, turn_at};
ghost use Rattle.j39_timing.specs.Waits.{IsStream};

use crate::frames::{
    Broadcast, FlowFrames, Messages, add_damage, bits_of_ms, first_of_priority, frames_to_all,
};
use crate::loads::{FlowLoad, Loads};
use crate::queues::{BufferingDelays, buffering_delays_of, keep_order};
use crate::waits::delay::Delay;
use crate::waits::turn::Turn;
use crate::waits::twins::may_precede;
use crate::waits::whole_time::WholeTime;
use j39_network::Timing;
use j39_timing::{Stream, WantedBy, frame_bits, least_wait};
use std::alloc::{AllocError, Global};

// The bits of the frame that has begun before one of this identifier, and of those of no planned flow that may go
// before it.
fn blocking(timing: Timing, ident: u64) -> u32
    ensures { result ≡ blocking timing ident }
{
    let unplanned = if ident >= first_of_priority(timing.unplanned_priority) {
        u32::from(timing.unplanned)
    } else {
        0
    };
    u32::from(frame_bits(8)) * (1 + unplanned)
}

// Whether others ask for these frames, so that several may be queued at once.
fn are_asked_for(frames: &FlowFrames) -> bool
    ensures { result ≡ are_asked_for frames.now }
{
    match frames.stream.wanted {
        Some(WantedBy::Askers(_want)) => true,
        Some(WantedBy::Sender(_place)) => false,
        None => false,
    }
}

// What is blocking these: but for the frame itself, where it is counted with its stream.
fn blocking_of(timing: Timing, frames: &FlowFrames) -> u32
    ensures { result ≡ blocking_of timing frames.now }
{
    let blocking = blocking(timing, frames.greatest_ident);
    if are_asked_for(frames) {
        blocking.saturating_sub(u32::from(frames.stream.bits))
    } else {
        blocking
    }
}

// Adds the stream of these frames, where one of them may go before one of those.
fn add_frames(
    streams: &mut Vec<Stream>,
    own: &FlowFrames,
    frames: &FlowFrames,
) -> Result<(), AllocError>
    requires frames { IsStream frames.now.stream }
    requires streams { All IsStream streams.old.items }
    ensures streams { OnOk result (streams.new.items ≡ streams.old.items ++ frames_before own.now frames.now) }
    ensures fit { OnOk result (All IsStream streams.new.items) }
    ensures few { OnOk result (length streams.new.items ≤ length streams.old.items + 1) }
{
    if may_precede(own, frames) {
        streams.push(frames.stream)?;
    }
    Ok(())
}

// Adds their own stream, where others of them may be queued at once.
fn add_own(streams: &mut Vec<Stream>, frames: &FlowFrames) -> Result<(), AllocError>
    requires frames { IsStream frames.now.stream }
    requires streams { All IsStream streams.old.items }
    ensures streams { OnOk result (streams.new.items ≡ streams.old.items ++ own_before frames.now) }
    ensures fit { OnOk result (All IsStream streams.new.items) }
    ensures few { OnOk result (length streams.new.items ≤ length streams.old.items + 1) }
{
    if are_asked_for(frames) {
        streams.push(frames.stream)?;
    }
    Ok(())
}

// Adds that of the frames at this place, by whether they are those at a place.
fn add_other(
    streams: &mut Vec<Stream>,
    i: usize,
    own: &FlowFrames,
    place: usize,
    frames: &Option<FlowFrames>,
) -> Result<(), AllocError>
    requires frames { FitIfAny frames.now }
    requires streams { All IsStream streams.old.items }
    ensures streams { OnOk result (streams.new.items ≡ streams.old.items ++ going_before i own.now place frames.now) }
    ensures fit { OnOk result (All IsStream streams.new.items) }
    ensures few { OnOk result (length streams.new.items ≤ length streams.old.items + 1) }
{
    let Some(frames) = frames else {
        return Ok(());
    };
    if place == i {
        return add_own(streams, frames);
    }
    add_frames(streams, own, frames)
}

// The streams of what comes of damage, and of all frames but those at a place of which one may go before one of these.
#[tactic(auto, unfolding(crate::specs::LineLists::lines_of_each))]
fn streams_before(
    alloc: Global,
    timing: Timing,
    all: &[Option<FlowFrames>],
    i: usize,
    own: &FlowFrames,
) -> Result<Vec<Stream>, AllocError>
    requires { All FitIfAny all.now }
    ensures streams { IfOk result (λ streams. streams.items ≡ streams_before timing i own.now all.now) }
    ensures fit { IfOk result (λ streams. All IsStream streams.items) }
    ensures few { IfOk result (λ streams. length streams.items ≤ length all.now + 2) }
{
    let mut streams = Vec::new(alloc);
    add_damage(&mut streams, timing)?;
    for (place, frames) in all.iter().enumerate() {
        add_other(&mut streams, i, own, place, frames)?;
    }
    Ok(streams)
}

// The least wait that has room for a frame of these, at their place among all, where one of at most 65,535 ms has.
fn wait_of(
    alloc: Global,
    timing: Timing,
    buffering_delays: &BufferingDelays,
    place: usize,
    frames: &FlowFrames,
) -> Result<Option<u32>, AllocError>
    requires buffering_delays { AreFitBufferingDelays buffering_delays.now }
    ensures wait { IfOk result (IsWaitOf timing (buffering_of buffering_delays.now).frames place frames.now) }
    ensures short { IfOk result (λ wait. ForSome wait (λ bits. bits < 2 ^ 27)) }
{
    let streams = streams_before(
        alloc,
        timing,
        buffering_delays.frames.as_slice(),
        place,
        frames,
    )?;
    let demands = buffering_delays.demands.as_slice();
    let blocking = blocking_of(timing, frames);
    let most = bits_of_ms(timing, 65_535);
    Ok(least_wait(demands, blocking, streams.as_slice(), most))
}

/// The wait of frames at their place. Those of a unit that keeps order wait among all at the end of their buffering
/// delays, and no wait is known where frames of which it isn't known from when on they are may go before them; those of
/// another wait for their queue group.
pub(crate) fn wait_in(
    alloc: Global,
    timing: Timing,
    buffering_delays: &BufferingDelays,
    place: usize,
    frames: &FlowFrames,
) -> Result<Option<u32>, AllocError>
    requires buffering_delays { AreFitBufferingDelays buffering_delays.now }
    ensures wait { IfOk result (IsWaitIn timing (buffering_of buffering_delays.now) place frames.now) }
    ensures short { IfOk result (λ wait. ForSome wait (λ bits. bits < 2 ^ 27)) }
{
    if !keep_order(frames) {
        return Ok(buffering_delays.wait_at(place));
    }
    if buffering_delays.may_be_passed(frames.greatest_ident) {
        return Ok(None);
    }
    wait_of(alloc, timing, buffering_delays, place, frames)
}

// The delay of frames that wait as long as these streams go before them, where it is at most so many bits.
fn delay_within(
    timing: Timing,
    buffering_delays: &BufferingDelays,
    flow: usize,
    frames: &FlowFrames,
    streams: &[Stream],
    most: u32,
) -> Option<u32>
    requires buffering_delays { AreFitBufferingDelays buffering_delays.now }
    requires frames { AreSound frames.now }
    requires streams { streams.now ≡ streams_before timing flow frames.now (buffering_of buffering_delays.now).frames }
    requires fit { All IsStream streams.now }
    requires few { length streams.now ≤ 2002 }
    requires most { most < 2 ^ 31 }
    ensures some { IfSome result (IsDelayWithin timing
        (buffering_of buffering_delays.now).frames flow frames.now most) }
    ensures none { IfNone result (HasNoneWithin timing
        (buffering_of buffering_delays.now).frames flow frames.now most) }
    ensures few { IfSome result (λ bits. bits < 2 ^ 31) }
{
    let own = frames.stream.jitter + u32::from(frames.stream.bits);
    if most < own {
        return None;
    }
    let demands = buffering_delays.demands.as_slice();
    let blocking = blocking_of(timing, frames);
    match least_wait(demands, blocking, streams, most - own) {
        Some(wait) => Some(wait + own),
        None => None,
    }
}

// That of frames that have one of so many bits, by their limit and their period.
fn judged(frames: &FlowFrames, limit: u32, bits: u32) -> Delay
    ensures { result ≡ judged frames.now limit bits }
{
    if bits <= limit {
        Delay::Within(bits)
    } else if bits <= frames.stream.period {
        Delay::Beyond(bits)
    } else {
        Delay::Late
    }
}

// That of frames that wait for so long in a unit that keeps no order.
fn any_delay(frames: &FlowFrames, limit: u32, wait: Option<u32>) -> Delay
    requires frames { AreSound frames.now }
    requires wait { IsShortWait wait }
    ensures { result ≡ any_delay frames.now limit wait }
{
    match wait {
        Some(wait) => {
            let bits = frames.stream.jitter + (wait + u32::from(frames.stream.bits));
            judged(frames, limit, bits)
        }
        None => Delay::Late,
    }
}

// The delay of a flow whose messages go in one frame each.
fn frame_delay(
    alloc: Global,
    timing: Timing,
    buffering_delays: &BufferingDelays,
    flow: usize,
    frames: &FlowFrames,
    limit: u32,
) -> Result<Delay, AllocError>
    requires buffering_delays { AreFitBufferingDelays buffering_delays.now }
    requires frames { AreSound frames.now }
    requires paced { frames.now.stream.period < 2 ^ 31 }
    requires limit { limit < 2 ^ 31 }
    ensures { IfOk result (IsFrameDelay timing (buffering_of buffering_delays.now) flow frames.now limit) }
{
    if !keep_order(frames) {
        return Ok(any_delay(frames, limit, buffering_delays.wait_at(flow)));
    }
    if buffering_delays.may_be_passed(frames.greatest_ident) {
        return Ok(Delay::Late);
    }
    let all = buffering_delays.frames.as_slice();
    let before = streams_before(alloc, timing, all, flow, frames)?;
    let streams = before.as_slice();
    let in_time = delay_within(timing, buffering_delays, flow, frames, streams, limit);
    if let Some(bits) = in_time {
        return Ok(Delay::Within(bits));
    }
    let period = frames.stream.period;
    match delay_within(timing, buffering_delays, flow, frames, streams, period) {
        Some(bits) => Ok(Delay::Beyond(bits)),
        None => Ok(Delay::Late),
    }
}

// How long the broadcasts of a unit take, one of each flow.
fn turn_at(turns: &[Option<Turn>], unit: usize) -> Option<Turn>
    requires { AreShortTurns turns.now }
    ensures turn { result ≡ turn_at turns.now unit }
    ensures short { IsShortTurn result }
{
    if unit < turns.len() {
        turns[unit]
    } else {
        None
    }
}

// Whether messages are wanted no more often than they can be sent: a turn is over within the period, and what waits is
// announced before the next one is wanted; or, where one request asks for them, a turn is over before the next one can
// be wanted. Where several do, two may be wanted at once.
fn keeps_up(broadcast: &Broadcast, turn: Turn) -> bool
    requires broadcast { IsSoundBroadcast broadcast.now }
    requires announcement { turn.announcement < 2 ^ 28 }
    requires packet { turn.packet < 2 ^ 28 }
    requires time { turn.time < 2 ^ 60 }
    ensures { result ≡ keeps_up broadcast.now turn }
{
    let apart = u64::from(broadcast.apart);
    if broadcast.askers == 0 {
        let own = turn.announcement + u64::from(broadcast.packets) * turn.packet;
        return turn.time <= apart && u64::from(broadcast.jitter) + turn.time <= apart + own;
    }
    broadcast.askers == 1 && turn.time + u64::from(broadcast.late) <= apart
}

// When the messages of these broadcasts are whole, where those of their unit take so long, one of each flow.
fn whole_time(broadcast: &Broadcast, turn: Option<Turn>) -> WholeTime
    requires broadcast { IsSoundBroadcast broadcast.now }
    requires short { IsShortTurn turn }
    ensures { result ≡ whole_time broadcast.now turn }
{
    let frames = frames_to_all(broadcast.packets);
    let limit = broadcast.deadline;
    match turn {
        Some(turn) => WholeTime {
            frames,
            bits: Some(u64::from(broadcast.jitter) + turn.time),
            limit,
            each: keeps_up(broadcast, turn),
        },
        None => WholeTime {
            frames,
            bits: None,
            limit,
            each: false,
        },
    }
}

// The delay of the flow at this place, which asks this of the bus, among all frames of the plan where they are buffered
// no longer, where the broadcasts of the units take these times.
fn delay_of(
    alloc: Global,
    timing: Timing,
    buffering_delays: &BufferingDelays,
    turns: &[Option<Turn>],
    flow: usize,
    load: &FlowLoad,
) -> Result<Delay, AllocError>
    requires buffering_delays { AreFitBufferingDelays buffering_delays.now }
    requires turns { AreShortTurns turns.now }
    requires load { IsSoundLoad load.now }
    ensures { IfOk result
        (IsDelayBy timing (buffering_of buffering_delays.now) turns.now flow load.now.messages load.now.limit) }
{
    match &load.messages {
        Messages::Short(frames) => frame_delay(
            alloc,
            timing,
            buffering_delays,
            flow,
            frames,
            load.limit,
        ),
        Messages::ToOne(frames) => Ok(Delay::Long(frames.stream.frames)),
        Messages::ToAll(broadcast) => Ok(Delay::Whole(whole_time(
            broadcast,
            turn_at(turns, broadcast.sender),
        ))),
    }
}

impl Loads {
    // The delay of the flow at this place among all frames at the end of their buffering delays, where the broadcasts
    // of the units take these times, and none where it isn't known how often it is sent.
    fn delay(
        &self,
        alloc: Global,
        buffering_delays: &BufferingDelays,
        turns: &[Option<Turn>],
        flow: usize,
    ) -> Result<Option<Delay>, AllocError>
        requires place { flow < length self.now.flows.items }
        requires buffering_delays { AreFitBufferingDelays buffering_delays.now }
        requires is { IsBuffering self.now.timing self.now.unplanned_end (frames_asked (asked_in self.now))
            (buffering_of buffering_delays.now) }
        requires turns { AreTurns self.now.timing (asked_in self.now) (buffering_of buffering_delays.now) turns.now }
        requires short { AreShortTurns turns.now }
        ensures { IfOk result (HasDelay self.now.timing (asked_in self.now) flow) }
    {
        match &self.flows[flow] {
            Some(load) => Ok(Some(delay_of(
                alloc,
                self.timing,
                buffering_delays,
                turns,
                flow,
                load,
            )?)),
            None => Ok(None),
        }
    }

    /// The delay of each flow, in order, and none where it isn't known how often it is sent. No memory is asked for
    /// where there are no flows.
    pub fn delays(&self, alloc: Global) -> Result<Vec<Option<Delay>>, AllocError>
        ensures delays { IfOk result (λ delays. AreFlowDelays self.now.timing (asked_in self.now) delays.items) }
        ensures memory { OnErr result (self.now.flows.items ≢ []) }
    {
        if self.flows.is_empty() {
            return Ok(Vec::new(alloc));
        }
        let all = self.all_frames(alloc)?;
        let buffering_delays = buffering_delays_of(
            alloc,
            self.timing,
            self.unplanned_end,
            all.as_slice(),
        )?;
        let turns = self.turns(alloc, &buffering_delays)?;
        let mut delays = Vec::with_capacity(alloc, self.flows.len())?;
        for flow in 0..self.flows.len() {
            delays.push_reserved(self.delay(alloc, &buffering_delays, turns.as_slice(), flow)?);
        }
        Ok(delays)
    }
}
