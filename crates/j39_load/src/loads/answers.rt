//! What is asked of the bus by flows that answer requests.
ghost use Rattle.std.specs.Prelude.{◌≡◌, ◌≤◌, ◌<◌, ◌^◌, IfSome, length};
ghost use Rattle.std.specs.Option.{option_and_then};
ghost use Rattle.j39_load.specs.AnswerStreams.{answered_within as time_to_answer, answers_want, askers_of};
ghost use Rattle.j39_load.specs.AnswerStreams.{broadcast_for};
ghost use Rattle.j39_load.specs.AnswerStreams.{frames_for, late_for, messages_for, wanted_for};
ghost use Rattle.j39_load.specs.SoundLoads.{AreSound, AreSoundMessages, IsSoundBroadcast};
ghost use Rattle.j39_load.specs.inside.FewFrames.{HaveFewFrames};
ghost use Rattle.j39_network.specs.PlanLimits.{request_limit};
ghost use Rattle.j39_timing.specs.Waits.{IsStream, IsWant, of_askers};

use crate::findings::asked_every;
use crate::frames::{Broadcast, FlowFrames, Messages, bits_at_least, bits_at_most};
use j39_network::{FlowPlan, Pace, RequestPlan, Timing};
use j39_timing::{Stream, Want, WantedBy};

// In so many milliseconds a unit answers: 200 from the end of the request (SAE J1939-21), and 50 that the request has
// for its way.
const ANSWER_TIME: u16 = 250;

/// How many requests that have a period ask for the flow, where it comes only as an answer; else 0.
pub fn askers_of(requests: &[RequestPlan], flow: &FlowPlan) -> u16
    requires { length requests.now ≤ request_limit }
    ensures askers { result ≡ askers_of requests.now flow.now }
    ensures few { result ≤ request_limit }
{
    if !flow.on_request {
        return 0;
    }
    let mut askers: u16 = 0;
    for request in requests {
        if asked_every(flow, request).is_some() {
            askers += 1;
        }
    }
    askers
}

/// So many milliseconds behind its request an answer of this pace is queued at most: 250, or its jitter where that is
/// greater.
pub fn answered_within(pace: Pace) -> u16
    ensures { result ≡ time_to_answer pace }
{
    pace.jitter.max(ANSWER_TIME)
}

// What those want that ask for its messages, of so many frames: so many more than one for each period.
fn answers_want(timing: Timing, pace: Pace, frames: u16, more: u16) -> Want
    requires { frames ≤ 512 }
    ensures want { result ≡ answers_want timing pace frames more }
    ensures fits { IsWant result }
{
    Want {
        frames,
        period: bits_at_least(timing, pace.period),
        jitter: bits_at_most(timing, answered_within(pace)).saturating_sub(bits_at_most(
            timing,
            pace.jitter,
        )),
        more,
    }
}

// What is wanted of a stream for whose messages so many ask.
fn wanted_for(timing: Timing, pace: Pace, askers: u16, stream: Stream) -> Option<WantedBy>
    requires sound { IsStream stream }
    requires few { stream.frames ≤ 512 }
    ensures wanted { result ≡ wanted_for timing pace askers stream }
    ensures sound { IfSome (option_and_then of_askers result) IsWant }
{
    if askers == 0 {
        return stream.wanted;
    }
    Some(WantedBy::Askers(answers_want(timing, pace, stream.frames, askers - 1)))
}

/// The frames of a flow for which so many requests ask.
pub(crate) fn frames_for(timing: Timing, pace: Pace, askers: u16, frames: FlowFrames) -> FlowFrames
    requires sound { AreSound frames }
    requires few { frames.stream.frames ≤ 512 }
    ensures frames { result ≡ frames_for timing pace askers frames }
    ensures sound { AreSound result }
{
    let stream = frames.stream;
    FlowFrames {
        stream: Stream {
            frames: stream.frames,
            period: stream.period,
            bits: stream.bits,
            jitter: stream.jitter,
            wanted: wanted_for(timing, pace, askers, stream),
        },
        ..frames
    }
}

// How far behind its moment a message to all is wanted at most.
fn late_for(timing: Timing, pace: Pace, askers: u16) -> u32
    ensures late { result ≡ late_for timing pace askers }
    ensures few { result < 2 ^ 30 }
{
    if askers == 0 {
        bits_at_most(timing, pace.jitter)
    } else {
        bits_at_most(timing, answered_within(pace))
    }
}

// Long messages of a flow to all for which so many ask.
fn broadcast_for(timing: Timing, pace: Pace, askers: u16, broadcast: Broadcast) -> Broadcast
    requires sound { IsSoundBroadcast broadcast }
    ensures broadcast { result ≡ broadcast_for timing pace askers broadcast }
    ensures sound { IsSoundBroadcast result }
{
    Broadcast {
        late: late_for(timing, pace, askers),
        askers,
        ..broadcast
    }
}

/// The messages of a flow for which so many ask.
pub(crate) fn messages_for(timing: Timing, pace: Pace, askers: u16, messages: Messages) -> Messages
    requires sound { AreSoundMessages messages }
    requires few { HaveFewFrames messages }
    ensures messages { result ≡ messages_for timing pace askers messages }
    ensures sound { AreSoundMessages result }
{
    match messages {
        Messages::Short(frames) => Messages::Short(frames_for(timing, pace, askers, frames)),
        Messages::ToOne(frames) => Messages::ToOne(frames_for(timing, pace, askers, frames)),
        Messages::ToAll(broadcast) => {
            Messages::ToAll(broadcast_for(timing, pace, askers, broadcast))
        }
    }
}
