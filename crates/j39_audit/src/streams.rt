//! Streams: messages that come a step apart at least.
ghost use Rattle.std.specs.Prelude.{◌≡◌, ◌+◌, ◌≤◌, ◌<◌, ◌*◌, ◌^◌, IfSome, Some, None};
ghost use Rattle.std.specs.Option.{option_and_then, option_copied, option_map};
ghost use Rattle.j39_id.specs.Ident.{pgn_of};
ghost use Rattle.j39_audit.specs.Looking.{is_single as is_single_number};
ghost use Rattle.j39_audit.specs.MessageStreams.{flow_stream, is_in_stream, queued_within_ms, paced_request};
ghost use Rattle.j39_audit.specs.MessageStreams.{paced_stream, asked_stream};
ghost use Rattle.j39_audit.specs.UnitTimes.{longest_us, shortest_us};
ghost use Rattle.j39_audit.specs.MessageStreams.{flow_pause, flow_pause_of, is_claiming_there, stream_pause};
ghost use Rattle.j39_audit.specs.MessageStreams.{sent_within, shows_silence, sighted_stream, slack_by};
ghost use Rattle.j39_audit.specs.inside.Recalling.{settings_of};

use crate::basis::Basis;
use crate::by_load::Bound;
use crate::frame_marks::{is_claiming, is_single};
use crate::mark::{Mark, Word, make_mark};
use crate::tally::Sighting;
use j39_id::Frame;
use j39_network::{FlowPlan, GroupPlan, Pace, Timing, To};

// The most bytes of a frame.
const FRAME_BYTES: u16 = 8;

// Requests have this priority.
const REQUEST_PRIORITY: u8 = 6;

const MILLION: u64 = 1_000_000;

/// How near the moments of a stream's messages come, how far behind its moment lies what bounds one, where that is
/// known, how long behind one another's moments they come at most, where that is seen, all in microseconds, and by
/// which mark it is reported.
#[derive(Clone, Copy)]
pub struct MessageStream {
    pub mark: Mark,
    pub step: u64,
    pub slack: Option<u64>,
    pub pause: Option<u64>,
}

/// By what time behind a message's moment the next one of a flow has its own, and how far behind its moment lies what
/// bounds one, in microseconds.
#[derive(Clone, Copy)]
pub struct FlowPause {
    pub pause: u64,
    pub slack: Option<u64>,
}

/// How many microseconds of the logger's clock so many milliseconds of a unit's last at least.
pub(crate) fn shortest_us(timing: Timing, ms: u16) -> u64
    ensures value { result ≡ shortest_us timing ms }
    ensures few { result < 2 ^ 27 }
{
    999 * u64::from(ms) * (MILLION - u64::from(timing.drift)) / MILLION
}

/// And at most.
pub(crate) fn longest_us(timing: Timing, ms: u32) -> u64
    requires { ms < 2 ^ 17 }
    ensures value { result ≡ longest_us timing ms }
    ensures few { result < 2 ^ 40 }
{
    (1_001 * u64::from(ms) * (MILLION + u64::from(timing.drift))).div_ceil(MILLION)
}

// Within how many milliseconds of its moment a message is queued, or announced.
fn queued_within_ms(pace: Pace, time: u16, single: bool) -> u32
    ensures value { result ≡ queued_within_ms pace time single }
    ensures few { result < 2 ^ 17 }
{
    if single {
        u32::from(time)
    } else {
        u32::from(pace.period) + u32::from(time)
    }
}

// How far behind its moment lies what bounds a message, of a flow of this response time, queued within this time.
fn slack_by(bound: Bound, response: Option<u64>, queued: u64) -> Option<u64>
    ensures { result ≡ slack_by bound response queued }
{
    match bound {
        Bound::Bus => Some(queued),
        Bound::Load => response,
    }
}

// The response time of a flow of this pace whose messages are queued within so many milliseconds.
fn sent_within(
    basis: &Basis<'_>,
    timing: Timing,
    place: usize,
    pace: Pace,
    time: u16,
) -> Option<u64>
    ensures { result ≡ sent_within (settings_of basis.now) timing place pace time }
{
    match basis.response(place) {
        Some(response) => {
            let later = longest_us(timing, u32::from(time.saturating_sub(pace.jitter)));
            Some(response + later)
        }
        None => None,
    }
}

// Whether a single frame, or an announcement, is a message of the stream of a flow of this group.
fn is_in_stream(group: &GroupPlan, single: bool) -> bool
    ensures { result ≡ is_in_stream group.now single }
{
    if single {
        group.most <= FRAME_BYTES
    } else {
        group.most > FRAME_BYTES
    }
}

// Whether the one receiver, where there is one, claims.
fn is_claiming_there(basis: &Basis<'_>, to: To) -> bool
    ensures { result ≡ is_claiming_there (settings_of basis.now) to }
{
    match to {
        To::All => true,
        To::One(receiver) => is_claiming(basis, receiver),
    }
}

// Whether the silence of a flow of this group is seen.
fn shows_silence(basis: &Basis<'_>, flow: &FlowPlan, group: &GroupPlan) -> bool
    ensures { result ≡ shows_silence (settings_of basis.now) flow.now group.now }
{
    !basis.part
        && !flow.on_request
        && group.most <= FRAME_BYTES
        && is_claiming(basis, flow.sender)
        && is_claiming_there(basis, flow.to)
}

// The pause of a flow of this group and pace.
fn flow_pause_of(
    basis: &Basis<'_>,
    timing: Timing,
    place: usize,
    flow: &FlowPlan,
    group: &GroupPlan,
    pace: Pace,
    pause: u16,
) -> Option<FlowPause>
    ensures value { result ≡ flow_pause_of (settings_of basis.now) timing place flow.now group.now pace pause }
    ensures few { IfSome result (λ it. it.pause < 2 ^ 40) }
{
    if !shows_silence(basis, flow, group) {
        return None;
    }
    let jitter = longest_us(timing, u32::from(pace.jitter));
    Some(FlowPause {
        pause: longest_us(timing, u32::from(pause)),
        slack: slack_by(basis.bound, basis.response(place), jitter),
    })
}

/// The pause of the flow at a place, where its silence is seen.
#[tactic(auto, unfolding(crate::specs::MessageStreams::flow_pause))]
pub(crate) fn flow_pause(basis: &Basis<'_>, timing: Timing, place: usize) -> Option<FlowPause>
    ensures value { result ≡ flow_pause (settings_of basis.now) timing place }
    ensures few { IfSome result (λ it. it.pause < 2 ^ 40) }
{
    let flow = basis.plan.flows.get(place)?;
    let pause = flow.pause?;
    let pace = flow.pace?;
    let group = basis.plan.groups.get(flow.group)?;
    flow_pause_of(basis, timing, place, flow, group, pace, pause)
}

// Only how long it is.
#[tactic(auto, unfolding(crate::specs::MessageStreams::stream_pause))]
fn stream_pause(basis: &Basis<'_>, timing: Timing, place: usize) -> Option<u64>
    ensures value { result ≡ stream_pause (settings_of basis.now) timing place }
    ensures few { IfSome result (λ pause. pause < 2 ^ 40) }
{
    match flow_pause(basis, timing, place) {
        Some(it) => Some(it.pause),
        None => None,
    }
}

// The stream of a flow of this pace, whose messages are queued within this time.
fn paced_stream(
    basis: &Basis<'_>,
    timing: Timing,
    frame: &Frame,
    place: usize,
    group: &GroupPlan,
    pace: Pace,
    time: u16,
    pause: Option<u64>,
) -> Option<MessageStream>
    requires { IfSome pause (λ it. it < 2 ^ 40) }
    ensures value { result ≡ paced_stream (settings_of basis.now) timing frame.now place group.now pace time pause }
    ensures pause { IfSome result (λ stream. IfSome stream.pause (λ it. it < 2 ^ 40)) }
    ensures place { IfSome result (λ stream. stream.mark.subject ≡ place) }
    ensures few { IfSome result (λ stream. stream.step < 2 ^ 27) }
{
    let single = is_single(frame);
    if !is_in_stream(group, single) {
        return None;
    }
    let queued = longest_us(timing, queued_within_ms(pace, time, single));
    let sent = sent_within(basis, timing, place, pace, time);
    Some(MessageStream {
        mark: make_mark(Word::NearFlow, place),
        step: shortest_us(timing, pace.period),
        slack: slack_by(basis.bound, sent, queued),
        pause,
    })
}

// The stream of a flow with a period.
#[tactic(auto, unfolding(crate::specs::MessageStreams::flow_stream))]
fn flow_stream(
    basis: &Basis<'_>,
    timing: Timing,
    frame: &Frame,
    place: usize,
) -> Option<MessageStream>
    ensures value { result ≡ flow_stream (settings_of basis.now) timing frame.now place }
    ensures pause { IfSome result (λ stream. IfSome stream.pause (λ it. it < 2 ^ 40)) }
    ensures place { IfSome result (λ stream. stream.mark.subject < 512) }
    ensures few { IfSome result (λ stream. stream.step < 2 ^ 27) }
{
    let flow = basis.plan.flows.get(place)?;
    let pace = flow.pace?;
    let group = basis.plan.groups.get(flow.group)?;
    let time = basis.queueing_of(place)?;
    let pause = stream_pause(basis, timing, place);
    paced_stream(basis, timing, frame, place, group, pace, time, pause)
}

// The stream of a request with this period.
fn paced_request(
    basis: &Basis<'_>,
    timing: Timing,
    frame: &Frame,
    place: usize,
    period: u16,
) -> Option<MessageStream>
    ensures value { result ≡ paced_request (settings_of basis.now) timing frame.now place period }
    ensures pause { IfSome result (λ stream. stream.pause ≡ None) }
    ensures place { IfSome result (λ stream. stream.mark.subject ≡ place) }
    ensures few { IfSome result (λ stream. stream.step < 2 ^ 27) }
{
    if frame.ident.priority != REQUEST_PRIORITY {
        return None;
    }
    Some(MessageStream {
        mark: make_mark(Word::NearRequest, place),
        step: shortest_us(timing, period),
        slack: slack_by(basis.bound, None, 0),
        pause: None,
    })
}

// The stream of a request with a period.
#[tactic(auto, unfolding(crate::specs::MessageStreams::asked_stream))]
fn asked_stream(
    basis: &Basis<'_>,
    timing: Timing,
    frame: &Frame,
    place: usize,
) -> Option<MessageStream>
    ensures value { result ≡ asked_stream (settings_of basis.now) timing frame.now place }
    ensures pause { IfSome result (λ stream. stream.pause ≡ None) }
    ensures place { IfSome result (λ stream. stream.mark.subject < 512) }
    ensures few { IfSome result (λ stream. stream.step < 2 ^ 27) }
{
    let request = basis.plan.requests.get(place)?;
    let period = request.period?;
    paced_request(basis, timing, frame, place, period)
}

/// The stream of which a frame is a message that is seen so.
pub(crate) fn sighted_stream(
    basis: &Basis<'_>,
    timing: Timing,
    frame: &Frame,
    sighting: Sighting,
) -> Option<MessageStream>
    ensures value { result ≡ sighted_stream (settings_of basis.now) timing frame.now sighting.flow sighting.request }
    ensures pause { IfSome result (λ stream. IfSome stream.pause (λ it. it < 2 ^ 40)) }
    ensures place { IfSome result (λ stream. stream.mark.subject < 512) }
    ensures few { IfSome result (λ stream. stream.step < 2 ^ 27) }
{
    if let Some(place) = sighting.flow {
        return flow_stream(basis, timing, frame, place);
    }
    match sighting.request {
        Some(place) => asked_stream(basis, timing, frame, place),
        None => None,
    }
}
