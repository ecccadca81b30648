//! The least wait of a frame.
ghost use Rattle.std.specs.Prelude.{◌≡◌, ℕ, ◌+◌, ◌*◌, ◌<◌, ◌≤◌, ◌^◌, length, map, All, sum_by, IfSome, None};
ghost use Rattle.j39_timing.specs.LeastShares.{NoneFitsFrom};
ghost use Rattle.j39_timing.specs.Waits.{IsStream, IsWant, IsWanted, as_demand, asked_share, frames_wanted, lesser};
ghost use Rattle.j39_timing.specs.Waits.{lesser_share, need, NoShorterFits, share};
ghost use Rattle.std.specs.List.{slice_get};

use crate::lines::stretch_of_all;
use crate::stream::{Stream, WantedBy};
use crate::wants::{Want, Wanted, frames_of_want};

/// The bits that a stream can queue in `span` bits at its pace.
fn queued_bits(stream: Stream, span: u32) -> u64
    requires positive { IsStream stream }
    ensures share { result ≡ share span stream }
{
    let messages = (u64::from(span) + u64::from(stream.jitter)).div_ceil(u64::from(stream.period));
    let bits = messages * u64::from(stream.bits);
    u64::from(stream.frames) * bits
}

// The bits that are wanted of it in `span` bits, where less may be.
fn wanted_bits(wanted: &Wanted, stream: Stream, span: u32) -> u64
    requires positive { IsStream stream }
    requires sound { IsWanted wanted.now }
    requires span { span < 2 ^ 32 }
    ensures { result ≡ frames_wanted (span + stream.jitter) (as_demand wanted.now) * stream.bits }
{
    wanted.frames(u64::from(span) + u64::from(stream.jitter)) * u64::from(stream.bits)
}

// The bits that it can queue in `span` bits, where its unit may want less than its pace allows: this at a place.
fn lesser_bits(all: &[Wanted], place: usize, stream: Stream, span: u32) -> u64
    requires positive { IsStream stream }
    requires sound { All IsWanted all.now }
    ensures { result ≡ lesser span stream (slice_get (map as_demand all.now) place) }
{
    let paced = queued_bits(stream, span);
    match all.get(place) {
        Some(wanted) => wanted_bits(wanted, stream, span).min(paced),
        None => paced,
    }
}

// The bits that it can queue in `span` bits, where others ask for its messages and want this.
fn asked_bits(want: Want, stream: Stream, span: u32) -> u64
    requires want { IsWant want }
    requires positive { IsStream stream }
    ensures { result ≡ asked_share span stream want }
{
    let frames = frames_of_want(want, u64::from(span) + u64::from(stream.jitter));
    frames * u64::from(stream.bits)
}

/// The bits that a stream can queue in `span` bits.
pub(crate) fn lesser_share(all: &[Wanted], stream: Stream, span: u32) -> u64
    requires positive { IsStream stream }
    requires sound { All IsWanted all.now }
    ensures { result ≡ lesser_share (map as_demand all.now) span stream }
{
    let Some(wanted) = stream.wanted else {
        return queued_bits(stream, span);
    };
    match wanted {
        WantedBy::Sender(place) => lesser_bits(all, place, stream, span),
        WantedBy::Askers(want) => asked_bits(want, stream, span),
    }
}

/// The bits that the streams can queue in `span` bits.
fn demand(all: &[Wanted], streams: &[Stream], span: u32) -> u64
    requires positive { All IsStream streams.now }
    requires few { length streams.now ≤ 2048 }
    requires sound { All IsWanted all.now }
    ensures sum { result ≡ sum_by (lesser_share (map as_demand all.now) span) streams.now }
    ensures small { result ≤ 2 ^ 63 }
{
    let mut sum: u64 = 0;
    for stream in streams {
        sum += lesser_share(all, *stream, span);
    }
    sum
}

// From a wait on no shorter one has room than the one from which the loads allow it.
fn first_allowed(all: &[Wanted], blocking: u32, streams: &[Stream], wait: u32, step: u64) -> u128
    requires positive { All IsStream streams.now }
    requires few { length streams.now ≤ 2048 }
    requires sound { All IsWanted all.now }
    requires within { wait < 2 ^ 31 }
    ensures { NoneFitsFrom (map as_demand all.now) blocking streams.now wait result }
{
    let stretch = stretch_of_all(all, streams, step, wait + 1);
    let parts = stretch.line.part;
    if parts >= 4_294_967_296 {
        return stretch.until;
    }
    let known = u64::from(blocking) + stretch.line.known;
    let bits = u128::from(known) * 4_294_967_296 + u128::from(parts);
    let allowed = bits.div_ceil(u128::from(4_294_967_296 - parts));
    allowed.min(stretch.until)
}

/// The length of the busy window of a frame up to its start: the least wait, of at most `most` bits, that has room for
/// `blocking` bits (the longest frame that may have begun before, and what else isn't a stream's) and for all that the
/// streams, which may go before the frame, can queue meanwhile, where this is wanted of some of them. A frame that is
/// queued in the very bit in which the wait ends counts. None where no such wait has room. With the bits of the frame
/// itself it is the worst-case response time (Davis and others 2007).
pub fn least_wait(wanted: &[Wanted], blocking: u32, streams: &[Stream], most: u32) -> Option<u32>
    requires positive { All IsStream streams.now }
    requires few { length streams.now ≤ 2048 }
    requires sound { All IsWanted wanted.now }
    requires within { most < 2 ^ 31 }
    ensures found { let demands = map as_demand wanted.now in
        IfSome result (λ w. (w ≤ most) × (need demands blocking streams.now w ≤ w) × NoShorterFits demands blocking streams.now w) }
    ensures none { result ≡ None → NoShorterFits (map as_demand wanted.now) blocking streams.now (most + 1) }
{
    let mut wait: u32 = 0;
    while wait <= most {
        let needed = u64::from(blocking) + demand(wanted, streams, wait + 1);
        if needed <= u64::from(wait) {
            return Some(wait);
        }
        // parts of the bus count for streams that come in eight times what this wait lacks: of others they are less
        // than is queued
        let step = (needed - u64::from(wait)).saturating_mul(8);
        let allowed = first_allowed(wanted, blocking, streams, wait, step);
        let next = u128::from(needed).max(allowed);
        if next > u128::from(most) {
            return None;
        }
        wait = next as u32;
    }
    None
}
