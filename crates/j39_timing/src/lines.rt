//! What streams queue at least in each longer time.
ghost use Rattle.std.specs.Prelude.{◌≡◌, ℕ, ◌≤◌, ◌<◌, ◌^◌, All, Some, length, map, sum_by};
ghost use Rattle.std.specs.List.{slice_get};
ghost use Rattle.j39_timing.specs.LeastShares.{IsStretchBelow, part_of};
ghost use Rattle.j39_timing.specs.Waits.{IsStream, IsWant, IsWanted, as_demand, asked_share, lesser, lesser_share};
ghost use Rattle.j39_timing.specs.Waits.{share};

use crate::stream::{Stream, WantedBy};
use crate::waiting::lesser_share;
use crate::wants::{Want, Wanted, want_line};

/// Bits that are queued at least: `known` ones, and beside these a part of the time, of 2 ^ 32.
#[derive(Clone, Copy)]
pub(crate) struct Line {
    pub known: u64,
    pub part: u64,
}

/// A line for times of at most so many bits.
#[derive(Clone, Copy)]
pub(crate) struct Stretch {
    pub line: Line,
    pub until: u128,
}

// The stream's part of the bus, of 2 ^ 32.
fn part_of(stream: Stream) -> u64
    requires positive { IsStream stream }
    ensures part { result ≡ part_of stream }
    ensures small { result ≤ 2 ^ 50 }
{
    let bits = u64::from(stream.frames) * u64::from(stream.bits);
    bits * 4_294_967_296 / u64::from(stream.period)
}

// What a stream of which this is wanted queues at least: its part of the bus, until less is wanted than its pace
// allows.
fn wanted_stretch(wanted: &Wanted, stream: Stream, step: u64, span: u32) -> Stretch
    requires positive { IsStream stream }
    requires sound { IsWanted wanted.now }
    requires span { span < 2 ^ 32 }
    ensures below { IsStretchBelow result span (λ x. lesser x stream (Some (as_demand wanted.now))) }
    ensures small { (result.line.known ≤ 2 ^ 51) × (result.line.part ≤ 2 ^ 50) }
{
    let paced = Line {
        known: 0,
        part: part_of(stream),
    };
    let asked = wanted.line(
        stream.bits,
        step,
        u64::from(span) + u64::from(stream.jitter),
    );
    if asked.part >= paced.part {
        return Stretch {
            line: paced,
            until: u128::MAX,
        };
    }
    let until = u128::from(asked.known) * 4_294_967_296 / u128::from(paced.part - asked.part);
    if u128::from(span) <= until {
        Stretch { line: paced, until }
    } else {
        Stretch {
            line: asked,
            until: u128::MAX,
        }
    }
}

// What a stream queues at least at its pace: its part of the bus.
fn paced_stretch(stream: Stream) -> Stretch
    requires positive { IsStream stream }
    ensures below { (span : ℕ) → IsStretchBelow result span (λ x. share x stream) }
    ensures small { (result.line.known ≤ 2 ^ 51) × (result.line.part ≤ 2 ^ 50) }
{
    Stretch {
        line: Line {
            known: 0,
            part: part_of(stream),
        },
        until: u128::MAX,
    }
}

// What a stream queues at least of which others want this.
fn asked_stretch(want: Want, stream: Stream, step: u64, span: u32) -> Stretch
    requires want { IsWant want }
    requires positive { IsStream stream }
    requires span { span < 2 ^ 32 }
    ensures below { IsStretchBelow result span (λ x. asked_share x stream want) }
    ensures small { (result.line.known ≤ 2 ^ 51) × (result.line.part ≤ 2 ^ 50) }
{
    let from = u64::from(span) + u64::from(stream.jitter);
    Stretch {
        line: want_line(want, stream.bits, step, from),
        until: u128::MAX,
    }
}

// What a stream queues at least of which its unit wants this at a place.
fn sender_stretch(all: &[Wanted], place: usize, stream: Stream, step: u64, span: u32) -> Stretch
    requires positive { IsStream stream }
    requires sound { All IsWanted all.now }
    requires span { span < 2 ^ 32 }
    ensures below { IsStretchBelow result span (λ x. lesser x stream (slice_get (map as_demand all.now) place)) }
    ensures small { (result.line.known ≤ 2 ^ 51) × (result.line.part ≤ 2 ^ 50) }
{
    match all.get(place) {
        Some(wanted) => wanted_stretch(wanted, stream, step, span),
        None => paced_stretch(stream),
    }
}

// What a stream queues at least in each time from `span` bits on: its part of the bus where it comes in each `step`
// bits, else what it queues in `span` bits.
fn stretch_of(all: &[Wanted], stream: Stream, step: u64, span: u32) -> Stretch
    requires positive { IsStream stream }
    requires sound { All IsWanted all.now }
    ensures below { IsStretchBelow result span (λ x. lesser_share (map as_demand all.now) x stream) }
    ensures small { (result.line.known ≤ 2 ^ 51) × (result.line.part ≤ 2 ^ 50) }
{
    if u64::from(stream.period) > step {
        return Stretch {
            line: Line {
                known: lesser_share(all, stream, span),
                part: 0,
            },
            until: u128::MAX,
        };
    }
    let Some(wanted) = stream.wanted else {
        return paced_stretch(stream);
    };
    match wanted {
        WantedBy::Sender(place) => sender_stretch(all, place, stream, step, span),
        WantedBy::Askers(want) => asked_stretch(want, stream, step, span),
    }
}

/// What all of them do.
pub(crate) fn stretch_of_all(all: &[Wanted], streams: &[Stream], step: u64, span: u32) -> Stretch
    requires positive { All IsStream streams.now }
    requires few { length streams.now ≤ 2048 }
    requires sound { All IsWanted all.now }
    ensures below { IsStretchBelow result span (λ x. sum_by (lesser_share (map as_demand all.now) x) streams.now) }
    ensures small { result.line.known ≤ 2 ^ 62 }
{
    let mut line = Line { known: 0, part: 0 };
    let mut until = u128::MAX;
    for stream in streams {
        let next = stretch_of(all, *stream, step, span);
        line = Line {
            known: line.known + next.line.known,
            part: line.part + next.line.part,
        };
        until = next.until.min(until);
    }
    Stretch { line, until }
}
