//! The frames of a flow.
ghost use Rattle.std.specs.Prelude.{◌≡◌, ◌<◌, ◌≤◌, ◌*◌, ◌^◌, length};
ghost use Rattle.j39_load.specs.Broadcasts.{bits_each, spaced_stream};
ghost use Rattle.j39_load.specs.Clocks.{bit_time, longest_million, shortest_million};
ghost use Rattle.j39_load.specs.RequestLoads.{request_stream};
ghost use Rattle.j39_load.specs.Loads.{bits_a_second, bits_at_least, bits_at_most, bits_inside, bits_of_ms};
ghost use Rattle.j39_load.specs.Loads.{bits_of_second};
ghost use Rattle.j39_load.specs.Loads.{bits_per_ms, frames_to_all, frames_to_one, load_of, us_of_bits, us_of_unit_ms};
ghost use Rattle.j39_load.specs.Loads.{most_bytes, packet_stream, single_stream};
ghost use Rattle.j39_load.specs.inside.PlannedBuses.{units_in};
ghost use Rattle.j39_timing.specs.Waits.{IsStream};

use crate::frames::planned_bus::PlannedBus;
use j39_id::limits::FRAME_BYTES;
use j39_network::{Bitrate, GroupPlan, Pace, Timing};
use j39_timing::{Stream, WantedBy, frame_bits};

// How many bits the bus carries in a millisecond.
fn bits_per_ms(bitrate: Bitrate) -> u16
    ensures bits { result ≡ bits_per_ms bitrate }
    ensures range { (125 ≤ result) × (result ≤ 1000) }
{
    match bitrate {
        Bitrate::Kbit125 => 125,
        Bitrate::Kbit250 => 250,
        Bitrate::Kbit500 => 500,
        Bitrate::Mbit1 => 1_000,
    }
}

/// How many bits a bus carries in a second.
pub fn bits_of_second(bitrate: Bitrate) -> u32
    ensures { result ≡ bits_of_second bitrate }
{
    1_000 * u32::from(bits_per_ms(bitrate))
}

/// How many bits the bus carries in so many milliseconds of its own clock.
pub fn bits_of_ms(timing: Timing, ms: u16) -> u32
    ensures bits { result ≡ bits_of_ms timing ms }
    ensures few { result ≤ 1000 * ms }
    ensures some { 1 ≤ ms → 1 ≤ result }
{
    u32::from(ms) * u32::from(bits_per_ms(timing.bitrate))
}

const MILLION: u32 = 1_000_000;

/// How long a million of a clock's units last at most.
pub(crate) fn longest_million(timing: Timing) -> u32
    ensures { result ≡ longest_million timing }
{
    MILLION + u32::from(timing.drift)
}

/// How long a million of a clock's units last at least.
fn shortest_million(timing: Timing) -> u32
    ensures { result ≡ shortest_million timing }
{
    MILLION - u32::from(timing.drift)
}

/// How many bits of the bus lie in so many milliseconds of a unit's clock at least.
#[tactic(auto, using(crate::proofs::Milliseconds::few_at_least, crate::proofs::Milliseconds::some_bits))]
pub(crate) fn bits_at_least(timing: Timing, ms: u16) -> u32
    ensures bits { result ≡ bits_at_least timing ms }
    ensures few { result ≤ 1000 * ms }
    ensures some { 1 ≤ ms → 1 ≤ result }
{
    let bits = u64::from(bits_of_ms(timing, ms));
    (bits * u64::from(shortest_million(timing)) / u64::from(longest_million(timing))) as u32
}

/// How many lie in them at most.
#[tactic(auto, using(crate::proofs::Milliseconds::few_at_most))]
pub(crate) fn bits_at_most(timing: Timing, ms: u16) -> u32
    ensures bits { result ≡ bits_at_most timing ms }
    ensures few { result ≤ 1050 * ms }
{
    let bits = u64::from(bits_of_ms(timing, ms));
    (bits * u64::from(longest_million(timing))).div_ceil(u64::from(shortest_million(timing))) as u32
}

/// How many bits last no longer than so many milliseconds of true time.
#[tactic(auto, using(crate::proofs::Milliseconds::few_inside, crate::proofs::Milliseconds::some_inside))]
pub(crate) fn bits_inside(timing: Timing, ms: u16) -> u32
    ensures bits { result ≡ bits_inside timing ms }
    ensures few { result ≤ 1000 * ms }
    ensures some { 1 ≤ ms → 1 ≤ result }
{
    let bits = u64::from(bits_of_ms(timing, ms));
    (bits * u64::from(MILLION) / u64::from(longest_million(timing))) as u32
}

// How many microseconds a bit takes by a clock that is exact.
fn bit_time(bitrate: Bitrate) -> u8
    ensures time { result ≡ bit_time bitrate }
    ensures few { result ≤ 8 }
{
    match bitrate {
        Bitrate::Kbit125 => 8,
        Bitrate::Kbit250 => 4,
        Bitrate::Kbit500 => 2,
        Bitrate::Mbit1 => 1,
    }
}

/// How many microseconds of true time so many bits last at most.
#[tactic(auto, using(crate::proofs::Milliseconds::few_us))]
pub fn us_of_bits(timing: Timing, bits: u64) -> u128
    ensures time { result ≡ us_of_bits timing bits }
    ensures few { result ≤ 9 * bits }
{
    let micros = u128::from(bits) * u128::from(bit_time(timing.bitrate));
    (micros * u128::from(longest_million(timing))).div_ceil(u128::from(MILLION))
}

/// How many so many milliseconds of a unit's clock last at most.
#[tactic(auto, using(crate::proofs::Milliseconds::few_unit_ms))]
pub(crate) fn us_of_unit_ms(timing: Timing, ms: u16) -> u64
    ensures time { result ≡ us_of_unit_ms timing ms }
    ensures few { result ≤ 1050 * ms }
{
    (1_000 * u64::from(ms) * u64::from(longest_million(timing))).div_ceil(u64::from(MILLION))
}

// How many bits the bus carries at most in a second of its own clock, where so many come once in so many milliseconds
// of a unit's.
#[tactic(auto, using(crate::proofs::Milliseconds::few_a_second))]
fn bits_a_second(timing: Timing, bits: u32, ms: u16) -> u32
    requires some { 1 ≤ ms }
    requires few { bits ≤ 2 ^ 17 }
    ensures bits { result ≡ bits_a_second timing bits ms }
    ensures few { result ≤ 1050 * bits }
{
    let most = 1_000 * u64::from(bits) * u64::from(longest_million(timing));
    most.div_ceil(u64::from(ms) * u64::from(shortest_million(timing))) as u32
}

// The frames of a long message to the unit at a place, with so many data packets.
fn frames_to_one(bus: &PlannedBus<'_>, packets: u8, unit: usize) -> u16
    requires { unit < length (units_in bus.now) }
    ensures frames { result ≡ frames_to_one (units_in bus.now) packets unit }
    ensures few { result ≤ 512 }
{
    let packets = u16::from(packets);
    2 + packets + packets.div_ceil(u16::from(bus.plan.units[unit].window))
}

/// The frames of a long message to all, with so many data packets.
pub(crate) fn frames_to_all(packets: u8) -> u16
    ensures { result ≡ frames_to_all packets }
{
    1 + u16::from(packets)
}

// The most bytes of a frame of the group.
fn most_bytes(group: &GroupPlan) -> u8
    ensures bytes { result ≡ most_bytes group.now }
    ensures few { result ≤ 8 }
{
    usize::from(group.most).min(FRAME_BYTES) as u8
}

/// Messages of one frame of the group each.
pub(crate) fn single_stream(timing: Timing, group: &GroupPlan, pace: Pace) -> Stream
    ensures stream { result ≡ single_stream timing group.now pace }
    ensures fits { IsStream result }
    ensures paced { result.period < 2 ^ 31 }
    ensures jitter { result.jitter < 2 ^ 30 }
    ensures short { result.bits ≤ 160 }
    ensures few { result.frames ≤ 512 }
{
    Stream {
        frames: 1,
        period: bits_at_least(timing, pace.period),
        bits: frame_bits(most_bytes(group)),
        jitter: bits_at_most(timing, pace.jitter),
        wanted: None,
    }
}

/// Long messages of so many data packets to the unit at a place.
pub(crate) fn packet_stream(bus: &PlannedBus<'_>, packets: u8, unit: usize, pace: Pace) -> Stream
    requires receiver { unit < length (units_in bus.now) }
    ensures stream { result ≡ packet_stream bus.now.timing (units_in bus.now) packets unit pace }
    ensures fits { IsStream result }
    ensures jitter { result.jitter < 2 ^ 30 }
    ensures short { result.bits ≤ 160 }
    ensures few { result.frames ≤ 512 }
{
    Stream {
        frames: frames_to_one(bus, packets, unit),
        period: bits_at_least(bus.timing, pace.period),
        bits: frame_bits(FRAME_BYTES as u8),
        jitter: bits_at_most(bus.timing, pace.period) + bits_at_most(bus.timing, pace.jitter),
        wanted: None,
    }
}

/// Single frames that are queued at least so many gaps of a broadcast apart, and of which what stands at a place is
/// wanted.
pub(crate) fn spaced_stream(timing: Timing, gaps: u8, place: usize) -> Stream
    requires { 1 ≤ gaps }
    ensures stream { result ≡ spaced_stream timing gaps place }
    ensures fits { IsStream result }
    ensures jitter { result.jitter < 2 ^ 30 }
    ensures short { result.bits ≤ 160 }
{
    Stream {
        frames: 1,
        period: u32::from(gaps) * bits_at_least(timing, timing.broadcast_gap),
        bits: frame_bits(FRAME_BYTES as u8),
        jitter: 0,
        wanted: Some(WantedBy::Sender(place)),
    }
}

/// Requests, each of which carries the number of a group.
pub(crate) fn request_stream(timing: Timing, period: u16) -> Stream
    requires { 1 ≤ period }
    ensures stream { result ≡ request_stream timing period }
    ensures fits { IsStream result }
    ensures jitter { result.jitter < 2 ^ 30 }
    ensures short { result.bits ≤ 160 }
    ensures few { result.frames ≤ 512 }
{
    Stream {
        frames: 1,
        period: bits_at_least(timing, period),
        bits: frame_bits(3),
        jitter: 0,
        wanted: None,
    }
}

/// How many bits the stream takes in a second at most, of this period in milliseconds.
pub(crate) fn load_of(timing: Timing, stream: Stream, period: u16) -> u32
    requires period { 1 ≤ period }
    requires stream { IsStream stream }
    requires few { stream.frames ≤ 512 }
    ensures { result ≡ load_of timing stream period }
{
    let bits = u32::from(stream.frames) * u32::from(stream.bits);
    bits_a_second(timing, bits, period)
}

/// How many bits so many frames of eight bytes take in a second at most, which are sent again after so many
/// milliseconds.
pub(crate) fn bits_each(timing: Timing, frames: u8, ms: u16) -> u32
    requires { 1 ≤ ms }
    ensures bits { result ≡ bits_each timing frames ms }
    ensures few { result ≤ 168000 * frames }
{
    let bits = u32::from(frames) * u32::from(frame_bits(FRAME_BYTES as u8));
    bits_a_second(timing, bits, ms)
}
