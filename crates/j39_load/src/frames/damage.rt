//! What damaged frames take of the bus.
ghost use Rattle.std.specs.Prelude.{◌≡◌, ◌^◌, ◌<◌, ◌≤◌, ◌+◌, ◌++◌, All, length, OnOk};
ghost use Rattle.j39_load.specs.Damage.{damage_stream, damage_streams, load_of_damage};
ghost use Rattle.j39_timing.specs.Waits.{IsStream};

use crate::frames::streams::{bits_inside, longest_million};
use j39_network::{ErrorRate, Timing};
use j39_timing::{ERROR_FRAME, Stream, frame_bits};
use std::alloc::AllocError;

// Frames of so many bits, of which as many come in a window as attempts are damaged.
fn damage_stream(timing: Timing, rate: ErrorRate, bits: u16) -> Stream
    requires { bits ≤ 160 }
    ensures stream { result ≡ damage_stream timing rate bits }
    ensures fits { IsStream result }
{
    Stream {
        frames: rate.count,
        period: bits_inside(timing, rate.every),
        bits,
        jitter: 0,
        wanted: None,
    }
}

/// Adds the streams of damaged attempts and of error frames.
pub(crate) fn add_damage(streams: &mut Vec<Stream>, timing: Timing) -> Result<(), AllocError>
    requires { All IsStream streams.old.items }
    ensures streams { OnOk result (streams.new.items ≡ streams.old.items ++ damage_streams timing) }
    ensures fit { OnOk result (All IsStream streams.new.items) }
    ensures few { OnOk result (length streams.new.items ≤ length streams.old.items + 2) }
{
    let Some(rate) = timing.errors else {
        return Ok(());
    };
    streams.push(damage_stream(timing, rate, frame_bits(8)))?;
    streams.push(damage_stream(timing, rate, ERROR_FRAME))?;
    Ok(())
}

/// How many bits they take in a second at most.
pub(crate) fn load_of_damage(timing: Timing) -> u64
    ensures load { result ≡ load_of_damage timing }
    ensures few { result < 2 ^ 32 }
{
    let Some(rate) = timing.errors else {
        return 0;
    };
    let bits = u32::from(rate.count) * u32::from(frame_bits(8) + ERROR_FRAME);
    let most = 1_000 * u64::from(bits) * u64::from(longest_million(timing));
    most.div_ceil(1_000_000 * u64::from(rate.every))
}
