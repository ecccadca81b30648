//! Where a log shows that its bus was idle, and when its frames ended.
ghost use Rattle.std.specs.Prelude.{◌≡◌, ◌<◌, ◌≤◌, ◌*◌, ◌^◌, IfSome};
ghost use Rattle.j39_audit.specs.Moments.{bit_us, damaged_at_once, idle_mark, earliest_end, is_apart, leaves_idle};
ghost use Rattle.j39_audit.specs.Moments.{reach_back, shows_idle, since_behind};
ghost use Rattle.j39_audit.specs.inside.Recalling.{far_ahead, settings_of};

use crate::basis::Basis;
use crate::by_load::Bound;
use j39_network::{Bitrate, Timing};

const MILLION: u64 = 1_000_000;

/// From when on moments are counted: so many microseconds before the zero of a log's times.
pub(crate) const LONG_BEFORE: u64 = 1 << 33;

/// The microseconds of a bit by an exact clock.
pub(crate) fn bit_us(bitrate: Bitrate) -> u8
    ensures value { result ≡ bit_us bitrate }
    ensures few { result ≤ 8 }
{
    match bitrate {
        Bitrate::Kbit125 => 8,
        Bitrate::Kbit250 => 4,
        Bitrate::Kbit500 => 2,
        Bitrate::Mbit1 => 1,
    }
}

// How many attempts are damaged at once.
fn damaged_at_once(timing: Timing) -> u16
    ensures value { result ≡ damaged_at_once timing }
    ensures few { result ≤ 100 }
{
    match timing.errors {
        Some(errors) => errors.count,
        None => 0,
    }
}

// How long a frame of so many bytes takes at most, with the bit before it and what may be damaged.
fn reach_back(timing: Timing, bytes: usize) -> u64
    requires { bytes < 2 ^ 16 }
    ensures value { result ≡ reach_back timing bytes }
    ensures few { result < 2 ^ 40 }
{
    let bits = 81 + 10 * bytes as u64 + 192 * u64::from(damaged_at_once(timing));
    let micros = u64::from(bit_us(timing.bitrate)) * bits * (MILLION + u64::from(timing.drift));
    micros.div_ceil(MILLION) + 2
}

// Whether damage is so seldom that it leaves a bit idle.
fn leaves_idle(timing: Timing) -> bool
    ensures { result ≡ leaves_idle timing }
{
    match timing.errors {
        Some(errors) => {
            u64::from(bit_us(timing.bitrate))
                * (192 * (u64::from(errors.count) + 1))
                * (MILLION + u64::from(timing.drift))
                <= 1_000 * u64::from(errors.every) * MILLION
        }
        None => true,
    }
}

// Whether a frame of this time doesn't touch the one of the line before.
fn is_apart(stamps: u64, timing: Timing, bytes: usize, time: u64, before: Option<u64>) -> bool
    requires bytes { bytes < 2 ^ 16 }
    requires stamps { stamps ≤ 1000000 }
    ensures { result ≡ is_apart stamps timing bytes time before }
{
    match before {
        Some(before) => {
            let reach = reach_back(timing, bytes) + 2 * stamps;
            before.saturating_add(reach) < time
        }
        None => false,
    }
}

// Whether the bit before a frame of this time was idle.
fn shows_idle(
    basis: &Basis<'_>,
    timing: Timing,
    gap: bool,
    bytes: usize,
    time: u64,
    before: Option<u64>,
) -> bool
    requires { bytes < 2 ^ 16 }
    ensures { result ≡ shows_idle (settings_of basis.now) timing gap bytes time before }
{
    !basis.part
        && !gap
        && leaves_idle(timing)
        && is_apart(basis.logger_error(), timing, bytes, time, before)
}

// When all was ready at the earliest that begins from such a frame on.
fn idle_mark(basis: &Basis<'_>, timing: Timing, bytes: usize, time: u64) -> u64
    requires bytes { bytes < 2 ^ 16 }
    requires time { time < 2 ^ 61 }
    ensures value { result ≡ idle_mark (settings_of basis.now) timing bytes time }
    ensures few { result < 2 ^ 62 }
{
    (time + LONG_BEFORE).saturating_sub(reach_back(timing, bytes) + basis.logger_error())
}

// When a frame of this time ended at the earliest.
fn earliest_end(basis: &Basis<'_>, time: u64) -> u64
    requires { time < 2 ^ 61 }
    ensures value { result ≡ earliest_end (settings_of basis.now) time }
    ensures few { result < 2 ^ 62 }
{
    (time + LONG_BEFORE).saturating_sub(basis.logger_error())
}

/// Since when all was queued that begins from a frame of this time on, where the frame of the line before had this one,
/// and it was since then; or by load, since when all has ended that ends from there on.
pub(crate) fn since_behind(
    basis: &Basis<'_>,
    timing: Timing,
    gap: bool,
    bytes: usize,
    time: u64,
    before: Option<u64>,
    since: Option<u64>,
) -> Option<u64>
    requires bytes { bytes < 2 ^ 16 }
    requires time { time < 2 ^ 61 }
    requires near { IfSome since (λ q. q < far_ahead) }
    ensures value { result ≡ since_behind (settings_of basis.now) timing gap bytes time before since }
    ensures few { IfSome result (λ q. q < far_ahead) }
{
    match basis.bound {
        Bound::Bus => {
            if shows_idle(basis, timing, gap, bytes, time, before) {
                Some(idle_mark(basis, timing, bytes, time))
            } else {
                since
            }
        }
        Bound::Load => Some(earliest_end(basis, time)),
    }
}
