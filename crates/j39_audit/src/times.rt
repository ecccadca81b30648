//! Times of lines, and where a log breaks off.
ghost use Rattle.std.specs.Prelude.{◌≡◌, ◌<◌, ◌^◌, IfSome, Some};
ghost use Rattle.j39_audit.specs.Breaks.{breaks as breaks_off, clock_time, is_set_back, line_time as time_of_line};
ghost use Rattle.j39_audit.specs.Breaks.{newest_behind};
ghost use Rattle.j39_audit.specs.Moments.{begins_anew};

use j39_follow::moment;
use j39_network::Plan;

// How many microseconds a log may be silent without a break.
const LONGEST_SILENCE: u64 = 1_000_000;

// The greatest time of a clock, and one more: 12 digits of seconds are less.
const TIMES: u64 = 1 << 60;

// A time of a clock.
fn clock_time(time: Option<u64>) -> Option<u64>
    ensures value { result ≡ clock_time time }
    ensures few { IfSome result (λ t. t < 2 ^ 61) }
{
    let Some(time) = time else {
        return None;
    };
    if time < TIMES { Some(time) } else { None }
}

/// The time of a line in microseconds, by what is printed of it; none where the plan reports nothing of its bus.
pub(crate) fn line_time(plan: &Plan, text: &[u8]) -> Option<u64>
    ensures value { result ≡ time_of_line plan.now text.now }
    ensures few { IfSome result (λ time. time < 2 ^ 61) }
{
    if plan.timing.is_none() {
        None
    } else {
        clock_time(moment(text))
    }
}

/// Whether times begin anew just before a frame of this time.
pub(crate) fn begins_anew(stamps: u64, newest: Option<u64>, time: Option<u64>) -> bool
    ensures { result ≡ begins_anew stamps newest time }
{
    let Some(time) = time else {
        return true;
    };
    match newest {
        Some(newest) => is_set_back(stamps, newest, time),
        None => false,
    }
}

// Whether the clock was set back.
fn is_set_back(stamps: u64, newest: u64, time: u64) -> bool
    ensures { result ≡ is_set_back stamps newest time }
{
    time.saturating_add(stamps.saturating_mul(2)) < newest
}

/// Whether the log breaks off just before a frame of this time.
pub(crate) fn breaks(stamps: u64, newest: Option<u64>, time: Option<u64>) -> bool
    ensures { result ≡ breaks_off stamps newest time }
{
    let Some(newest) = newest else {
        return false;
    };
    let Some(time) = time else {
        return false;
    };
    is_set_back(stamps, newest, time) || newest.saturating_add(LONGEST_SILENCE) < time
}

// The later of two times, or that of a clock that was set back.
fn newer(stamps: u64, newest: u64, time: u64) -> u64
    ensures { Some result ≡ newest_behind stamps (Some newest) (Some time) }
{
    if is_set_back(stamps, newest, time) {
        time
    } else {
        newest.max(time)
    }
}

/// The newest time behind a frame of this time.
pub(crate) fn newest_behind(stamps: u64, newest: Option<u64>, time: Option<u64>) -> Option<u64>
    ensures { result ≡ newest_behind stamps newest time }
{
    let Some(time) = time else {
        return None;
    };
    match newest {
        Some(newest) => Some(newer(stamps, newest, time)),
        None => Some(time),
    }
}
