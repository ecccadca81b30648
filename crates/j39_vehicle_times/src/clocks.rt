//! How far the clocks of a bus may be from true time.
ghost use Rattle.std.specs.Prelude.{◌≡◌, ◌*◌, ◌<◌, ◌≤◌};
ghost use Rattle.j39_load.specs.Clocks.{longest_million, shortest_million};
ghost use Rattle.j39_load.specs.Loads.{bits_at_most};
ghost use Rattle.j39_vehicle_times.specs.Times.{longest_on, shortest_on};

use crate::flows::timing_on;
use j39_load::bits_of_ms;
use j39_network::Timing;
use j39_vehicle::BusPlan;

const MILLION: u32 = 1_000_000;

/// How long a million of a clock's units last at most.
pub fn longest_million(timing: Timing) -> u32
    ensures value { result ≡ longest_million timing }
    ensures few { result ≤ 1020000 }
{
    MILLION + u32::from(timing.drift)
}

/// How long they last at least.
fn shortest_million(timing: Timing) -> u32
    ensures value { result ≡ shortest_million timing }
    ensures few { result ≤ 1000000 }
    ensures some { 0 < result }
{
    MILLION - u32::from(timing.drift)
}

/// How many bits of the bus lie in so many milliseconds of a unit's clock at most.
#[tactic(auto, using(crate::proofs::Nanoseconds::few_bits))]
pub fn bits_at_most(timing: Timing, ms: u16) -> u64
    ensures value { result ≡ bits_at_most timing ms }
    ensures few { result ≤ 1050 * ms }
{
    let bits = u64::from(bits_of_ms(timing, ms));
    (bits * u64::from(longest_million(timing))).div_ceil(u64::from(shortest_million(timing)))
}

/// How long a million of a clock's units last at most on the bus at a place, which agrees with all others where nothing
/// is known of it.
pub fn longest_on(buses: &[BusPlan], bus: usize) -> u32
    ensures value { result ≡ longest_on buses.now bus }
    ensures few { result ≤ 1020000 }
{
    match timing_on(buses, bus) {
        Some(timing) => longest_million(timing),
        None => MILLION,
    }
}

/// How long they last at least.
pub fn shortest_on(buses: &[BusPlan], bus: usize) -> u32
    ensures value { result ≡ shortest_on buses.now bus }
    ensures few { result ≤ 1000000 }
{
    match timing_on(buses, bus) {
        Some(timing) => shortest_million(timing),
        None => MILLION,
    }
}
