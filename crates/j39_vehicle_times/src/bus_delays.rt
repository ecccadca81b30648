//! How long the messages of each flow of each bus take.
ghost use Rattle.std.specs.Prelude.{◌≡◌};
ghost use Rattle.std.specs.Option.{option_copied};
ghost use Rattle.j39_vehicle_times.specs.BusDelays.{delays_on};
ghost use Rattle.j39_vehicle_times.specs.Times.{bits_within, delay_at};

use j39_load::Delay;
use j39_vehicle_findings::FlowAt;

/// Of each bus, by its place, the delay of each of its flows, and none of a bus of whose timing nothing is known.
#[derive(Drop)]
pub struct Delays {
    pub of_buses: Vec<Vec<Option<Delay>>>,
}

// The bits of a delay that is reported in bits.
fn bits_within(delay: Option<Delay>) -> Option<u32>
    ensures { result ≡ bits_within delay }
{
    match delay {
        Some(Delay::Within(bits)) => Some(bits),
        Some(Delay::Beyond(_)) => None,
        Some(Delay::Late) => None,
        Some(Delay::Long(_)) => None,
        Some(Delay::Whole(_)) => None,
        None => None,
    }
}

// The delays of the flows of the bus at a place.
fn delays_on(delays: &Delays, bus: usize) -> &[Option<Delay>]
    ensures { result.now ≡ delays_on delays.now bus }
{
    match delays.of_buses.get(bus) {
        Some(stated) => stated.as_slice(),
        None => &[],
    }
}

/// The delay of a flow in bits, where it is reported so.
pub fn delay_at(delays: &Delays, at: FlowAt) -> Option<u32>
    ensures { result ≡ delay_at delays.now at }
{
    match delays_on(delays, at.bus).get(at.flow) {
        Some(delay) => bits_within(*delay),
        None => None,
    }
}
