//! What is seen of a unit at the end of a run.
ghost use Rattle.std.specs.Prelude.{◌≡◌, ◌<◌, length};
ghost use Rattle.j39_bus.specs.Stations.{station_at};
ghost use Rattle.j39_run.specs.Views.{unit_state};

use j39_bus::Bus;
use j39_id::Address;

/// What a unit is.
#[derive(Clone, Copy)]
pub enum UnitState {
    /// It is off.
    Off,
    /// It is on and holds no address.
    NoAddress,
    /// It holds this address.
    At(Address),
}

/// What a unit of the bus is.
pub fn state_of(bus: &Bus, unit: usize) -> UnitState
    requires { unit < length bus.now.units }
    ensures { result ≡ unit_state (station_at bus.now.units unit) }
{
    if !bus.is_started(unit) {
        return UnitState::Off;
    }
    match bus.address_of(unit) {
        Some(address) => UnitState::At(address),
        None => UnitState::NoAddress,
    }
}
