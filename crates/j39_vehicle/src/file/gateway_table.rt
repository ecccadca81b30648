//! The table of a gateway.
ghost use Rattle.std.specs.Prelude.{◌≤◌, length};
ghost use Rattle.j39_vehicle.specs.VehicleLimits.{gateway_unit_limit};

use super::NameOnBus;
use j39_id::Label;

/// A gateway: its label, and its units on the buses.
#[derive(Drop)]
pub struct GatewayTable {
    /// 1 to 32 ASCII letters, digits and `_`.
    pub label: Label,
    pub units: Vec<NameOnBus>,
    pub ghost unit_count: { length units.items ≤ gateway_unit_limit },
}
