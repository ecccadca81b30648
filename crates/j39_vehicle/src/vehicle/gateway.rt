//! A gateway of a vehicle.
ghost use Rattle.std.specs.Prelude.{◌≤◌, length};
ghost use Rattle.j39_vehicle.specs.VehicleLimits.{gateway_unit_limit};

use super::UnitAt;
use j39_id::Label;

/// A gateway: its label, and its units on its buses. The first on a bus is the one by which it hears and sends there
/// where nothing else is said; others stand there for units of other buses.
#[derive(Drop)]
pub struct Gateway {
    /// 1 to 32 ASCII letters, digits and `_`.
    pub label: Label,
    pub units: Vec<UnitAt>,
    pub ghost unit_count: { length units.items ≤ gateway_unit_limit },
}
