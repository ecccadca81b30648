//! A need across the buses of a vehicle.
ghost use Rattle.std.specs.Prelude.{◌≤◌};
ghost use Rattle.std.specs.Option.{ForSome};

use super::UnitAt;

/// What a unit has to hear from a unit of the same or another bus: a group of its own bus, or one of its signals.
#[derive(Clone, Copy)]
pub struct VehicleNeed {
    pub unit: UnitAt,
    /// The place of the group in the plan of the unit's bus.
    pub group: usize,
    /// A signal of the group, which isn't repeated.
    pub signal: Option<usize>,
    /// The unit that it comes from in the end.
    pub from: UnitAt,
    /// How old it may be at most, in milliseconds.
    pub within: Option<u16>,
    pub ghost within_positive: { ForSome within (λ n. 1 ≤ n) },
}
