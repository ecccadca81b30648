//! How much a vehicle holds at most.

/// The most buses of a vehicle.
pub const BUS_LIMIT: usize = 16;

/// The most gateways of a vehicle.
pub const GATEWAY_LIMIT: usize = 64;

/// The most units of a gateway, on all of its buses together.
pub const GATEWAY_UNIT_LIMIT: usize = 128;

/// The most forwards of a vehicle.
pub const FORWARD_LIMIT: usize = 512;

/// The most signals that a forward lists: those of a group.
pub use j39_network::limits::SIGNAL_LIMIT as FORWARD_SIGNAL_LIMIT;

/// The most needs of a vehicle.
pub use j39_network::limits::NEED_LIMIT as VEHICLE_NEED_LIMIT;
