//! Vehicles of several buses: what a vehicle file says, and the vehicle that it and the plans of its buses describe.
#![tactic(auto)]

mod file;
pub mod limits;
mod plan_names;
mod reading;
mod resolving;
mod vehicle;

pub use file::{
    BusTable, ForwardTable, GatewayTable, NameOnBus, NeedTable, SignalTable, VehicleFile,
};
pub use plan_names::plan_file;
pub use reading::{FileError, Key, Table, VehicleError, VehicleFault, read_vehicle};
pub use resolving::resolve;
pub use vehicle::{
    BusPlan, Forward, ForwardedSignal, Gateway, GroupAt, Mode, UnitAt, Vehicle, VehicleNeed,
};
