//! Why a vehicle file could not be read.
use super::{Key, Table};
use j39_toml::{FileError, TableFault};

/// What is wrong with a vehicle file, and where.
pub type VehicleFault = TableFault<Table, Key>;

/// Why a vehicle file could not be read.
pub type VehicleError = FileError<VehicleFault>;
