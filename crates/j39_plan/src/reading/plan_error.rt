//! Why a plan could not be read.
use super::{Key, Table};
use j39_toml::{FileError, TableFault};

/// What is wrong with a plan file, and where.
pub type PlanFault = TableFault<Table, Key>;

/// Why a plan could not be read.
pub type PlanError = FileError<PlanFault>;
