//! How much a plan holds at most.

/// The most units: those of a network.
pub use j39_id::limits::UNIT_LIMIT;

/// The most groups of a plan.
pub const GROUP_LIMIT: usize = 256;

/// The most flows of a plan.
pub const FLOW_LIMIT: usize = 512;

/// The most needs of a plan.
pub const NEED_LIMIT: usize = 4096;

/// The most requests of a plan.
pub const REQUEST_LIMIT: usize = 512;

/// The most signals of a group.
pub const SIGNAL_LIMIT: usize = 64;

/// The most texts of a group.
pub const TEXT_LIMIT: usize = 64;

/// The most raw numbers of a signal that have a name.
pub const VALUE_LIMIT: usize = 256;

/// The greatest number of a signal (SPN), which has 19 bits.
pub const SPN_MOST: u32 = 524_287;
