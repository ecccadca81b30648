//! Why there is no bus for a plan.
use thiserror::Error;

/// Why a plan has no bus: the first cause that holds, in this order. The text is the cause's name.
#[derive(Clone, Copy, Debug, Error)]
pub enum BusError {
    /// There isn't one chooser for each unit.
    #[error("ChooserCount")]
    ChooserCount,
    /// The units at these places may be one: nothing but serial numbers distinguishes them, and not both are given, or
    /// they have one NAME.
    #[error("SameName")]
    SameName(usize, usize),
    /// The number of the group at this place is no group's, or its signals make no layout.
    #[error("BadGroup")]
    BadGroup(usize),
    #[error("Memory")]
    Memory,
}
