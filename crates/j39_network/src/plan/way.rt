//! How a unit chooses a new address.

/// The way in which an arbitrary unit chooses another address of 128 to 247 once it loses its own.
#[derive(Clone, Copy)]
pub enum Way {
    /// The lowest free address.
    Lowest,
    /// The next free address above the one that was lost, and from 247 round to 128.
    Upward,
}
