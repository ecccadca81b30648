//! How a unit's controller chooses among frames that wait.

/// With which of its waiting frames a unit takes part in an arbitration (ISO 11898-1).
#[derive(Clone, Copy)]
pub enum Queue {
    /// With the one that has the least identifier.
    Priority,
    /// With any of them: a FIFO queue, few mailboxes, or one buffer that is filled again within the intermission of
    /// three bits.
    Any,
}
