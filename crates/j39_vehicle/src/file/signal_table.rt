//! The table of a signal of a forward.

/// A signal of the group that is heard, by its label, and that of the group that is sent into which its values go.
#[derive(Drop)]
pub struct SignalTable {
    pub read: String,
    pub written: String,
    /// Whether each value has to arrive as it is.
    pub exact: bool,
}
