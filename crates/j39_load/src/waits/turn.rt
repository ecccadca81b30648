//! How long the long messages of a unit to all take.

/// How long one long message to all of each flow of a unit takes, one after the other, times in bits.
#[derive(Clone, Copy)]
pub struct Turn {
    /// All of them together.
    pub time: u64,
    /// An announcement, from when it is queued.
    pub announcement: u64,
    /// A packet, from the end of the frame before.
    pub packet: u64,
}
