//! What the broadcasts of a unit ask of the bus.

use crate::frames::FlowFrames;

/// What the long messages of a unit to all ask of the bus. It sends one of them at a time, and queues the packets of
/// each a gap apart.
#[derive(Clone, Copy)]
pub struct UnitLoad {
    /// Their packets, two of which are queued at least a gap apart.
    pub packets: FlowFrames,
    /// Their announcements. Between two of them lie all packets of a message.
    pub announcements: FlowFrames,
    /// How many flows they are of.
    pub flows: u32,
    /// How many packets the longest message of each of these has, together.
    pub all_packets: u32,
    /// How many bits they take in a second at most.
    pub bits_per_second: u64,
}
