//! What a request asks of the bus.

use crate::frames::FlowFrames;

/// What a request asks of the bus, where it is known how often it is sent.
#[derive(Clone, Copy)]
pub struct RequestLoad {
    /// Its frames, which carry the number of the group that is asked for.
    pub frames: FlowFrames,
    /// How many bits they take in a second at most.
    pub bits_per_second: u32,
}
