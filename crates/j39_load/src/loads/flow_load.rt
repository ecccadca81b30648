//! What a flow asks of the bus.

use crate::frames::{FlowFrames, Messages};

/// What a flow asks of the bus, times and lengths in bits.
#[derive(Clone, Copy)]
pub struct FlowLoad {
    pub messages: Messages,
    /// Where some messages are long and others go in one frame, the frames of these others.
    pub singles: Option<FlowFrames>,
    /// Within so many bits of its release each frame has to be on the bus.
    pub limit: u32,
    /// How many bits it takes in a second at most; those of broadcasts count with their unit's.
    pub bits_per_second: u32,
}
