//! What the messages of a flow are.

use crate::frames::broadcast::Broadcast;
use crate::frames::flow_frames::FlowFrames;

/// The messages of a flow; where some are long, these.
#[derive(Clone, Copy)]
pub enum Messages {
    /// Each goes in one frame.
    Short(FlowFrames),
    /// The frames of long ones to one unit.
    ToOne(FlowFrames),
    /// Long ones to all, whose frames are among those of their unit's broadcasts.
    ToAll(Broadcast),
}
