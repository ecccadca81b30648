//! Frames of a flow, or of a unit's broadcasts.

use crate::frames::broadcast::Broadcast;
use j39_timing::Stream;

/// Frames of a flow, or of a unit's broadcasts, with how urgent they are.
#[derive(Clone, Copy)]
pub struct FlowFrames {
    /// How many a message has, how often they come, and how long they are at most, in bits.
    pub stream: Stream,
    /// Their identifiers lie between these, whatever addresses the units come to hold.
    pub least_ident: u64,
    pub greatest_ident: u64,
    /// The unit that sends them, by its place, where its controller keeps no order.
    pub any_sender: Option<usize>,
    /// The unit that answers them, where they are of long messages to one unit, and its controller keeps no order.
    pub any_receiver: Option<usize>,
    /// No frame has a larger identifier, answers included.
    pub last_ident: u64,
    /// What only frames have in common whose identifiers are the same on every bus, where they are of a group that is
    /// distinguished by its data.
    pub twin_ident: Option<u64>,
    /// Where they stand for long messages to all, none of which is a frame of the flow's own: what the flow wants of
    /// its unit's broadcasts.
    pub want: Option<Broadcast>,
}
