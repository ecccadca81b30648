//! Frames of flows, of long messages to all, and of requests: how long they are, how often they come, and how urgent
//! they are.

mod broadcast;
mod damage;
mod extreme;
mod flow_frames;
mod identifiers;
mod messages;
mod planned_bus;
mod streams;

pub use broadcast::Broadcast;
pub(crate) use broadcast::BroadcastPart;
pub(crate) use damage::{add_damage, load_of_damage};
pub(crate) use extreme::Extreme;
pub use flow_frames::FlowFrames;
pub(crate) use identifiers::{
    IDENT_END, any_unit, broadcast_ident, first_of_priority, group_ident, packet_ident,
    request_ident, session_ident, twin_ident,
};
pub use messages::Messages;
pub(crate) use planned_bus::PlannedBus;
pub use streams::{bits_of_ms, bits_of_second, us_of_bits};
pub(crate) use streams::{
    bits_at_least, bits_at_most, bits_each, bits_inside, frames_to_all, load_of, longest_million,
    packet_stream, request_stream, single_stream, spaced_stream, us_of_unit_ms,
};
