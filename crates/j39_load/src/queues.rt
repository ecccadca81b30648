//! Frames of units whose controllers keep no order.

mod buffering_delays;
mod queue_groups;

pub(crate) use buffering_delays::{BufferingDelays, buffering_delays_of};
pub(crate) use queue_groups::keep_order;
