//! How long the frames of a flow wait.

use crate::waits::whole_time::WholeTime;

/// How long the messages of a flow take, from their releases until they have been sent: their worst-case response time.
#[derive(Clone, Copy)]
pub enum Delay {
    /// At most so many bits, which are within the flow's limit.
    Within(u32),
    /// At most so many bits, which are within the flow's period, but more than its deadline allows.
    Beyond(u32),
    /// It isn't shown that they are within the period.
    Late,
    /// A message to one unit takes so many frames, of which no bound is reported.
    Long(u16),
    /// Long messages to all.
    Whole(WholeTime),
}
