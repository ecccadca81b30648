//! The phases of a sender.

/// What a sender is doing.
#[derive(Clone, Copy, PartialEq, Eq)]
pub enum Phase {
    /// It has no message.
    Idle,
    /// It has data packets to send.
    Sending,
    /// It waits for its receiver.
    Waiting,
    /// Its message has an outcome.
    Resting,
}
