//! How a session of a sender ended.

/// How a session of a sender ended.
#[derive(Clone, Copy, PartialEq, Eq)]
pub enum Outcome {
    /// All packets of a message to all were sent.
    Sent,
    /// The receiver acknowledged the whole message.
    Acked,
    /// Given up by an Abort of this reason, heard or sent.
    Aborted(u8),
    /// Given up since nothing was heard in time.
    GaveUp,
}
