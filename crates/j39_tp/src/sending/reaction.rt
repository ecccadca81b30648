//! What a sender does with what it hears.
use crate::Packet;

/// What a sender does with what it hears.
#[derive(Clone, Copy)]
pub enum Reaction {
    /// The packet changes nothing.
    Nothing,
    /// Data packets may now be sent.
    Go,
    /// The message has an outcome.
    Ended,
    /// This is to be sent; the message has an outcome.
    Reply(Packet),
}
