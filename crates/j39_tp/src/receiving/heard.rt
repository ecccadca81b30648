//! What a receiver does with what it hears.
use crate::Packet;

/// What a receiver does with what it hears.
#[derive(Clone, Copy)]
pub enum Heard {
    /// Nothing is sent, and no message is complete.
    Nothing,
    /// This is to be sent; an Abort ended the session.
    Reply(Packet),
    /// The message is complete.
    Complete,
    /// The message is complete, and this is to be sent.
    CompleteReply(Packet),
    /// The session ended without a message.
    Closed,
}

impl Heard {
    ghost use Rattle.std.specs.Prelude.{◌≡◌};
    ghost use Rattle.j39_tp.specs.Receiver.{is_complete};

    /// Whether a message is complete.
    pub fn is_complete(&self) -> bool
        ensures { result ≡ is_complete self.now }
    {
        matches!(self, Heard::Complete | Heard::CompleteReply(_))
    }
}
