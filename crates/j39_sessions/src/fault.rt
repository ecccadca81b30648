//! What a frame of the transport protocol does that it mustn't.

/// What a frame does that none does by SAE J1939-21.
#[derive(Clone, Copy, Debug, PartialEq, Eq)]
pub enum SessionFault {
    /// It announces a message, and isn't right.
    Announcement,
    /// It clears packets to be sent that its session doesn't have, or more at once than its RTS lets it.
    Grant,
    /// It is a packet that no CTS cleared.
    Packet,
    /// It acknowledges a message that was announced otherwise, or whose packets weren't all sent.
    Acknowledged,
}
