//! Why bytes are no packet.
use thiserror::Error;

/// Why bytes are refused as a transport packet: the first that holds, in this order.
#[derive(Clone, Copy, Debug, PartialEq, Eq, Error)]
pub enum PacketError {
    /// Not eight bytes.
    #[error("Length")]
    Length,
    /// A first byte of no connection management packet.
    #[error("Control")]
    Control,
    /// A size outside 9 to 1785.
    #[error("Size")]
    Size,
    /// Not the number of packets that the size needs.
    #[error("Count")]
    Count,
    /// A packet number 0.
    #[error("Number")]
    Number,
    /// No PGN.
    #[error("Group")]
    Group,
}
