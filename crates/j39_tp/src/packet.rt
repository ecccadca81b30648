//! Transport packets.
ghost use Rattle.std.specs.Prelude.{◌≡◌, length};
ghost use Rattle.j39_id.specs.Limits.{packet_bytes};
ghost use Rattle.j39_tp.specs.Packets.{InRange};

use j39_id::Pgn;
use j39_id::limits::PACKET_BYTES;

mod control;
mod packet_error;
mod packing;
pub(crate) mod reasons;
mod size;
mod unpacking;

pub use packet_error::PacketError;
pub use packing::to_data;
pub use size::Size;
pub use unpacking::{from_cm, from_dt};

/// A limit of an RTS that lets any number of packets be sent for each CTS.
pub(crate) const NO_LIMIT: u8 = 255;

/// What stands in a byte that says nothing.
pub(crate) const UNUSED: u8 = 255;

/// The bytes of a message that a data packet carries.
pub type Chunk = [u8; PACKET_BYTES];

/// A packet of the transport protocol (SAE J1939-21): five of connection management, and data.
#[derive(Clone, Copy, PartialEq, Eq)]
pub enum Packet {
    /// Request to send a message to one: at most `limit` packets for each CTS, or any number where it is 255.
    Rts { size: Size, limit: u8, pgn: Pgn },
    /// Clear to send `count` packets from number `first` on; a count of 0 holds the sender.
    Cts { count: u8, first: u8, pgn: Pgn },
    /// The whole message was received.
    EndAck { size: Size, pgn: Pgn },
    /// Announcement of a message to all.
    Bam { size: Size, pgn: Pgn },
    /// The session is given up.
    Abort { reason: u8, pgn: Pgn },
    /// Seven bytes of the message, packets being counted from 1.
    Dt { number: u8, chunk: Chunk },
}

impl Packet {
    ghost use Rattle.j39_tp.specs.Packets.{is_announcement};

    /// Whether it announces a message.
    pub fn is_announcement(&self) -> bool
        ensures { result ≡ is_announcement self.now }
    {
        matches!(self, Packet::Rts { .. } | Packet::Bam { .. })
    }
}

// A chunk has seven bytes.
fn known_length(chunk: Chunk)
    ensures { length chunk ≡ packet_bytes }
{}

/// The parts of a packet are in their ranges.
pub fn known_ranges(packet: &Packet)
    ensures { InRange packet.now }
{
    match *packet {
        Packet::Rts { size, pgn, .. } => {
            let _ = (size.bytes(), pgn.number());
        }
        Packet::Cts { pgn, .. } => {
            let _ = pgn.number();
        }
        Packet::EndAck { size, pgn } => {
            let _ = (size.bytes(), pgn.number());
        }
        Packet::Bam { size, pgn } => {
            let _ = (size.bytes(), pgn.number());
        }
        Packet::Abort { pgn, .. } => {
            let _ = pgn.number();
        }
        Packet::Dt { chunk, .. } => known_length(chunk),
    }
}
