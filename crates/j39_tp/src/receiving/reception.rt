//! An open session of a receiver.
ghost use Rattle.std.specs.Prelude.{◌≡◌, ◌<◌, ◌+◌, ◌==◌, ◌&&◌};

use crate::packet::NO_LIMIT;
use crate::{Packet, Size};
use j39_id::Pgn;

/// How a message was announced.
#[derive(Clone, Copy, PartialEq, Eq)]
pub enum ReceptionKind {
    /// To all, by BAM.
    Broadcast,
    /// To one, by RTS.
    Directed,
}

/// A session from its announcement on: what was announced, how many packets are held in order,
/// the last that was granted by a CTS, and how often a packet was asked for again.
#[derive(Clone, Copy)]
pub struct Reception {
    pub(crate) kind: ReceptionKind,
    pub(crate) pgn: Pgn,
    pub(crate) size: Size,
    pub(crate) limit: u8,
    pub(crate) held: u8,
    pub(crate) granted: u8,
    pub(crate) asked: u8,
}

impl Reception {
    ghost use Rattle.j39_tp.specs.Chunks.{packets_of};
    ghost use Rattle.j39_tp.specs.Receiver.{opened, granted_to, clear_packet};

    /// A session that was just announced.
    pub(crate) fn open(kind: ReceptionKind, pgn: Pgn, size: Size, limit: u8) -> Self
        ensures { result ≡ opened kind pgn size limit }
    {
        Reception {
            kind,
            pgn,
            size,
            limit,
            held: 0,
            granted: 0,
            asked: 0,
        }
    }

    /// Whether the data packet of this number is the last one, and awaited.
    pub(crate) fn is_last(self, number: u8) -> bool
        requires { self.held < packets_of self.size }
        ensures { result ≡ (number == self.held + 1 && self.held + 1 == packets_of self.size) }
    {
        number == self.held + 1 && number == self.size.packets()
    }

    /// Grants the packets after those that are held, at most a window of them.
    pub(crate) fn clear(self, window: u8) -> (Self, Packet)
        requires { self.held < packets_of self.size }
        ensures after { result.0 ≡ granted_to window self }
        ensures packet { result.1 ≡ clear_packet window self }
    {
        let limit = if self.limit == 0 {
            NO_LIMIT
        } else {
            self.limit
        };
        let count = window.min(limit).min(self.size.packets() - self.held);
        let granted = Reception {
            granted: self.held + count,
            ..self
        };
        let packet = Packet::Cts {
            count,
            first: self.held + 1,
            pgn: self.pgn,
        };
        (granted, packet)
    }
}
