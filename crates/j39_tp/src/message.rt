//! Messages.
ghost use Rattle.std.specs.Prelude.{◌≡◌, ◌-◌, ◌≤◌, ◌++◌, ◌↔◌, length, replicate, IsSome, IfSome};
ghost use Rattle.j39_id.specs.Limits.{packet_bytes};
ghost use Rattle.j39_tp.specs.Chunks.{IsSize, unused, chunk};

use crate::packet::UNUSED;
use crate::{Chunk, Size};
use arrayvec::ArrayVec;
use j39_id::Pgn;
use j39_id::limits::{FRAME_BYTES, MESSAGE_BYTES, PACKET_BYTES};
use std::marker::Model;

/// A message of 9 to 1785 bytes of a group.
#[derive(Drop)]
pub struct Message {
    pgn: Pgn,
    bytes: ArrayVec<u8, MESSAGE_BYTES>,
}

impl Model for Message {
    ghost use Rattle.std.specs.Prelude.{length};
    ghost use Rattle.j39_tp.specs.Chunks.{IsSize, MessageParts};

    ghost Value = { MessageParts };

    ghost view = { λ m. record { pgn = m.pgn; bytes = m.bytes.items } };

    ghost invariant = { λ m. IsSize (length m.bytes.items) };
}

impl Message {
    /// The message of these bytes, `None` where they are fewer than 9 or more than 1785.
    pub fn new(pgn: Pgn, bytes: &[u8]) -> Option<Self>
        ensures valid { IsSome result ↔ IsSize (length bytes.now) }
        ensures value { IfSome result (λ m. m ≡ record { pgn = pgn; bytes = bytes.now }) }
    {
        if bytes.len() <= FRAME_BYTES {
            return None;
        }
        let Ok(bytes) = ArrayVec::try_from(bytes) else {
            return None;
        };
        Some(Message { pgn, bytes })
    }

    /// The PGN of its group.
    pub fn pgn(&self) -> Pgn
        ensures { result ≡ self.now.pgn }
    {
        self.pgn
    }

    /// How many bytes it has.
    pub fn size(&self) -> Size
        ensures { result ≡ length self.now.bytes }
    {
        let Some(size) = Size::new(self.bytes.len() as u16) else {
            unreachable!()
        };
        size
    }

    /// The seven bytes that a data packet of this number carries, filled up with unused ones.
    pub fn chunk(&self, number: u8) -> Chunk
        ensures { result ≡ chunk self.now.bytes number }
    {
        let start = PACKET_BYTES * usize::from(number.saturating_sub(1));
        let rest = match self.bytes.get(start..) {
            Some(rest) => rest,
            None => &[],
        };
        filled(&rest[..rest.len().min(PACKET_BYTES)])
    }

    /// The bytes of the message.
    pub fn bytes(&self) -> &[u8]
        ensures value { result.now ≡ self.now.bytes }
        ensures range { IsSize (length self.now.bytes) }
    {
        self.bytes.as_slice()
    }
}

// At most seven bytes, filled up with unused ones.
fn filled(part: &[u8]) -> Chunk
    requires { length part.now ≤ packet_bytes }
    ensures { result ≡ part.now ++ replicate (packet_bytes - length part.now) unused }
{
    let mut chunk = [UNUSED; PACKET_BYTES];
    chunk[..part.len()].copy_from_slice(part);
    chunk
}
