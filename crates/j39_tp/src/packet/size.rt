//! Sizes of messages.
ghost use Rattle.std.specs.Prelude.{◌≡◌, ℕ, ◌↔◌, IsSome, IfSome};
ghost use Rattle.j39_tp.specs.Chunks.{IsSize, packets_of};

use j39_id::limits::{FRAME_BYTES, MESSAGE_BYTES, PACKET_BYTES};
use std::marker::Model;

/// The size of a message that the transport protocol of SAE J1939-21 carries: 9 to 1785 bytes.
#[derive(Clone, Copy, PartialEq, Eq, PartialOrd, Ord)]
pub struct Size {
    bytes: u16,
}

impl Model for Size {
    ghost Value = { ℕ };

    ghost view = { λ s. s.bytes };

    ghost invariant = { λ s. IsSize s.bytes };

    ghost inverse = { λ n. record { bytes = n } };
}

impl Size {
    /// The size of so many bytes, `None` below 9 and above 1785.
    pub fn new(bytes: u16) -> Option<Self>
        ensures valid { IsSome result ↔ IsSize bytes }
        ensures value { IfSome result (λ s. s ≡ bytes) }
    {
        let count = usize::from(bytes);
        if count > FRAME_BYTES && count <= MESSAGE_BYTES {
            Some(Size { bytes })
        } else {
            None
        }
    }

    /// How many bytes.
    pub fn bytes(self) -> u16
        ensures value { result ≡ self }
        ensures range { IsSize self }
    {
        self.bytes
    }

    /// How many data packets carry them, seven bytes in each.
    pub fn packets(self) -> u8
        ensures { result ≡ packets_of self }
    {
        let Size { bytes } = self;
        bytes.div_ceil(PACKET_BYTES as u16) as u8
    }
}
