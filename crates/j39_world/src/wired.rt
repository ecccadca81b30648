//! What is on the wire of a transfer.
ghost use Rattle.std.specs.Prelude.{◌≡◌, ◌≤◌, length};

use arrayvec::ArrayVec;
use j39_tp::Packet;
use std::marker::Model;

/// The bytes of a message of one frame: at most eight.
#[derive(Drop)]
pub struct Short {
    bytes: ArrayVec<u8, 8>,
}

impl Model for Short {
    ghost use Rattle.std.specs.Prelude.{ℕ, List};

    ghost Value = { List ℕ };

    ghost view = { λ s. s.bytes.items };
}

impl Short {
    /// The message of these bytes.
    pub fn new(bytes: &[u8]) -> Self
        requires { length bytes.now ≤ 8 }
        ensures { result ≡ bytes.now }
    {
        let mut payload = ArrayVec::new();
        let _ = payload.try_extend_from_slice(bytes);
        Short { bytes: payload }
    }

    /// The bytes of the frame or packet.
    pub fn bytes(&self) -> &[u8]
        ensures value { result.now ≡ self.now }
        ensures range { length result.now ≤ 8 }
    {
        self.bytes.as_slice()
    }
}

/// What one unit sends another of a message: a whole one of one frame, a transport packet, or a whole one that was sent
/// alone, beside whatever message its unit sends, with the place of its flow.
#[derive(Drop)]
pub enum Wired {
    Short(Short),
    Packet(Packet),
    Alone(usize, Short),
}

impl Wired {
    /// A second one of the same bytes.
    pub fn copy(&self) -> Self
        ensures { result ≡ self.now }
    {
        match self {
            Wired::Short(short) => Wired::Short(Short::new(short.bytes())),
            Wired::Packet(packet) => Wired::Packet(*packet),
            Wired::Alone(flow, short) => Wired::Alone(*flow, Short::new(short.bytes())),
        }
    }
}
