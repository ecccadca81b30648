//! Packing packets into bytes.
ghost use Rattle.std.specs.Prelude.{◌≡◌, ◌∷◌, ◌++◌};
ghost use Rattle.j39_tp.specs.Packets.{data_of, size_bytes};
ghost use Rattle.j39_id.specs.Pgn.{pgn_bytes};

use super::UNUSED;
use super::control::{ABORT, BAM, CTS, END_ACK, RTS};
use crate::{Chunk, Packet, Size};
use j39_id::Pgn;

// A connection management packet: its own bytes and the PGN.
fn managed(fields: [u8; 5], pgn: Pgn) -> [u8; 8]
    ensures { result ≡ fields ++ pgn_bytes pgn }
{
    let [control, second, third, fourth, fifth] = fields;
    let [low, middle, high] = pgn.to_bytes();
    [control, second, third, fourth, fifth, low, middle, high]
}

// A connection management packet that gives a size.
fn sized(control: u8, size: Size, limit: u8, pgn: Pgn) -> [u8; 8]
    ensures { result ≡ control ∷ size_bytes size (limit ∷ pgn_bytes pgn) }
{
    let [low, high] = size.bytes().to_le_bytes();
    managed([control, low, high, size.packets(), limit], pgn)
}

// A data packet: its number and its chunk.
fn numbered(number: u8, chunk: Chunk) -> [u8; 8]
    ensures { result ≡ number ∷ chunk }
{
    let [first, second, third, fourth, fifth, sixth, seventh] = chunk;
    [number, first, second, third, fourth, fifth, sixth, seventh]
}

/// The eight bytes of the packet as SAE J1939-21 lays them out, unused ones being 255.
pub fn to_data(packet: &Packet) -> [u8; 8]
    ensures { result ≡ data_of packet.now }
{
    match *packet {
        Packet::Rts { size, limit, pgn } => sized(RTS, size, limit, pgn),
        Packet::Cts { count, first, pgn } => managed([CTS, count, first, UNUSED, UNUSED], pgn),
        Packet::EndAck { size, pgn } => sized(END_ACK, size, UNUSED, pgn),
        Packet::Bam { size, pgn } => sized(BAM, size, UNUSED, pgn),
        Packet::Abort { reason, pgn } => managed([ABORT, reason, UNUSED, UNUSED, UNUSED], pgn),
        Packet::Dt { number, chunk } => numbered(number, chunk),
    }
}
