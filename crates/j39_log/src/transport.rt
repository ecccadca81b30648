//! The transport packet that a frame of a log is.
ghost use Rattle.std.specs.Prelude.{◌↔◌, IsTrue, IfSome, IfNone};
ghost use Rattle.j39_tp.specs.Packets.{DataReads, InRange, ManagementReads};
ghost use Rattle.j39_tp.specs.declared.packet.Packet.{Packet as APacket};
ghost use Rattle.j39_log.specs.LogFrames.{IsPacket, IsSentTo};

use j39_id::Frame;
use j39_id::addresses::GLOBAL_ADDRESS;
use j39_id::services::{CONNECTION_MANAGEMENT, DATA_TRANSFER};
use j39_tp::{Packet, from_cm, from_dt};

// Whether a packet may be sent to this address: an announcement to all goes to all, and one to a unit doesn't.
fn is_sent_to(packet: &Packet, destination: u8) -> bool
    ensures { IsTrue result ↔ IsSentTo packet.now destination }
{
    match packet {
        Packet::Bam { .. } => destination == GLOBAL_ADDRESS,
        Packet::Rts { .. } => destination != GLOBAL_ADDRESS,
        _ => true,
    }
}

// The connection management packet that a frame of that group is.
fn management_packet(frame: &Frame) -> Option<Packet>
    ensures found { IfSome result (λ p. ManagementReads frame.now.payload.items p × IsSentTo p frame.now.ident.ps
        × InRange p) }
    ensures none { IfNone result ((p : APacket) → ManagementReads frame.now.payload.items p
        → ¬ IsSentTo p frame.now.ident.ps) }
{
    let Ok(packet) = from_cm(frame.payload.as_slice()) else {
        return None;
    };
    if is_sent_to(&packet, frame.ident.ps) {
        Some(packet)
    } else {
        None
    }
}

// The data packet that a frame of that group is.
fn data_packet(frame: &Frame) -> Option<Packet>
    ensures found { IfSome result (λ p. DataReads frame.now.payload.items p × InRange p) }
    ensures none { IfNone result ((p : APacket) → ¬ DataReads frame.now.payload.items p) }
{
    match from_dt(frame.payload.as_slice()) {
        Ok(packet) => Some(packet),
        Err(_) => None,
    }
}

/// The transport packet that a frame is.
pub fn transport_packet(frame: &Frame) -> Option<Packet>
    ensures found { IfSome result (λ p. IsPacket frame.now p × InRange p) }
    ensures none { IfNone result ((p : APacket) → ¬ IsPacket frame.now p) }
{
    let pgn = frame.ident.pgn();
    if pgn == CONNECTION_MANAGEMENT {
        management_packet(frame)
    } else if pgn == DATA_TRANSFER {
        data_packet(frame)
    } else {
        None
    }
}
