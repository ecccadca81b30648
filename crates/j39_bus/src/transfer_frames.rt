//! The frames of transfers.
ghost use Rattle.std.specs.Prelude.{◌≡◌, ◌≤◌, length};
ghost use Rattle.j39_world.specs.Sent.{sent_of};
ghost use Rattle.j39_world.specs.SentTransfers.{packet_frame, short_frame};

use crate::claim_frames::payload_of;
use j39_id::services::{CONNECTION_MANAGEMENT, DATA_TRANSFER, TRANSPORT_PRIORITY};
use j39_id::{Frame, Ident};
use j39_tp::{Packet, to_data};
use j39_world::Flow;

/// The frame of a transport packet to one address from another.
pub(crate) fn packet_frame(destination: u8, source: u8, packet: &Packet) -> Frame
    ensures { sent_of result ≡ packet_frame destination source packet.now }
{
    let pgn = match packet {
        Packet::Dt { .. } => DATA_TRANSFER,
        _ => CONNECTION_MANAGEMENT,
    };
    Frame {
        ident: Ident::new(TRANSPORT_PRIORITY, pgn, destination, source),
        payload: payload_of(&to_data(packet)),
    }
}

/// The frame of a message of at most eight bytes.
pub(crate) fn short_frame(destination: u8, source: u8, flow: &Flow, bytes: &[u8]) -> Frame
    requires priority { flow.now.priority ≤ 7 }
    requires length { length bytes.now ≤ 8 }
    ensures { sent_of result ≡ short_frame destination source flow.now bytes.now }
{
    Frame {
        ident: Ident::new(flow.priority, flow.pgn, destination, source),
        payload: payload_of(bytes),
    }
}
