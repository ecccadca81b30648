//! Transport packets of other lengths and of each first byte.

use j39_id::Pgn;
use j39_tp::{Packet, PacketError, Size, from_cm, from_dt};
use std::test::Fail;

// Bytes, and why eight of them are no packet of connection management.
const MANAGEMENT: [([u8; 9], Option<PacketError>); 6] = [
    (
        *b"\x10\x11\x00\x04\xFF\xEC\xFE\x00\x00",
        Some(PacketError::Count),
    ),
    (
        *b"\x20\x08\x00\x02\xFF\xEC\xFE\x00\x00",
        Some(PacketError::Size),
    ),
    (
        *b"\x14\x11\x00\x03\xFF\xEC\xFE\x00\x00",
        Some(PacketError::Control),
    ),
    (
        *b"\x11\x03\x00\xFF\xFF\xEC\xFE\x00\x00",
        Some(PacketError::Number),
    ),
    (
        *b"\x20\x11\x00\x03\xFF\x01\xEE\x00\x00",
        Some(PacketError::Group),
    ),
    (*b"\x11\x03\x01\x00\x00\xEC\xFE\x00\x00", None),
];

// Bytes, and why eight of them are no data packet.
const DATA: [([u8; 9], Option<PacketError>); 2] = [
    (
        *b"\x00\x00\x01\x02\x03\x04\x05\x06\x00",
        Some(PacketError::Number),
    ),
    (*b"\x01\x00\x01\x02\x03\x04\x05\x06\x00", None),
];

// Why so many bytes are refused, where eight are refused for this.
fn wanted(length: usize, fault: Option<PacketError>) -> Option<PacketError> {
    if length == 8 {
        fault
    } else {
        Some(PacketError::Length)
    }
}

#[test]
fn eight_bytes_alone_are_looked_at(rt: HostRuntime) {
    for length in 0..=9 {
        for (bytes, fault) in MANAGEMENT {
            assert!(rt;
                from_cm(&bytes[..length]).err() == wanted(length, fault),
                "at {length}"
            );
        }
        for (bytes, fault) in DATA {
            assert!(rt;
                from_dt(&bytes[..length]).err() == wanted(length, fault),
                "at {length}"
            );
        }
    }
}

// What the bytes of this first one and 11 00 03 FF EC FE 00 are: 17 bytes in 3 packets of group 65260.
fn packet_of(first: u8, size: Size, pgn: Pgn) -> Result<Packet, PacketError> {
    match first {
        0x10 => Ok(Packet::Rts {
            size,
            limit: 255,
            pgn,
        }),
        0x11 => Err(PacketError::Number),
        0x13 => Ok(Packet::EndAck { size, pgn }),
        0x20 => Ok(Packet::Bam { size, pgn }),
        0xFF => Ok(Packet::Abort { reason: 17, pgn }),
        _ => Err(PacketError::Control),
    }
}

#[test]
fn five_first_bytes_alone_are_those_of_packets(rt: HostRuntime) -> Result<(), Fail> {
    let size = Size::new(17).ok_or("no size")?;
    let pgn = Pgn::new(65_260).ok_or("no group")?;
    for first in 0..=255_u8 {
        let found = from_cm(&[first, 0x11, 0x00, 0x03, 0xFF, 0xEC, 0xFE, 0x00]);
        assert!(rt; found == packet_of(first, size, pgn), "at {first}");
    }
    Ok(())
}
