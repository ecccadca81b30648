//! Unpacking bytes into packets.
ghost use Rattle.std.specs.Prelude.{◌≡◌, ◌+◌, ◌*◌, ◌==◌, not, IfOk, IfErr, if◌then◌else◌, [], ◌∷◌};
ghost use Rattle.j39_id.specs.FirstFault.{first_fault};
ghost use Rattle.j39_id.specs.Pgn.{is_pgn, number_of_bytes};
ghost use Rattle.j39_tp.specs.Chunks.{packets_of};
ghost use Rattle.j39_tp.specs.Packets.{is_size, InRange, ManagementReads, DataReads, management_faults, data_faults};

use super::control::{ABORT, BAM, CTS, END_ACK, RTS};
use crate::{Packet, PacketError, Size, known_ranges};
use j39_id::Pgn;

// The size that two bytes give, whose number of packets must be this.
fn size_of(low: u8, high: u8, packets: u8) -> Result<Size, PacketError>
    ensures { result ≡
        (if not (is_size (low + 256 * high)) then Err PacketError.Size
        else if not (packets == packets_of (low + 256 * high)) then Err PacketError.Count
        else Ok (low + 256 * high)) }
{
    let Some(size) = Size::new(u16::from_le_bytes([low, high])) else {
        return Err(PacketError::Size);
    };
    if size.packets() != packets {
        return Err(PacketError::Count);
    }
    Ok(size)
}

// The PGN that three bytes give.
fn pgn_of(low: u8, middle: u8, high: u8) -> Result<Pgn, PacketError>
    ensures { result ≡
        (if is_pgn (number_of_bytes (low ∷ middle ∷ high ∷ [])) then Ok (number_of_bytes (low ∷ middle ∷ high ∷ []))
        else Err PacketError.Group) }
{
    let Some(pgn) = Pgn::from_bytes([low, middle, high]) else {
        return Err(PacketError::Group);
    };
    Ok(pgn)
}

// A connection management packet that the bytes are, or their first fault.
fn managed(bytes: &[u8]) -> Result<Packet, PacketError>
    ensures found { IfOk result (ManagementReads bytes.now) }
    ensures refused { IfErr result (λ e. first_fault (management_faults bytes.now) ≡ Some e) }
{
    let &[control, second, third, fourth, fifth, low, middle, high] = bytes else {
        return Err(PacketError::Length);
    };
    let pgn = pgn_of(low, middle, high);
    match control {
        RTS => Ok(Packet::Rts {
            size: size_of(second, third, fourth)?,
            limit: fifth,
            pgn: pgn?,
        }),
        CTS if second > 0 && third == 0 => Err(PacketError::Number),
        CTS => Ok(Packet::Cts {
            count: second,
            first: third,
            pgn: pgn?,
        }),
        END_ACK => Ok(Packet::EndAck {
            size: size_of(second, third, fourth)?,
            pgn: pgn?,
        }),
        BAM => Ok(Packet::Bam {
            size: size_of(second, third, fourth)?,
            pgn: pgn?,
        }),
        ABORT => Ok(Packet::Abort {
            reason: second,
            pgn: pgn?,
        }),
        _ => Err(PacketError::Control),
    }
}

/// The connection management packet (TP.CM of SAE J1939-21) that the bytes are; a byte without a meaning may be
/// anything. The refusals are Length, Control, Size, Count, Number and Group, the first that holds.
pub fn from_cm(bytes: &[u8]) -> Result<Packet, PacketError>
    ensures found { IfOk result (ManagementReads bytes.now) }
    ensures range { IfOk result InRange }
    ensures refused { IfErr result (λ e. first_fault (management_faults bytes.now) ≡ Some e) }
    ensures only { (p : Packet) → ManagementReads bytes.now p → result ≡ Ok p }
{
    let packet = managed(bytes)?;
    known_ranges(&packet);
    Ok(packet)
}

/// The data packet (TP.DT of SAE J1939-21) that the bytes are. The refusals are Length and Number, the first that
/// holds.
pub fn from_dt(bytes: &[u8]) -> Result<Packet, PacketError>
    ensures found { IfOk result (DataReads bytes.now) }
    ensures range { IfOk result InRange }
    ensures refused { IfErr result (λ e. first_fault (data_faults bytes.now) ≡ Some e) }
    ensures only { (p : Packet) → DataReads bytes.now p → result ≡ Ok p }
{
    let &[number, first, second, third, fourth, fifth, sixth, seventh] = bytes else {
        return Err(PacketError::Length);
    };
    if number == 0 {
        return Err(PacketError::Number);
    }
    Ok(Packet::Dt {
        number,
        chunk: [first, second, third, fourth, fifth, sixth, seventh],
    })
}
