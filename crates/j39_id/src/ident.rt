//! The 29-bit identifier of a frame.
ghost use Rattle.std.specs.Prelude.{◌≡◌, ◌<◌, ◌≤◌, ◌↔◌, IsSome, IfSome};

use crate::{PDU2_FIRST, Pgn, pf_of};

/// Identifiers have 29 bits: the first number that is none.
pub const IDENTIFIER_END: u32 = 1 << 29;

// So many identifiers have one priority.
const PRIORITY_SIZE: u64 = 1 << 26;

/// The 29-bit identifier of a frame (SAE J1939-21), by its parts.
///
/// `priority` has 3 bits, `edp` (extended data page) and `dp` (data page) one each, and `pf` (PDU format), `ps` (PDU
/// specific) and `sa` (source address) eight each, from the highest bit down.
#[derive(Clone, Copy)]
pub struct Ident {
    pub priority: u8,
    pub edp: u8,
    pub dp: u8,
    pub pf: u8,
    pub ps: u8,
    pub sa: u8,
    ghost priority_range: { priority < 8 },
    ghost edp_range: { edp < 2 },
    ghost dp_range: { dp < 2 },
    ghost pf_range: { pf < 256 },
    ghost ps_range: { ps < 256 },
    ghost sa_range: { sa < 256 },
}

impl Ident {
    ghost use Rattle.j39_id.specs.Ident.{bits, identifier_end, pgn_of, identifier_of};
    ghost use Rattle.j39_id.specs.Pgn.{pdu2_first};

    /// The identifier of a frame of this group. A group whose frames name no destination has that place for itself.
    pub fn new(priority: u8, pgn: Pgn, destination: u8, source: u8) -> Self
        requires { priority < 8 }
        ensures number { bits result ≡ identifier_of priority pgn destination source }
        ensures pgn { pgn_of result ≡ pgn }
    {
        let number = pgn.number();
        Ident {
            priority,
            edp: (number >> 17) as u8,
            dp: (number >> 16 & 1) as u8,
            pf: pf_of(number),
            ps: if pgn.is_pdu1() {
                destination
            } else {
                (number & 0xff) as u8
            },
            sa: source,
        }
    }

    /// The number of the identifier by which a group is sent. The group's number may be none, and the priority may be
    /// above 7.
    pub fn number_of(priority: u8, pgn: u32, destination: u8, source: u8) -> u64
        ensures { result ≡ identifier_of priority pgn destination source }
    {
        let named = if pf_of(pgn) >= PDU2_FIRST {
            0
        } else {
            u64::from(destination) * 256
        };
        u64::from(priority) * PRIORITY_SIZE + u64::from(pgn) * 256 + named + u64::from(source)
    }

    /// The identifier with this number, or `None` from 2^29 on.
    pub fn from_bits(number: u32) -> Option<Self>
        ensures valid { IsSome result ↔ (number < identifier_end) }
        ensures value { IfSome result (λ i. bits i ≡ number) }

        // Only this identifier has this number.
        ensures only { (i : Ident) → bits i ≡ number → result ≡ Some i }
    {
        if number < IDENTIFIER_END {
            Some(Ident::parts_of(number))
        } else {
            None
        }
    }

    // The parts of a number of 29 bits.
    fn parts_of(number: u32) -> Self
        requires { number < identifier_end }
        ensures { bits result ≡ number }
    {
        Ident {
            priority: (number >> 26) as u8,
            edp: (number >> 25 & 1) as u8,
            dp: (number >> 24 & 1) as u8,
            pf: (number >> 16 & 0xff) as u8,
            ps: (number >> 8 & 0xff) as u8,
            sa: (number & 0xff) as u8,
        }
    }

    /// The number that is sent, below 2^29.
    pub fn to_bits(self) -> u32
        ensures value { result ≡ bits self }
        ensures range { result < identifier_end }
    {
        let page = (u32::from(self.priority) << 1 | u32::from(self.edp)) << 1 | u32::from(self.dp);
        ((page << 8 | u32::from(self.pf)) << 8 | u32::from(self.ps)) << 8 | u32::from(self.sa)
    }

    /// The group of the frame. Its number leaves out the PS of a PDU1 frame.
    pub fn pgn(self) -> Pgn
        ensures { result ≡ pgn_of self }
    {
        let extension = if self.pf >= PDU2_FIRST { self.ps } else { 0 };
        Pgn {
            number: ((u32::from(self.edp) << 1 | u32::from(self.dp)) << 8 | u32::from(self.pf)) << 8
                | u32::from(extension),
        }
    }

    /// The destination in the PS of a PDU1 frame, 255 for all, or `None` for PDU2: the group goes to all.
    pub fn destination(self) -> Option<u8>
        ensures one { self.pf < pdu2_first → result ≡ Some self.ps }
        ensures all { pdu2_first ≤ self.pf → result ≡ None }
    {
        if self.pf < PDU2_FIRST {
            Some(self.ps)
        } else {
            None
        }
    }
}
