//! Parameter group numbers.
ghost use Rattle.std.specs.Prelude.{◌≡◌, ℕ, ◌<◌, ◌↔◌, IsTrue, IsSome, IfSome};
ghost use Rattle.j39_id.specs.Pgn.{number_of_bytes, pdu2_first, pf_of};

use std::marker::Model;

/// The first PF of PDU2, whose frames name no destination.
pub const PDU2_FIRST: u8 = 240;

/// From this one on group numbers have the extended data page.
pub const EXTENDED_PAGE: u32 = 1 << 17;

// Group numbers have 18 bits.
const PGN_END: u32 = 1 << 18;

/// A parameter group number (SAE J1939-21): EDP, DP, PF and, in PDU2, PS.
///
/// A number of 18 bits. In PDU1, where the PF is below `PDU2_FIRST`, the frame names its destination in place of a
/// group extension, and the low byte is 0.
#[derive(Clone, Copy, PartialEq, Eq, PartialOrd, Ord)]
pub struct Pgn {
    pub(crate) number: u32,
}

impl Model for Pgn {
    ghost use Rattle.std.specs.Prelude.{ℕ};
    ghost use Rattle.j39_id.specs.Pgn.{IsPgn};

    ghost Value = { ℕ };

    ghost view = { λ p. p.number };

    ghost invariant = { λ p. IsPgn p.number };

    ghost inverse = { λ n. record { number = n } };
}

/// The PF of a group number.
pub fn pf_of(number: u32) -> u8
    ensures { result ≡ pf_of number }
{
    (number >> 8 & 0xff) as u8
}

/// The number that three bytes are, the least significant first; it may be no group's.
pub fn number_of_bytes(bytes: [u8; 3]) -> u32
    ensures { result ≡ number_of_bytes bytes }
{
    let [low, middle, high] = bytes;
    u32::from_le_bytes([low, middle, high, 0])
}

impl Pgn {
    ghost use Rattle.j39_id.specs.Pgn.{IsPgn, number_of_bytes, pgn_bytes};

    /// The group number, or `None` from 2^18 on and for a PDU1 number whose low byte is not 0.
    pub fn new(number: u32) -> Option<Self>
        ensures valid { IsSome result ↔ IsPgn number }
        ensures value { IfSome result (λ p. p ≡ number) }
    {
        if number < PGN_END && (pf_of(number) >= PDU2_FIRST || number & 0xff == 0) {
            Some(Pgn { number })
        } else {
            None
        }
    }

    /// The number, below 2^18.
    pub fn number(self) -> u32
        ensures value { result ≡ self }
        ensures range { IsPgn self }
    {
        self.number
    }

    /// The three bytes that are sent, the least significant first.
    pub fn to_bytes(self) -> [u8; 3]
        ensures { result ≡ pgn_bytes self }
    {
        let [low, middle, high, _] = self.number().to_le_bytes();
        [low, middle, high]
    }

    /// The group number that was sent in three bytes, the least significant first, or `None` as `new` says.
    pub fn from_bytes(bytes: [u8; 3]) -> Option<Self>
        ensures valid { IsSome result ↔ IsPgn (number_of_bytes bytes) }
        ensures value { IfSome result (λ p. p ≡ number_of_bytes bytes) }
    {
        Pgn::new(number_of_bytes(bytes))
    }

    /// Whether the group's frames name a destination.
    pub fn is_pdu1(self) -> bool
        ensures { IsTrue result ↔ (pf_of self < pdu2_first) }
    {
        pf_of(self.number) < PDU2_FIRST
    }
}
