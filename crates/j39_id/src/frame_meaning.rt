//! What a frame of the network itself says: a claim of an address, that none could be claimed, or a request.
ghost use Rattle.std.specs.Prelude.{◌≡◌, length};
ghost use Rattle.j39_id.specs.FrameMeaning.{cannot_claim, carries_name, claims_address, name_in, requested_group};
ghost use Rattle.j39_id.specs.FrameMeaning.{requests_group};

use crate::addresses::NULL_ADDRESS;
use crate::services::{ADDRESS_CLAIMED, REQUEST};
use crate::{Frame, Name, number_of_bytes};

// Whether the frame carries the NAME of a unit.
#[inline(always)]
fn carries_name(frame: &Frame) -> bool
    ensures { result ≡ carries_name frame.now }
{
    frame.ident.edp == 0 && frame.ident.pgn() == ADDRESS_CLAIMED && frame.payload.len() == 8
}

/// Whether a unit claims the address that the frame is sent from (SAE J1939-81).
#[inline(always)]
pub fn claims_address(frame: &Frame) -> bool
    ensures { result ≡ claims_address frame.now }
{
    carries_name(frame) && frame.ident.sa < NULL_ADDRESS
}

/// Whether a unit says that it can't claim an address (SAE J1939-81).
#[inline(always)]
pub fn cannot_claim(frame: &Frame) -> bool
    ensures { result ≡ cannot_claim frame.now }
{
    carries_name(frame) && frame.ident.sa == NULL_ADDRESS
}

/// The NAME in the eight bytes of a claim.
pub fn carried_name(frame: &Frame) -> Name
    requires { length frame.now.payload.items ≡ 8 }
    ensures { result ≡ name_in frame.now }
{
    let mut bytes = [0; 8];
    bytes.copy_from_slice(frame.payload.as_slice());
    Name::from_bytes(bytes)
}

/// Whether a unit asks for a group (SAE J1939-21).
#[inline(always)]
pub fn requests_group(frame: &Frame) -> bool
    ensures { result ≡ requests_group frame.now }
{
    frame.ident.edp == 0 && frame.ident.pgn() == REQUEST && frame.payload.len() == 3
}

/// The number in the three bytes of a request, which may be no group's.
pub fn requested_group(frame: &Frame) -> u32
    requires { length frame.now.payload.items ≡ 3 }
    ensures { result ≡ requested_group frame.now }
{
    let payload = frame.payload.as_slice();
    number_of_bytes([payload[0], payload[1], payload[2]])
}
