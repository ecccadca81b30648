//! What a frame is to the sessions of two addresses, by its group and its bytes.
ghost use Rattle.std.specs.Prelude.{◌≡◌, length, true};
ghost use Rattle.j39_sessions.specs.SessionFrames.{clearance_in, clears, data_role, is_whole_control};
ghost use Rattle.j39_sessions.specs.SessionFrames.{management_role, receipt_of, role_of};

use crate::opening::{announcement_role, announces, begins_with, group_in};
use crate::role::{Clearance, Receipt, Role};
use j39_id::services::{CONNECTION_MANAGEMENT, DATA_TRANSFER};
use j39_id::{Frame, Ident};

// The first bytes of what receivers send (SAE J1939-21).
const CTS: u8 = 17;

const END_ACK: u8 = 19;

const EIGHT: usize = 8;

// Whether eight bytes of connection management begin with this one.
fn is_whole_control(bytes: &[u8], control: u8) -> bool
    ensures same { result ≡ is_whole_control control bytes.now }
    ensures eight { result ≡ true → length bytes.now ≡ 8 }
{
    bytes.len() == EIGHT && begins_with(bytes, control)
}

// Whether bytes of connection management are a CTS that clears a packet or more.
fn clears(bytes: &[u8]) -> bool
    ensures same { result ≡ clears bytes.now }
    ensures eight { result ≡ true → length bytes.now ≡ 8 }
{
    is_whole_control(bytes, CTS) && bytes[1] >= 1
}

fn clearance_in(bytes: &[u8]) -> Clearance
    requires { length bytes.now ≡ 8 }
    ensures { result ≡ clearance_in bytes.now }
{
    Clearance {
        group: group_in(bytes),
        count: bytes[1],
        first: bytes[2],
    }
}

fn receipt_of(bytes: &[u8]) -> Receipt
    requires { length bytes.now ≡ 8 }
    ensures { result ≡ receipt_of bytes.now }
{
    Receipt {
        group: group_in(bytes),
        size: u16::from_le_bytes([bytes[1], bytes[2]]),
        count: bytes[3],
    }
}

// What a frame of connection management is.
fn management_role(ident: Ident, bytes: &[u8]) -> Role
    ensures { result ≡ management_role ident bytes.now }
{
    if announces(bytes) {
        announcement_role(ident, bytes)
    } else if clears(bytes) {
        Role::Clears(clearance_in(bytes))
    } else if is_whole_control(bytes, END_ACK) {
        Role::Acknowledges(receipt_of(bytes))
    } else {
        Role::Nothing
    }
}

// What a frame of data is.
fn data_role(bytes: &[u8]) -> Role
    ensures { result ≡ data_role bytes.now }
{
    if bytes.is_empty() {
        Role::Nothing
    } else {
        Role::Carries(bytes[0])
    }
}

/// What a frame is to the sessions of two addresses.
#[tactic(auto, unfolding(crate::specs::SessionFrames::role_of))]
pub(crate) fn role_of(frame: &Frame) -> Role
    ensures { result ≡ role_of frame.now }
{
    let pgn = frame.ident.pgn();
    if pgn == CONNECTION_MANAGEMENT {
        management_role(frame.ident, frame.payload.as_slice())
    } else if pgn == DATA_TRANSFER {
        data_role(frame.payload.as_slice())
    } else {
        Role::Nothing
    }
}
