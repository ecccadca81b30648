//! Announcements: which of them are right, and the sessions that they begin.
ghost use Rattle.std.specs.Prelude.{◌≡◌, length, true};
ghost use Rattle.j39_sessions.specs.SessionFrames.{announcement_role, announces, announces_rightly, begins_with};
ghost use Rattle.j39_sessions.specs.SessionFrames.{states_size, goes_rightly, has_size, is_right};
ghost use Rattle.j39_sessions.specs.SessionFrames.{limit_in, session_opened};
ghost use Rattle.j39_tp.specs.Packets.{pgn_in};

use crate::role::Role;
use crate::session::{LoggedSession, NUMBERS};
use j39_id::addresses::{GLOBAL_ADDRESS, NULL_ADDRESS};
use j39_id::services::CONNECTION_MANAGEMENT;
use j39_id::{Frame, Ident, number_of_bytes};
use j39_tp::Size;

// The first bytes of announcements to one and to all (SAE J1939-21).
const RTS: u8 = 16;

const BAM: u8 = 32;

const EIGHT: usize = 8;

/// Whether bytes begin with this one.
pub(crate) fn begins_with(bytes: &[u8], control: u8) -> bool
    ensures { result ≡ begins_with control bytes.now }
{
    !bytes.is_empty() && bytes[0] == control
}

/// Whether bytes of connection management announce a message.
pub(crate) fn announces(bytes: &[u8]) -> bool
    ensures { result ≡ announces bytes.now }
{
    begins_with(bytes, RTS) || begins_with(bytes, BAM)
}

// Whether eight bytes give the size of a message and its number of packets.
fn has_size(bytes: &[u8]) -> bool
    requires { length bytes.now ≡ 8 }
    ensures { result ≡ has_size bytes.now }
{
    match Size::new(u16::from_le_bytes([bytes[1], bytes[2]])) {
        Some(size) => bytes[3] == size.packets(),
        None => false,
    }
}

fn states_size(bytes: &[u8]) -> bool
    ensures { result ≡ states_size bytes.now }
{
    bytes.len() == EIGHT && has_size(bytes)
}

// Whether an announcement goes where one may: to one other address, or to all.
fn goes_rightly(ident: Ident, bytes: &[u8]) -> bool
    ensures { result ≡ goes_rightly ident bytes.now }
{
    if begins_with(bytes, RTS) {
        ident.ps < NULL_ADDRESS && ident.ps != ident.sa
    } else {
        ident.ps == GLOBAL_ADDRESS
    }
}

fn is_right(ident: Ident, bytes: &[u8]) -> bool
    ensures same { result ≡ is_right ident bytes.now }
    ensures eight { result ≡ true → length bytes.now ≡ 8 }
{
    states_size(bytes) && goes_rightly(ident, bytes)
}

/// Whether a frame announces nothing, or as an announcement may: with eight bytes, a size of 9 to 1785 and the packets
/// of this size, an RTS to another address up to 253, a BAM to all (SAE J1939-21).
pub fn announces_rightly(frame: &Frame) -> bool
    ensures { result ≡ announces_rightly frame.now }
{
    let bytes = frame.payload.as_slice();
    frame.ident.pgn() != CONNECTION_MANAGEMENT
        || (!announces(bytes) || is_right(frame.ident, bytes))
}

/// The group in the last three of eight bytes.
pub(crate) fn group_in(bytes: &[u8]) -> u32
    requires { length bytes.now ≡ 8 }
    ensures { result ≡ pgn_in bytes.now }
{
    number_of_bytes([bytes[5], bytes[6], bytes[7]])
}

// The limit that a byte gives: any number where it is 0.
fn limit_in(fifth: u8) -> u8
    ensures { result ≡ limit_in fifth }
{
    if fifth == 0 { u8::MAX } else { fifth }
}

// The session that an RTS begins.
fn session_opened(bytes: &[u8]) -> LoggedSession
    requires { length bytes.now ≡ 8 }
    ensures { result ≡ session_opened bytes.now }
{
    LoggedSession {
        group: group_in(bytes),
        size: u16::from_le_bytes([bytes[1], bytes[2]]),
        count: bytes[3],
        limit: limit_in(bytes[4]),
        greatest: 0,
        sent: [false; NUMBERS],
    }
}

/// What an announcement is to the sessions of two addresses.
pub(crate) fn announcement_role(ident: Ident, bytes: &[u8]) -> Role
    ensures { result ≡ announcement_role ident bytes.now }
{
    if !is_right(ident, bytes) {
        Role::Breaks
    } else if begins_with(bytes, RTS) && ident.sa < NULL_ADDRESS {
        Role::Begins(session_opened(bytes))
    } else {
        Role::Nothing
    }
}
