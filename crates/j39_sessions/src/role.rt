//! What a frame is to the sessions of two addresses.

use crate::session::LoggedSession;

/// Of a CTS: how many packets it clears, at least one, from which on, and the group of the message.
#[derive(Clone, Copy)]
pub struct Clearance {
    pub group: u32,
    pub count: u8,
    pub first: u8,
}

/// Of an acknowledgement: the group of the message, its bytes and its packets.
#[derive(Clone, Copy)]
pub struct Receipt {
    pub group: u32,
    pub size: u16,
    pub count: u8,
}

/// What a frame is to the sessions of two addresses.
#[derive(Clone, Copy)]
pub enum Role {
    /// It begins one: an RTS that is right.
    Begins(LoggedSession),
    /// It announces a message, and isn't right.
    Breaks,
    /// Its source has an RTS, and lets packets come.
    Clears(Clearance),
    /// Its source has the message whole.
    Acknowledges(Receipt),
    /// It is the packet of this number.
    Carries(u8),
    /// Nothing.
    Nothing,
}
