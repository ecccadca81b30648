//! The first byte of each packet of connection management (SAE J1939-21).

pub(crate) const RTS: u8 = 16;

pub(crate) const CTS: u8 = 17;

pub(crate) const END_ACK: u8 = 19;

pub(crate) const BAM: u8 = 32;

pub(crate) const ABORT: u8 = 255;
