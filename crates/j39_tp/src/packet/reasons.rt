//! Why a session is given up: the reasons of an Abort (SAE J1939-21, connection abort).

/// Nothing was heard in time.
pub(crate) const TIMEOUT: u8 = 3;

/// A CTS came while data was being sent.
pub(crate) const CTS_WHILE_SENDING: u8 = 4;

/// A packet was asked for too often.
pub(crate) const ASKED_TOO_OFTEN: u8 = 5;
