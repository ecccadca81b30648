//! How many bytes are sent at once (SAE J1939-21), and how many units a network has.

/// The bytes that a frame has room for.
pub const FRAME_BYTES: usize = 8;

/// The bytes of a message in each data packet of the transport protocol.
pub const PACKET_BYTES: usize = 7;

/// The bytes of the longest message: those of 255 packets.
pub const MESSAGE_BYTES: usize = 1785;

/// The most units of a network.
pub const UNIT_LIMIT: usize = 128;
