//! How long a frame is on the bus.
ghost use Rattle.std.specs.Prelude.{◌≡◌};
ghost use Rattle.j39_timing.specs.FrameBits.{longest_frame};

/// The bits of an error frame: its flag and an echo of it, the delimiter, the intermission and the eight bits for which
/// a sender that saw errors holds back.
pub const ERROR_FRAME: u16 = 31;

/// The most bits of a frame with a 29-bit identifier and so many bytes (0 to 8), its stuff bits and the intermission
/// behind it included: 80 for none, 160 for eight (Davis and others 2007).
pub fn frame_bits(bytes: u8) -> u16
    ensures length { result ≡ longest_frame bytes }
{
    80 + 10 * u16::from(bytes)
}
