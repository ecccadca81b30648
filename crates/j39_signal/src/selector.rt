//! Bits that report whose layout a payload has.
ghost use Rattle.std.specs.Prelude.{◌≤◌, ◌<◌, ◌^◌};

/// Bits of a payload, and the number that they have in each message of a group: a command byte, by which groups of one
/// number are distinguished.
#[derive(Clone, Copy)]
pub struct Selector {
    /// The place of the lowest bit, counted from 0.
    pub start: u16,
    /// The width in bits, 1 to 32.
    pub bits: u8,
    pub value: u32,
    pub ghost some_bits: { 1 ≤ bits },
    pub ghost most_bits: { bits ≤ 32 },
    pub ghost value_range: { value < 2 ^ bits },
}
