//! How far a cutter came in a piece.
use crate::Cut;

/// How far a cutter came in a piece: the first answer that is not More, or More behind a part of it that has none.
#[derive(Clone, Copy)]
pub struct Advance<'p> {
    pub cut: Cut,
    /// How many bytes of the piece were looked at.
    pub used: usize,
    /// The line, where it lies whole in the piece; the cutter gives any other.
    pub whole: Option<&'p [u8]>,
}
