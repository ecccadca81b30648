//! Why signals make no layout.
use thiserror::Error;

/// Why signals don't lay out a payload, by the places of the signals from 0.
#[derive(Clone, Copy, Debug, PartialEq, Eq, Error)]
pub enum LayoutError {
    /// The length isn't 1..=1785 bytes.
    #[error("the length is out of range")]
    Length,
    /// The width of the signal doesn't fit its kind.
    #[error("signal {0} has a width that its kind can't have")]
    Width(usize),
    /// The signal ends behind the payload.
    #[error("signal {0} ends behind the payload")]
    Outside(usize),
    /// The signals share a bit; the first is the least that does with the second.
    #[error("signals {0} and {1} share a bit")]
    Overlap(usize, usize),
    /// Memory was refused.
    #[error("out of memory")]
    Memory,
}
