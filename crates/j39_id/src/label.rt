//! Labels.
use arrayvec::ArrayString;

/// A short text of at most 32 bytes, held in place.
pub type Label = ArrayString<32>;
