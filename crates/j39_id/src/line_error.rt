//! Why a frame line is refused.
use thiserror::Error;

/// Why a line spells no frame: the first that holds, in this order. The text of each is its name.
#[derive(Clone, Copy, Debug, Error)]
pub enum LineError {
    /// The line has no word.
    #[error("Empty")]
    Empty,
    /// Its last word has no `#`.
    #[error("NoHash")]
    NoHash,
    /// Three hex digits stand before the first `#`, as for an 11-bit identifier.
    #[error("ShortIdent")]
    ShortIdent,
    /// What stands there is not eight hex digits of a number below 2^29.
    #[error("BadIdent")]
    BadIdent,
    /// More than 16 bytes stand after the first `#`.
    #[error("TooLong")]
    TooLong,
    /// They are an odd count, or one of them is no hex digit.
    #[error("BadData")]
    BadData,
}
