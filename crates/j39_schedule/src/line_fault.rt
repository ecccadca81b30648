//! Why a line of a schedule can't be read.
use thiserror::Error;

/// Why a line of a schedule can't be read: the first that holds, in this order. The text is the cause's name.
#[derive(Clone, Copy, Debug, Error)]
pub enum LineFault {
    /// More than 8,192 bytes stand before its end.
    #[error("LongLine")]
    LongLine,
    /// No order begins with its first word.
    #[error("UnknownWord")]
    UnknownWord,
    /// The order doesn't take this many values.
    #[error("WordCount")]
    WordCount,
    /// No unit of the plan has this label.
    #[error("UnknownLabel")]
    UnknownLabel,
    /// The number of the flow isn't 1 to 9 decimal digits.
    #[error("BadNumber")]
    BadNumber,
    /// The bytes aren't spelled by pairs of hex digits.
    #[error("BadHex")]
    BadHex,
}
