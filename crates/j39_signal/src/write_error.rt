//! Why a value can't be written.
use thiserror::Error;

/// Why a value can't be written: it has no raw number in the signal, or there is no such signal in the payload.
#[derive(Clone, Copy, Debug, PartialEq, Eq, Error)]
pub enum WriteError {
    /// The value isn't a whole number of steps from the offset.
    #[error("the value is not on a step")]
    NotOnStep,
    /// The value is on a step, but no raw number stands for it.
    #[error("the value is out of range")]
    OutOfRange,
    /// The signal is optional, and ends behind the payload.
    #[error("the signal is not there")]
    NotThere,
}
