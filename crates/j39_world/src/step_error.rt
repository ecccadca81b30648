//! Why a bus refuses a step.
use thiserror::Error;

/// Why a step is refused, in the order of the checks. The text is the cause's name.
#[derive(Clone, Copy, Debug, Error)]
pub enum StepError {
    /// A unit that the step names is none of the plan.
    #[error("UnknownUnit")]
    UnknownUnit,
    /// The flow is none of the plan, goes to its own sender, or is one of a group that can't go to one unit.
    #[error("NoSuchFlow")]
    NoSuchFlow,
    /// A unit that the step names, the flow's sender or its one receiver isn't on. The unit whose item a `Give`
    /// delivers may be off.
    #[error("NotStarted")]
    NotStarted,
    #[error("AlreadyStarted")]
    AlreadyStarted,
    #[error("NothingUndelivered")]
    NothingUndelivered,
    /// A unit is between its Begin and its Rest, or something of a message is undelivered, and the bus isn't live.
    #[error("TransferOpen")]
    TransferOpen,
    /// A claim or a request is undelivered, and the bus isn't live.
    #[error("NotSettled")]
    NotSettled,
    /// The flow's sender or its one receiver holds no address.
    #[error("NoAddress")]
    NoAddress,
    /// The flow's sender is between its Begin and its Rest; for a frame that is sent alone, of a message of the same
    /// group.
    #[error("Busy")]
    Busy,
    /// The bytes are more or fewer than the group has, or more than one frame has where one is sent alone.
    #[error("WrongLength")]
    WrongLength,
    /// The bits of the group's selector don't have its value.
    #[error("WrongSelector")]
    WrongSelector,
    #[error("NothingToSend")]
    NothingToSend,
    /// The sender doesn't wait, or the receiver is closed.
    #[error("NoSession")]
    NoSession,
    /// The unit's message hasn't ended, or something of it is still open or undelivered.
    #[error("CannotRest")]
    CannotRest,
    #[error("Memory")]
    Memory,
}
