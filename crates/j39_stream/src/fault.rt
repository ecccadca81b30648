//! Why a command gave up.
ghost use Rattle.std.specs.Prelude.{◌≡◌};
ghost use Rattle.j39_stream.specs.declared.fault.Fault.TheVariants.{Memory, Device};

use crate::{Failed, Verdict};
use std::alloc::AllocError;
use thiserror::Error;

/// What comes of a command: its verdict, or the fault for which it gave up.
pub type CommandResult = Result<Verdict, Fault>;

/// Why a command gave up.
#[derive(Clone, Copy, Debug, PartialEq, Eq, Error)]
pub enum Fault {
    /// An allocation was refused.
    #[error("out of memory")]
    Memory,
    /// A read or a write failed, or a write took nothing.
    #[error("device fault")]
    Device,
    /// The input passes the limit on its bytes or on the calls that read it.
    #[error("input too long")]
    TooLong,
}

impl From<AllocError> for Fault {
    ghost from_gives = { λ _ fault. fault ≡ Memory };

    fn from(_error: AllocError) -> Fault {
        Fault::Memory
    }
}

impl From<Failed> for Fault {
    ghost from_gives = { λ _ fault. fault ≡ Device };

    fn from(_error: Failed) -> Fault {
        Fault::Device
    }
}
