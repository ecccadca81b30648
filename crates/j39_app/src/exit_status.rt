//! The exit status.
ghost use Rattle.std.specs.Prelude.{◌≡◌};
ghost use Rattle.j39_app.specs.Status.{status_of};

use crate::{CommandResult, Fault, Verdict};

/// The exit status that says how a command ended.
pub fn status(outcome: &CommandResult) -> u8
    ensures { result ≡ status_of outcome.now }
{
    match outcome {
        Ok(Verdict::Done) => 0,
        Ok(Verdict::Findings | Verdict::Refused) => 1,
        Ok(Verdict::Unreadable) | Err(Fault::TooLong) => 2,
        Err(Fault::Memory) => 3,
        Err(Fault::Device) => 4,
    }
}
