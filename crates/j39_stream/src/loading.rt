//! Reading a whole input.
ghost use Rattle.std.specs.Prelude.{◌≡◌, ◌≢◌, ◌≤◌, vec_len, IfOk, OnOk, IsErrOf, Err};
ghost use Rattle.std.specs.Io.KnownBytes.{Consumes, IsAtEnd};
ghost use Rattle.j39_stream.specs.Streams.{HasFailed, KeepsLimits, PassesLimits, plan_limits};

use crate::{Fault, Intake, PLAN_LIMITS, Source};
use std::alloc::Global;

const PIECE: usize = 16_384;

/// All of the bytes that are left, within the limits of a plan.
pub fn read_whole<S: Source>(alloc: Global, source: &mut S) -> Result<Vec<u8>, Fault>
    ensures whole { IfOk result (λ input. Consumes (S.state source.old).left (S.state source.new).left input.items
        × IsAtEnd (S.state source.new).left) }
    ensures limit { IfOk result (λ input. vec_len input ≤ plan_limits.bytes) }
    ensures limits { OnOk result (KeepsLimits plan_limits (S.state source.old) (S.state source.new)) }
    ensures long { IsErrOf result Fault.TooLong → PassesLimits plan_limits (S.state source.old) (S.state source.new) }

    // A call failed exactly where the answer says so.
    ensures device { IsErrOf result Fault.Device
        → HasFailed (S.state source.old).failures (S.state source.new).failures }
    ensures calm { result ≢ Err Fault.Device → (S.state source.new).failures ≡ (S.state source.old).failures }
{
    let mut input = Vec::new(alloc);
    let mut intake = Intake::new(PLAN_LIMITS);
    let mut piece = [0; PIECE];
    loop {
        let count = intake.pull(source, &mut piece)?;
        if count == 0 {
            return Ok(input);
        }
        if input.extend_from_slice(&piece[..count]).is_err() {
            return Err(Fault::Memory);
        }
    }
}
