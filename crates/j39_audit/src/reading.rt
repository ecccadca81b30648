//! Reading a log.
ghost use Rattle.std.specs.Prelude.{◌≡◌, ◌≢◌, ◌+◌, ◌≤◌, ◌^◌, ◌++◌, ℕ, List, [], length, Err, IfOk, OnOk, IsErrOf};
ghost use Rattle.std.specs.Io.KnownBytes.{Consumes, IsAtEnd};
ghost use Rattle.j39_id.specs.Lines.{Line, behind_all, lines, yielded};
ghost use Rattle.j39_stream.specs.Streams.{HasFailed, KeepsLimits, PassesLimits, log_limits};
ghost use Rattle.j39_audit.specs.Settings.{Settings};
ghost use Rattle.j39_audit.specs.inside.Auditing.{HasAudited, HasReadLog, IsWithinLines};

use crate::audit_log::AuditLog;
use j39_id::Cutter;
use j39_stream::{Fault, Intake, LOG_LIMITS, PIECE_BYTES, Source};
use std::alloc::AllocError;

// Reads the lines that a piece of a log ends.
fn read_piece(log: &mut AuditLog<'_>, cutter: &mut Cutter, piece: &[u8]) -> Result<(), AllocError>
    requires room { (most : ℕ) × IsWithinLines log.old most × (most + length piece.now ≤ 2 ^ 62) }
    ensures pending { OnOk result (cutter.new.pending ≡ behind_all cutter.old.pending piece.now) }
    ensures lines { OnOk result ((s : Settings) (before : List Line) → HasAudited s log.old before
        → HasAudited s log.new (before ++ yielded cutter.old.pending piece.now)) }
    ensures count { OnOk result ((most : ℕ) → IsWithinLines log.old most
        → IsWithinLines log.new (most + length piece.now)) }
{
    let mut rest = piece;
    while !rest.is_empty() {
        let step = cutter.advance(rest);
        let line = step.whole.unwrap_or(cutter.line());
        log.read(step.cut, line)?;
        rest = &rest[step.used..];
    }
    Ok(())
}

/// Reads a log to its end.
pub(crate) fn read_log<S: Source>(log: &mut AuditLog<'_>, source: &mut S) -> Result<(), Fault>
    requires within { IsWithinLines log.old 0 }
    ensures read { OnOk result ((s : Settings) → HasAudited s log.old []
        → HasReadLog s log.new (S.state source.old).left (S.state source.new).left) }
    ensures limits { OnOk result (KeepsLimits log_limits (S.state source.old) (S.state source.new)) }
    ensures long { IsErrOf result Fault.TooLong → PassesLimits log_limits (S.state source.old) (S.state source.new) }
    ensures device { IsErrOf result Fault.Device → HasFailed (S.state source.old).failures
        (S.state source.new).failures }
    ensures calm { result ≢ Err Fault.Device → (S.state source.new).failures ≡ (S.state source.old).failures }
{
    let mut cutter = Cutter::new();
    let mut intake = Intake::new(LOG_LIMITS);
    let mut piece = [0; PIECE_BYTES];
    loop {
        let count = intake.pull(source, &mut piece)?;
        if count == 0 {
            let cut = cutter.end();
            log.read(cut, cutter.line())?;
            log.end()?;
            return Ok(());
        }
        read_piece(log, &mut cutter, &piece[..count])?;
    }
}
