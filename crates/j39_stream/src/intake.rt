//! Reading an input piece by piece, within the limits.
ghost use Rattle.std.specs.Prelude.{◌≡◌, ◌≢◌, ◌<◌, ◌≤◌, ◌++◌, ℕ, List, Option, length, take, Err, IfOk, OnOk, IsErrOf};
ghost use Rattle.std.specs.Io.KnownBytes.{Consumes, IsAtEnd};
ghost use Rattle.j39_stream.specs.Intakes.{HasRead, no_counts};
ghost use Rattle.j39_stream.specs.declared.limits.Limits.{Limits as SomeLimits};
ghost use Rattle.j39_stream.specs.Streams.{HasFailed, KeepsLimits, PassesLimits, SourceState};

use crate::{Fault, Limits, Source};
use std::marker::Model;

/// The most bytes of a piece of an input that is read piece by piece.
pub const PIECE_BYTES: usize = 4096;

/// Counts what is read of an input, and reads no more of it than its limits allow.
#[derive(Drop)]
pub struct Intake {
    limits: Limits,
    bytes: u64,
    calls: u64,
}

impl Model for Intake {
    ghost use Rattle.std.specs.Prelude.{◌≤◌};
    ghost use Rattle.j39_stream.specs.Intakes.{Counts};

    ghost Value = { Counts };

    ghost view = { λ intake. record { limits = intake.limits; bytes = intake.bytes; calls = intake.calls } };

    ghost invariant = { λ intake. (intake.bytes ≤ intake.limits.bytes) × (intake.calls ≤ intake.limits.calls) };
}

impl Intake {
    pub fn new(limits: Limits) -> Self
        ensures { result ≡ no_counts limits }
    {
        Intake {
            limits,
            bytes: 0,
            calls: 0,
        }
    }

    /// Reads the next piece, and answers how many bytes it has; 0 is the end.
    pub fn pull<S: Source>(&mut self, source: &mut S, piece: &mut [u8]) -> Result<usize, Fault>
        requires { 0 < length piece.old }
        ensures count { IfOk result (λ n. n ≤ length piece.old) }
        ensures more { IfOk result (λ n. (limits : SomeLimits) (first : SourceState) (text : List ℕ)
            → HasRead limits first (S.state source.old) self.old text
            → 0 < n → HasRead limits first (S.state source.new) self.new (text ++ take n piece.new)) }
        ensures fewer { OnOk result (self.old.calls < self.new.calls × self.new.calls ≤ self.new.limits.calls) }
        ensures same { self.new.limits ≡ self.old.limits }
        ensures end { IfOk result (λ n. n ≡ 0 → IsAtEnd (S.state source.new).left) }
        ensures last { IfOk result (λ n. (limits : SomeLimits) (first : SourceState) (text : List ℕ)
            → HasRead limits first (S.state source.old) self.old text
            → n ≡ 0 → Consumes first.left (S.state source.new).left text
            × KeepsLimits limits first (S.state source.new)) }
        ensures long { IsErrOf result Fault.TooLong → (limits : SomeLimits) (first : SourceState) (text : List ℕ)
            → HasRead limits first (S.state source.old) self.old text → PassesLimits limits first (S.state source.new) }

        // What was read before is read still, whatever the answer.
        ensures kept { (first : Option (List ℕ)) (text : List ℕ) → Consumes first (S.state source.old).left text
            → (more : List ℕ) × Consumes first (S.state source.new).left (text ++ more) }
        ensures device { IsErrOf result Fault.Device
            → HasFailed (S.state source.old).failures (S.state source.new).failures }
        ensures calm { result ≢ Err Fault.Device → (S.state source.new).failures ≡ (S.state source.old).failures }
        ensures no_memory { result ≢ Err Fault.Memory }
    {
        if self.calls == self.limits.calls {
            return Err(Fault::TooLong);
        }
        self.calls += 1;
        let Ok(count) = source.pull(piece) else {
            return Err(Fault::Device);
        };
        if self.limits.bytes - self.bytes < count as u64 {
            return Err(Fault::TooLong);
        }
        self.bytes += count as u64;
        Ok(count)
    }
}
