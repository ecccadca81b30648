//! An input that is read line after line, a piece of it after another.
ghost use Rattle.std.specs.Prelude.{◌≡◌, ◌+◌, ◌≤◌, ◌^◌, ◌++◌, ℕ, List, [], length, IfErr, IfOk, OnOk, Some};
ghost use Rattle.std.specs.Io.KnownBytes.{Appends};
ghost use Rattle.j39_id.specs.Lines.{Line, behind_all, yielded};
ghost use Rattle.j39_stream.specs.CommandEnds.{AnswersInPieces};
ghost use Rattle.j39_stream.specs.Intakes.{EndsWithItsPiece};
ghost use Rattle.j39_stream.specs.LineReading.{AreTextsOf, HasReadInput, IsCutOff, IsSoFar};

use crate::{CommandResult, Fault, Intake, Limits, LineReader, PIECE_BYTES, Sink, Source};
use j39_id::Cutter;
use std::alloc::AllocError;

// Reads the lines that a piece of the input ends.
fn read_piece<R: LineReader>(
    reader: &mut R,
    cutter: &mut Cutter,
    piece: &[u8],
) -> Result<(), AllocError>
    requires room { (most : ℕ) × R.within reader.old most × (most + length piece.now ≤ 2 ^ 62) }
    ensures pending { OnOk result (cutter.new.pending ≡ behind_all cutter.old.pending piece.now) }
    ensures lines { OnOk result ((before : List Line) (written : List ℕ)
        → IsSoFar (R.has_read reader.old) (R.is_text reader.old) (R.goes reader.old) (R.text reader.old) before written
        → IsSoFar (R.has_read reader.new) (R.is_text reader.new) (R.goes reader.new) (R.text reader.new)
        (before ++ yielded cutter.old.pending piece.now) written) }
    ensures texts { OnOk result (AreTextsOf (R.is_text reader.new) (R.is_text reader.old)) }
    ensures count { OnOk result ((most : ℕ) → R.within reader.old most
        → R.within reader.new (most + length piece.now)) }
{
    let mut rest = piece;
    while !rest.is_empty() {
        let step = cutter.advance(rest);
        let line = step.whole.unwrap_or(cutter.line());
        reader.read(step.cut, line)?;
        rest = &rest[step.used..];
    }
    Ok(())
}

// Reads the lines of an input, to its end or to the piece in which the reader stops. What is to be written of a piece
// is put before the next one is read.
fn read_all<R: LineReader, S: Source, W: Sink>(
    limits: Limits,
    reader: &mut R,
    source: &mut S,
    sink: &mut W,
) -> Result<(), Fault>
    requires begins { IsSoFar (R.has_read reader.old) (R.is_text reader.old) (R.goes reader.old)
        (R.text reader.old) [] [] }
    requires count { R.within reader.old 0 }
    requires bytes { limits.bytes ≤ 2 ^ 62 }
    ensures read { OnOk result (HasReadInput (R.has_read reader.new) (R.is_text reader.new) (R.goes reader.new)
        (R.text reader.new) limits
        (S.state source.old) (S.state source.new) (W.state sink.old) (W.state sink.new)) }
    ensures pieces { OnOk result (EndsWithItsPiece (R.is_text reader.old) (S.state source.old).left
        (S.state source.new).left) }
    ensures texts { OnOk result (AreTextsOf (R.is_text reader.new) (R.is_text reader.old)) }
    ensures cut { IfErr result (IsCutOff (R.is_text reader.old) limits (S.state source.old) (S.state source.new)
        (W.state sink.old)
        (W.state sink.new)) }
{
    let mut cutter = Cutter::new();
    let mut intake = Intake::new(limits);
    let mut piece = [0; PIECE_BYTES];
    while reader.goes_on() {
        let count = intake.pull(source, &mut piece)?;
        if count == 0 {
            let cut = cutter.end();
            reader.read(cut, cutter.line())?;
            return Ok(());
        }
        read_piece(reader, &mut cutter, &piece[..count])?;
        reader.put(sink)?;
    }
    Ok(())
}

/// Writes what a reader makes of the lines of an input: of each piece, of at most 4,096 bytes, before the next one is
/// read. The input is read to its end, or to the piece in which the reader stops.
pub fn read_lines<R: LineReader, S: Source, W: Sink>(
    limits: Limits,
    reader: &mut R,
    source: &mut S,
    sink: &mut W,
) -> CommandResult
    requires begins { IsSoFar (R.has_read reader.old) (R.is_text reader.old) (R.goes reader.old)
        (R.text reader.old) [] [] }
    requires count { R.within reader.old 0 }
    requires bytes { limits.bytes ≤ 2 ^ 62 }
    ensures answers { AnswersInPieces (R.is_text reader.old) limits (S.state source.old)
        (S.state source.new) W.state sink.old sink.new result }

    // The text is that of all that the source had left at the call, however much of it was read.
    ensures whole { IfOk result (λ verdict. (all : List ℕ) → (S.state source.old).left ≡ Some all → (text : List ℕ)
        × R.is_text reader.old all text verdict × Appends (W.state sink.old).taken (W.state sink.new).taken text) }
{
    read_all(limits, reader, source, sink)?;
    let verdict = reader.close()?;
    reader.put(sink)?;
    Ok(verdict)
}
