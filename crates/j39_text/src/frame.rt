//! What the frame command writes.
ghost use Rattle.std.specs.Prelude.{◌≡◌, ◌++◌, IfOk, OnOk};
ghost use Rattle.j39_text.specs.FrameText.{IsFrameText, frame_lines as lines_of, head_lines as heads_of};
ghost use Rattle.j39_text.specs.FrameText.{refused_frame_line as line_of};
ghost use Rattle.j39_stream.specs.CommandEnds.{PutsText};

mod meaning;
mod name;
mod route;

use crate::{ReportResult, TextBuffer, WriteResult};
use j39_id::{Frame, LineError, print_frame, read_frame};
use j39_stream::{CommandResult, Sink, Verdict, put_all};
pub use route::write_destination;
use std::alloc::Global;

#[tactic(auto, unfolding(crate::specs::FrameText::head_lines))]
fn write_head(text: &mut TextBuffer, frame: &Frame) -> WriteResult
    ensures { OnOk result (text.new ≡ text.old ++ heads_of frame.now) }
{
    text.word("frame ")?;
    text.bytes(print_frame(frame).as_slice())?;
    text.end_line()?;
    route::write_route(text, frame.ident)
}

#[tactic(auto, unfolding(crate::specs::FrameText::frame_lines))]
fn write_frame(text: &mut TextBuffer, frame: &Frame) -> WriteResult
    ensures { OnOk result (text.new ≡ text.old ++ lines_of frame.now) }
{
    write_head(text, frame)?;
    meaning::write_meaning(text, frame)
}

#[tactic(auto, unfolding(crate::specs::FrameText::refused_frame_line))]
fn write_refusal(text: &mut TextBuffer, error: LineError) -> WriteResult
    ensures { OnOk result (text.new ≡ text.old ++ line_of error) }
{
    text.word("refused ")?;
    text.word(match error {
        LineError::Empty => "Empty",
        LineError::NoHash => "NoHash",
        LineError::ShortIdent => "ShortIdent",
        LineError::BadIdent => "BadIdent",
        LineError::TooLong => "TooLong",
        LineError::BadData => "BadData",
    })?;
    text.end_line()
}

// What is written for a line, with the verdict.
fn line_text(alloc: Global, line: &[u8]) -> ReportResult
    ensures { IfOk result (λ found. IsFrameText line.now found.0 found.1) }
{
    let mut text = TextBuffer::new(alloc);
    match read_frame(line) {
        Ok(frame) => {
            write_frame(&mut text, &frame)?;
            Ok((text, Verdict::Done))
        }
        Err(error) => {
            write_refusal(&mut text, error)?;
            Ok((text, Verdict::Unreadable))
        }
    }
}

/// Writes the frame that the line spells, with its route and what it says of a NAME or a request, or why the line is
/// refused. Where a call of the sink fails, what was written is a prefix of that.
pub fn frame_text<W: Sink>(alloc: Global, line: &[u8], sink: &mut W) -> CommandResult
    ensures puts { PutsText (IsFrameText line.now) W.state sink.old sink.new result }
    ensures calm { IfOk result (λ _. (W.state sink.new).failures ≡ (W.state sink.old).failures) }
{
    let (text, verdict) = line_text(alloc, line)?;
    put_all(sink, text.as_slice())?;
    Ok(verdict)
}
