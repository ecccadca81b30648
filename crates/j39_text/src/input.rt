//! The frame command on a whole input.
ghost use Rattle.std.specs.Prelude.{◌≡◌};
ghost use Rattle.std.specs.List.{before_first, position};
ghost use Rattle.j39_text.specs.FrameText.{IsInputText};
ghost use Rattle.j39_id.specs.Lines.{is_line_feed};
ghost use Rattle.j39_stream.specs.CommandEnds.{AnswersWhole, IsOfAny};
ghost use Rattle.j39_stream.specs.Streams.{plan_limits};

use crate::frame_text;
use j39_stream::{CommandResult, Sink, Source, read_whole};
use std::alloc::Global;

// Where the first line feed stands.
fn first_feed(input: &[u8]) -> Option<usize>
    ensures { result ≡ position is_line_feed input.now }
{
    input.iter().position(|byte| *byte == b'\n')
}

// The bytes before the first line feed, or all of them.
#[tactic(auto, using(crate::proofs::FirstLine::before_found, crate::proofs::FirstLine::before_missing))]
fn first_line(input: &[u8]) -> &[u8]
    ensures { result.now ≡ before_first is_line_feed input.now }
{
    match first_feed(input) {
        Some(end) => &input[..end],
        None => input,
    }
}

/// Writes what the first line of the input spells, or why it is refused.
pub fn input_text<S: Source, W: Sink>(alloc: Global, source: &mut S, sink: &mut W) -> CommandResult
    ensures { AnswersWhole IsInputText (IsOfAny IsInputText) plan_limits (S.state source.old)
        (S.state source.new) W.state sink.old sink.new result }
{
    let input = read_whole(alloc, source)?;
    frame_text(alloc, first_line(input.as_slice()), sink)
}
