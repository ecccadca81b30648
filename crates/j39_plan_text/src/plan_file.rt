//! What is written of a plan file.
ghost use Rattle.std.specs.Prelude.{◌≡◌, IfOk, OnSome};
ghost use Rattle.j39_plan_text.specs.PlanText.{IsLineText, IsRefusedText, RefusesPlan};
ghost use Rattle.j39_stream.specs.CommandEnds.{AnswersWhole, PutsText};
ghost use Rattle.j39_stream.specs.Streams.{plan_limits};

mod refusals;

use j39_plan::PlanError;
use j39_stream::{Fault, Sink, Source, put_all, read_whole};
use j39_variants::{ProductLine, read_product_line};
use refusals::refusal;
pub(crate) use refusals::write_table;
pub use refusals::{refuse_choices, write_choices_refused, write_refusal};
use std::alloc::Global;

// Writes the line that says why a file describes no plan.
fn refuse<W: Sink>(
    alloc: Global,
    error: &PlanError,
    sink: &mut W,
) -> Result<Option<ProductLine>, Fault>
    ensures { PutsText (RefusesPlan error.now) W.state sink.old sink.new result }
{
    let text = refusal(alloc, error)?;
    put_all(sink, text.as_slice())?;
    Ok(None)
}

/// The line of vehicles that a plan file describes. Where it describes none, writes the line that says why, and gives
/// none.
pub fn line_text<S: Source, W: Sink>(
    alloc: Global,
    source: &mut S,
    sink: &mut W,
) -> Result<Option<ProductLine>, Fault>
    ensures answers { AnswersWhole IsLineText IsRefusedText plan_limits (S.state source.old)
        (S.state source.new) W.state sink.old sink.new result }
    ensures writes_nothing { IfOk result (λ line. OnSome line (sink.new ≡ sink.old)) }
{
    let input = read_whole(alloc, source)?;
    match read_product_line(alloc, input.as_slice()) {
        Ok(line) => Ok(Some(line)),
        Err(error) => refuse(alloc, &error, sink),
    }
}
