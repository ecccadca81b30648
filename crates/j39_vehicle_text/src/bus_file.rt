//! What is written of the plan file of a bus.
ghost use Rattle.std.specs.Prelude.{◌≡◌, ◌++◌, IfOk, OnOk, OnSome};
ghost use Rattle.j39_stream.specs.CommandEnds.{AnswersWhole, PutsText};
ghost use Rattle.j39_stream.specs.Streams.{plan_limits};
ghost use Rattle.j39_vehicle_text.specs.VehicleFileText.{IsBusPlanText, IsBusRefusal, IsRefusedBus, RefusesBus};
ghost use Rattle.j39_vehicle_text.specs.VehicleFileText.{RefusesBusChoices, bus_choices};
ghost use Rattle.j39_vehicle_text.specs.VehicleFileText.{bus_line};

use j39_id::Label;
use j39_network::Plan;
use j39_plan::PlanError;
use j39_plan_text::{write_choices_refused, write_refusal};
use j39_stream::{Fault, Sink, Source, put_all, read_whole};
use j39_text::{TextBuffer, WriteResult};
use j39_variants::read_product_line;
use std::alloc::{AllocError, Global};

/// Writes the line that names a bus.
#[tactic(auto, unfolding(crate::specs::VehicleFileText::bus_line))]
pub(super) fn write_bus(text: &mut TextBuffer, label: &Label) -> WriteResult
    ensures { OnOk result (text.new ≡ text.old ++ bus_line label.now.bytes) }
{
    text.word("bus ")?;
    text.word(label.as_str())?;
    text.end_line()
}

// Which bus it is whose plan is refused, and why.
fn refusal(alloc: Global, label: &Label, error: &PlanError) -> Result<TextBuffer, AllocError>
    ensures { IfOk result (IsBusRefusal label.now.bytes error.now) }
{
    let mut text = TextBuffer::new(alloc);
    write_bus(&mut text, label)?;
    write_refusal(&mut text, error)?;
    Ok(text)
}

fn refuse<W: Sink>(
    alloc: Global,
    label: &Label,
    error: &PlanError,
    sink: &mut W,
) -> Result<Option<Plan>, Fault>
    ensures { PutsText (RefusesBus label.now.bytes error.now) W.state sink.old sink.new result }
{
    let text = refusal(alloc, label, error)?;
    put_all(sink, text.as_slice())?;
    Ok(None)
}

// Which bus it is whose plan has choices.
#[tactic(auto, unfolding(crate::specs::VehicleFileText::bus_choices))]
fn choices_refused(alloc: Global, label: &Label) -> Result<TextBuffer, AllocError>
    ensures { IfOk result (λ text. text ≡ bus_choices label.now.bytes) }
{
    let mut text = TextBuffer::new(alloc);
    write_bus(&mut text, label)?;
    write_choices_refused(&mut text)?;
    Ok(text)
}

fn refuse_choices<W: Sink>(
    alloc: Global,
    label: &Label,
    sink: &mut W,
) -> Result<Option<Plan>, Fault>
    ensures { PutsText (RefusesBusChoices label.now.bytes) W.state sink.old sink.new result }
{
    let text = choices_refused(alloc, label)?;
    put_all(sink, text.as_slice())?;
    Ok(None)
}

/// The plan that the file of a bus describes, which has no choices. Where there is none, writes the bus and the line
/// that says why, and gives none.
pub fn bus_plan<S: Source, W: Sink>(
    alloc: Global,
    label: &Label,
    source: &mut S,
    sink: &mut W,
) -> Result<Option<Plan>, Fault>
    ensures answers { AnswersWhole (IsBusPlanText label.now.bytes) (IsRefusedBus label.now.bytes) plan_limits
        (S.state source.old) (S.state source.new)
        W.state sink.old sink.new result }
    ensures writes_nothing { IfOk result (λ plan. OnSome plan (sink.new ≡ sink.old)) }
{
    let input = read_whole(alloc, source)?;
    match read_product_line(alloc, input.as_slice()) {
        Ok(line) => {
            if line.has_choices() {
                refuse_choices(alloc, label, sink)
            } else {
                Ok(Some(line.plan))
            }
        }
        Err(error) => refuse(alloc, label, &error, sink),
    }
}
