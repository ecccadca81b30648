//! What the run command writes.
ghost use Rattle.std.specs.Prelude.{◌≡◌, ◌⊎◌, ℕ, List, length, IfOk, Some};
ghost use Rattle.std.specs.Io.KnownBytes.{Appends};
ghost use Rattle.j39_run.specs.RunText.{IsRefusedBy, IsRunText};
ghost use Rattle.j39_stream.specs.CommandEnds.{AnswersInPieces, PutsText};
ghost use Rattle.j39_world.specs.Opening.{CanOpen};
ghost use Rattle.j39_stream.specs.Streams.{plan_limits};

use crate::refusal::plan_refusal;
use crate::running::Running;
use crate::schedule_reader::ScheduleReader;
use j39_bus::{Bus, BusError};
use j39_claim::Choose;
use j39_network::Plan;
use j39_schedule::Units;
use j39_stream::{CommandResult, PLAN_LIMITS, Sink, Source, Verdict, put_all, read_lines};
use std::alloc::Global;

// Writes why the plan has no bus.
fn refuse<W: Sink>(alloc: Global, plan: &Plan, error: BusError, sink: &mut W) -> CommandResult
    ensures { PutsText (IsRefusedBy plan.now error) W.state sink.old sink.new result }
{
    let text = plan_refusal(alloc, plan, error)?;
    put_all(sink, text.as_slice())?;
    Ok(Verdict::Refused)
}

/// Writes what a bus of the plan sends on a schedule, where the run ended, and what the units then are, or why the plan
/// has no bus. There is a chooser for each unit, by its place. The run ends at the first line that is refused; all that
/// the source had left is read, except where the plan or a line is refused. Of each piece of the schedule, of at most
/// 4,096 bytes, the frames are written before the next piece is read; of a refused plan nothing is read.
pub fn run_text<S: Source, W: Sink>(
    alloc: Global,
    plan: &Plan,
    choosers: Vec<Box<dyn Choose>>,
    source: &mut S,
    sink: &mut W,
) -> CommandResult
    ensures answers { AnswersInPieces (IsRunText plan.now (length choosers.items)) plan_limits (S.state source.old)
        (S.state source.new)
        W.state sink.old sink.new result }

    // The text is that of all that the source had left at the call, however much of it was read.
    ensures whole { IfOk result (λ verdict. (all : List ℕ) → (S.state source.old).left ≡ Some all → (text : List ℕ)
        × IsRunText plan.now (length choosers.items) all text verdict
        × Appends (W.state sink.old).taken (W.state sink.new).taken text) }

    // Of a plan that has no bus nothing is read.
    ensures unread { CanOpen (length choosers.items) plan.now ⊎ (source.new ≡ source.old) }
{
    let units = Units::new(alloc, plan)?;
    match Bus::new(alloc, plan, choosers) {
        Ok(bus) => {
            let running = Running::new(alloc, bus);
            let mut reader = ScheduleReader {
                units: &units,
                running,
            };
            read_lines(PLAN_LIMITS, &mut reader, source, sink)
        }
        Err(error) => refuse(alloc, plan, error, sink),
    }
}
