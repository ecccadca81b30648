//! The run command with the choosers that a plan names.
ghost use Rattle.std.specs.Prelude.{◌≡◌, ◌⊎◌, ℕ, List, length, IfOk, Some};
ghost use Rattle.std.specs.Io.KnownBytes.{Appends};
ghost use Rattle.j39_run.specs.RunText.{IsRunText};
ghost use Rattle.j39_stream.specs.CommandEnds.{AnswersInPieces};
ghost use Rattle.j39_world.specs.Opening.{CanOpen};
ghost use Rattle.j39_stream.specs.Streams.{plan_limits};

use crate::run_text;
use j39_claim::{Choose, Lowest, Upward};
use j39_network::{Plan, Way};
use j39_stream::{CommandResult, Fault, Sink, Source};
use std::alloc::Global;

/// Writes what a bus of the plan sends on a schedule as `run_text` does, each unit choosing addresses in its planned
/// way.
#[inline(never)]
pub fn run_planned<S: Source, W: Sink>(
    alloc: Global,
    plan: &Plan,
    source: &mut S,
    sink: &mut W,
) -> CommandResult
    ensures answers { AnswersInPieces (IsRunText plan.now (length plan.now.units.items)) plan_limits
        (S.state source.old) (S.state source.new)
        W.state sink.old sink.new result }

    // The text is that of all that the source had left at the call, however much of it was read.
    ensures whole { IfOk result (λ verdict. (all : List ℕ) → (S.state source.old).left ≡ Some all → (text : List ℕ)
        × IsRunText plan.now (length plan.now.units.items) all text verdict
        × Appends (W.state sink.old).taken (W.state sink.new).taken text) }

    // Of a plan that has no bus nothing is read.
    ensures unread { CanOpen (length plan.now.units.items) plan.now ⊎ (source.new ≡ source.old) }
{
    let mut choosers: Vec<Box<dyn Choose>> = Vec::with_capacity(alloc, plan.units.len())?;
    for unit in &plan.units {
        let pushed = match unit.way {
            Way::Lowest => {
                let Ok(lowest) = Box::new(alloc, Lowest) else {
                    return Err(Fault::Memory);
                };
                choosers.push(lowest)
            }
            Way::Upward => {
                let Ok(upward) = Box::new(alloc, Upward) else {
                    return Err(Fault::Memory);
                };
                choosers.push(upward)
            }
        };
        if pushed.is_err() {
            return Err(Fault::Memory);
        }
    }
    run_text(alloc, plan, choosers, source, sink)
}
