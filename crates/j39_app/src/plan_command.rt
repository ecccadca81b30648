//! What is written of a plan file alone.
ghost use Rattle.j39_app.specs.Answers.{IsOfBytes, IsOfSome};
ghost use Rattle.j39_app.specs.Faults.{EndsByFile};
ghost use Rattle.j39_app.specs.PlanCommands.{IsTextOfPlan};
ghost use Rattle.j39_stream.specs.CommandEnds.{AnswersWhole, IsOfAny};
ghost use Rattle.j39_stream.specs.Streams.{plan_limits};

use crate::{
    CommandResult, Folder, Sink, Source, addresses_line_text, check_line_text, load_line_text,
    show_text, variant_text,
};
use std::alloc::Global;

/// What is asked of a plan.
#[derive(Clone, Copy)]
pub(crate) enum PlanCommand<'a> {
    /// Each of its values.
    Show,
    /// The plan of the variant that these labels name.
    Variant(&'a [String]),
    /// What is wrong with it.
    Check,
    /// Which units hold their planned addresses.
    Addresses,
    /// How long its frames wait at most.
    Load,
}

fn write_of_plan<S: Source, W: Sink>(
    alloc: Global,
    command: PlanCommand<'_>,
    source: &mut S,
    sink: &mut W,
) -> CommandResult
    ensures { AnswersWhole (IsTextOfPlan command.entry) (IsOfAny (IsTextOfPlan command.entry)) plan_limits
        (S.state source.old) (S.state source.new) W.state sink.old sink.new result }
{
    match command {
        PlanCommand::Show => show_text(alloc, source, sink),
        PlanCommand::Variant(labels) => variant_text(alloc, labels, source, sink),
        PlanCommand::Check => check_line_text(alloc, source, sink),
        PlanCommand::Addresses => addresses_line_text(alloc, source, sink),
        PlanCommand::Load => load_line_text(alloc, source, sink),
    }
}

/// Writes what is asked of the plan in the file of this name. It holds its buffers and tables in a frame of its own.
#[inline(never)]
pub(crate) fn of_plan_file<F: Folder, W: Sink>(
    alloc: Global,
    files: &F,
    command: PlanCommand<'_>,
    plan: &str,
    sink: &mut W,
) -> CommandResult
    ensures { EndsByFile (IsOfBytes (IsTextOfPlan command.entry))
        (λ known. IsOfSome (IsOfBytes (IsTextOfPlan command.entry) known)) (Unit {0}) plan_limits
        (F.stays_shut files.now) (F.bytes_of files.now) F.File.state plan.now W.state sink.old sink.new result }
{
    write_of_plan(alloc, command, &mut files.open(plan)?, sink)
}
