//! What reads another file by the plan of a first one: a schedule, or a log.
ghost use Rattle.std.specs.Prelude.{◌≡◌, ℕ, List, Option, IfOk, OnSome};
ghost use Rattle.j39_app.specs.Answers.{IsForOnePlan, IsOfBytes, IsOfSome, IsRefusedOf};
ghost use Rattle.j39_app.specs.Faults.{Ends, EndsByFile, EndsByTwo};
ghost use Rattle.j39_app.specs.Known.{AreLeft, MayBeTooLong};
ghost use Rattle.j39_app.specs.PlanCommands.{IsFrontByPlan, IsTextByPlan, PutsByPlan, limits_by_plan};
ghost use Rattle.j39_plan_text.specs.PlanText.{IsLineText};
ghost use Rattle.j39_stream.specs.Streams.{HasFailed, plan_limits};

use crate::auditing::audit_planned;
use crate::{
    CommandResult, Fault, Folder, Sink, Source, Verdict, follow_text, line_text, read_text,
    refuse_choices, run_planned,
};
use j39_network::Plan;
use j39_variants::ProductLine;
use std::alloc::Global;

/// What is asked of another file by a plan.
#[derive(Clone, Copy)]
pub(crate) enum CommandByPlan {
    /// What happens on the bus of the plan by a schedule.
    Run,
    /// What a log says of the groups of the plan.
    Read,
    /// Who sent what in a log, by its own claims: of all frames, or of those of planned groups.
    Follow(bool),
    /// Which premises of the plan a log refutes: of a log in which frames may be missing or of a whole one, by a logger
    /// of this error in microseconds, and with gaps of so many milliseconds or by the plan.
    Audit(bool, u64, Option<u64>),
}

// Reads the other file by the plan, and writes what it finds.
fn write_by_plan<S: Source, W: Sink>(
    alloc: Global,
    command: CommandByPlan,
    plan: &Plan,
    file: &mut S,
    sink: &mut W,
) -> CommandResult
    ensures { (known : Option (List ℕ)) → AreLeft known (S.state file.old).left
        → Ends (IsTextByPlan command plan.now known) (IsOfSome (IsFrontByPlan command plan.now known))
        (PutsByPlan command)
        (MayBeTooLong (limits_by_plan command) known)
        (HasFailed (S.state file.old).failures (S.state file.new).failures)
        W.state sink.old sink.new result }
{
    match command {
        CommandByPlan::Run => run_planned(alloc, plan, file, sink),
        CommandByPlan::Read => read_text(alloc, plan, file, sink),
        CommandByPlan::Follow(all_frames) => follow_text(alloc, plan, all_frames, file, sink),
        CommandByPlan::Audit(part, stamps, quiet) => {
            audit_planned(alloc, plan, part, stamps, quiet, file, sink)
        }
    }
}

// The line of vehicles of a plan file. Where the file describes none, writes why, and gives none.
fn line_of<F: Folder, W: Sink>(
    alloc: Global,
    files: &F,
    name: &str,
    sink: &mut W,
) -> Result<Option<ProductLine>, Fault>
    ensures ends { EndsByFile (IsOfBytes IsLineText) IsRefusedOf (Unit {0}) plan_limits
        (F.stays_shut files.now) (F.bytes_of files.now) F.File.state name.now W.state sink.old sink.new result }
    ensures writes_nothing { IfOk result (λ line. OnSome line (sink.new ≡ sink.old)) }
{
    line_text(alloc, &mut files.open(name)?, sink)
}

// Opens the other file, and writes it for the plan of a line of vehicles that has one alone, else that the plan has
// choices.
fn by_line<F: Folder, W: Sink>(
    alloc: Global,
    files: &F,
    command: CommandByPlan,
    line: &ProductLine,
    name: &str,
    sink: &mut W,
) -> CommandResult
    ensures { EndsByFile (IsForOnePlan (IsTextByPlan command) line.now)
        (λ known. IsOfSome (IsForOnePlan (IsFrontByPlan command) line.now known))
        (PutsByPlan command) (limits_by_plan command) (F.stays_shut files.now)
        (F.bytes_of files.now) F.File.state name.now W.state sink.old sink.new result }
{
    let mut file = files.open(name)?;
    if line.has_choices() {
        refuse_choices(alloc, sink)
    } else {
        write_by_plan(alloc, command, &line.plan, &mut file, sink)
    }
}

/// Reads the file of a plan, and then another one by the plan, whose file is opened once the plan was read.
pub(crate) fn by_two<F: Folder, W: Sink>(
    alloc: Global,
    files: &F,
    command: CommandByPlan,
    plan: &str,
    other: &str,
    sink: &mut W,
) -> CommandResult
    ensures { EndsByTwo (IsForOnePlan (IsTextByPlan command)) (IsForOnePlan (IsFrontByPlan command))
        (PutsByPlan command) (limits_by_plan command)
        (F.stays_shut files.now)
        (F.bytes_of files.now) F.File.state plan.now other.now W.state sink.old sink.new result }
{
    match line_of(alloc, files, plan, sink)? {
        Some(line) => by_line(alloc, files, command, &line, other, sink),
        None => Ok(Verdict::Unreadable),
    }
}
