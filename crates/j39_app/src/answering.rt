//! What is written for an order.
ghost use Rattle.std.specs.Prelude.{◌≡◌, IsErrOf, OnOk};
ghost use Rattle.j39_app.specs.Answers.{IsAnswer, IsFrontAnswer, IsOfSome};
ghost use Rattle.j39_app.specs.Faults.{AsksForMemory, Ends, HasFileFailed, IsOfRead, PutsAtOnce};
ghost use Rattle.j39_app.specs.Known.{MayBeTooLong};
ghost use Rattle.j39_stream.specs.CommandEnds.{AnswersWhole, IsOfAny};
ghost use Rattle.j39_stream.specs.Streams.{HasFailed, plan_limits};
ghost use Rattle.j39_text.specs.FrameText.{IsInputText};

use crate::answering_vehicles::vehicle_files;
use crate::by_plan::{CommandByPlan, by_two};
use crate::plan_command::{PlanCommand, of_plan_file};
use crate::{
    CommandResult, Fault, Folder, Order, Sink, Source, Verdict, frame_text, input_text, put_all,
};
use std::alloc::Global;

// What reads an input or files holds its buffers and tables in a frame of its own, since that of `answer` lies on the
// stack below all of them.
#[inline(never)]
fn input_by<S: Source, W: Sink>(alloc: Global, input: &mut S, sink: &mut W) -> CommandResult
    ensures { AnswersWhole IsInputText (IsOfAny IsInputText) plan_limits (S.state input.old)
        (S.state input.new) W.state sink.old sink.new result }
{
    input_text(alloc, input, sink)
}

/// Writes what is asked for by an order: of the bytes of the files that it names, of its own line, or of the first line
/// of the input. A file is opened once what comes before it was read.
pub fn answer<F: Folder, S: Source, W: Sink>(
    alloc: Global,
    files: &F,
    input: &mut S,
    order: &Order,
    sink: &mut W,
) -> CommandResult
    ensures ends { Ends (IsAnswer (F.bytes_of files.now) (S.state input.old).left order.now)
        (IsOfSome (IsFrontAnswer (F.bytes_of files.now) (S.state input.old).left order.now)) (PutsAtOnce order.now)
        (IsOfRead (MayBeTooLong plan_limits (S.state input.old).left)
        (λ limits name. MayBeTooLong limits (F.bytes_of files.now name)) (F.bytes_of files.now)
        order.now)
        (IsOfRead (HasFailed (S.state input.old).failures (S.state input.new).failures)
        (λ _ name. HasFileFailed (F.stays_shut files.now) (F.bytes_of files.now) F.File.state name)
        (F.bytes_of files.now) order.now)
        W.state sink.old sink.new result }
    ensures calm { OnOk result ((S.state input.new).failures ≡ (S.state input.old).failures) }
    ensures memory { IsErrOf result Fault.Memory → AsksForMemory order.now }
{
    match order {
        Order::Input => input_by(alloc, input, sink),
        Order::Frame(line) => frame_text(alloc, line.as_bytes(), sink),
        Order::Show(plan) => of_plan_file(alloc, files, PlanCommand::Show, plan, sink),
        Order::Variant(plan, labels) => {
            of_plan_file(alloc, files, PlanCommand::Variant(labels), plan, sink)
        }
        Order::Check(plan) => of_plan_file(alloc, files, PlanCommand::Check, plan, sink),
        Order::Addresses(plan) => of_plan_file(alloc, files, PlanCommand::Addresses, plan, sink),
        Order::Load(plan) => of_plan_file(alloc, files, PlanCommand::Load, plan, sink),
        Order::Run(plan, schedule) => by_two(
            alloc,
            files,
            CommandByPlan::Run,
            plan,
            schedule,
            sink,
        ),
        Order::Read(plan, log) => by_two(alloc, files, CommandByPlan::Read, plan, log, sink),
        Order::Follow(plan, log, frames) => {
            let command = CommandByPlan::Follow(frames.are_all());
            by_two(alloc, files, command, plan, log, sink)
        }
        Order::Audit(plan, log, part, stamps, quiet) => {
            let command = CommandByPlan::Audit(*part, *stamps, *quiet);
            by_two(alloc, files, command, plan, log, sink)
        }
        Order::Vehicle(vehicle) => vehicle_files(alloc, files, vehicle, sink),
        Order::Help(text) => {
            put_all(sink, text.as_bytes())?;
            Ok(Verdict::Done)
        }
    }
}
