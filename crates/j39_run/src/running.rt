//! A schedule that runs on a bus, line after line.
ghost use Rattle.std.specs.Prelude.{◌≡◌, ◌<◌, ◌^◌, nat_le, true, [], ◌∷◌, IfOk, OnErr, OnOk, None, Some};
ghost use Rattle.j39_bus.specs.Stands.{Stands};
ghost use Rattle.j39_network.specs.declared.plan.Plan.{Plan as APlan};
ghost use Rattle.j39_id.specs.Lines.{Line, Short, yields};
ghost use Rattle.j39_schedule.specs.Schedule.{line_order, read_as};
ghost use Rattle.j39_world.specs.Run.{cause_of, refusal};
ghost use Rattle.j39_world.specs.World.{World, all_off};
ghost use Rattle.j39_run.specs.RunText.{is_running, most_frames};
ghost use Rattle.j39_run.specs.inside.Doing.{HasRun, OrdersStep, RunsOn};

use crate::halt::Halt;
use crate::run_lines::write_frames;
use j39_bus::{Bus, StepError};
use j39_id::Cut;
use j39_network::Step;
use j39_schedule::{LineFault, Units, Unread, read_line};
use j39_text::TextBuffer;
use std::alloc::{AllocError, Global};

/// How many frames a run may send before a step. What a frame says is kept for each unit that has still to hear it, in
/// up to 4 KB for 127 of them.
const MOST_FRAMES: usize = 100_000;

/// A run of a schedule: its bus, how many lines were done, what is to be written of them, and where the run ends, so
/// far as is known.
#[derive(Drop)]
pub(crate) struct Running {
    alloc: Global,
    pub bus: Bus,
    pub place: usize,
    pub text: TextBuffer,
    pub halt: Halt,
}

// Whether a run that has sent so many frames does no further step.
fn is_full(sent: usize) -> bool
    ensures { result ≡ nat_le most_frames sent }
{
    sent >= MOST_FRAMES
}

// Where a run ends at this line, whose step was not done. A step for which memory was wanted ends no run.
fn refused_at(place: usize, error: StepError) -> Result<Halt, AllocError>
    ensures halt { IfOk result (λ halt. (halt ≡ Halt.Step place error) × (cause_of error ≡ Some error)) }
    ensures memory { OnErr result (cause_of error ≡ None) }
{
    match error {
        StepError::Memory => Err(AllocError),
        refused => Ok(Halt::Step(place, refused)),
    }
}

impl Running {
    /// A run that did nothing yet.
    pub fn new(alloc: Global, bus: Bus) -> Self
        ensures begun { (plan : APlan) → Stands bus plan all_off → HasRun plan result [] [] }
        ensures text { result.text ≡ [] }
        ensures place { result.place ≡ 0 }
        ensures halt { result.halt ≡ Halt.End }
    {
        Running {
            alloc,
            bus,
            place: 0,
            text: TextBuffer::new(alloc),
            halt: Halt::End,
        }
    }

    // Does the step that the next line orders, or ends there where it is refused.
    fn step(&mut self, step: &Step) -> Result<(), AllocError>
        requires goes { is_running self.old.halt ≡ true }
        requires room { self.old.place < 2 ^ 63 }
        ensures run { OnOk result ((plan : APlan) (line : Line) → line_order plan line ≡ read_as (Some step.now)
            → RunsOn plan self.old self.new (line ∷ [])) }
        ensures memory { OnErr result ((plan : APlan) (w : World) → Stands self.old.bus plan w
            → refusal plan w step.now ≡ None) }
    {
        let shown = self.bus.frames().len();
        if is_full(shown) {
            self.halt = Halt::Full(self.place);
            return Ok(());
        }
        match self.bus.step(step) {
            Ok(()) => {
                write_frames(&mut self.text, self.bus.frames(), shown)?;
                self.place += 1;
                Ok(())
            }
            Err(error) => {
                self.halt = refused_at(self.place, error)?;
                Ok(())
            }
        }
    }

    // Does what a line orders, or ends there where it can't be read or its step is refused.
    #[tactic(auto, using(crate::proofs::Runs::bad_run))]
    fn read_line(&mut self, units: &Units, line: &[u8]) -> Result<(), AllocError>
        requires goes { is_running self.old.halt ≡ true }
        requires room { self.old.place < 2 ^ 63 }
        ensures run { OnOk result (RunsOn units.now self.old self.new (Short line.now ∷ [])) }
        ensures memory { OnErr result (OrdersStep units.now (Short line.now ∷ [])) }
    {
        match read_line(self.alloc, units, line) {
            Ok(Some(step)) => self.step(&step),
            Ok(None) => {
                self.place += 1;
                Ok(())
            }
            Err(Unread::Fault(fault)) => {
                self.halt = Halt::Line(self.place, fault);
                Ok(())
            }
            Err(Unread::Memory) => Err(AllocError),
        }
    }

    /// Reads what a cutter yields: a line, a line that is too long, or nothing yet. Behind a line that is refused
    /// nothing is done.
    #[tactic(auto, using(crate::proofs::Runs::same_run, crate::proofs::Runs::stopped_run))]
    pub fn read_cut(&mut self, units: &Units, cut: Cut, line: &[u8]) -> Result<(), AllocError>
        requires { self.old.place < 2 ^ 63 }
        ensures run { OnOk result (RunsOn units.now self.old self.new (yields cut line.now)) }
        ensures memory { OnErr result ((is_running self.old.halt ≡ true) × OrdersStep units.now (yields cut line.now)) }
    {
        if !self.halt.is_running() {
            return Ok(());
        }
        match cut {
            Cut::More => Ok(()),
            Cut::Line => self.read_line(units, line),
            Cut::Long => {
                self.halt = Halt::Line(self.place, LineFault::LongLine);
                Ok(())
            }
        }
    }
}
