//! Where a run of a schedule ends.
ghost use Rattle.std.specs.Prelude.{◌≡◌};
ghost use Rattle.j39_run.specs.RunText.{is_running, verdict_of};

use j39_bus::StepError;
use j39_schedule::LineFault;
use j39_stream::Verdict;

/// Where a run of a schedule ends. Lines are named by their places from 0.
#[derive(Clone, Copy)]
pub enum Halt {
    /// After the last line.
    End,
    /// At this line, the step of which is refused.
    Step(usize, StepError),
    /// At this line, which can't be read.
    Line(usize, LineFault),
    /// At this line, before which as many frames were sent as a run may send.
    Full(usize),
}

impl Halt {
    /// Whether no line is refused.
    pub fn is_running(self) -> bool
        ensures { result ≡ is_running self }
    {
        matches!(self, Halt::End)
    }

    pub fn verdict(self) -> Verdict
        ensures { result ≡ verdict_of self }
    {
        match self {
            Halt::End => Verdict::Done,
            Halt::Step(_, _) => Verdict::Refused,
            Halt::Line(_, _) => Verdict::Unreadable,
            Halt::Full(_) => Verdict::Refused,
        }
    }
}
