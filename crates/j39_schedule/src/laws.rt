//! Laws of schedules: the fault that is reported of a line, and what is written of steps.
ghost use Rattle.j39_schedule.specs.LineFaults.{ReportsFirstFault};
ghost use Rattle.j39_schedule.specs.StepLines.{StepReadsBack, StepsReadBack};

/// The words that are written of a step of the plan order this step, and the lines that are written of steps are a
/// schedule of these steps, one a line.
pub fn written_steps_read_back()
    ensures step { StepReadsBack }
    ensures steps { StepsReadBack }
{}

/// The fault that is reported of a line is the first of its faults that holds, and none is reported where none holds.
pub fn first_fault_is_reported()
    ensures { ReportsFirstFault }
{}
