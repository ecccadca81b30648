//! A run reads the lines of its schedule.
use crate::closing::write_closing;
use crate::running::Running;
use j39_id::Cut;
use j39_schedule::Units;
use j39_stream::{Fault, LineReader, Sink, Verdict};
use j39_text::put_text;
use std::alloc::AllocError;

/// A run that reads a schedule, whose lines name units of a plan.
#[derive(Drop)]
pub(crate) struct ScheduleReader<'a> {
    pub units: &'a Units<'a>,
    pub running: Running,
}

impl<'a> LineReader for ScheduleReader<'a> {
    ghost use Rattle.std.specs.Prelude.{◌≤◌};
    ghost use Rattle.j39_run.specs.RunText.{is_running};
    ghost use Rattle.j39_run.specs.inside.Doing.{HasRun, IsTextOfBus};

    ghost text = { λ reader. reader.running.text };

    ghost goes = { λ reader. is_running reader.running.halt };

    ghost has_read = { λ reader yielded written. HasRun reader.units.now reader.running yielded written };

    ghost is_text = { λ reader schedule text verdict. IsTextOfBus reader.units.now schedule text verdict };

    ghost within = { λ reader most. reader.running.place ≤ most };

    fn goes_on(&self) -> bool {
        self.running.halt.is_running()
    }

    fn read(&mut self, cut: Cut, line: &[u8]) -> Result<(), AllocError> {
        self.running.read_cut(self.units, cut, line)
    }

    fn close(&mut self) -> Result<Verdict, AllocError> {
        write_closing(
            &mut self.running.text,
            self.units.plan(),
            &self.running.bus,
            self.running.halt,
        )?;
        Ok(self.running.halt.verdict())
    }

    fn put<W: Sink>(&mut self, sink: &mut W) -> Result<(), Fault> {
        put_text(sink, &mut self.running.text)
    }
}
