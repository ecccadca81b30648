//! What is written of a plan that has no bus.
ghost use Rattle.std.specs.Prelude.{IfOk};
ghost use Rattle.j39_run.specs.RunText.{IsPlanRefusal};

use j39_bus::BusError;
use j39_network::Plan;
use j39_text::{TextBuffer, write_group, write_units};
use std::alloc::{AllocError, Global};

/// The line of a plan that a bus refuses. Where there is no bus for want of memory there is none.
pub fn plan_refusal(alloc: Global, plan: &Plan, error: BusError) -> Result<TextBuffer, AllocError>
    ensures { IfOk result (IsPlanRefusal plan.now error) }
{
    let mut text = TextBuffer::new(alloc);
    match error {
        BusError::ChooserCount => text.word("refused plan ChooserCount")?,
        BusError::SameName(first, second) => {
            write_units(&mut text, "refused plan SameName ", plan, first, second)?;
        }
        BusError::BadGroup(group) => write_group(&mut text, "refused plan BadGroup ", plan, group)?,
        BusError::Memory => return Err(AllocError),
    }
    text.end_line()?;
    Ok(text)
}
