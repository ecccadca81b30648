//! The end of a run.
ghost use Rattle.std.specs.Prelude.{◌≡◌, ◌++◌, OnOk, length};
ghost use Rattle.j39_bus.specs.Stands.{Stands};
ghost use Rattle.j39_world.specs.World.{World};
ghost use Rattle.j39_run.specs.RunText.{closing_text};
ghost use Rattle.j39_run.specs.Views.{Shows, View};

use crate::halt::Halt;
use crate::run_lines::{settled_line, write_halt, write_reports, write_units};
use j39_bus::Bus;
use j39_network::Plan;
use j39_text::{TextBuffer, WriteResult};

/// Writes where a run ended, and what is then seen of its bus.
#[tactic(auto, unfolding(crate::specs::RunText::closing_text))]
pub fn write_closing(text: &mut TextBuffer, plan: &Plan, bus: &Bus, halt: Halt) -> WriteResult
    requires { length bus.now.units ≡ length plan.now.units.items }
    ensures { OnOk result ((view : View) × (text.new ≡ text.old ++ closing_text plan.now view halt)
        × ((w : World) → Stands bus.now plan.now w → Shows plan.now w view)) }
{
    write_halt(text, halt)?;
    write_units(text, plan, bus)?;
    text.word(settled_line(bus.is_settled()))?;
    write_reports(text, plan, bus.reports())
}
