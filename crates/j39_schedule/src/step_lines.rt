//! Writing the steps of a plan as lines of a schedule.
ghost use Rattle.std.specs.Prelude.{◌≡◌, ◌++◌, OnOk, codes};
ghost use Rattle.hex.specs.Hex.{encode_upper};
ghost use Rattle.j39_text.specs.Texts.{place_field};
ghost use Rattle.j39_schedule.specs.StepLines.{step_line, step_lines, step_text, step_unit_text};

use j39_network::{Plan, Step};
use j39_text::{TextBuffer, WriteResult, unit_label, write_units};

#[tactic(auto, unfolding(crate::specs::StepLines::step_unit_text))]
fn write_unit(text: &mut TextBuffer, word: &str, plan: &Plan, unit: usize) -> WriteResult
    ensures { OnOk result (text.new ≡ text.old ++ step_unit_text word.now plan.now unit) }
{
    text.word(word)?;
    text.word(unit_label(plan, unit))
}

// A word, the number of a flow, and bytes.
fn write_message(text: &mut TextBuffer, word: &str, flow: usize, bytes: &Vec<u8>) -> WriteResult
    ensures { OnOk result (text.new ≡ text.old ++ (place_field word.now flow
        ++ (codes " " ++ encode_upper bytes.now.items))) }
{
    text.place(word, flow)?;
    text.word(" ")?;
    text.hex(bytes.as_slice())
}

#[tactic(auto, unfolding(crate::specs::StepLines::step_text))]
fn write_step(text: &mut TextBuffer, plan: &Plan, step: &Step) -> WriteResult
    ensures { OnOk result (text.new ≡ text.old ++ step_text plan.now step.now) }
{
    match step {
        Step::Up(unit) => write_unit(text, "up ", plan, *unit),
        Step::Down(unit) => write_unit(text, "down ", plan, *unit),
        Step::Give(from, to) => write_units(text, "give ", plan, *from, *to),
        Step::Ask(unit) => write_unit(text, "ask ", plan, *unit),
        Step::Begin(flow, bytes) => write_message(text, "begin ", *flow, bytes),
        Step::Send(flow, bytes) => write_message(text, "send ", *flow, bytes),
        Step::Emit(unit) => write_unit(text, "emit ", plan, *unit),
        Step::Take(from, to) => write_units(text, "take ", plan, *from, *to),
        Step::Lose(from, to) => write_units(text, "lose ", plan, *from, *to),
        Step::LateSender(unit) => write_unit(text, "late ", plan, *unit),
        Step::LateReceiver(sender, receiver) => {
            write_units(text, "late ", plan, *sender, *receiver)
        }
        Step::Rest(unit) => write_unit(text, "rest ", plan, *unit),
    }
}

#[tactic(auto, unfolding(crate::specs::StepLines::step_line))]
fn write_line(text: &mut TextBuffer, plan: &Plan, step: &Step) -> WriteResult
    ensures { OnOk result (text.new ≡ text.old ++ step_line plan.now step.now) }
{
    text.word("  ")?;
    write_step(text, plan, step)?;
    text.end_line()
}

/// Writes the steps of a plan as lines of a schedule, each after two spaces.
pub fn write_steps(text: &mut TextBuffer, plan: &Plan, steps: &[Step]) -> WriteResult
    ensures { OnOk result (text.new ≡ text.old ++ step_lines plan.now steps.now) }
{
    for step in steps {
        write_line(text, plan, step)?;
    }
    Ok(())
}
