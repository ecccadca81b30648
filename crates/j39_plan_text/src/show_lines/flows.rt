//! The lines of flows, needs and requests.
ghost use Rattle.std.specs.Prelude.{◌≡◌, ◌++◌, OnOk};
ghost use Rattle.j39_plan_text.specs.ShowText.{need_from_line, need_signal_line, pace_lines, receivers_text as to_text};

use super::values::{write_number, write_optional, write_truth, write_word};
use crate::each::WriteLines;
use j39_network::{FlowPlan, NeedPlan, Pace, Plan, RequestPlan, To};
use j39_plan::{Key, Table};
use j39_text::{TextBuffer, WriteResult, group_label, signal_label, unit_label};

#[tactic(auto, unfolding(crate::specs::ShowText::receivers_text))]
fn to_word(plan: &Plan, to: To) -> &str
    ensures { result.now ≡ to_text plan.now to }
{
    match to {
        To::All => "all",
        To::One(unit) => unit_label(plan, unit),
    }
}

#[tactic(auto, unfolding(crate::specs::ShowText::pace_lines))]
fn write_pace(text: &mut TextBuffer, table: Table, pace: Option<Pace>) -> WriteResult
    ensures { OnOk result (text.new ≡ text.old ++ pace_lines table pace) }
{
    match pace {
        Some(pace) => {
            write_number(text, table, Key::Period, pace.period)?;
            write_optional(text, table, Key::Deadline, pace.deadline)?;
            write_number(text, table, Key::Jitter, pace.jitter)
        }
        None => Ok(()),
    }
}

/// Writes each flow.
#[derive(Drop)]
pub(super) struct Flows<'a>(pub(super) &'a Plan);

impl WriteLines<FlowPlan> for Flows<'_> {
    ghost use Rattle.j39_plan_text.specs.ShowText.{flow_lines};

    ghost lines = { λ w. flow_lines w.0.now };

    #[tactic(auto, unfolding(crate::specs::ShowText::flow_lines))]
    fn write(&self, text: &mut TextBuffer, at: usize, flow: &FlowPlan) -> WriteResult {
        let table = Table::Flow(at);
        write_word(text, table, Key::Group, group_label(self.0, flow.group))?;
        write_word(text, table, Key::From, unit_label(self.0, flow.sender))?;
        write_word(text, table, Key::To, to_word(self.0, flow.to))?;
        write_pace(text, table, flow.pace)?;
        write_optional(text, table, Key::Pause, flow.pause)?;
        write_truth(text, table, Key::OnRequest, flow.on_request)
    }
}

// The signal that a need names, if it names one.
#[tactic(auto, unfolding(crate::specs::ShowText::need_signal_line))]
fn write_need_signal(
    text: &mut TextBuffer,
    plan: &Plan,
    table: Table,
    need: &NeedPlan,
) -> WriteResult
    ensures { OnOk result (text.new ≡ text.old ++ need_signal_line plan.now table need.now) }
{
    match need.signal {
        Some(signal) => {
            write_word(
                text,
                table,
                Key::Signal,
                signal_label(plan, need.group, signal),
            )
        }
        None => Ok(()),
    }
}

// The unit that a need asks of, if it asks of one.
#[tactic(auto, unfolding(crate::specs::ShowText::need_from_line))]
fn write_need_from(text: &mut TextBuffer, plan: &Plan, table: Table, need: &NeedPlan) -> WriteResult
    ensures { OnOk result (text.new ≡ text.old ++ need_from_line plan.now table need.now) }
{
    match need.from {
        Some(unit) => write_word(text, table, Key::From, unit_label(plan, unit)),
        None => Ok(()),
    }
}

/// Writes each need.
#[derive(Drop)]
pub(super) struct Needs<'a>(pub(super) &'a Plan);

impl WriteLines<NeedPlan> for Needs<'_> {
    ghost use Rattle.j39_plan_text.specs.ShowText.{need_lines};

    ghost lines = { λ w. need_lines w.0.now };

    #[tactic(auto, unfolding(crate::specs::ShowText::need_lines))]
    fn write(&self, text: &mut TextBuffer, at: usize, need: &NeedPlan) -> WriteResult {
        let table = Table::Need(at);
        write_word(text, table, Key::Unit, unit_label(self.0, need.unit))?;
        write_word(text, table, Key::Group, group_label(self.0, need.group))?;
        write_need_signal(text, self.0, table, need)?;
        write_need_from(text, self.0, table, need)?;
        write_optional(text, table, Key::Within, need.within)
    }
}

/// Writes each request.
#[derive(Drop)]
pub(super) struct Requests<'a>(pub(super) &'a Plan);

impl WriteLines<RequestPlan> for Requests<'_> {
    ghost use Rattle.j39_plan_text.specs.ShowText.{request_lines};

    ghost lines = { λ w. request_lines w.0.now };

    #[tactic(auto, unfolding(crate::specs::ShowText::request_lines))]
    fn write(&self, text: &mut TextBuffer, at: usize, request: &RequestPlan) -> WriteResult {
        let table = Table::Request(at);
        write_word(text, table, Key::Group, group_label(self.0, request.group))?;
        write_word(text, table, Key::From, unit_label(self.0, request.sender))?;
        write_word(text, table, Key::To, to_word(self.0, request.to))?;
        write_optional(text, table, Key::Period, request.period)
    }
}
