//! The lines that report of the times of a line of vehicles.
ghost use Rattle.std.specs.Prelude.{◌≡◌, ◌++◌, ◌*◌, OnOk};
ghost use Rattle.j39_line_text.specs.TimeLines.{flow_time_text, line_times_text, need_time_text, youngest_text};

use j39_line_bounds::{FlowTime, LineTimes, NeedTime};
use j39_load::bits_of_second;
use j39_network::{FlowPlan, NeedPlan, Plan, Timing};
use j39_plan_text::{WriteLines, write_age, write_each, write_flow, write_known_delay, write_time};
use j39_text::{TextBuffer, WriteResult, write_need};

#[tactic(auto, unfolding(crate::specs::TimeLines::flow_time_text))]
fn write_flow_time(
    text: &mut TextBuffer,
    timing: Timing,
    flow: &FlowPlan,
    time: FlowTime,
) -> WriteResult
    ensures { OnOk result (text.new ≡ text.old ++ flow_time_text timing flow.now.pace time) }
{
    match time {
        FlowTime::NoVariant => text.word(" no variant"),
        FlowTime::Reported(delay) => write_known_delay(text, timing, flow.pace, &delay),
    }
}

// Writes each flow with its worst delay.
#[derive(Drop)]
struct FlowTimes<'a> {
    plan: &'a Plan,
    timing: Timing,
    times: &'a LineTimes,
}

impl WriteLines<FlowPlan> for FlowTimes<'_> {
    ghost use Rattle.j39_line_text.specs.TimeLines.{line_flow_line};

    ghost lines = { λ w. line_flow_line w.plan.now w.timing w.times.now };

    #[tactic(auto, unfolding(crate::specs::TimeLines::line_flow_line))]
    fn write(&self, text: &mut TextBuffer, at: usize, flow: &FlowPlan) -> WriteResult {
        write_flow(text, self.plan, at, flow)?;
        write_flow_time(text, self.timing, flow, self.times.flow(at))?;
        text.end_line()
    }
}

// Which flow's age it is, where several bring what is needed.
#[tactic(auto, unfolding(crate::specs::TimeLines::youngest_text))]
fn write_youngest(text: &mut TextBuffer, youngest: Option<usize>) -> WriteResult
    ensures { OnOk result (text.new ≡ text.old ++ youngest_text youngest) }
{
    match youngest {
        Some(flow) => text.place(" flow ", flow),
        None => Ok(()),
    }
}

// How old it is, of so many milliseconds.
#[tactic(auto, unfolding(crate::specs::TimeLines::need_time_text))]
fn write_need_time(text: &mut TextBuffer, within: u16, time: NeedTime) -> WriteResult
    ensures { OnOk result (text.new ≡ text.old ++ need_time_text (1000 * within) time) }
{
    let limit = 1_000 * u32::from(within);
    match time {
        NeedTime::NoVariant => text.word(" no variant"),
        NeedTime::Unmet => write_time(text, " unmet of ", u128::from(limit)),
        NeedTime::Age(age, youngest) => {
            write_age(text, limit, age)?;
            write_youngest(text, youngest)
        }
    }
}

// Writes each need that asks for an age, with its worst.
#[derive(Drop)]
struct NeedTimes<'a> {
    plan: &'a Plan,
    times: &'a LineTimes,
}

impl WriteLines<NeedPlan> for NeedTimes<'_> {
    ghost use Rattle.j39_line_text.specs.TimeLines.{line_need_line};

    ghost lines = { λ w. line_need_line w.plan.now w.times.now };

    #[tactic(auto, unfolding(crate::specs::TimeLines::line_need_line))]
    fn write(&self, text: &mut TextBuffer, at: usize, need: &NeedPlan) -> WriteResult {
        let Some(within) = need.within else {
            return Ok(());
        };
        write_need(text, self.plan, at, need)?;
        write_need_time(text, within, self.times.need(at))?;
        text.end_line()
    }
}

/// Writes each flow with its worst delay, each need that asks for an age with its worst, and the greatest load.
#[tactic(auto, unfolding(crate::specs::TimeLines::line_times_text))]
pub(crate) fn write_times(
    text: &mut TextBuffer,
    plan: &Plan,
    timing: Timing,
    times: &LineTimes,
) -> WriteResult
    ensures { OnOk result (text.new ≡ text.old ++ line_times_text plan.now timing times.now) }
{
    let flows = FlowTimes {
        plan,
        timing,
        times,
    };
    write_each(text, &flows, &plan.flows)?;
    write_each(text, &NeedTimes { plan, times }, &plan.needs)?;
    text.field("load ", times.load)?;
    text.field(" of ", bits_of_second(timing.bitrate))?;
    text.end_line()
}
