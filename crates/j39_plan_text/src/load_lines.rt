//! The lines of what a plan asks of its bus.
ghost use Rattle.std.specs.Prelude.{◌≡◌, ◌+◌, ◌*◌, ◌++◌, ◌<◌, ◌^◌, length, slice_index_or, None, OnOk};
ghost use Rattle.j39_plan_text.specs.LoadLines.{age_flow_text, age_text, delay_text, flow_text};
ghost use Rattle.j39_plan_text.specs.LoadLines.{known_age_text, known_delay_text, limited_text};
ghost use Rattle.j39_plan_text.specs.LoadLines.{load_finding_line, load_finding_lines};
ghost use Rattle.j39_plan_text.specs.LoadLines.{load_finding_text, load_line, loads_text};
ghost use Rattle.j39_plan_text.specs.LoadLines.{need_line, receiver_text, time_text, us_allowed, whole_text};
ghost use Rattle.j39_plan_text.specs.LoadLines.{within_text};
ghost use Rattle.std.specs.Option.{option_map};
ghost use Rattle.j39_load.specs.AskedLoads.{asked_in};
ghost use Rattle.j39_load.specs.LineLists.{lines_of_each};
ghost use Rattle.j39_load.specs.LoadFindings.{time_of_each};
ghost use Rattle.j39_load.specs.Loads.{us_of_bits};

use crate::each::{WriteLines, write_each};
use crate::finding_lines::is_between;
use j39_load::{
    Delay, LoadFinding, Loads, WholeTime, bits_of_second, has_several, least_age, us_of_bits,
    youngest_flow,
};
use j39_network::{FlowPlan, NeedPlan, Pace, Plan, Timing, To, is_met};
use j39_text::{TextBuffer, WriteResult, group_label, unit_label, write_need};

/// Writes a finding on the load, without the end of its line.
#[tactic(auto, unfolding(crate::specs::LoadLines::load_finding_text))]
pub fn write_load_finding(text: &mut TextBuffer, finding: LoadFinding) -> WriteResult
    ensures { OnOk result (text.new ≡ text.old ++ load_finding_text finding) }
{
    match finding {
        LoadFinding::NoPeriod(flow) => text.place("F16 NoPeriod ", flow),
        LoadFinding::Overload(bits) => text.field("F17 Overload ", bits),
        LoadFinding::LateFlow(flow) => text.place("F18 LateFlow ", flow),
        LoadFinding::NeedTooOld(need) => text.place("F20 NeedTooOld ", need),
        LoadFinding::AskedTooOften(flow) => text.place("F31 AskedTooOften ", flow),
    }
}

#[tactic(auto, unfolding(crate::specs::LoadLines::load_finding_line))]
fn write_load_finding_line(text: &mut TextBuffer, finding: LoadFinding) -> WriteResult
    ensures { OnOk result (text.new ≡ text.old ++ load_finding_line finding) }
{
    write_load_finding(text, finding)?;
    text.end_line()
}

// Writes each finding whose number is between these.
#[derive(Drop)]
struct LoadFindingsBetween {
    from: u8,
    below: u8,
}

impl WriteLines<LoadFinding> for LoadFindingsBetween {
    ghost use Rattle.j39_plan_text.specs.LoadLines.{load_finding_part};

    ghost lines = { λ w _. load_finding_part w.from w.below };

    #[tactic(auto, unfolding(crate::specs::LoadLines::load_finding_part))]
    fn write(&self, text: &mut TextBuffer, _at: usize, finding: &LoadFinding) -> WriteResult {
        if is_between(self.from, self.below, finding.number()) {
            write_load_finding_line(text, *finding)
        } else {
            Ok(())
        }
    }
}

/// Writes a line for each finding whose number is between these.
pub(super) fn write_load_findings(
    text: &mut TextBuffer,
    findings: &[LoadFinding],
    from: u8,
    below: u8,
) -> WriteResult
    ensures { OnOk result (text.new ≡ text.old ++ load_finding_lines from below findings.now) }
{
    write_each(text, &LoadFindingsBetween { from, below }, findings)
}

/// Writes so many microseconds.
#[tactic(auto, unfolding(crate::specs::LoadLines::time_text))]
pub fn write_time(text: &mut TextBuffer, word: &str, us: u128) -> WriteResult
    ensures { OnOk result (text.new ≡ text.old ++ time_text word.now us) }
{
    text.field(word, us)?;
    text.word(" us")
}

#[tactic(auto, unfolding(crate::specs::LoadLines::within_text))]
fn write_within(text: &mut TextBuffer, word: &str, limit: u32, us: u128) -> WriteResult
    ensures { OnOk result (text.new ≡ text.old ++ within_text word.now limit us) }
{
    text.field(word, us)?;
    write_time(text, " of ", u128::from(limit))
}

#[tactic(auto, unfolding(crate::specs::LoadLines::limited_text))]
fn write_limited(
    text: &mut TextBuffer,
    within: &str,
    beyond: &str,
    limit: u32,
    us: Option<u128>,
) -> WriteResult
    ensures { OnOk result (text.new ≡ text.old ++ limited_text within.now beyond.now limit us) }
{
    match us {
        Some(us) if us <= u128::from(limit) => write_within(text, within, limit, us),
        Some(us) => write_within(text, beyond, limit, us),
        None => {
            text.word(beyond)?;
            write_time(text, "of ", u128::from(limit))
        }
    }
}

// When each long message is whole, where this is known.
fn us_of_each(timing: Timing, whole: WholeTime) -> Option<u128>
    ensures { result ≡ option_map (us_of_bits timing) (time_of_each whole) }
{
    match whole.time_of_each() {
        Some(bits) => Some(us_of_bits(timing, bits)),
        None => None,
    }
}

#[tactic(auto, unfolding(crate::specs::LoadLines::whole_text))]
fn write_whole(
    text: &mut TextBuffer,
    timing: Timing,
    whole: WholeTime,
    deadline: Option<u16>,
) -> WriteResult
    ensures { OnOk result (text.new ≡ text.old ++ whole_text timing whole deadline whole.bits) }
{
    match (deadline, whole.bits) {
        (Some(deadline), _) => {
            let us = us_of_each(timing, whole);
            write_limited(
                text,
                " whole within ",
                " late ",
                1_000 * u32::from(deadline),
                us,
            )
        }
        (None, Some(bits)) => write_time(text, " whole within ", us_of_bits(timing, bits)),
        (None, None) => Ok(()),
    }
}

// How many microseconds are allowed of each frame.
fn us_allowed(pace: Pace) -> u32
    ensures { result ≡ us_allowed pace }
{
    let deadline = pace.deadline.unwrap_or(pace.period);
    1_000 * u32::from(deadline.min(pace.period))
}

#[tactic(auto, unfolding(crate::specs::LoadLines::delay_text))]
fn write_delay(text: &mut TextBuffer, timing: Timing, pace: Pace, delay: Delay) -> WriteResult
    ensures { OnOk result (text.new ≡ text.old ++ delay_text timing pace delay) }
{
    match delay {
        Delay::Within(bits) => {
            let us = us_of_bits(timing, u64::from(bits));
            write_within(text, " within ", us_allowed(pace), us)
        }
        Delay::Beyond(bits) => {
            let us = us_of_bits(timing, u64::from(bits));
            write_within(text, " late ", us_allowed(pace), us)
        }
        Delay::Late => write_time(text, " late of ", u128::from(us_allowed(pace))),
        Delay::Long(frames) => text.field(" frames ", frames),
        Delay::Whole(whole) => {
            text.field(" frames ", whole.frames)?;
            write_whole(text, timing, whole, pace.deadline)
        }
    }
}

/// Writes the delay of a flow, where it is known how often it is sent.
#[tactic(auto, unfolding(crate::specs::LoadLines::known_delay_text))]
pub fn write_known_delay(
    text: &mut TextBuffer,
    timing: Timing,
    pace: Option<Pace>,
    delay: &Option<Delay>,
) -> WriteResult
    ensures { OnOk result (text.new ≡ text.old ++ known_delay_text timing pace delay.now) }
{
    match (pace, delay) {
        (Some(pace), Some(delay)) => write_delay(text, timing, pace, *delay),
        _ => text.word(" no period"),
    }
}

#[tactic(auto, unfolding(crate::specs::LoadLines::receiver_text))]
fn receiver_text(plan: &Plan, to: To) -> &str
    ensures { result.now ≡ receiver_text plan.now to }
{
    match to {
        To::All => "all",
        To::One(unit) => unit_label(plan, unit),
    }
}

/// Writes a flow: its place, its group, its sender and its receiver.
#[tactic(auto, unfolding(crate::specs::LoadLines::flow_text))]
pub fn write_flow(text: &mut TextBuffer, plan: &Plan, place: usize, flow: &FlowPlan) -> WriteResult
    ensures { OnOk result (text.new ≡ text.old ++ flow_text plan.now place flow.now) }
{
    text.place("flow ", place)?;
    text.label(group_label(plan, flow.group))?;
    text.label(unit_label(plan, flow.sender))?;
    text.label(receiver_text(plan, flow.to))
}

// The delay of the flow at a place.
fn delay_of(delays: &[Option<Delay>], place: usize) -> Option<Delay>
    ensures { result ≡ slice_index_or delays.now place None }
{
    match delays.get(place) {
        Some(delay) => *delay,
        None => None,
    }
}

// Writes each flow with its delay.
#[derive(Drop)]
struct FlowDelays<'a> {
    plan: &'a Plan,
    timing: Timing,
    delays: &'a [Option<Delay>],
}

impl WriteLines<FlowPlan> for FlowDelays<'_> {
    ghost use Rattle.j39_plan_text.specs.LoadLines.{flow_line};

    ghost lines = { λ w. flow_line w.plan.now w.timing w.delays.now };

    #[tactic(auto, unfolding(crate::specs::LoadLines::flow_line))]
    fn write(&self, text: &mut TextBuffer, at: usize, flow: &FlowPlan) -> WriteResult {
        write_flow(text, self.plan, at, flow)?;
        write_known_delay(text, self.timing, flow.pace, &delay_of(self.delays, at))?;
        text.end_line()
    }
}

/// Writes how old what is needed is at most, of a limit, which may be less.
#[tactic(auto, unfolding(crate::specs::LoadLines::age_text))]
pub fn write_age(text: &mut TextBuffer, limit: u32, age: Option<u64>) -> WriteResult
    ensures { OnOk result (text.new ≡ text.old ++ age_text limit age) }
{
    let us = match age {
        Some(age) => Some(u128::from(age)),
        None => None,
    };
    write_limited(text, " age ", " old ", limit, us)
}

// Which flow's age it is, where several meet the need.
#[tactic(auto, unfolding(crate::specs::LoadLines::age_flow_text))]
fn write_age_flow(
    text: &mut TextBuffer,
    plan: &Plan,
    timing: Timing,
    delays: &[Option<Delay>],
    need: &NeedPlan,
) -> WriteResult
    requires { length delays.now ≡ length plan.now.flows.items }
    ensures { OnOk result (text.new ≡ text.old ++ age_flow_text plan.now timing delays.now need.now) }
{
    if !has_several(&plan.requests, &plan.flows, need) {
        return Ok(());
    }
    match youngest_flow(timing, &plan.requests, &plan.flows, delays, need) {
        Some(flow) => text.place(" flow ", flow),
        None => Ok(()),
    }
}

// The age of what is needed, or that no flow meets the need.
#[tactic(auto, unfolding(crate::specs::LoadLines::known_age_text))]
fn write_known_age(
    text: &mut TextBuffer,
    plan: &Plan,
    timing: Timing,
    delays: &[Option<Delay>],
    need: &NeedPlan,
    limit: u32,
) -> WriteResult
    requires { length delays.now ≡ length plan.now.flows.items }
    ensures { OnOk result (text.new ≡ text.old ++ known_age_text plan.now timing delays.now need.now limit) }
{
    if !is_met(&plan.requests, &plan.flows, need) {
        return write_time(text, " unmet of ", u128::from(limit));
    }
    let age = least_age(timing, &plan.requests, &plan.flows, delays, need);
    write_age(text, limit, age)?;
    write_age_flow(text, plan, timing, delays, need)
}

// The microseconds of a need's age, which its file has in milliseconds.
fn us_of_within(within: u16) -> u32
    ensures { result ≡ 1000 * within }
{
    1_000 * u32::from(within)
}

// A need and its age, where it asks for one.
#[tactic(auto, unfolding(crate::specs::LoadLines::need_line))]
fn write_need_line(
    text: &mut TextBuffer,
    plan: &Plan,
    timing: Timing,
    delays: &[Option<Delay>],
    place: usize,
    need: &NeedPlan,
) -> WriteResult
    requires { length delays.now ≡ length plan.now.flows.items }
    ensures { OnOk result (text.new ≡ text.old ++ need_line plan.now timing delays.now place need.now) }
{
    let Some(within) = need.within else {
        return Ok(());
    };
    write_need(text, plan, place, need)?;
    write_known_age(text, plan, timing, delays, need, us_of_within(within))?;
    text.end_line()
}

#[tactic(auto, unfolding(j39_load::specs::LineLists::lines_of_each))]
fn write_needs(
    text: &mut TextBuffer,
    plan: &Plan,
    timing: Timing,
    delays: &[Option<Delay>],
) -> WriteResult
    requires { length delays.now ≡ length plan.now.flows.items }
    ensures { OnOk result (text.new ≡ text.old
        ++ lines_of_each (need_line plan.now timing delays.now) 0 plan.now.needs.items) }
{
    for (place, need) in plan.needs.iter().enumerate() {
        write_need_line(text, plan, timing, delays, place, need)?;
    }
    Ok(())
}

/// Writes how much of the bus all flows take.
#[tactic(auto, unfolding(crate::specs::LoadLines::load_line))]
pub fn write_load(text: &mut TextBuffer, loads: &Loads) -> WriteResult
    ensures { OnOk result (text.new ≡ text.old ++ load_line loads.now.timing (asked_in loads.now)) }
{
    text.field("load ", loads.total())?;
    text.field(" of ", bits_of_second(loads.timing.bitrate))?;
    text.end_line()
}

/// Writes each flow with its delay, each need that asks for an age with it, and the load of all.
#[tactic(auto, unfolding(crate::specs::LoadLines::loads_text))]
pub(super) fn write_loads(
    text: &mut TextBuffer,
    plan: &Plan,
    loads: &Loads,
    delays: &[Option<Delay>],
) -> WriteResult
    requires { length delays.now ≡ length plan.now.flows.items }
    ensures { OnOk result (text.new ≡ text.old
        ++ loads_text plan.now loads.now.timing (asked_in loads.now) delays.now) }
{
    let timing = loads.timing;
    let flows = FlowDelays {
        plan,
        timing,
        delays,
    };
    write_each(text, &flows, &plan.flows)?;
    write_needs(text, plan, timing, delays)?;
    write_load(text, loads)
}
