//! The lines of forwards.
ghost use Rattle.std.specs.Prelude.{◌≡◌, ◌++◌, Some, None, OnOk};
ghost use Rattle.j39_vehicle_text.specs.ForwardLines.{queued_text_where, forward_lines, forward_text};
ghost use Rattle.j39_vehicle_text.specs.ForwardLines.{output_jitter, queued_text};

use crate::labels::{gateway_label, write_group_at};
use j39_plan_text::{WriteLines, write_each};
use j39_text::{TextBuffer, WriteResult};
use j39_vehicle::{Forward, Vehicle};
use j39_vehicle_findings::Routes;
use j39_vehicle_times::{
    Delays, askers_on, first_output, is_late_asked, latest_of, queued, us_of_ms,
};

// How long after its release a message of the first flow that the forward feeds may be queued, in microseconds.
#[tactic(auto, unfolding(crate::specs::ForwardLines::output_jitter))]
fn output_jitter(vehicle: &Vehicle, forward: &Forward) -> u64
    ensures { result ≡ output_jitter vehicle.now forward.now }
{
    match first_output(vehicle, forward) {
        Some(flow) => {
            let askers = askers_on(&vehicle.buses, forward.output.bus, flow);
            us_of_ms(latest_of(askers, flow))
        }
        None => 0,
    }
}

// When messages are queued, of when they have to be.
#[tactic(auto, unfolding(crate::specs::ForwardLines::queued_text))]
fn write_within(text: &mut TextBuffer, time: u64, limit: u64) -> WriteResult
    ensures { OnOk result (text.new ≡ text.old ++ queued_text (Some time) limit) }
{
    text.field(" queued within ", time)?;
    text.field(" of ", limit)?;
    text.word(" us")
}

// When they have to be, where it isn't known when they are.
#[tactic(auto, unfolding(crate::specs::ForwardLines::queued_text))]
fn write_late(text: &mut TextBuffer, limit: u64) -> WriteResult
    ensures { OnOk result (text.new ≡ text.old ++ queued_text None limit) }
{
    text.field(" late of ", limit)?;
    text.word(" us")
}

fn write_queued(text: &mut TextBuffer, time: Option<u64>, limit: u64) -> WriteResult
    ensures { OnOk result (text.new ≡ text.old ++ queued_text time limit) }
{
    match time {
        Some(time) => write_within(text, time, limit),
        None => write_late(text, limit),
    }
}

// The same, where it is asked.
#[tactic(auto, unfolding(crate::specs::ForwardLines::queued_text_where))]
fn write_asked(text: &mut TextBuffer, is_asked: bool, time: Option<u64>, limit: u64) -> WriteResult
    ensures { OnOk result (text.new ≡ text.old ++ queued_text_where is_asked time limit) }
{
    if is_asked {
        write_queued(text, time, limit)
    } else {
        Ok(())
    }
}

// Which group of which bus goes on as which of which, and by which gateway.
#[tactic(auto, unfolding(crate::specs::ForwardLines::forward_text))]
fn write_forward(
    text: &mut TextBuffer,
    vehicle: &Vehicle,
    place: usize,
    forward: &Forward,
) -> WriteResult
    ensures { OnOk result (text.new ≡ text.old ++ forward_text vehicle.now place forward.now) }
{
    text.place("forward ", place)?;
    text.label(gateway_label(vehicle, forward.gateway))?;
    write_group_at(text, " ", vehicle, forward.input)?;
    write_group_at(text, " to ", vehicle, forward.output)
}

// Writes each forward, and when its messages are queued where it is asked.
#[derive(Drop)]
struct ForwardDelays<'a> {
    routes: &'a Routes<'a>,
    delays: &'a Delays,
}

impl WriteLines<Forward> for ForwardDelays<'_> {
    ghost use Rattle.j39_vehicle_text.specs.ForwardLines.{forward_line};

    ghost lines = { λ w. forward_line w.routes.now.vehicle.now w.delays.now };

    #[tactic(auto, unfolding(crate::specs::ForwardLines::forward_line))]
    fn write(&self, text: &mut TextBuffer, at: usize, forward: &Forward) -> WriteResult {
        let vehicle = self.routes.vehicle;
        write_forward(text, vehicle, at, forward)?;
        write_asked(
            text,
            is_late_asked(vehicle, at),
            queued(self.routes, self.delays, at),
            output_jitter(vehicle, forward),
        )?;
        text.end_line()
    }
}

/// Writes a line for each forward.
pub(super) fn write_forwards(
    text: &mut TextBuffer,
    routes: &Routes<'_>,
    delays: &Delays,
) -> WriteResult
    ensures { OnOk result (text.new ≡ text.old ++ forward_lines routes.now.vehicle.now delays.now) }
{
    write_each(
        text,
        &ForwardDelays { routes, delays },
        &routes.vehicle.forwards,
    )
}
