//! The lines of findings.
ghost use Rattle.std.specs.Prelude.{◌≡◌, ◌++◌, OnOk};
ghost use Rattle.j39_vehicle_findings.specs.declared.finding.VehicleFinding.TheVariants.{SignalDiffers};
ghost use Rattle.j39_vehicle_text.specs.VehicleFindingLines.{sent_signal_label, time_finding_lines, time_finding_text};
ghost use Rattle.j39_vehicle_text.specs.VehicleFindingLines.{vehicle_finding_lines, vehicle_finding_text};

use crate::labels::{bus_label, gateway_label, signal_label_at};
use j39_plan_text::{WriteLines, write_each};
use j39_text::{TextBuffer, WriteResult};
use j39_vehicle::Vehicle;
use j39_vehicle_findings::VehicleFinding;
use j39_vehicle_times::TimeFinding;

// The label of a signal of the group that the forward at a place sends.
#[tactic(auto, unfolding(crate::specs::VehicleFindingLines::sent_signal_label))]
fn sent_signal_label(vehicle: &Vehicle, forward: usize, signal: usize) -> &str
    ensures { result.now ≡ sent_signal_label vehicle.now forward signal }
{
    match vehicle.forwards.get(forward) {
        Some(forward) => signal_label_at(vehicle, forward.output, signal),
        None => "",
    }
}

#[tactic(auto, unfolding(crate::specs::VehicleFindingLines::vehicle_finding_text))]
fn write_signal_differs(
    text: &mut TextBuffer,
    vehicle: &Vehicle,
    forward: usize,
    signal: usize,
) -> WriteResult
    ensures { OnOk result (text.new ≡ text.old ++ vehicle_finding_text vehicle.now (SignalDiffers forward signal)) }
{
    text.place("G6 SignalDiffers ", forward)?;
    text.label(sent_signal_label(vehicle, forward, signal))
}

#[tactic(auto, unfolding(crate::specs::VehicleFindingLines::vehicle_finding_text))]
fn write_finding(text: &mut TextBuffer, vehicle: &Vehicle, finding: VehicleFinding) -> WriteResult
    ensures { OnOk result (text.new ≡ text.old ++ vehicle_finding_text vehicle.now finding) }
{
    match finding {
        VehicleFinding::NoInput(n) => text.place("G1 NoInput ", n),
        VehicleFinding::ManyInputs(n) => text.place("G2 ManyInputs ", n),
        VehicleFinding::NoOutput(n) => text.place("G3 NoOutput ", n),
        VehicleFinding::ManyOutputs(n) => text.place("G4 ManyOutputs ", n),
        VehicleFinding::LayoutDiffers(n) => text.place("G5 LayoutDiffers ", n),
        VehicleFinding::SignalDiffers(n, t) => write_signal_differs(text, vehicle, n, t),
        VehicleFinding::TwoForwards(n, m) => text.places("G7 TwoForwards ", n, m),
        VehicleFinding::ForwardLoop(n) => text.place("G8 ForwardLoop ", n),
        VehicleFinding::NeedUnmet(d) => text.place("G9 NeedUnmet ", d),
        VehicleFinding::SharedQueue(k, b) => text.labels(
            "G14 SharedQueue ",
            gateway_label(vehicle, k),
            bus_label(vehicle, b),
        ),
    }
}

#[tactic(auto, unfolding(crate::specs::VehicleFindingLines::time_finding_text))]
fn write_time_finding(text: &mut TextBuffer, finding: TimeFinding) -> WriteResult
    ensures { OnOk result (text.new ≡ text.old ++ time_finding_text finding) }
{
    match finding {
        TimeFinding::TooOften(n) => text.place("G10 TooOften ", n),
        TimeFinding::TooLate(n) => text.place("G11 TooLate ", n),
        TimeFinding::TooRare(n) => text.place("G12 TooRare ", n),
        TimeFinding::NeedTooOld(d) => text.place("G13 NeedTooOld ", d),
    }
}

// Writes a line for each finding of buses, forwards and needs.
#[derive(Drop)]
struct FindingLines<'a>(&'a Vehicle);

impl WriteLines<VehicleFinding> for FindingLines<'_> {
    ghost use Rattle.j39_vehicle_text.specs.VehicleFindingLines.{vehicle_finding_line};

    ghost lines = { λ w _. vehicle_finding_line w.0.now };

    #[tactic(auto, unfolding(crate::specs::VehicleFindingLines::vehicle_finding_line))]
    fn write(&self, text: &mut TextBuffer, _at: usize, finding: &VehicleFinding) -> WriteResult {
        write_finding(text, self.0, *finding)?;
        text.end_line()
    }
}

// Writes a line for each finding of times.
struct TimeFindingLines;

impl WriteLines<TimeFinding> for TimeFindingLines {
    ghost use Rattle.j39_vehicle_text.specs.VehicleFindingLines.{time_finding_line};

    ghost lines = { λ _ _. time_finding_line };

    #[tactic(auto, unfolding(crate::specs::VehicleFindingLines::time_finding_line))]
    fn write(&self, text: &mut TextBuffer, _at: usize, finding: &TimeFinding) -> WriteResult {
        write_time_finding(text, *finding)?;
        text.end_line()
    }
}

/// Writes a line for each of these findings.
pub(super) fn write_findings(
    text: &mut TextBuffer,
    vehicle: &Vehicle,
    findings: &[VehicleFinding],
) -> WriteResult
    ensures { OnOk result (text.new ≡ text.old ++ vehicle_finding_lines vehicle.now findings.now) }
{
    write_each(text, &FindingLines(vehicle), findings)
}

/// Writes a line for each finding of times.
pub(super) fn write_time_findings(text: &mut TextBuffer, findings: &[TimeFinding]) -> WriteResult
    ensures { OnOk result (text.new ≡ text.old ++ time_finding_lines findings.now) }
{
    write_each(text, &TimeFindingLines, findings)
}
