//! The lines of findings.
ghost use Rattle.std.specs.Prelude.{◌≡◌, ◌++◌, OnOk};
ghost use Rattle.j39_plan_text.specs.FindingLines.{finding_line, finding_lines, finding_report, finding_text};
ghost use Rattle.j39_plan_text.specs.FindingLines.{is_between, labels_number_text};
ghost use Rattle.j39_plan_text.specs.FindingLines.{run_lines, signals_text};

use crate::each::{WriteLines, write_each};
use j39_findings::{Finding, bad_run};
use j39_network::Plan;
use j39_schedule::write_steps;
use j39_text::{
    TextBuffer, WriteResult, group_label, group_pgn, group_selector_end, signal_bits, signal_end,
    signal_label, text_end, text_label, unit_address, unit_label, write_group, write_units,
};
use std::alloc::Global;

// A word, two labels and a number.
#[tactic(auto, unfolding(crate::specs::FindingLines::labels_number_text))]
fn write_labels_number(
    text: &mut TextBuffer,
    word: &str,
    first: &str,
    second: &str,
    number: u32,
) -> WriteResult
    ensures { OnOk result (text.new ≡ text.old ++ labels_number_text word.now first.now second.now number) }
{
    text.labels(word, first, second)?;
    text.field(" ", number)
}

// A word, and two signals of a group.
#[tactic(auto, unfolding(crate::specs::FindingLines::signals_text))]
fn write_signals(
    text: &mut TextBuffer,
    word: &str,
    plan: &Plan,
    group: usize,
    first: usize,
    second: usize,
) -> WriteResult
    ensures { OnOk result (text.new ≡ text.old ++ signals_text word.now plan.now group first second) }
{
    text.labels(
        word,
        group_label(plan, group),
        signal_label(plan, group, first),
    )?;
    text.label(signal_label(plan, group, second))
}

/// Writes a finding, without the end of its line.
#[tactic(auto, unfolding(crate::specs::FindingLines::finding_text))]
pub fn write_finding(text: &mut TextBuffer, plan: &Plan, finding: Finding) -> WriteResult
    ensures { OnOk result (text.new ≡ text.old ++ finding_text plan.now finding) }
{
    match finding {
        Finding::SameName(i, j) => write_units(text, "F1 SameName ", plan, i, j),
        Finding::SameFixedAddress(i, j) => write_labels_number(
            text,
            "F2 SameFixedAddress ",
            unit_label(plan, i),
            unit_label(plan, j),
            u32::from(unit_address(plan, i)),
        ),
        Finding::TooFewAddresses(count) => text.field("F3 TooFewAddresses ", count),
        Finding::BadPgn(g) => text.numbered("F4 BadPgn ", group_label(plan, g), group_pgn(plan, g)),
        Finding::SamePgn(g, h) => write_labels_number(
            text,
            "F5 SamePgn ",
            group_label(plan, g),
            group_label(plan, h),
            group_pgn(plan, g),
        ),
        Finding::SignalWidth(g, s) => write_labels_number(
            text,
            "F6 SignalWidth ",
            group_label(plan, g),
            signal_label(plan, g, s),
            u32::from(signal_bits(plan, g, s)),
        ),
        Finding::SignalOutside(g, s) => write_labels_number(
            text,
            "F7 SignalOutside ",
            group_label(plan, g),
            signal_label(plan, g, s),
            signal_end(plan, g, s),
        ),
        Finding::SignalOverlap(g, s, t) => write_signals(text, "F8 SignalOverlap ", plan, g, s, t),
        Finding::FlowToOne(f) => text.place("F9 FlowToOne ", f),
        Finding::FlowToSelf(f) => text.place("F10 FlowToSelf ", f),
        Finding::FlowRepeated(f, h) => text.places("F11 FlowRepeated ", f, h),
        Finding::KeptAddress(i) => {
            text.numbered(
                "F12 KeptAddress ",
                unit_label(plan, i),
                unit_address(plan, i),
            )
        }
        Finding::PrivateUnsent(g) => write_group(text, "F13 PrivateUnsent ", plan, g),
        Finding::RecordOverlap(g, s, t) => write_signals(text, "F14 RecordOverlap ", plan, g, s, t),
        Finding::TextOutside(g, t) => write_labels_number(
            text,
            "F15 TextOutside ",
            group_label(plan, g),
            text_label(plan, g, t),
            u32::from(text_end(plan, g, t)),
        ),
        Finding::NeedUnmet(n) => text.place("F19 NeedUnmet ", n),
        Finding::RequestUnanswered(r) => text.place("F21 RequestUnanswered ", r),
        Finding::RequestUnheard(r) => text.place("F22 RequestUnheard ", r),
        Finding::AnswerAstray(r) => text.place("F23 AnswerAstray ", r),
        Finding::WhenOutside(g) => text.numbered(
            "F24 WhenOutside ",
            group_label(plan, g),
            group_selector_end(plan, g),
        ),
        Finding::RequestRepeated(r, s) => text.places("F25 RequestRepeated ", r, s),
        Finding::SilentAddress(u, v) => write_labels_number(
            text,
            "F26 SilentAddress ",
            unit_label(plan, u),
            unit_label(plan, v),
            u32::from(unit_address(plan, u)),
        ),
        Finding::SilentInPool(u) => {
            text.numbered(
                "F27 SilentInPool ",
                unit_label(plan, u),
                unit_address(plan, u),
            )
        }
        Finding::FlowContested(f) => text.place("F28 FlowContested ", f),
    }
}

#[tactic(auto, unfolding(crate::specs::FindingLines::finding_line))]
fn write_line(text: &mut TextBuffer, plan: &Plan, finding: Finding) -> WriteResult
    ensures { OnOk result (text.new ≡ text.old ++ finding_line plan.now finding) }
{
    write_finding(text, plan, finding)?;
    text.end_line()
}

/// Writes the steps of the run that shows the finding's conflict, where it reports of one.
#[tactic(auto, unfolding(crate::specs::FindingLines::run_lines))]
pub fn write_run(
    alloc: Global,
    text: &mut TextBuffer,
    plan: &Plan,
    finding: &Finding,
) -> WriteResult
    ensures { OnOk result (text.new ≡ text.old ++ run_lines plan.now finding.now) }
{
    match bad_run(alloc, plan, finding)? {
        Some(steps) => write_steps(text, plan, &steps),
        None => Ok(()),
    }
}

#[tactic(auto, unfolding(crate::specs::FindingLines::finding_report))]
fn write_report(alloc: Global, text: &mut TextBuffer, plan: &Plan, finding: &Finding) -> WriteResult
    ensures { OnOk result (text.new ≡ text.old ++ finding_report plan.now finding.now) }
{
    write_line(text, plan, *finding)?;
    write_run(alloc, text, plan, finding)
}

/// Whether the number of a finding is this one or a greater one, and below that one.
pub(super) fn is_between(from: u8, below: u8, number: u8) -> bool
    ensures { result ≡ is_between from below number }
{
    from <= number && number < below
}

// Writes each finding whose number is between these.
#[derive(Drop)]
struct FindingsBetween<'a> {
    alloc: Global,
    plan: &'a Plan,
    from: u8,
    below: u8,
}

impl WriteLines<Finding> for FindingsBetween<'_> {
    ghost use Rattle.j39_plan_text.specs.FindingLines.{finding_part};

    ghost lines = { λ w _. finding_part w.from w.below w.plan.now };

    #[tactic(auto, unfolding(crate::specs::FindingLines::finding_part))]
    fn write(&self, text: &mut TextBuffer, _at: usize, finding: &Finding) -> WriteResult {
        if is_between(self.from, self.below, finding.number()) {
            write_report(self.alloc, text, self.plan, finding)
        } else {
            Ok(())
        }
    }
}

/// Writes a line for each finding whose number is between these, and behind that of a conflict the steps of the run
/// that shows it.
pub(super) fn write_lines(
    alloc: Global,
    text: &mut TextBuffer,
    plan: &Plan,
    findings: &[Finding],
    from: u8,
    below: u8,
) -> WriteResult
    ensures { OnOk result (text.new ≡ text.old ++ finding_lines from below plan.now findings.now) }
{
    let writer = FindingsBetween {
        alloc,
        plan,
        from,
        below,
    };
    write_each(text, &writer, findings)
}
