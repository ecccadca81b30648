//! The lines of what is found of a line of vehicles.
ghost use Rattle.std.specs.Prelude.{◌≡◌, ◌++◌, IfOk, OnOk, length};
ghost use Rattle.std.specs.List.{list_any};
ghost use Rattle.j39_variants.specs.VariantPlans.{flag_at};
ghost use Rattle.j39_line_text.specs.WitnessLines.{alternative_label, findings_of_line_text, label_of_alternative};
ghost use Rattle.j39_line_text.specs.WitnessLines.{place_taken, run_of_line};
ghost use Rattle.j39_line_text.specs.WitnessLines.{count_with, is_of_line_times, line_finding_text, many_text};
ghost use Rattle.j39_line_text.specs.WitnessLines.{unshown_of_line_text, witness_line, witness_text};

use j39_line_check::ReportedFinding;
use j39_line_findings::LineFinding;
use j39_line_witnesses::reported_choices;
use j39_plan_text::{WriteLines, write_each, write_finding, write_load_finding, write_run};
use j39_text::{TextBuffer, WriteResult};
use j39_variants::{Choice, ProductLine};
use std::alloc::{AllocError, Global};

fn place_taken(variant: &[usize], choice: usize) -> usize
    ensures { result ≡ place_taken variant.now choice }
{
    match variant.get(choice) {
        Some(place) => *place,
        None => 0,
    }
}

fn label_of_alternative(choice: &Choice, place: usize) -> &str
    ensures { result.now ≡ label_of_alternative choice.now place }
{
    match choice.alternatives.get(place) {
        Some(label) => label.as_str(),
        None => "",
    }
}

fn alternative_label(line: &ProductLine, choice: usize, place: usize) -> &str
    ensures { result.now ≡ alternative_label line.now choice place }
{
    match line.choices.get(choice) {
        Some(found) => label_of_alternative(found, place),
        None => "",
    }
}

fn is_reported(choices: &[bool], choice: usize) -> bool
    ensures { result ≡ flag_at choices.now choice }
{
    match choices.get(choice) {
        Some(is) => *is,
        None => false,
    }
}

fn is_any_reported(choices: &[bool]) -> bool
    ensures { result ≡ list_any (λ is. is) choices.now }
{
    choices.iter().any(|is| *is)
}

// Writes the alternative of each choice that the witness of a finding takes, where it is reported.
#[derive(Drop)]
struct ReportedAlternatives<'a> {
    line: &'a ProductLine,
    choices: &'a [bool],
    variant: &'a [usize],
    finding: LineFinding,
}

impl WriteLines<Choice> for ReportedAlternatives<'_> {
    ghost use Rattle.j39_line_text.specs.WitnessLines.{reported_alternative};

    ghost lines = { λ w c _. reported_alternative w.line.now w.choices.now w.variant.now c };

    #[tactic(auto, unfolding(crate::specs::WitnessLines::reported_alternative))]
    fn write(&self, text: &mut TextBuffer, at: usize, _choice: &Choice) -> WriteResult {
        if is_reported(self.choices, at) {
            text.label(alternative_label(self.line, at, place_taken(self.variant, at)))
        } else {
            Ok(())
        }
    }
}

fn write_line_finding(
    text: &mut TextBuffer,
    line: &ProductLine,
    finding: LineFinding,
) -> WriteResult
    ensures { OnOk result (text.new ≡ text.old ++ line_finding_text line.now finding) }
{
    match finding {
        LineFinding::OfPlan(finding) => write_finding(text, &line.plan, finding),
        LineFinding::OfLoad(finding) => write_load_finding(text, finding),
    }
}

fn write_line_run(
    alloc: Global,
    text: &mut TextBuffer,
    line: &ProductLine,
    finding: LineFinding,
) -> WriteResult
    ensures { OnOk result (text.new ≡ text.old ++ run_of_line line.now finding) }
{
    match finding {
        LineFinding::OfPlan(finding) => write_run(alloc, text, &line.plan, &finding),
        LineFinding::OfLoad(_) => Ok(()),
    }
}

impl ReportedAlternatives<'_> {
    // Writes them behind a word, if any is reported.
    #[tactic(auto, unfolding(crate::specs::WitnessLines::witness_text))]
    fn write_witness(&self, text: &mut TextBuffer) -> WriteResult
        ensures { OnOk result (text.new ≡ text.old
            ++ witness_text self.now.line.now self.now.choices.now self.now.variant.now) }
    {
        if is_any_reported(self.choices) {
            text.word(" in")?;
            write_each(text, self, &self.line.choices)
        } else {
            Ok(())
        }
    }

    // The line of the finding.
    #[tactic(auto, unfolding(crate::specs::WitnessLines::witness_line))]
    fn write_line(&self, text: &mut TextBuffer) -> WriteResult
        ensures { OnOk result (text.new ≡ text.old
            ++ witness_line self.now.line.now self.now.choices.now self.now.variant.now self.now.finding) }
    {
        write_line_finding(text, self.line, self.finding)?;
        self.write_witness(text)?;
        text.end_line()
    }
}

// Writes each finding with what is reported of its witness, and the run that shows it.
#[derive(Drop)]
struct Reports<'a> {
    alloc: Global,
    line: &'a ProductLine,
}

impl WriteLines<ReportedFinding> for Reports<'_> {
    ghost use Rattle.j39_line_text.specs.WitnessLines.{witness_report};

    ghost lines = { λ w _ reported. witness_report w.line.now reported.variant.items reported.finding };

    #[tactic(auto, unfolding(crate::specs::WitnessLines::witness_report))]
    fn write(&self, text: &mut TextBuffer, _at: usize, reported: &ReportedFinding) -> WriteResult {
        let variant = reported.variant.as_slice();
        let choices = reported_choices(self.alloc, self.line, variant, reported.finding)?;
        let alternatives = ReportedAlternatives {
            line: self.line,
            choices: &choices,
            variant,
            finding: reported.finding,
        };
        alternatives.write_line(text)?;
        write_line_run(self.alloc, text, self.line, reported.finding)
    }
}

// That there are so many full variants, where these are too many.
#[tactic(auto, unfolding(crate::specs::WitnessLines::many_text))]
fn write_many(text: &mut TextBuffer, many: Option<u64>) -> WriteResult
    ensures { OnOk result (text.new ≡ text.old ++ many_text many) }
{
    match many {
        Some(count) => {
            text.field("F30 ManyVariants ", count)?;
            text.end_line()
        }
        None => Ok(()),
    }
}

fn count_with(many: Option<u64>, reported: &[ReportedFinding]) -> usize
    ensures { result ≡ count_with many (length reported.now) }
{
    match many {
        Some(_count) => reported.len() + 1,
        None => reported.len(),
    }
}

// How many findings there are, behind their lines.
#[tactic(auto, unfolding(crate::specs::WitnessLines::findings_of_line_text))]
fn write_all(
    alloc: Global,
    text: &mut TextBuffer,
    line: &ProductLine,
    reported: &[ReportedFinding],
    many: Option<u64>,
) -> WriteResult
    ensures { OnOk result (text.new ≡ text.old ++ findings_of_line_text line.now many reported.now) }
{
    let reports = Reports { alloc, line };
    write_each(text, &reports, reported)?;
    write_many(text, many)?;
    text.field("findings ", count_with(many, reported))?;
    text.end_line()
}

/// A line for each thing that is found of a line of vehicles, with what is reported of its witness, and how many there
/// are.
pub(crate) fn findings_text(
    alloc: Global,
    line: &ProductLine,
    reported: &[ReportedFinding],
    many: Option<u64>,
) -> Result<TextBuffer, AllocError>
    ensures { IfOk result (λ text. text ≡ findings_of_line_text line.now many reported.now) }
{
    let mut text = TextBuffer::new(alloc);
    write_all(alloc, &mut text, line, reported, many)?;
    Ok(text)
}

// Whether a finding is one of which the lines of the times report: of a bus that is too full, a late flow, or an old
// need.
fn is_of_times(finding: LineFinding) -> bool
    ensures { result ≡ is_of_line_times finding }
{
    matches!(finding.rank().number, 17 | 18 | 20)
}

// Writes each finding of which the lines of the times don't report.
#[derive(Drop)]
struct UnreportedReports<'a>(Reports<'a>);

impl WriteLines<ReportedFinding> for UnreportedReports<'_> {
    ghost use Rattle.j39_line_text.specs.WitnessLines.{unshown_report};

    ghost lines = { λ w _ reported. unshown_report w.0.line.now reported.variant.items reported.finding };

    #[tactic(auto, unfolding(crate::specs::WitnessLines::unshown_report))]
    fn write(&self, text: &mut TextBuffer, at: usize, reported: &ReportedFinding) -> WriteResult {
        if is_of_times(reported.finding) {
            return Ok(());
        }
        self.0.write(text, at, reported)
    }
}

/// Writes a line for each thing that is found of a line of vehicles and isn't of its times, with what is reported of
/// its witness, and how many there are, where there are any.
#[tactic(auto, unfolding(crate::specs::WitnessLines::unshown_of_line_text))]
pub(crate) fn write_unshown(
    alloc: Global,
    text: &mut TextBuffer,
    line: &ProductLine,
    reported: &[ReportedFinding],
) -> WriteResult
    ensures { OnOk result (text.new ≡ text.old ++ unshown_of_line_text line.now reported.now) }
{
    let count = reported
        .iter()
        .filter(|one| !is_of_times(one.finding))
        .count();
    if count == 0 {
        return Ok(());
    }
    let reports = Reports { alloc, line };
    write_each(text, &UnreportedReports(reports), reported)?;
    text.field("findings ", count)?;
    text.end_line()
}
