//! What the variant command writes.
ghost use Rattle.std.specs.Prelude.{◌≡◌, ◌++◌, ◌==◌, IfOk, MatchOption, OnOk, map, string_bytes};
ghost use Rattle.std.specs.List.{AllZip, Any, list_any};
ghost use Rattle.j39_plan_text.specs.VariantText.{IsUnknown, IsVariantText, NamesOf, has_two, refused_variant};
ghost use Rattle.j39_stream.specs.CommandEnds.{AnswersWhole, IsOfAny};
ghost use Rattle.j39_stream.specs.Streams.{plan_limits};

use crate::reporting::{LineReport, report_text};
use crate::show_lines::write_plan;
use j39_stream::{CommandResult, Sink, Source, Verdict};
use j39_text::{ReportResult, TextBuffer};
use j39_variants::{Alternative, Choice, ProductLine, first_possible, named, plan_of};
use std::alloc::{AllocError, Global};

// The alternatives that some labels name, none where one of them names none.
fn named_by(
    alloc: Global,
    choices: &[Choice],
    labels: &[String],
) -> Result<Option<Vec<Alternative>>, AllocError>
    ensures { IfOk result (λ found. MatchOption found (Any (IsUnknown choices.now) (map string_bytes labels.now))
        (λ v. AllZip (NamesOf choices.now) (map string_bytes labels.now) v.items)) }
{
    let mut wanted = Vec::new(alloc);
    for label in labels {
        match named(choices, label.as_str()) {
            Some(alternative) => wanted.push(alternative)?,
            None => return Ok(None),
        }
    }
    Ok(Some(wanted))
}

fn is_of_choice(alternatives: &[Alternative], choice: usize) -> bool
    ensures { result ≡ list_any (λ b. b.choice == choice) alternatives.now }
{
    alternatives
        .iter()
        .any(|alternative| alternative.choice == choice)
}

// Whether two alternatives are of one choice.
fn has_two(alternatives: &[Alternative]) -> bool
    ensures { result ≡ has_two alternatives.now }
{
    for (index, alternative) in alternatives.iter().enumerate() {
        if is_of_choice(&alternatives[index + 1..], alternative.choice) {
            return true;
        }
    }
    false
}

// The line that says why there is no such variant.
#[tactic(auto, unfolding(crate::specs::VariantText::refused_variant))]
fn refused(alloc: Global, cause: &str) -> ReportResult
    ensures { IfOk result (λ report. (report.0 ≡ refused_variant cause.now) × (report.1 ≡ Verdict.Refused)) }
{
    let mut text = TextBuffer::new(alloc);
    text.word("refused variant ")?;
    text.word(cause)?;
    text.end_line()?;
    Ok((text, Verdict::Refused))
}

// What is shown of the variant that takes some alternatives.
#[derive(Clone, Copy)]
struct VariantReport<'a> {
    labels: &'a [String],
}

impl LineReport for VariantReport<'_> {
    ghost use Rattle.j39_plan_text.specs.VariantText.{IsVariantReport};

    ghost says = { λ r. IsVariantReport (map string_bytes r.labels.now) };

    fn report(&self, alloc: Global, line: ProductLine) -> ReportResult {
        let wanted = match named_by(alloc, &line.choices, self.labels)? {
            Some(wanted) => wanted,
            None => return refused(alloc, "UnknownLabel"),
        };
        if has_two(&wanted) {
            return refused(alloc, "Repeated");
        }
        let variant = match first_possible(alloc, &line, &wanted)? {
            Some(variant) => variant,
            None => return refused(alloc, "Never"),
        };
        let plan = plan_of(alloc, &line, &variant)?;
        let mut text = TextBuffer::new(alloc);
        write_plan(&mut text, &plan)?;
        Ok((text, Verdict::Done))
    }
}

/// Writes each value of the plan of the first possible variant that takes the alternatives of these labels, of the line
/// of vehicles that a file describes; that there is none; or why the file describes no plan.
#[inline(never)]
pub fn variant_text<S: Source, W: Sink>(
    alloc: Global,
    labels: &[String],
    source: &mut S,
    sink: &mut W,
) -> CommandResult
    ensures { let words = map string_bytes labels.now in
        AnswersWhole (IsVariantText words) (IsOfAny (IsVariantText words)) plan_limits (S.state source.old)
        (S.state source.new) W.state sink.old sink.new result }
{
    report_text(alloc, &VariantReport { labels }, source, sink)
}
