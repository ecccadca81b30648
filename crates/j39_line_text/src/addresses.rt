//! What the addresses command writes.
ghost use Rattle.std.specs.Prelude.{◌≡◌, Bool, List, IfOk, map};
ghost use Rattle.j39_line_bounds.specs.LineStandings.{AreStandingsAmong};
ghost use Rattle.j39_line_bounds.specs.declared.standing.LineStanding.{LineStanding};
ghost use Rattle.j39_line_findings.specs.AllVariants.{IsOneOf};
ghost use Rattle.j39_line_text.specs.Hindrances.{AreReportedAt};
ghost use Rattle.j39_line_text.specs.LineAddressesText.{IsLineAddressesReport, IsLineAddressesText};
ghost use Rattle.j39_line_text.specs.PossiblePlaces.{units_of_line};
ghost use Rattle.j39_line_text.specs.StandingLines.{shown_standings, standings_text};
ghost use Rattle.j39_line_witnesses.specs.PossibleParts.{ArePartsPossible};
ghost use Rattle.j39_stream.specs.CommandEnds.{AnswersWhole, IsOfAny};
ghost use Rattle.j39_stream.specs.Streams.{plan_limits};

use crate::hindrances::{Asked, is_hidden, variants_at};
use crate::line_report::no_variant_text;
use crate::possible_places::possible_units;
use crate::standing_lines::{shown_standings, standings_text};
use crate::witness_lines::findings_text;
use j39_line_bounds::line_standings;
use j39_line_check::{LineAnswer, LookedAt, ReportedFinding, check_line};
use j39_plan_text::{LineReport, report_text, stays_report};
use j39_run_laws::{who_stays, who_stays_with_strangers};
use j39_stream::{CommandResult, Sink, Source, Verdict};
use j39_text::{ReportResult, TextBuffer};
use j39_variants::ProductLine;
use std::alloc::{AllocError, Global};

// What is reported of the units of a line in these variants.
fn stays_text(
    alloc: Global,
    line: &ProductLine,
    variants: &[Vec<usize>],
) -> Result<TextBuffer, AllocError>
    ensures { IfOk result (λ text. (standings : List LineStanding)
        × AreStandingsAmong (IsOneOf (map (λ v. v.items) variants.now)) line.now standings
        × ((possible : List Bool) × ArePartsPossible line.now (units_of_line line.now) possible
        × (text ≡ standings_text (shown_standings possible standings) line.now.plan.units.items))) }
{
    let standings = line_standings(alloc, line, variants)?;
    let possible = possible_units(alloc, line)?;
    let shown = shown_standings(alloc, &possible, &standings)?;
    let text = standings_text(alloc, &shown, &line.plan.units)?;
    Ok(text)
}

// What is written of the addresses of a line of which this is found.
fn found_addresses(
    alloc: Global,
    line: &ProductLine,
    reported: &[ReportedFinding],
    looked: &LookedAt,
) -> ReportResult
    ensures { IfOk result (λ report. AreReportedAt line.now looked.now reported.now
        → IsLineAddressesReport line.now report.0 report.1) }
{
    who_stays();
    who_stays_with_strangers();
    let many = looked.many();
    if is_hidden(Asked::Addresses, reported, many) {
        let text = findings_text(alloc, line, reported, many)?;
        return Ok((text, Verdict::Findings));
    }
    let text = stays_text(alloc, line, variants_at(looked))?;
    Ok((text, Verdict::Done))
}

// What is written of the addresses of a line of vehicles, with the verdict.
fn line_addresses(alloc: Global, line: &ProductLine) -> ReportResult
    ensures { IfOk result (λ report. IsLineAddressesReport line.now report.0 report.1) }
{
    let answer = check_line(alloc, line)?;
    match answer {
        LineAnswer::NoVariant => {
            let text = no_variant_text(alloc)?;
            Ok((text, Verdict::Findings))
        }
        LineAnswer::Found(reported, looked) => {
            let report = found_addresses(alloc, line, &reported, &looked)?;
            Ok(report)
        }
    }
}

// What is reported of the addresses of a line, of its one plan where it has no choices.
struct AddressesReport;

impl LineReport for AddressesReport {
    ghost use Rattle.j39_line_text.specs.LineAddressesText.{IsPlanOrLineAddresses};

    ghost says = { λ _. IsPlanOrLineAddresses };

    fn report(&self, alloc: Global, line: ProductLine) -> ReportResult {
        if line.has_choices() {
            return line_addresses(alloc, &line);
        }
        stays_report(alloc, &line.plan)
    }
}

/// Writes which units of the plan that a file describes hold their planned addresses whatever happens, and which may
/// move, of a line of vehicles in each of the variants at which `check` looks that has them; of one whose NAMEs or
/// addresses have findings, or of a line with too many full variants, what `check` writes, and how many these are; or
/// why the file describes no plan.
#[inline(never)]
pub fn addresses_line_text<S: Source, W: Sink>(
    alloc: Global,
    source: &mut S,
    sink: &mut W,
) -> CommandResult
    ensures { AnswersWhole IsLineAddressesText (IsOfAny IsLineAddressesText) plan_limits (S.state source.old)
        (S.state source.new) W.state sink.old sink.new result }
{
    report_text(alloc, &AddressesReport, source, sink)
}
