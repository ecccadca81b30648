//! What is found of full variants that counts what is there, and what is reported of their times.
ghost use Rattle.std.specs.Prelude.{◌≡◌, ◌≢◌, ◌∷◌, ◌++◌, [], ℕ, List, IfOk, None, OnOk, map, true};
ghost use Rattle.j39_line_bounds.specs.LineTimes.{AreTimesAmong};
ghost use Rattle.j39_line_findings.specs.Best.{AreBest};
ghost use Rattle.j39_line_findings.specs.LineFound.{AreVariantFindings};
ghost use Rattle.j39_line_findings.specs.VariantAnswers.{IsVariantAnswer};
ghost use Rattle.j39_load.specs.BusTimes.{timing_of};
ghost use Rattle.j39_line_findings.specs.declared.line_finding.LineFinding.{LineFinding as LineFindings};
ghost use Rattle.j39_line_findings.specs.declared.witnessed.Witnessed.{Witnessed as Witnesses};
ghost use Rattle.j39_line_check.specs.CountedFindings.{AreCountedFindings, AreCountedIn, counted_of, is_looked_for};
ghost use Rattle.j39_line_check.specs.CountedFindings.{takes_full_for, takes_full_of_need};
ghost use Rattle.j39_line_check.specs.SetVariants.{AreEarliestFirst, takes_alone};

use crate::set_variants::takes_alone;
use j39_line_bounds::{LineTimes, no_times, times_with};
use j39_line_findings::{
    FullAlternatives, LineFinding, VariantAnswer, Witnessed, add, goes_by_conditions,
};
use j39_load::LoadFinding;
use j39_variants::ProductLine;
use std::alloc::{AllocError, Global};

// Whether a variant takes those alternatives alone that are full for a need.
fn takes_full_of_need(
    line: &ProductLine,
    full: &FullAlternatives,
    variant: &[usize],
    need: usize,
) -> bool
    ensures { result ≡ takes_full_of_need line.now full.now variant.now need }
{
    match full.of_needs.get(need) {
        Some(set) => line.plan.timing.is_some() && takes_alone(set, variant),
        None => false,
    }
}

// Whether it takes full alternatives alone, by which a finding is looked for.
fn takes_full_for(
    line: &ProductLine,
    full: &FullAlternatives,
    variant: &[usize],
    finding: LineFinding,
) -> bool
    ensures { result ≡ takes_full_for line.now full.now variant.now finding }
{
    match finding {
        LineFinding::OfLoad(LoadFinding::NeedTooOld(need)) => {
            takes_full_of_need(line, full, variant, need)
        }
        _ => takes_alone(&full.all, variant),
    }
}

fn is_looked_for(
    line: &ProductLine,
    full: &FullAlternatives,
    variant: &[usize],
    finding: LineFinding,
) -> bool
    ensures { result ≡ is_looked_for line.now full.now variant.now finding }
{
    !goes_by_conditions(line, finding) && takes_full_for(line, full, variant, finding)
}

// Adds what is looked for of what the variant at a place has.
fn add_counted(
    reported: &mut Vec<Witnessed>,
    line: &ProductLine,
    full: &FullAlternatives,
    place: usize,
    variant: &[usize],
    findings: &[LineFinding],
) -> Result<(), AllocError>
    ensures { OnOk result ((all : List Witnesses) → AreBest all reported.old.items
        → AreBest (all ++ counted_of line.now full.now place variant.now findings.now) reported.new.items) }
{
    for finding in findings {
        if is_looked_for(line, full, variant, *finding) {
            let new = Witnessed {
                finding: *finding,
                variant: place,
                counted: true,
            };
            add(reported, new)?;
        }
    }
    Ok(())
}

// Adds what is looked for in the variant at a place, of which this is known.
fn add_of_variant(
    alloc: Global,
    reported: &mut Vec<Witnessed>,
    line: &ProductLine,
    full: &FullAlternatives,
    place: usize,
    variant: &[usize],
    known: &VariantAnswer,
) -> Result<(), AllocError>
    requires { IsVariantAnswer line.now variant.now known.now }
    ensures { OnOk result ((all : List Witnesses) → AreBest all reported.old.items → (findings : List LineFindings)
        × AreVariantFindings line.now variant.now findings
        × AreBest (all ++ counted_of line.now full.now place variant.now findings) reported.new.items) }
{
    let findings = known.findings(alloc, line, variant)?;
    add_counted(reported, line, full, place, variant, &findings)?;
    Ok(())
}

// What is reported of times with one variant more, where they are asked for.
fn times_where(
    alloc: Global,
    timed: bool,
    line: &ProductLine,
    variant: &[usize],
    known: &VariantAnswer,
    so_far: LineTimes,
) -> Result<LineTimes, AllocError>
    requires { IsVariantAnswer line.now variant.now known.now }
    ensures { IfOk result (λ times. (variants : List (List ℕ)) → timed ≡ true → timing_of line.now.plan ≢ None
        → AreTimesAmong line.now variants so_far → AreTimesAmong line.now (variants ++ variant.now ∷ []) times) }
{
    if timed {
        times_with(alloc, line, variant, known, so_far)
    } else {
        Ok(so_far)
    }
}

// Each variant is answered once.
fn find_counted(
    alloc: Global,
    line: &ProductLine,
    full: &FullAlternatives,
    variants: &[Vec<usize>],
    timed: bool,
) -> Result<(Vec<Witnessed>, LineTimes), AllocError>
    ensures counted { IfOk result (λ found. AreCountedIn line.now full.now
        (map (λ v. v.items) variants.now) found.0.items) }
    ensures times { IfOk result (λ found. timed ≡ true → timing_of line.now.plan ≢ None
        → AreTimesAmong line.now (map (λ v. v.items) variants.now) found.1) }
{
    let mut reported = Vec::new(alloc);
    let mut times = no_times(alloc, line)?;
    for (place, variant) in variants.iter().enumerate() {
        let taken = variant.as_slice();
        let known = VariantAnswer::new(alloc, line, taken)?;
        add_of_variant(alloc, &mut reported, line, full, place, taken, &known)?;
        times = times_where(alloc, timed, line, taken, &known, times)?;
    }
    Ok((reported, times))
}

/// What these variants, which stand in order, have that counts what is there: too few addresses, too high a load, late
/// flows, and flows with an end that is contested at an address to which units move, where a variant takes full
/// alternatives of the line alone; and needs that are too old, where it takes those alone that are full for the need.
/// Each once, with the greatest number of addresses or bits, and with the place of the first variant that has it so.
/// And what is reported of the times of a line whose bus is known, where these are asked for.
pub fn counted_findings(
    alloc: Global,
    line: &ProductLine,
    full: &FullAlternatives,
    variants: &[Vec<usize>],
    timed: bool,
) -> Result<(Vec<Witnessed>, LineTimes), AllocError>
    requires { AreEarliestFirst (map (λ v. v.items) variants.now) }
    ensures counted { IfOk result (λ found. AreCountedFindings line.now full.now
        (map (λ v. v.items) variants.now) found.0.items) }
    ensures times { IfOk result (λ found. timed ≡ true → timing_of line.now.plan ≢ None
        → AreTimesAmong line.now (map (λ v. v.items) variants.now) found.1) }
{
    let found = find_counted(alloc, line, full, variants, timed)?;
    Ok(found)
}
