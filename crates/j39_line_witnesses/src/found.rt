//! What is found of a line by conditions.
ghost use Rattle.std.specs.Prelude.{◌≡◌, ◌∷◌, ◌++◌, [], List, IfOk, OnOk};
ghost use Rattle.j39_variant_search.specs.VariantSearch.{boxes_flags};
ghost use Rattle.j39_line_findings.specs.declared.line_finding.LineFinding.{LineFinding as LineFindings};
ghost use Rattle.j39_line_witnesses.specs.Candidates.{candidates};
ghost use Rattle.j39_line_witnesses.specs.PartBoxes.{never_holes};
ghost use Rattle.j39_line_witnesses.specs.WitnessedFindings.{AreWitnessed};

use crate::asked::candidates;
use crate::boxes::never_holes;
use crate::witness::first_having;
use j39_line_findings::LineFinding;
use j39_variants::ProductLine;
use std::alloc::{AllocError, Global};

/// A finding, and the first possible variant that has it.
#[derive(Drop)]
pub struct FoundByCondition {
    pub finding: LineFinding,
    /// The places of the alternatives that it takes, choice by choice.
    pub witness: Vec<usize>,
}

// Adds a finding with its witness, where it has one.
fn add_found(
    alloc: Global,
    line: &ProductLine,
    holes: &mut Vec<Vec<Vec<bool>>>,
    reported: &mut Vec<FoundByCondition>,
    finding: LineFinding,
) -> Result<(), AllocError>
    requires { boxes_flags holes.old.items ≡ never_holes line.now line.now.nevers.items }
    ensures kept { OnOk result (boxes_flags holes.new.items ≡ boxes_flags holes.old.items) }
    ensures added { OnOk result ((findings : List LineFindings) → AreWitnessed line.now findings reported.old.items
        → AreWitnessed line.now (findings ++ finding ∷ []) reported.new.items) }
{
    match first_having(alloc, line, holes, finding)? {
        Some(witness) => {
            reported.push(FoundByCondition { finding, witness })?;
            Ok(())
        }
        None => Ok(()),
    }
}

// The findings that have a witness, each with its first one.
fn found_of(
    alloc: Global,
    line: &ProductLine,
    findings: &[LineFinding],
) -> Result<Vec<FoundByCondition>, AllocError>
    ensures { IfOk result (λ reported. AreWitnessed line.now findings.now reported.items) }
{
    let mut holes = never_holes(alloc, line)?;
    let mut reported = Vec::new(alloc);
    for finding in findings {
        add_found(alloc, line, &mut holes, &mut reported, *finding)?;
    }
    Ok(reported)
}

/// Each finding that goes by conditions, and that some possible variant of the line has, with the first one that has
/// it.
pub fn found_by_conditions(
    alloc: Global,
    line: &ProductLine,
) -> Result<Vec<FoundByCondition>, AllocError>
    ensures { IfOk result (λ reported. AreWitnessed line.now (candidates line.now) reported.items) }
{
    let findings = candidates(alloc, line)?;
    found_of(alloc, line, &findings)
}
