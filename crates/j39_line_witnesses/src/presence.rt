//! On which conditions a variant has a finding.
ghost use Rattle.std.specs.Prelude.{◌≡◌, ◌∷◌, ◌++◌, [], IfOk, OnOk};
ghost use Rattle.j39_line_findings.specs.Conditions.{where_together};
ghost use Rattle.j39_line_witnesses.specs.Presences.{conditions_in, parts_in};

use j39_line_findings::LinePart;
use std::alloc::{AllocError, Global};

/// Parts that are there together, and lists of parts: of each of these some part isn't there.
#[derive(Drop)]
pub struct Presence {
    pub together: Vec<LinePart>,
    pub lacking: Vec<Vec<LinePart>>,
}

/// Conditions of one finding.
pub(crate) type ConditionList = Result<Vec<Presence>, AllocError>;

/// Adds that these are there together, and of each of those lists some part isn't.
pub(crate) fn add_lacking(
    alloc: Global,
    found: &mut Vec<Presence>,
    parts: &[LinePart],
    lacking: Vec<Vec<LinePart>>,
) -> Result<(), AllocError>
    ensures { OnOk result (conditions_in found.new.items
        ≡ conditions_in found.old.items ++ record { together = parts.now; lacking = parts_in lacking.items } ∷ []) }
{
    let together = parts.to_vec(alloc)?;
    found.push(Presence { together, lacking })?;
    Ok(())
}

/// Adds that these are there together, whatever else is there.
pub(crate) fn add_together(
    alloc: Global,
    found: &mut Vec<Presence>,
    parts: &[LinePart],
) -> Result<(), AllocError>
    ensures { OnOk result (conditions_in found.new.items ≡ conditions_in found.old.items ++ where_together parts.now) }
{
    add_lacking(alloc, found, parts, Vec::new(alloc))
}

/// That these are there together, and of each of those lists some part isn't.
pub(crate) fn where_lacking(
    alloc: Global,
    parts: &[LinePart],
    lacking: Vec<Vec<LinePart>>,
) -> ConditionList
    ensures { IfOk result (λ v. conditions_in v.items ≡ record
        { together = parts.now; lacking = parts_in lacking.items } ∷ []) }
{
    let mut found = Vec::new(alloc);
    add_lacking(alloc, &mut found, parts, lacking)?;
    Ok(found)
}

/// That these are there together, whatever else is there.
pub(crate) fn where_together(alloc: Global, parts: &[LinePart]) -> ConditionList
    ensures { IfOk result (λ v. conditions_in v.items ≡ where_together parts.now) }
{
    where_lacking(alloc, parts, Vec::new(alloc))
}
