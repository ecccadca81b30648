//! The first possible variant of a line that has a finding.
ghost use Rattle.std.specs.Prelude.{◌≡◌, ◌∷◌, [], IfOk, MatchBool, OnOk, ℕ, List};
ghost use Rattle.j39_variant_search.specs.VariantSearch.{boxes_flags};
ghost use Rattle.j39_line_findings.specs.Conditions.{conditions_of};
ghost use Rattle.j39_line_findings.specs.PossibleVariants.{IsPossible};
ghost use Rattle.j39_line_witnesses.specs.FirstMeeting.{IsWitnessOf};
ghost use Rattle.j39_line_witnesses.specs.PartBoxes.{never_holes};
ghost use Rattle.j39_line_witnesses.specs.Presences.{condition_of, conditions_in};

use crate::boxes::{add_holes, never_holes, parts_box};
use crate::conditions::conditions_of;
use crate::known::names_known_choices;
use crate::order::earlier_of;
use crate::presence::{Presence, where_together};
use j39_line_findings::LineFinding;
use j39_variant_search::first_outside;
use j39_variants::ProductLine;
use std::alloc::{AllocError, Global};

// The first possible variant that meets a condition, where these are the boxes of what isn't built.
fn first_meeting(
    alloc: Global,
    line: &ProductLine,
    holes: &mut Vec<Vec<Vec<bool>>>,
    condition: &Presence,
) -> Result<Option<Vec<usize>>, AllocError>
    requires { boxes_flags holes.old.items ≡ never_holes line.now line.now.nevers.items }
    ensures kept { OnOk result (boxes_flags holes.new.items ≡ boxes_flags holes.old.items) }
    ensures first { IfOk result (IsWitnessOf line.now (condition_of condition.now ∷ [])) }
{
    if !names_known_choices(line, &condition.together) {
        return Ok(None);
    }
    let within = parts_box(alloc, line, &condition.together)?;
    let count = holes.len();
    add_holes(alloc, line, holes, &condition.lacking)?;
    let found = first_outside(alloc, &within, holes)?;
    holes.truncate(count);
    Ok(found)
}

/// The first possible variant that meets one of these conditions, where these are the boxes of what isn't built.
pub(crate) fn first_of_any(
    alloc: Global,
    line: &ProductLine,
    holes: &mut Vec<Vec<Vec<bool>>>,
    conditions: &[Presence],
) -> Result<Option<Vec<usize>>, AllocError>
    requires { boxes_flags holes.old.items ≡ never_holes line.now line.now.nevers.items }
    ensures kept { OnOk result (boxes_flags holes.new.items ≡ boxes_flags holes.old.items) }
    ensures first { IfOk result (IsWitnessOf line.now (conditions_in conditions.now)) }
{
    let mut first = None;
    for condition in conditions {
        let found = first_meeting(alloc, line, holes, condition)?;
        first = earlier_of(first, found);
    }
    Ok(first)
}

/// The first possible variant that has a finding, where these are the boxes of what isn't built.
pub(crate) fn first_having(
    alloc: Global,
    line: &ProductLine,
    holes: &mut Vec<Vec<Vec<bool>>>,
    finding: LineFinding,
) -> Result<Option<Vec<usize>>, AllocError>
    requires { boxes_flags holes.old.items ≡ never_holes line.now line.now.nevers.items }
    ensures kept { OnOk result (boxes_flags holes.new.items ≡ boxes_flags holes.old.items) }
    ensures first { IfOk result (IsWitnessOf line.now (conditions_of line.now finding)) }
{
    let conditions = conditions_of(alloc, line, finding)?;
    first_of_any(alloc, line, holes, &conditions)
}

/// Whether some variant of the line is possible.
pub fn is_any_variant_possible(alloc: Global, line: &ProductLine) -> Result<bool, AllocError>
    ensures { IfOk result (λ found. MatchBool found ((v : List ℕ) × IsPossible line.now v)
        ((v : List ℕ) → IsPossible line.now v → ⊥)) }
{
    let mut holes = never_holes(alloc, line)?;
    let conditions = where_together(alloc, &[])?;
    let first = first_of_any(alloc, line, &mut holes, &conditions)?;
    Ok(first.is_some())
}
