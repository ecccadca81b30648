//! Which parts of a line some possible variant has.
ghost use Rattle.std.specs.Prelude.{◌≡◌, IfOk, OnOk};
ghost use Rattle.j39_variant_search.specs.VariantSearch.{boxes_flags};
ghost use Rattle.j39_line_witnesses.specs.PartBoxes.{never_holes};
ghost use Rattle.j39_line_witnesses.specs.PossibleParts.{ArePartsPossible, IsPartPossible};

use crate::boxes::never_holes;
use crate::presence::where_together;
use crate::witness::first_of_any;
use j39_line_findings::LinePart;
use j39_variants::ProductLine;
use std::alloc::{AllocError, Global};

// Whether some possible variant has a part, where these are the boxes of what isn't built.
fn is_part_possible(
    alloc: Global,
    line: &ProductLine,
    holes: &mut Vec<Vec<Vec<bool>>>,
    part: LinePart,
) -> Result<bool, AllocError>
    requires { boxes_flags holes.old.items ≡ never_holes line.now line.now.nevers.items }
    ensures kept { OnOk result (boxes_flags holes.new.items ≡ boxes_flags holes.old.items) }
    ensures possible { IfOk result (IsPartPossible line.now part) }
{
    let conditions = where_together(alloc, &[part])?;
    let first = first_of_any(alloc, line, holes, &conditions)?;
    Ok(first.is_some())
}

/// Of each of these parts, in order, whether some possible variant of the line has it; of a need, whether one asks for
/// it.
pub fn possible_parts(
    alloc: Global,
    line: &ProductLine,
    parts: &[LinePart],
) -> Result<Vec<bool>, AllocError>
    ensures { IfOk result (λ flags. ArePartsPossible line.now parts.now flags.items) }
{
    let mut holes = never_holes(alloc, line)?;
    let mut flags = Vec::new(alloc);
    for part in parts {
        let flag = is_part_possible(alloc, line, &mut holes, *part)?;
        flags.push(flag)?;
    }
    Ok(flags)
}
