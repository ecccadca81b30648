//! Which units, flows and needs of the file some possible variant has, by their places.
ghost use Rattle.std.specs.Prelude.{◌≡◌, IfOk, false, slice_index_or};
ghost use Rattle.j39_line_text.specs.PossiblePlaces.{flows_of_line, needs_of_line, units_of_line};
ghost use Rattle.j39_line_witnesses.specs.PossibleParts.{ArePartsPossible};

use j39_line_findings::LinePart;
use j39_line_witnesses::possible_parts;
use j39_variants::ProductLine;
use std::alloc::{AllocError, Global};

fn units_of_line(alloc: Global, line: &ProductLine) -> Result<Vec<LinePart>, AllocError>
    ensures { IfOk result (λ v. v.items ≡ units_of_line line.now) }
{
    (0..line.plan.units.len())
        .map(|place| LinePart::Unit(place))
        .collect(alloc)
}

fn flows_of_line(alloc: Global, line: &ProductLine) -> Result<Vec<LinePart>, AllocError>
    ensures { IfOk result (λ v. v.items ≡ flows_of_line line.now) }
{
    (0..line.plan.flows.len())
        .map(|place| LinePart::Flow(place))
        .collect(alloc)
}

fn needs_of_line(alloc: Global, line: &ProductLine) -> Result<Vec<LinePart>, AllocError>
    ensures { IfOk result (λ v. v.items ≡ needs_of_line line.now) }
{
    (0..line.plan.needs.len())
        .map(|place| LinePart::Need(place))
        .collect(alloc)
}

/// Of each unit, whether some possible variant has it.
pub(crate) fn possible_units(alloc: Global, line: &ProductLine) -> Result<Vec<bool>, AllocError>
    ensures { IfOk result (λ flags. ArePartsPossible line.now (units_of_line line.now) flags.items) }
{
    let units = units_of_line(alloc, line)?;
    possible_parts(alloc, line, &units)
}

/// Of each flow, whether some possible variant has it.
pub(crate) fn possible_flows(alloc: Global, line: &ProductLine) -> Result<Vec<bool>, AllocError>
    ensures { IfOk result (λ flags. ArePartsPossible line.now (flows_of_line line.now) flags.items) }
{
    let flows = flows_of_line(alloc, line)?;
    possible_parts(alloc, line, &flows)
}

/// Of each need, whether some possible variant asks for it.
pub(crate) fn possible_needs(alloc: Global, line: &ProductLine) -> Result<Vec<bool>, AllocError>
    ensures { IfOk result (λ flags. ArePartsPossible line.now (needs_of_line line.now) flags.items) }
{
    let needs = needs_of_line(alloc, line)?;
    possible_parts(alloc, line, &needs)
}

/// Whether what stands at a place is in some possible variant, where these say so of each place.
pub(crate) fn is_place_possible(possible: &[bool], place: usize) -> bool
    ensures { result ≡ slice_index_or possible.now place false }
{
    match possible.get(place) {
        Some(flag) => *flag,
        None => false,
    }
}
