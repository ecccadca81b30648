//! Which needs are asked for in a variant, and not in its plan.
ghost use Rattle.std.specs.Prelude.{◌≡◌};
ghost use Rattle.j39_line_findings.specs.MissedNeeds.{is_group_there, is_in_at, is_need_asked_for, is_need_missed};
ghost use Rattle.j39_line_findings.specs.MissedNeeds.{is_sender_there, is_source_there, is_unit_there};

use j39_variants::{Alternative, ProductLine, is_in};

pub(crate) fn is_in_at(variant: &[usize], lists: &[Vec<Alternative>], place: usize) -> bool
    ensures { result ≡ is_in_at variant.now lists.now place }
{
    match lists.get(place) {
        Some(list) => is_in(variant, list),
        None => false,
    }
}

/// Whether a unit is there in a variant.
pub fn is_unit_there(line: &ProductLine, variant: &[usize], unit: usize) -> bool
    ensures { result ≡ is_unit_there line.now variant.now unit }
{
    is_in_at(variant, &line.lists.units, unit)
}

pub(crate) fn is_group_there(line: &ProductLine, variant: &[usize], group: usize) -> bool
    ensures { result ≡ is_group_there line.now variant.now group }
{
    is_in_at(variant, &line.lists.groups, group)
}

/// Whether a need is asked for in a variant.
pub fn is_need_asked_for(line: &ProductLine, variant: &[usize], place: usize) -> bool
    ensures { result ≡ is_need_asked_for line.now variant.now place }
{
    match line.plan.needs.get(place) {
        Some(need) => {
            is_in_at(variant, &line.lists.needs, place) && is_unit_there(line, variant, need.unit)
        }
        None => false,
    }
}

fn is_sender_there(line: &ProductLine, variant: &[usize], from: Option<usize>) -> bool
    ensures { result ≡ is_sender_there line.now variant.now from }
{
    match from {
        None => true,
        Some(unit) => is_unit_there(line, variant, unit),
    }
}

// Whether what a need is for is there.
pub(crate) fn is_source_there(line: &ProductLine, variant: &[usize], place: usize) -> bool
    ensures { result ≡ is_source_there line.now variant.now place }
{
    match line.plan.needs.get(place) {
        Some(need) => {
            is_group_there(line, variant, need.group) && is_sender_there(line, variant, need.from)
        }
        None => false,
    }
}

pub(crate) fn is_need_missed(line: &ProductLine, variant: &[usize], place: usize) -> bool
    ensures { result ≡ is_need_missed line.now variant.now place }
{
    is_need_asked_for(line, variant, place) && !is_source_there(line, variant, place)
}
