//! Which alternatives of its choices a box has.
ghost use Rattle.std.specs.Prelude.{◌≡◌, IfOk};
ghost use Rattle.j39_variants.specs.VariantPlans.{flag_at};
ghost use Rattle.j39_variant_search.specs.VariantSearch.{box_flags};
ghost use Rattle.j39_variant_search.specs.inside.BoxParts.{are_common, flags_at, has_some, hole_at, is_empty_box};
ghost use Rattle.j39_variant_search.specs.inside.BoxParts.{is_left, is_left_at, is_met, is_common};

pub(crate) fn flag_at(flags: &[bool], place: usize) -> bool
    ensures { result ≡ flag_at flags.now place }
{
    match flags.get(place) {
        Some(flag) => *flag,
        None => false,
    }
}

/// The flags of a choice, none behind the choices of the box.
pub(crate) fn flags_at(within: &[Vec<bool>], choice: usize) -> &[bool]
    ensures { result.now ≡ flags_at (box_flags within.now) choice }
{
    match within.get(choice) {
        Some(flags) => flags,
        None => &[],
    }
}

pub(crate) fn hole_at(holes: &[Vec<Vec<bool>>], place: usize) -> &[Vec<bool>]
    ensures { result.now ≡ hole_at holes.now place }
{
    match holes.get(place) {
        Some(hole) => hole,
        None => &[],
    }
}

// Whether two boxes have an alternative of a choice in common.
fn is_common(one: &[bool], other: &[bool]) -> bool
    ensures { result ≡ is_common one.now other.now }
{
    one.iter().zip(other).any(|(flag, same)| *flag && *same)
}

// Whether the first of two boxes has an alternative of a choice that the second hasn't.
fn is_left(one: &[bool], other: &[bool]) -> bool
    ensures { result ≡ is_left one.now other.now }
{
    one.iter()
        .enumerate()
        .any(|(place, flag)| *flag && !flag_at(other, place))
}

/// Whether a box leaves a hole by a choice: it has an alternative of it that the hole hasn't.
pub(crate) fn is_left_at(within: &[Vec<bool>], hole: &[Vec<bool>], choice: usize) -> bool
    ensures { result ≡ is_left_at (box_flags within.now) (box_flags hole.now) choice }
{
    is_left(flags_at(within, choice), flags_at(hole, choice))
}

pub(crate) fn has_some(flags: &[bool]) -> bool
    ensures { result ≡ has_some flags.now }
{
    flags.iter().any(|flag| *flag)
}

/// Whether some choice of a box has no alternative.
pub(crate) fn is_empty_box(within: &[Vec<bool>]) -> bool
    ensures { result ≡ is_empty_box within.now }
{
    within.iter().any(|choice| !has_some(choice))
}

fn are_common(within: &[Vec<bool>], hole: &[Vec<bool>]) -> bool
    ensures { result ≡ are_common within.now hole.now }
{
    (0..within.len()).all(|choice| is_common(flags_at(within, choice), flags_at(hole, choice)))
}

/// Whether some variant is in both of two boxes, none of which is empty.
pub(crate) fn is_met(within: &[Vec<bool>], hole: &[Vec<bool>]) -> bool
    ensures { result ≡ is_met within.now hole.now }
{
    within.len() == hole.len() && are_common(within, hole)
}
