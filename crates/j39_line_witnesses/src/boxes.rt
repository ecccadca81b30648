//! Boxes of variants: of each choice, of each of its alternatives, whether the box has it.
ghost use Rattle.std.specs.Prelude.{◌≡◌, ◌++◌, IfOk, OnOk};
ghost use Rattle.j39_variant_search.specs.VariantSearch.{box_flags, boxes_flags};
ghost use Rattle.j39_line_findings.specs.KnownParts.{do_all_admit};
ghost use Rattle.j39_line_witnesses.specs.PartBoxes.{box_test, flags_by, flags_of_choice, hole_of, holes_of_parts};
ghost use Rattle.j39_line_witnesses.specs.PartBoxes.{is_test_known};
ghost use Rattle.j39_line_witnesses.specs.PartBoxes.{list_box, never_holes, parts_box};

use crate::known::{is_list_known, names_known_choices};
use j39_line_findings::{LinePart, admits, part_admits};
use j39_variants::{Alternative, Choice, ProductLine};
use std::alloc::{AllocError, Global};

fn do_all_admit(line: &ProductLine, parts: &[LinePart], alternative: &Alternative) -> bool
    ensures { result ≡ do_all_admit line.now parts.now alternative.now }
{
    parts
        .iter()
        .all(|part| part_admits(line, alternative, *part))
}

// Which alternatives a box has.
#[derive(Clone, Copy)]
enum BoxTest<'a> {
    // Those that the box of this list has.
    OfList(&'a [Alternative]),
    // Those that the boxes of all these parts have.
    OfParts(&'a [LinePart]),
}

impl BoxTest<'_> {
    fn admits(&self, line: &ProductLine, alternative: &Alternative) -> bool
        ensures { result ≡ box_test line.now self.now alternative.now }
    {
        match self {
            BoxTest::OfList(list) => admits(list, alternative),
            BoxTest::OfParts(parts) => do_all_admit(line, parts, alternative),
        }
    }

    // Whether it names only choices that the line has.
    fn is_known(&self, line: &ProductLine) -> bool
        ensures { result ≡ is_test_known line.now self.now }
    {
        match self {
            BoxTest::OfList(list) => is_list_known(line, list),
            BoxTest::OfParts(parts) => names_known_choices(line, parts),
        }
    }
}

fn flags_of_choice(
    alloc: Global,
    line: &ProductLine,
    test: &BoxTest<'_>,
    choice: usize,
    reported: &Choice,
) -> Result<Vec<bool>, AllocError>
    ensures { IfOk result (λ v. v.items ≡ flags_of_choice (box_test line.now test.now) choice reported.now) }
{
    (0..reported.alternatives.len())
        .map(|place| test.admits(line, &Alternative { choice, place }))
        .collect(alloc)
}

fn flags_by(
    alloc: Global,
    line: &ProductLine,
    test: &BoxTest<'_>,
) -> Result<Vec<Vec<bool>>, AllocError>
    ensures { IfOk result (λ flags. box_flags flags.items ≡ flags_by
        (box_test line.now test.now) line.now.choices.items) }
{
    let mut flags = Vec::new(alloc);
    for (choice, reported) in line.choices.iter().enumerate() {
        flags.push(flags_of_choice(alloc, line, test, choice, reported)?)?;
    }
    Ok(flags)
}

/// The intersection of the boxes of parts.
pub fn parts_box(
    alloc: Global,
    line: &ProductLine,
    parts: &[LinePart],
) -> Result<Vec<Vec<bool>>, AllocError>
    ensures { IfOk result (λ flags. box_flags flags.items ≡ parts_box line.now parts.now) }
{
    flags_by(alloc, line, &BoxTest::OfParts(parts))
}

/// The box of a list.
pub fn list_box(
    alloc: Global,
    line: &ProductLine,
    list: &[Alternative],
) -> Result<Vec<Vec<bool>>, AllocError>
    ensures { IfOk result (λ flags. box_flags flags.items ≡ list_box line.now list.now) }
{
    flags_by(alloc, line, &BoxTest::OfList(list))
}

// Adds the box, where it names only choices that the line has.
fn add_hole(
    alloc: Global,
    line: &ProductLine,
    holes: &mut Vec<Vec<Vec<bool>>>,
    test: &BoxTest<'_>,
) -> Result<(), AllocError>
    ensures { OnOk result (boxes_flags holes.new.items ≡ boxes_flags holes.old.items ++ hole_of line.now test.now) }
{
    if test.is_known(line) {
        let hole = flags_by(alloc, line, test)?;
        holes.push(hole)?;
    }
    Ok(())
}

/// The boxes of what isn't built.
pub fn never_holes(alloc: Global, line: &ProductLine) -> Result<Vec<Vec<Vec<bool>>>, AllocError>
    ensures { IfOk result (λ holes. boxes_flags holes.items ≡ never_holes line.now line.now.nevers.items) }
{
    let mut holes = Vec::new(alloc);
    for never in &line.nevers {
        add_hole(alloc, line, &mut holes, &BoxTest::OfList(never))?;
    }
    Ok(holes)
}

/// Adds the box of each of these lists of parts.
pub(crate) fn add_holes(
    alloc: Global,
    line: &ProductLine,
    holes: &mut Vec<Vec<Vec<bool>>>,
    lacking: &[Vec<LinePart>],
) -> Result<(), AllocError>
    ensures { OnOk result (boxes_flags holes.new.items ≡ boxes_flags holes.old.items
        ++ holes_of_parts line.now lacking.now) }
{
    for parts in lacking {
        add_hole(alloc, line, holes, &BoxTest::OfParts(parts))?;
    }
    Ok(())
}
