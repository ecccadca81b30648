//! Boxes of parts.
ghost use Rattle.j39_line_laws.specs.BoxedParts.{ListsAreBoxes, ReadListsNameChoices, ThereInBoxes};

/// The lists of a line that was read name alternatives of its choices.
pub fn read_lists_name_choices()
    ensures { ReadListsNameChoices }
{}

/// A variant is in the box of a list of such alternatives exactly where this has each alternative that it takes.
pub fn lists_are_boxes()
    ensures { ListsAreBoxes }
{}

/// Where lists name alternatives of the line's choices alone, a part that stands in the file is there in exactly those
/// variants each alternative of which is in the part's box.
pub fn parts_are_there_in_their_boxes()
    ensures { ThereInBoxes }
{}
