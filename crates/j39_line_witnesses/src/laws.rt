//! Laws of boxes, and of what is found by conditions.
ghost use Rattle.j39_line_witnesses.specs.WitnessLaws.{BoxesAreExact, WitnessedAreExact};

/// A variant of a line is in the box of parts exactly where each of them is there, and in the box of a list where the
/// list has it; with parts and lists that name no choice but the line's. Others are there in no variant.
pub fn boxes_are_exact()
    ensures { BoxesAreExact }
{}

/// What is found by conditions is exactly what possible variants meet: each witness is the first possible variant that
/// meets one of its finding's conditions, and each finding that has one is reported.
pub fn witnessed_are_exact()
    ensures { WitnessedAreExact }
{}
