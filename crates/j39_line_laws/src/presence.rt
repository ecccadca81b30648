//! What is wrong with what is there.
ghost use Rattle.j39_line_laws.specs.ByPresence.{FoundByPresence};

/// A finding that comes by what is there is one of a variant exactly where it is one of the file's own plan, and its
/// parts are there together.
pub fn what_is_there_is_found()
    ensures { FoundByPresence }
{}
