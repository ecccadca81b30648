//! Laws of what is written of the times of a line of vehicles.
ghost use Rattle.j39_line_text.specs.ShownTimes.{UnmetIsFound};

/// It is written of a need that it is unmet exactly where this is found of it, and else how old what it is for is at
/// most, whichever of the variants looked at can be built.
pub fn unmet_is_written_where_it_is_found()
    ensures { UnmetIsFound }
{}
