//! Laws of the texts.
ghost use Rattle.j39_run.specs.RunText.{IsSameForContinuations, IsSameOnceReported};

/// Where a line of a schedule is refused, what stands behind it makes no difference to the text: behind its line feed,
/// or, where it is too long, behind its first 8,193 bytes.
pub fn refused_lines_end_the_text()
    ensures ended { IsSameForContinuations }
    ensures yielded { IsSameOnceReported }
{}
