//! Findings that come by what isn't there.
ghost use Rattle.std.specs.Prelude.{◌≡◌, ℕ, List, true};
ghost use Rattle.j39_line_laws.specs.ByAbsenceExactly.{AbsenceIsFoundWhereMet};

/// Of each variant that finding which comes by what it lacks, a private group that nobody sends, a need that nothing
/// meets, a request that nobody answers, or hears, or that is answered astray, is found exactly where the variant meets
/// one of the finding's conditions.
pub fn found_by_absence_exactly()
    ensures { AbsenceIsFoundWhereMet }
{}
