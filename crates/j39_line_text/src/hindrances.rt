//! Findings of possible variants for which check's answer is written.
ghost use Rattle.std.specs.Prelude.{◌≡◌, map};
ghost use Rattle.j39_line_text.specs.Hindrances.{does_hide, hides, hides_addresses, is_any_hiding, is_hidden};
ghost use Rattle.j39_line_text.specs.Hindrances.{variants_at};

use j39_line_check::{LookedAt, ReportedFinding};
use j39_line_findings::LineFinding;
use j39_plan_text::hides_times;

/// What is asked of a line.
#[derive(Clone, Copy)]
pub(crate) enum Asked {
    /// Which of its units stay.
    Addresses,
    /// Its times.
    Times,
}

fn hides_addresses(number: u8) -> bool
    ensures { result ≡ hides_addresses number }
{
    0 < number && number < 4 || number == 12 || number == 26 || number == 27
}

// Whether a finding of this number hides what is asked.
fn hides(asked: Asked, number: u8) -> bool
    ensures { result ≡ hides asked number }
{
    match asked {
        Asked::Addresses => hides_addresses(number),
        Asked::Times => hides_times(number),
    }
}

fn does_hide(asked: Asked, finding: LineFinding) -> bool
    ensures { result ≡ does_hide asked finding }
{
    hides(asked, finding.rank().number)
}

fn is_any_hiding(asked: Asked, reported: &[ReportedFinding]) -> bool
    ensures { result ≡ is_any_hiding asked reported.now }
{
    reported.iter().any(|one| does_hide(asked, one.finding))
}

/// The variants of which what is asked is reported, where they aren't too many.
pub(crate) fn variants_at(looked: &LookedAt) -> &[Vec<usize>]
    ensures { map (λ v. v.items) result.now ≡ variants_at looked.now }
{
    match looked {
        LookedAt::Full(variants) => variants.as_slice(),
        LookedAt::TooMany(_) => &[],
    }
}

/// Whether something stands in the way of what is reported of a line: too many full variants, or a finding that hides
/// what is asked.
pub(crate) fn is_hidden(asked: Asked, reported: &[ReportedFinding], many: Option<u64>) -> bool
    ensures { result ≡ is_hidden asked many reported.now }
{
    many.is_some() || is_any_hiding(asked, reported)
}
