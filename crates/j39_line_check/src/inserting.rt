//! Findings in the order in which they are reported.
ghost use Rattle.std.specs.Prelude.{◌≡◌, ◌<◌, ◌≤◌, ◌-◌, Contains, OnOk, length, slice_index_or, drop, true, false};
ghost use Rattle.j39_line_findings.specs.InFile.{is_below, rank_of};
ghost use Rattle.j39_line_check.specs.declared.answer.ReportedFinding.{ReportedFinding as ReportedFindings};
ghost use Rattle.j39_line_check.specs.inside.Inserted.{IsReportedWith};

use crate::answer::ReportedFinding;
use j39_line_findings::{Rank, is_below};
use std::alloc::AllocError;

fn comes_before(one: &ReportedFinding, rank: Rank) -> bool
    ensures { result ≡ is_below (rank_of one.now.finding) rank }
{
    is_below(one.finding.rank(), rank)
}

// The place behind the last of those that are reported that comes before one of a rank.
fn place_of(reported: &[ReportedFinding], rank: Rank) -> usize
    ensures inside { result ≤ length reported.now }
    ensures before { (d : ReportedFindings) → 0 < result
        → is_below (rank_of (slice_index_or reported.now (result - 1) d).finding) rank ≡ true }
    ensures behind { (t : ReportedFindings) → Contains (drop result reported.now) t
        → is_below (rank_of t.finding) rank ≡ false }
{
    let mut place = reported.len();
    while 0 < place && !comes_before(&reported[place - 1], rank) {
        place -= 1;
    }
    place
}

// Whether none is reported at a place, or one behind one of a rank.
fn is_free(reported: &[ReportedFinding], place: usize, rank: Rank) -> bool
    ensures free { (d : ReportedFindings) → result ≡ true → place < length reported.now
        → is_below rank (rank_of (slice_index_or reported.now place d).finding) ≡ true }
    ensures inside { result ≡ false → place < length reported.now }
    ensures taken { (d : ReportedFindings) → result ≡ false
        → is_below rank (rank_of (slice_index_or reported.now place d).finding) ≡ false }
{
    match reported.get(place) {
        Some(other) => is_below(rank, other.finding.rank()),
        None => true,
    }
}

/// Adds a finding to those that are reported in order, unless one of its number and places is.
pub(crate) fn add(
    reported: &mut Vec<ReportedFinding>,
    new: ReportedFinding,
) -> Result<(), AllocError>
    ensures { OnOk result (IsReportedWith reported.old.items new reported.new.items) }
{
    let rank = new.finding.rank();
    let place = place_of(reported, rank);
    if is_free(reported, place, rank) {
        reported.insert(place, new)?;
    }
    Ok(())
}
