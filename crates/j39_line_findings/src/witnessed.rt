//! What is found of a line of vehicles, with the variant that is its witness.
ghost use Rattle.std.specs.Prelude.{◌≡◌, ◌∷◌, ◌++◌, [], List, OnOk};
ghost use Rattle.std.specs.Prelude.{◌≤◌, ◌<◌, ℕ, length, slice_index_or, take, true, false};
ghost use Rattle.std.specs.List.{insert, slice_set};
ghost use Rattle.j39_line_findings.specs.declared.witnessed.Witnessed.{Witnessed as Witnesses};
ghost use Rattle.j39_line_findings.specs.InFile.{is_below};
ghost use Rattle.j39_line_findings.specs.Best.{AreBest, IsWitnessAmong, is_better, is_earlier_witness, rank_in};

use crate::line_finding::LineFinding;
use crate::rank::{Rank, is_below};
use std::alloc::AllocError;

/// A finding, and a variant that has it.
#[derive(Clone, Copy)]
pub struct Witnessed {
    pub finding: LineFinding,
    /// Its place among all variants.
    pub variant: usize,
    /// Whether it counts as the witness of this finding.
    pub counted: bool,
}

fn is_earlier_witness(one: &Witnessed, other: &Witnessed) -> bool
    ensures { result ≡ is_earlier_witness one.now other.now }
{
    one.counted && !other.counted || one.counted == other.counted && one.variant < other.variant
}

fn is_better(one: &Witnessed, other: &Witnessed) -> bool
    ensures { result ≡ is_better one.now other.now }
{
    other.finding.amount() < one.finding.amount()
        || one.finding.amount() == other.finding.amount() && is_earlier_witness(one, other)
}

fn comes_before(one: &Witnessed, rank: Rank) -> bool
    ensures { result ≡ is_below (rank_in one.now) rank }
{
    is_below(one.finding.rank(), rank)
}

// How many of those that are reported come before one of a rank.
fn place_of(reported: &[Witnessed], rank: Rank) -> usize
    ensures inside { result ≤ length reported.now }
    ensures before { (w : Witnesses) → IsWitnessAmong (take result reported.now) w → is_below (rank_in w) rank ≡ true }
    ensures behind { (d : Witnesses) → result < length reported.now
        → is_below (rank_in (slice_index_or reported.now result d)) rank ≡ false }
{
    for (place, other) in reported.iter().enumerate() {
        if !comes_before(other, rank) {
            return place;
        }
    }
    reported.len()
}

// Whether one of a rank comes before the one that is reported at a place, or none is reported there.
fn is_next(reported: &[Witnessed], place: usize, rank: Rank) -> bool
    ensures free { (d : Witnesses) → result ≡ true → place < length reported.now
        → is_below rank (rank_in (slice_index_or reported.now place d)) ≡ true }
    ensures inside { result ≡ false → place < length reported.now }
    ensures taken { (d : Witnesses) → result ≡ false → is_below rank (rank_in (slice_index_or reported.now place d))
        ≡ false }
{
    match reported.get(place) {
        Some(other) => is_below(rank, other.finding.rank()),
        None => true,
    }
}

fn put(reported: &mut Vec<Witnessed>, place: usize, new: Witnessed) -> Result<(), AllocError>
    requires { place ≤ length reported.old.items }
    ensures { OnOk result (reported.new.items ≡ insert reported.old.items place new) }
{
    reported.insert(place, new)?;
    Ok(())
}

fn replace(reported: &mut Vec<Witnessed>, place: usize, new: Witnessed)
    requires { place < length reported.old.items }
    ensures { reported.new.items ≡ slice_set reported.old.items place new }
{
    reported[place] = new;
}

/// Adds a finding of a variant to those that are reported: each once, with its best witness.
pub fn add(reported: &mut Vec<Witnessed>, new: Witnessed) -> Result<(), AllocError>
    ensures { OnOk result ((all : List Witnesses) → AreBest all reported.old.items
        → AreBest (all ++ new ∷ []) reported.new.items) }
{
    let place = place_of(reported, new.finding.rank());
    if is_next(reported, place, new.finding.rank()) {
        put(reported, place, new)?;
        return Ok(());
    }
    if is_better(&new, &reported[place]) {
        replace(reported, place, new);
    }
    Ok(())
}
