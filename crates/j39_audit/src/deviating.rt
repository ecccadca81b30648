//! Messages that deviate from the plan, and the flows for which they stand.
ghost use Rattle.std.specs.Prelude.{◌≡◌, ◌≢◌, ℕ, None, if◌then◌else◌, length, slice_index_or};
ghost use Rattle.j39_audit.specs.Moments.{Moments as AMoments, with_deviating};
ghost use Rattle.j39_audit.specs.Pauses.{have_one_number, is_stood_for};
ghost use Rattle.j39_audit.specs.inside.Recalling.{AreNear, RecallsMoments, settings_of};

use crate::basis::Basis;
use crate::messages::has_number;
use crate::moments::Moments;
use crate::pauses::Newest;
use crate::places::forget_at;
use crate::tally::Sighting;

// Whether the groups at two places have one number.
fn have_one_number(basis: &Basis<'_>, group: usize, other: usize) -> bool
    ensures { result ≡ have_one_number basis.now.plan.now group other }
{
    match basis.plan.groups.get(group) {
        Some(one) => has_number(basis, other, one.pgn),
        None => false,
    }
}

// Whether a message of a unit that deviates from a group stands for one of the flow at a place.
#[tactic(auto, unfolding(crate::specs::Pauses::is_stood_for))]
fn is_stood_for(basis: &Basis<'_>, unit: usize, group: usize, place: usize) -> bool
    ensures { result ≡ is_stood_for basis.now.plan.now unit group place }
{
    match basis.plan.flows.get(place) {
        Some(flow) => flow.sender == unit && have_one_number(basis, group, flow.group),
        None => false,
    }
}

// Forgets the newest message of the flow at a place, if one that deviates stands for it.
fn forget_if_stood_for(
    newest: &mut Vec<Option<Newest>>,
    basis: &Basis<'_>,
    unit: usize,
    group: usize,
    place: usize,
)
    ensures size { length newest.new.items ≡ length newest.old.items }
    ensures others { (n : ℕ) → n ≢ place → slice_index_or newest.new.items n None
        ≡ slice_index_or newest.old.items n None }
    ensures here { slice_index_or newest.new.items place None
        ≡ (if is_stood_for basis.now.plan.now unit group place then None
        else slice_index_or newest.old.items place None) }
{
    if is_stood_for(basis, unit, group, place) {
        forget_at(newest, place);
    }
}

// Forgets that of each.
fn forget_stood_for(newest: &mut Vec<Option<Newest>>, basis: &Basis<'_>, unit: usize, group: usize)
    ensures size { length newest.new.items ≡ length newest.old.items }
    ensures each { (n : ℕ) → slice_index_or newest.new.items n None
        ≡ (if is_stood_for basis.now.plan.now unit group n then None else slice_index_or newest.old.items n None) }
{
    for place in 0..basis.plan.flows.len() {
        forget_if_stood_for(newest, basis, unit, group, place);
    }
}

impl Moments {
    /// Ends, without a look, the pauses of the flows for which a message stands that deviates from a group, if one
    /// does.
    pub fn end_deviating(&mut self, basis: &Basis<'_>, sighting: Sighting)
        requires near { AreNear self.old }
        ensures near { AreNear self.new }
        ensures moments { (m : AMoments) → RecallsMoments self.old m
            → RecallsMoments self.new (with_deviating (settings_of basis.now) sighting.deviating sighting.unit m) }
    {
        let Some(group) = sighting.deviating else {
            return;
        };
        let Some(unit) = sighting.unit else {
            return;
        };
        forget_stood_for(&mut self.pauses.newest, basis, unit, group);
    }
}
