//! What is kept of flows with a pause, and where their pauses end.
ghost use Rattle.std.specs.Prelude.{◌≡◌, ℕ, IfOk, None, length};
ghost use Rattle.j39_audit.specs.Pauses.{earlier_of, ending_at, ending_of, goes_to_it, is_with_unit, last_of_ends};
ghost use Rattle.j39_audit.specs.inside.Recalling.{known_by, last_in_pauses, newest_in, settings_of};

use crate::basis::Basis;
use crate::known::Known;
use crate::places::{forget_each, kept_at, nothing_kept};
use j39_follow::unit_named;
use j39_id::addresses::NULL_ADDRESS;
use j39_id::{Frame, cannot_claim, carried_name, claims_address};
use j39_network::{FlowPlan, To};
use std::alloc::{AllocError, Global};

// A plan has no more flows, and no more units.
const FLOWS: usize = 512;

const UNITS: usize = 128;

/// Of a flow with a pause: the latest moment of its newest message, and its line.
#[derive(Clone, Copy)]
pub struct Newest {
    pub moment: u64,
    pub line: u64,
}

/// The last frame that counted for a unit: its line, and since when all was queued, or by load has ended, that comes
/// from there on.
#[derive(Clone, Copy)]
pub struct LastFrame {
    pub line: u64,
    pub since: Option<u64>,
}

/// Whose pauses end.
#[derive(Clone, Copy)]
pub enum Ending {
    /// None does.
    Nothing,
    /// Those of the flows from the unit at this place, or to it alone.
    OfUnit(usize),
    /// All.
    OfAll,
}

/// Of each flow its newest message, where its pause hasn't ended since, and of each unit its last frame.
#[derive(Drop)]
pub(crate) struct Pauses {
    pub newest: Vec<Option<Newest>>,
    pub last: Vec<Option<LastFrame>>,
    // Whether there may be one.
    pub is_open: bool,
}

// The one of the earlier line.
fn earlier_of(one: Option<LastFrame>, other: Option<LastFrame>) -> Option<LastFrame>
    ensures { result ≡ earlier_of one other }
{
    let Some(one) = one else {
        return None;
    };
    match other {
        Some(other) => Some(if one.line <= other.line { one } else { other }),
        None => None,
    }
}

impl Pauses {
    pub fn new(alloc: Global) -> Result<Self, AllocError>
        ensures newest { IfOk result (λ pauses. (n : ℕ) → newest_in pauses n ≡ None) }
        ensures last { IfOk result (λ pauses. (u : ℕ) → last_in_pauses pauses u ≡ None) }
        ensures newest_size { IfOk result (λ pauses. length pauses.newest.items ≡ 512) }
        ensures last_size { IfOk result (λ pauses. length pauses.last.items ≡ 128) }
    {
        let newest = nothing_kept(alloc, FLOWS)?;
        let last = nothing_kept(alloc, UNITS)?;
        Ok(Pauses {
            newest,
            last,
            is_open: false,
        })
    }

    /// The newest message of a flow.
    pub fn newest(&self, place: usize) -> Option<Newest>
        ensures { result ≡ newest_in self.now place }
    {
        kept_at(&self.newest, place)
    }

    /// The last frame of a unit.
    pub fn last(&self, unit: usize) -> Option<LastFrame>
        ensures { result ≡ last_in_pauses self.now unit }
    {
        kept_at(&self.last, unit)
    }

    /// The last frame of a flow's sender, or of those of its sender and of its one receiver the one of the earlier
    /// line.
    pub fn last_of(&self, flow: &FlowPlan) -> Option<LastFrame>
        ensures { result ≡ last_of_ends (last_in_pauses self.now) flow.now.sender flow.now.to }
    {
        match flow.to {
            To::All => self.last(flow.sender),
            To::One(receiver) => earlier_of(self.last(flow.sender), self.last(receiver)),
        }
    }

    /// Forgets them all.
    pub fn forget(&mut self)
        ensures newest { (n : ℕ) → newest_in self.new n ≡ None }
        ensures last { (u : ℕ) → last_in_pauses self.new u ≡ None }
        ensures newest_size { length self.new.newest.items ≡ length self.old.newest.items }
        ensures last_size { length self.new.last.items ≡ length self.old.last.items }
    {
        forget_each(&mut self.newest);
        forget_each(&mut self.last);
        self.is_open = false;
    }
}

// Whose pauses end at a claim from this source, by this unit or by none.
fn ending_at(known: &Known, unit: Option<usize>, source: u8) -> Ending
    ensures { result ≡ ending_at (known_by known.now) source unit }
{
    match unit {
        Some(unit) => {
            if known.last(unit) == Some(source) {
                Ending::OfUnit(unit)
            } else {
                Ending::OfAll
            }
        }
        None => {
            if source < NULL_ADDRESS && !known.is_taken(source) {
                Ending::OfAll
            } else {
                Ending::Nothing
            }
        }
    }
}

/// Whose pauses end at a frame.
pub(crate) fn ending_of(basis: &Basis<'_>, known: &Known, frame: &Frame) -> Ending
    ensures { result ≡ ending_of (settings_of basis.now) (known_by known.now) frame.now }
{
    if claims_address(frame) || cannot_claim(frame) {
        let unit = unit_named(basis.plan, carried_name(frame).to_bits());
        ending_at(known, unit, frame.ident.sa)
    } else {
        Ending::Nothing
    }
}

// Whether a flow goes to a unit alone.
fn goes_to_it(unit: usize, to: To) -> bool
    ensures { result ≡ goes_to_it unit to }
{
    match to {
        To::All => false,
        To::One(receiver) => receiver == unit,
    }
}

/// Whether the flow at a place is from a unit, or to it alone.
#[tactic(auto, unfolding(crate::specs::Pauses::is_with_unit))]
pub(crate) fn is_with_unit(basis: &Basis<'_>, unit: usize, place: usize) -> bool
    ensures { result ≡ is_with_unit (settings_of basis.now) unit place }
{
    match basis.plan.flows.get(place) {
        Some(flow) => flow.sender == unit || goes_to_it(unit, flow.to),
        None => false,
    }
}
