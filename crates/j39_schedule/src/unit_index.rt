//! The units of a plan, found by their labels.
ghost use Rattle.std.specs.Prelude.{◌≡◌, ℕ, [], position, slice_index_or, OnOk, IfOk};
ghost use Rattle.j39_schedule.specs.Schedule.{unit_named};
ghost use Rattle.j39_schedule.specs.inside.UnitIndexes.{Has, IsIndexOf};
ghost use Rattle.j39_schedule.specs.inside.Checksums.{checksum, is_unit_named};

use j39_network::Plan;
use std::alloc::{AllocError, Global};
use std::marker::Model;

/// How many lists there are: one for each checksum.
const LISTS: usize = 256;

/// The units of a plan by the checksums of their labels, so that a unit is found without a look at each.
#[derive(Drop)]
pub struct UnitIndex {
    lists: Vec<Vec<usize>>,
}

impl Model for UnitIndex {
    ghost use Rattle.std.specs.Prelude.{◌≡◌, ℕ, List, length, map};

    ghost Value = { List (List ℕ) };

    ghost view = { λ x. map (λ l. l.items) x.lists.items };

    ghost invariant = { λ x. length x.lists.items ≡ 256 };
}

fn checksum(label: &[u8]) -> u8
    ensures { result ≡ checksum label.now }
{
    let mut sum: u8 = 0;
    for byte in label {
        sum = sum.wrapping_mul(31).wrapping_add(*byte);
    }
    sum
}

fn is_named(plan: &Plan, place: usize, label: &[u8]) -> bool
    ensures { result ≡ is_unit_named plan.now place label.now }
{
    match plan.units.get(place) {
        Some(unit) => unit.label.as_bytes() == label,
        None => false,
    }
}

fn named_at(places: &[usize], plan: &Plan, label: &[u8]) -> Option<usize>
    ensures { result ≡ position (λ u. is_unit_named plan.now u label.now) places.now }
{
    places
        .iter()
        .position(|place| is_named(plan, *place, label))
}

impl UnitIndex {
    /// The index of a plan.
    pub fn new(alloc: Global, plan: &Plan) -> Result<Self, AllocError>
        ensures { IfOk result (IsIndexOf plan.now) }
    {
        let mut lists = Vec::with_capacity(alloc, LISTS)?;
        for _ in 0..LISTS {
            lists.push(Vec::new(alloc))?;
        }
        let mut index = UnitIndex { lists };
        for place in 0..plan.units.len() {
            index.add(plan.units[place].label.as_bytes(), place)?;
        }
        Ok(index)
    }

    // Adds a unit of this label.
    fn add(&mut self, label: &[u8], place: usize) -> Result<(), AllocError>
        ensures has { OnOk result (Has (slice_index_or self.new (checksum label.now) []) place) }
        ensures keeps { OnOk result ((sum n : ℕ) → Has (slice_index_or self.old sum []) n
            → Has (slice_index_or self.new sum []) n) }
    {
        let list = &mut self.lists[usize::from(checksum(label))];
        list.push(place)?;
        Ok(())
    }

    /// The unit of a label, by its place.
    pub fn find(&self, plan: &Plan, label: &[u8]) -> Option<usize>
        requires { IsIndexOf plan.now self.now }
        ensures { result ≡ unit_named plan.now label.now }
    {
        let places = &self.lists[usize::from(checksum(label))];
        let at = named_at(places.as_slice(), plan, label)?;
        Some(places[at])
    }
}
