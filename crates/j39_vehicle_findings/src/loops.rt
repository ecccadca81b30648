//! Which forwards come after themselves.
ghost use Rattle.std.specs.Prelude.{◌≡◌, ◌≢◌, [], map, IfOk, OnErr};
ghost use Rattle.j39_vehicle_findings.specs.Loops.{AreFollowers, DecidesLoops};

use crate::forwards::is_followed;
use crate::passing::{PlaceTest, passing_places};
use crate::reaching::comes_back;
use j39_vehicle::{Forward, Vehicle};
use std::alloc::{AllocError, Global};

#[derive(Clone, Copy)]
struct Following<'a> {
    vehicle: &'a Vehicle,
    forward: &'a Forward,
}

impl PlaceTest<Forward> for Following<'_> {
    ghost use Rattle.j39_vehicle_findings.specs.ForwardTests.{is_followed as has_after_it};

    ghost passes = { λ test. has_after_it test.vehicle.now test.forward.now };

    fn holds(&self, other: &Forward) -> bool {
        is_followed(self.vehicle, self.forward, other)
    }
}

// Of each forward those that follow it.
fn followers_of(alloc: Global, vehicle: &Vehicle) -> Result<Vec<Vec<usize>>, AllocError>
    ensures rows { IfOk result (λ rows. AreFollowers vehicle.now rows.items) }
    ensures memory { OnErr result (vehicle.now.forwards.items ≢ []) }
{
    let mut rows = Vec::new(alloc);
    for forward in vehicle.forwards.iter() {
        let test = Following { vehicle, forward };
        rows.push(passing_places(alloc, &test, &vehicle.forwards)?)?;
    }
    Ok(rows)
}

/// Of each forward, whether it comes after itself.
pub fn loops_of(alloc: Global, vehicle: &Vehicle) -> Result<Vec<bool>, AllocError>
    ensures stated { IfOk result (λ loops. DecidesLoops vehicle.now loops.items) }
    ensures memory { OnErr result (vehicle.now.forwards.items ≢ []) }
{
    let rows = followers_of(alloc, vehicle)?;
    let mut loops = Vec::new(alloc);
    'all: for place in 0..vehicle.forwards.len() {
        loops.push(comes_back(alloc, &rows, place)?)?;
    }
    Ok(loops)
}
