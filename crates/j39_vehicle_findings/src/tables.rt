//! What leads where in a vehicle, found once for all traces.
ghost use Rattle.std.specs.Prelude.{◌≡◌, ◌≢◌, ◌<◌, ℕ, [], length, map, option_and_then, IfOk, OnErr};
ghost use Rattle.std.specs.List.{slice_get};
ghost use Rattle.j39_vehicle_findings.specs.Buses as plans;
ghost use Rattle.j39_vehicle_findings.specs.PathTables.{feeders, row_at, row_of, AreTables};
ghost use Rattle.j39_vehicle_findings.specs.Traces as spec;

use crate::buses::flows_on;
use crate::forwards::{feeds, first_input};
use crate::passing::{PlaceTest, passing_places};
use crate::point::FlowAt;
use j39_vehicle::{Forward, Vehicle};
use std::alloc::{AllocError, Global};

/// Of each forward the place of its first input, and of each flow of each bus the places of the forwards that feed it.
#[derive(Drop)]
pub struct PathTables {
    pub inputs: Vec<Option<usize>>,
    pub feeders: Vec<Vec<Vec<usize>>>,
}

fn inputs_of(alloc: Global, vehicle: &Vehicle) -> Result<Vec<Option<usize>>, AllocError>
    ensures inputs { IfOk result (λ inputs. inputs.items ≡ map
        (spec.first_input vehicle.now) vehicle.now.forwards.items) }
    ensures memory { OnErr result (vehicle.now.forwards.items ≢ []) }
{
    let mut inputs = Vec::new(alloc);
    for forward in vehicle.forwards.iter() {
        inputs.push(first_input(vehicle, forward))?;
    }
    Ok(inputs)
}

#[derive(Clone, Copy)]
struct Feeding<'a> {
    vehicle: &'a Vehicle,
    at: FlowAt,
}

impl PlaceTest<Forward> for Feeding<'_> {
    ghost use Rattle.j39_vehicle_findings.specs.ForwardTests.{feeds as feeds_it};

    ghost passes = { λ test. feeds_it test.vehicle.now test.at };

    fn holds(&self, forward: &Forward) -> bool {
        feeds(self.vehicle, self.at, forward)
    }
}

// Of each flow of a bus the forwards that feed it.
fn feeders_on(alloc: Global, vehicle: &Vehicle, bus: usize) -> Result<Vec<Vec<usize>>, AllocError>
    ensures rows { IfOk result (λ rows. (flow : ℕ)
        → row_at rows.items flow ≡ feeders vehicle.now (record { bus = bus; flow = flow })) }
{
    let mut rows = Vec::new(alloc);
    'flows: for flow in 0..flows_on(&vehicle.buses, bus).len() {
        let test = Feeding {
            vehicle,
            at: FlowAt { bus, flow },
        };
        rows.push(passing_places(alloc, &test, &vehicle.forwards)?)?;
    }
    Ok(rows)
}

// Of each flow of each bus.
fn feeders_of(alloc: Global, vehicle: &Vehicle) -> Result<Vec<Vec<Vec<usize>>>, AllocError>
    ensures rows { IfOk result (λ buses. (at : FlowAt) → row_of buses.items at ≡ feeders vehicle.now at) }
    ensures memory { OnErr result (vehicle.now.forwards.items ≢ []) }
{
    let mut buses = Vec::new(alloc);
    if vehicle.forwards.is_empty() {
        return Ok(buses);
    }
    'buses: for bus in 0..vehicle.buses.len() {
        buses.push(feeders_on(alloc, vehicle, bus)?)?;
    }
    Ok(buses)
}

/// The tables of a vehicle.
pub fn path_tables(alloc: Global, vehicle: &Vehicle) -> Result<PathTables, AllocError>
    ensures tables { IfOk result (AreTables vehicle.now) }
    ensures memory { OnErr result (vehicle.now.forwards.items ≢ []) }
{
    Ok(PathTables {
        inputs: inputs_of(alloc, vehicle)?,
        feeders: feeders_of(alloc, vehicle)?,
    })
}

impl PathTables {
    /// The first input of the forward at a place.
    pub fn input(&self, forward: usize) -> Option<usize>
        ensures { result ≡ option_and_then (λ i. i) (slice_get self.now.inputs.items forward) }
    {
        match self.inputs.get(forward) {
            Some(input) => *input,
            None => None,
        }
    }

    /// The forwards that feed a flow, by their places in rising order.
    pub fn feeders(&self, at: FlowAt) -> &[usize]
        ensures { result.now ≡ row_of self.now.feeders.items at }
    {
        match self.feeders.get(at.bus) {
            Some(rows) => match rows.get(at.flow) {
                Some(row) => row.as_slice(),
                None => &[],
            },
            None => &[],
        }
    }
}
