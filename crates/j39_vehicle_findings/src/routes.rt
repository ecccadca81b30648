//! A vehicle with its tables, by which traces go.
ghost use Rattle.std.specs.Prelude.{◌≡◌};
ghost use Rattle.std.specs.List.{find};
ghost use Rattle.j39_vehicle_findings.specs.PathTables.{carries_at, AreTables};
ghost use Rattle.j39_vehicle_findings.specs.Traces as spec;

use crate::point::{FlowAt, Point};
use crate::tables::PathTables;
use crate::traces::{behind_forward, carries, is_sent_by};
use j39_vehicle::{Vehicle, VehicleNeed};

/// A vehicle with its tables.
#[derive(Clone, Copy)]
pub struct Routes<'a> {
    pub vehicle: &'a Vehicle,
    pub tables: &'a PathTables,
    ghost of_vehicle: { AreTables vehicle.now tables.now },
}

// Whether the forward at a place carries the signal.
fn carries_at(vehicle: &Vehicle, signal: Option<usize>, place: usize) -> bool
    ensures { result ≡ carries_at vehicle.now signal place }
{
    match vehicle.forwards.get(place) {
        Some(forward) => carries(signal, forward),
        None => false,
    }
}

// The first of these forwards that carries the signal.
fn first_carrying(vehicle: &Vehicle, signal: Option<usize>, places: &[usize]) -> Option<usize>
    ensures { result ≡ find (carries_at vehicle.now signal) places.now }
{
    places
        .iter()
        .copied()
        .find(|place| carries_at(vehicle, signal, *place))
}

impl Routes<'_> {
    /// The first forward that feeds the flow and carries the signal.
    pub fn next_forward(&self, point: Point) -> Option<usize>
        ensures { result ≡ spec.next_forward self.now.vehicle.now point }
    {
        first_carrying(self.vehicle, point.signal, self.tables.feeders(point.at))
    }

    /// Where the trace goes on by the forward at a place.
    pub fn goes_on(&self, point: Point, forward: usize) -> Option<Point>
        ensures { result ≡ spec.goes_on self.now.vehicle.now point forward }
    {
        match self.vehicle.forwards.get(forward) {
            Some(next) => behind_forward(
                self.vehicle,
                point.signal,
                next,
                self.tables.input(forward),
            ),
            None => None,
        }
    }

    /// Where the trace of a flow and a signal ends: none where what goes into a signal is missing on the way, or it
    /// goes on more often than there are forwards, in a loop.
    pub fn origin(&self, start: Point) -> Option<Point>
        ensures { result ≡ spec.origin self.now.vehicle.now start }
    {
        let mut point = start;
        'trace: for _step in 0..self.vehicle.forwards.len() {
            let Some(forward) = self.next_forward(point) else {
                return Some(point);
            };
            let Some(before) = self.goes_on(point, forward) else {
                return None;
            };
            point = before;
        }
        match self.next_forward(point) {
            None => Some(point),
            Some(_forward) => None,
        }
    }

    /// Whether what the flow at a place of the need's bus brings comes from the unit that the need names.
    pub fn is_from_origin(&self, need: &VehicleNeed, flow: usize) -> bool
        ensures { result ≡ spec.is_from_origin self.now.vehicle.now need.now flow }
    {
        let at = FlowAt {
            bus: need.unit.bus,
            flow,
        };
        let signal = need.signal;
        match self.origin(Point { at, signal }) {
            Some(point) => is_sent_by(self.vehicle, need.from, point),
            None => false,
        }
    }
}
