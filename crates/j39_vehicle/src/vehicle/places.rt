//! Places in the plans of a vehicle's buses.

/// A unit: the place of its bus, and its own in the plan of this bus, from 0.
#[derive(Clone, Copy)]
pub struct UnitAt {
    pub bus: usize,
    pub unit: usize,
}

/// A group: the place of its bus, and its own in the plan of this bus, from 0.
#[derive(Clone, Copy)]
pub struct GroupAt {
    pub bus: usize,
    pub group: usize,
}
