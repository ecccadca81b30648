//! Points of traces.

/// A flow, by the places of its bus and of itself in the plan of this bus.
#[derive(Clone, Copy)]
pub struct FlowAt {
    pub bus: usize,
    pub flow: usize,
}

/// A point of a trace: a flow, and a signal of its group or none.
#[derive(Clone, Copy)]
pub struct Point {
    pub at: FlowAt,
    pub signal: Option<usize>,
}
