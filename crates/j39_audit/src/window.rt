//! Bounds of a moment.

/// Bounds of the moment of a message: it was no earlier than `lower`, where this is known, and no later than `upper`.
/// Both are microseconds from one and the same moment, so long before the log that no bound lies before it.
#[derive(Clone, Copy)]
pub struct Window {
    pub lower: Option<u64>,
    pub upper: u64,
}
