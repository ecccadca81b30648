//! Calls of sources and sinks that fail.

/// A call of a source or a sink failed.
#[derive(Clone, Copy)]
pub struct Failed;
