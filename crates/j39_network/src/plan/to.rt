//! The receivers of a flow.

/// Who receives a flow.
#[derive(Clone, Copy, PartialEq, Eq)]
pub enum To {
    /// All other units.
    All,
    /// The unit at this place, from 0.
    One(usize),
}
