//! What a signal shows.

/// The meaning of a raw number (SAE J1939-71, transmitted signal ranges).
#[derive(Clone, Copy, PartialEq, Eq)]
pub enum State {
    /// The scaled value, in the signal's unit: offset plus step times the raw number.
    Value(i64),
    /// A raw number whose meaning the parameter defines.
    Specific(u32),
    /// A raw number that the standard reserves.
    Reserved(u32),
    /// A raw number that indicates an error.
    Fault(u32),
    /// Not available.
    Absent,
}

/// A raw number with what it means, and the value that it has whatever its state.
#[derive(Clone, Copy)]
pub struct Shown {
    pub raw: u32,
    pub value: i64,
    pub state: State,
}
