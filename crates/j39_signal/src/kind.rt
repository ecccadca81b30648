//! Kinds of signals.

/// What the raw numbers of a signal mean (SAE J1939-71, transmitted signal ranges).
#[derive(Clone, Copy)]
pub enum Kind {
    /// A scaled value of 8, 16 or 32 bits, whose greatest numbers are reserved for states.
    Measured,
    /// Off, on, error or absent, in two bits.
    Discrete,
    /// A number of which every value counts.
    Raw,
    /// Values of 2 to 8 bits, whose two greatest numbers are a fault and absence, as those of a discrete signal.
    States,
    /// A number in two's complement of which every value counts.
    Signed,
    /// A diagnostic trouble code of 32 bits from the first bit of a byte on (SAE J1939-73), absent where all of them
    /// are 1.
    Dtc,
}
