//! How much of an input may be read.

/// How much of an input may be read.
#[derive(Clone, Copy)]
pub struct Limits {
    /// The most bytes that it may have.
    pub bytes: u64,
    /// The most calls that may read it, the one that reports its end among them.
    pub calls: u64,
}

/// The limits of a plan, of a schedule, and of the frame that stands on standard input.
pub const PLAN_LIMITS: Limits = Limits {
    bytes: 16_777_216,
    calls: 1_048_576,
};

/// The limits of a log: 2^62 bytes, and as many calls.
pub const LOG_LIMITS: Limits = Limits {
    bytes: 1 << 62,
    calls: 1 << 62,
};
