//! Where a message goes.

/// Whether a message goes to all, by BAM, or to one, by RTS and CTS.
#[derive(Clone, Copy, PartialEq, Eq)]
pub enum Dest {
    All,
    One,
}
