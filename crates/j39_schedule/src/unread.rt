//! Why a line of a schedule isn't read.
use crate::line_fault::LineFault;

/// Why a line isn't read.
#[derive(Clone, Copy)]
pub enum Unread {
    /// It can't be read, whatever memory there is.
    Fault(LineFault),
    /// An allocation was refused.
    Memory,
}
