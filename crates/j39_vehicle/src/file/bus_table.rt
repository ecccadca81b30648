//! The table of a bus.
use j39_id::Label;

/// A bus: its label, and the name of the file that has its plan.
#[derive(Drop)]
pub struct BusTable {
    /// 1 to 32 ASCII letters, digits and `_`.
    pub label: Label,
    /// 1 to 255 visible ASCII characters and spaces.
    pub plan: String,
}
