//! Plans that are not taken as checked.
use crate::checking::finding::Findings;
use j39_network::Plan;
/// Why a plan is not taken as checked.
#[derive(Drop)]
pub enum RefusedCause {
    /// All that is wrong with it: never empty.
    Findings(Findings),
    /// An allocation was refused.
    Memory,
}

/// A plan that is not taken as checked, as it was handed in.
#[derive(Drop)]
pub struct Refused {
    pub plan: Plan,
    pub cause: RefusedCause,
}
