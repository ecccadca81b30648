//! A bus of a vehicle.
use j39_id::Label;
use j39_network::Plan;

/// A bus: its label in the vehicle, and its plan.
#[derive(Drop)]
pub struct BusPlan {
    /// 1 to 32 ASCII letters, digits and `_`.
    pub label: Label,
    pub plan: Plan,
}
