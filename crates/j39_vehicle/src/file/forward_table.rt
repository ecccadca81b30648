//! The table of a forward.
ghost use Rattle.std.specs.Prelude.{◌≤◌, length};
ghost use Rattle.std.specs.Option.{ForSome};
ghost use Rattle.j39_network.specs.PlanLimits.{signal_limit};

use super::{NameOnBus, SignalTable};
use crate::vehicle::Mode;

/// A forward, by labels: which gateway sends which group on as which, and how.
#[derive(Drop)]
pub struct ForwardTable {
    pub gateway: String,
    /// The group that is heard: `group`.
    pub input: NameOnBus,
    /// The unit that has to send it.
    pub from: Option<String>,
    /// The gateway's unit that hears it; without one its first on that bus.
    pub at: Option<String>,
    /// The group that is sent: `as`.
    pub output: NameOnBus,
    /// The gateway's unit that sends it; without one its first on that bus.
    pub by: Option<String>,
    /// The unit that receives it, or `all`.
    pub to: Option<String>,
    pub mode: Mode,
    /// In milliseconds.
    pub within: Option<u16>,
    pub signals: Option<Vec<SignalTable>>,
    pub ghost within_positive: { ForSome within (λ n. 1 ≤ n) },
    pub ghost signal_count: { ForSome signals (λ listed. length listed.items ≤ signal_limit) },
}
