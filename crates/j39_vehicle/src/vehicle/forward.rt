//! What a gateway sends on.
ghost use Rattle.std.specs.Prelude.{◌≤◌, length};
ghost use Rattle.std.specs.Option.{ForSome};
ghost use Rattle.j39_network.specs.PlanLimits.{signal_limit};

use super::GroupAt;
use j39_network::To;

/// When a gateway sends what it heard.
#[derive(Clone, Copy)]
pub enum Mode {
    /// For each message that ended, one.
    Direct,
    /// At moments of its own, the newest that it has.
    Periodic,
}

/// A signal whose values go into another one.
#[derive(Clone, Copy)]
pub struct ForwardedSignal {
    /// The place of the signal in the group that is heard.
    pub read: usize,
    /// The place of the signal in the group that is sent.
    pub written: usize,
    /// Whether each value has to arrive as it is. Else the nearest one that the signal has may stand for it.
    pub exact: bool,
}

/// A forward: a gateway hears a group on one bus and sends it, or signals of it in another group, on the same or
/// another bus.
#[derive(Drop)]
pub struct Forward {
    /// The place of the gateway.
    pub gateway: usize,
    /// The group that is heard.
    pub input: GroupAt,
    /// The unit on the input's bus that has to send it; without one it may be any other.
    pub from: Option<usize>,
    /// The gateway's unit on the input's bus that hears it.
    pub hearer: usize,
    /// The group that is sent.
    pub output: GroupAt,
    /// The gateway's unit on the output's bus that sends it.
    pub sender: usize,
    /// Whom it is sent to, where only that flow is meant.
    pub to: Option<To>,
    pub mode: Mode,
    /// In how many milliseconds behind the end of what was heard at most it is queued, or can be sent.
    pub within: Option<u16>,
    /// Which signals go into which. Without them the message goes on as it is, and with an empty list nothing of it
    /// does.
    pub signals: Option<Vec<ForwardedSignal>>,
    pub ghost within_positive: { ForSome within (λ n. 1 ≤ n) },
    pub ghost signal_count: { ForSome signals (λ listed. length listed.items ≤ signal_limit) },
}
