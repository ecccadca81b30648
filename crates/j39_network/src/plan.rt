//! A plan: the units of a network, the groups that they send, who sends which group to whom, and who needs which.
ghost use Rattle.std.specs.Prelude.{◌≡◌, ◌≢◌, ℕ, true, ◌<◌, ◌≤◌, length, All, AllPairs, Some};
ghost use Rattle.std.specs.FinSet.{contains};
ghost use Rattle.j39_id.specs.Addresses.{in_pool, pool_size};
ghost use Rattle.j39_id.specs.Limits.{unit_limit};
ghost use Rattle.j39_network.specs.PlanLimits.{flow_limit, group_limit, need_limit, request_limit};
ghost use Rattle.j39_network.specs.NeedPlaces.{signal_count};
ghost use Rattle.j39_network.specs.declared.plan.to.To.TheVariants.{One};

mod flow_plan;
mod group_plan;
mod meaning;
mod need_plan;
mod pace;
mod queue;
mod request_plan;
mod text_places;
mod text_plan;
mod timing;
mod to;
mod unit_plan;
mod way;

pub use flow_plan::FlowPlan;
pub use group_plan::GroupPlan;
use j39_claim::AddressSet;
pub use meaning::{Meaning, ValueName};
pub use need_plan::NeedPlan;
pub use pace::Pace;
pub use queue::Queue;
pub use request_plan::RequestPlan;
pub use text_plan::TextPlan;
pub use timing::{Bitrate, ErrorRate, Timing};
pub use to::To;
pub use unit_plan::UnitPlan;
pub use way::Way;

/// A plan of a network: at most 128 units, 256 groups, 512 flows, 4096 needs and 512 requests, named by their places
/// from
/// 0.
/// No two units have one label, and no two groups.
#[derive(Drop)]
pub struct Plan {
    /// Addresses of 128 to 247 that no arbitrary unit may hold.
    pub keep_free: AddressSet,
    /// How many units that stand in no plan and may choose may come beside these, at most 120: a service tool, units of
    /// another vehicle.
    pub strangers: u8,
    /// Whether messages and single frames begin at any time, also while units claim, and units go off in the midst of a
    /// message.
    pub live: bool,
    /// What is known of the bus itself, where its load and its delays are to be reported.
    pub timing: Option<Timing>,
    pub units: Vec<UnitPlan>,
    pub groups: Vec<GroupPlan>,
    pub flows: Vec<FlowPlan>,
    pub needs: Vec<NeedPlan>,
    pub requests: Vec<RequestPlan>,
    pub ghost keep_free_range: { (a : ℕ) → contains keep_free a ≡ true → in_pool a ≡ true },
    pub ghost strangers_range: { strangers ≤ pool_size },
    pub ghost unit_count: { length units.items ≤ unit_limit },
    pub ghost group_count: { length groups.items ≤ group_limit },
    pub ghost flow_count: { length flows.items ≤ flow_limit },
    pub ghost need_count: { length needs.items ≤ need_limit },
    pub ghost request_count: { length requests.items ≤ request_limit },
    pub ghost unit_labels: { AllPairs (λ u w. u.label.bytes ≢ w.label.bytes) units.items },
    pub ghost group_labels: { AllPairs (λ g h. g.label.bytes ≢ h.label.bytes) groups.items },
    pub ghost flow_groups: { All (λ f. f.group < length groups.items) flows.items },
    pub ghost flow_senders: { All (λ f. f.sender < length units.items) flows.items },
    pub ghost flow_receivers: { All (λ f. (r : ℕ) → f.to ≡ One r → r < length units.items) flows.items },
    pub ghost need_units: { All (λ d. d.unit < length units.items) needs.items },
    pub ghost need_groups: { All (λ d. d.group < length groups.items) needs.items },
    pub ghost need_signals: { All (λ d. (s : ℕ) → d.signal ≡ Some s
        → s < signal_count groups.items d.group) needs.items },
    pub ghost need_senders: { All (λ d. (u : ℕ) → d.from ≡ Some u → u < length units.items) needs.items },
    pub ghost request_groups: { All (λ d. d.group < length groups.items) requests.items },
    pub ghost request_senders: { All (λ d. d.sender < length units.items) requests.items },
    pub ghost request_receivers: { All (λ d. (r : ℕ) → d.to ≡ One r → r < length units.items) requests.items },
}
