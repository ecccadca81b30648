//! Networks of SAE J1939 as they are planned: units, groups and their signals, flows, needs and requests.
#![tactic(auto)]

mod kinds;
pub mod limits;
mod plan;
mod planned_groups;
mod records;
mod serving;
mod steps;

pub use kinds::{kind_of_name, may_be_one};
pub use plan::{
    Bitrate, ErrorRate, FlowPlan, GroupPlan, Meaning, NeedPlan, Pace, Plan, Queue, RequestPlan,
    TextPlan, Timing, To, UnitPlan, ValueName, Way,
};
pub use planned_groups::{GroupFault, layout_of};
pub use records::stands_once;
pub use serving::{is_asked_for, is_met, is_served, meets, reaches, serves};
pub use steps::Step;
