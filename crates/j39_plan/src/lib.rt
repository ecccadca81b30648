//! How plan files are read. The crate hands out the plans that they describe, too.
#![tactic(auto)]

mod laws;
mod reading;

pub use j39_network::{
    Bitrate, ErrorRate, FlowPlan, GroupFault, GroupPlan, NeedPlan, Pace, Plan, Queue, RequestPlan,
    Step, TextPlan, Timing, To, UnitPlan, Way, layout_of,
};
pub use laws::{
    a_file_describes_one_plan, older_versions_know_what_they_knew, plans_without_later_keys,
};
pub use reading::{
    Cause, FileError, Key, LaterArrays, PlanError, PlanFault, Table, TopTable, Version, read_top,
    top,
};
