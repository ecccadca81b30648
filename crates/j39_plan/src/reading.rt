//! Reading a plan file.
ghost use Rattle.toml.specs.View.{table_view};
ghost use Rattle.j39_toml.specs.Outcome.{GivesGrowing};
ghost use Rattle.j39_plan.specs.Growing.{PlanGrows};
ghost use Rattle.j39_plan.specs.PlanFaults.{faults};
ghost use Rattle.j39_plan.specs.Described.{DescribesPlan};

mod flows;
mod groups;
mod heads;
mod key;
mod keys;
mod labels;
mod later_arrays;
mod meanings;
mod names;
mod needs;
mod place;
mod plan_error;
mod requests;
mod selectors;
mod signals;
mod tables;
mod text_kind;
mod texts;
mod timing;
mod top_table;
mod units;
mod values;
mod version;

use flows::FlowReader;
use groups::GroupReader;
use heads::version_of;
use j39_network::Plan;
use j39_toml::read_each;
pub use j39_toml::{Cause, FileError};
pub use key::Key;
pub use later_arrays::LaterArrays;
use needs::NeedReader;
pub use place::Table;
pub use plan_error::{PlanError, PlanFault};
use requests::RequestReader;
use std::alloc::Global;
pub use top_table::{TopTable, top};
use units::UnitReader;
pub use version::Version;

/// The plan that a tree describes, or its first fault.
#[tactic(auto, using(j39_toml::proofs::FirstFaults::faults_after))]
pub fn read_top(alloc: Global, members: &toml::Table) -> Result<Plan, PlanError>
    ensures { GivesGrowing (PlanGrows (table_view members.now)) result (faults (table_view members.now))
        (DescribesPlan (table_view members.now)) }
{
    let version = version_of(members);
    let top = top(members)?;
    let units = read_each(alloc, &UnitReader { version }, top.units)?;
    let groups = read_each(alloc, &GroupReader { version }, top.groups)?;
    let flows = read_each(
        alloc,
        &FlowReader {
            version,
            groups: &groups,
            units: &units,
        },
        top.flows,
    )?;
    let needs = read_each(
        alloc,
        &NeedReader {
            groups: &groups,
            units: &units,
        },
        top.later.needs,
    )?;
    let requests = read_each(
        alloc,
        &RequestReader {
            groups: &groups,
            units: &units,
        },
        top.later.requests,
    )?;
    Ok(Plan {
        keep_free: top.keep_free,
        strangers: top.strangers,
        live: top.live,
        timing: top.timing,
        units,
        groups,
        flows,
        needs,
        requests,
    })
}
