//! The top table of a plan file.
ghost use Rattle.std.specs.Prelude.{◌≡◌, ◌≤◌, ℕ, true, IfOk};
ghost use Rattle.std.specs.FinSet.{contains};
ghost use Rattle.toml.specs.View.{table_view};
ghost use Rattle.j39_id.specs.Addresses.{in_pool, pool_size};
ghost use Rattle.j39_toml.specs.Outcome.{Gives};
ghost use Rattle.j39_plan.specs.PlanFaults.{top_faults};
ghost use Rattle.j39_plan.specs.Described.{DescribesTop};

use super::heads::{head, live, strangers, version_of};
use super::later_arrays::{LaterArrays, later_arrays};
use super::tables::array;
use super::timing::timing;
use super::{Key, PlanError, Table};
use j39_claim::AddressSet;
use j39_network::Timing;
use j39_network::limits::{FLOW_LIMIT, GROUP_LIMIT, UNIT_LIMIT};
use toml::Value;

/// What stands at the keys of the top table, the elements of its arrays as the file has them.
#[derive(Drop)]
pub struct TopTable<'a> {
    pub keep_free: AddressSet,
    pub strangers: u8,
    pub live: bool,
    pub timing: Option<Timing>,
    pub units: &'a [Value],
    pub groups: &'a [Value],
    pub flows: &'a [Value],
    pub later: LaterArrays<'a>,
}

/// What the top table of a plan reports.
#[tactic(auto, using(j39_toml::proofs::FirstFaults::faults_after))]
pub fn top(members: &toml::Table) -> Result<TopTable<'_>, PlanError>
    ensures gives { Gives result (top_faults (table_view members.now)) (DescribesTop (table_view members.now)) }
    ensures range { IfOk result (λ t. (a : ℕ) → contains t.keep_free a ≡ true → in_pool a ≡ true) }
    ensures few { IfOk result (λ t. t.strangers ≤ pool_size) }
{
    let version = version_of(members);
    let keep_free = head(members, version)?;
    let strangers = strangers(members, version)?;
    let live = live(members, version)?;
    let timing = timing(members, version)?;
    let units = array(members, Table::Top, Key::Unit, UNIT_LIMIT)?;
    let groups = array(members, Table::Top, Key::Group, GROUP_LIMIT)?;
    let flows = array(members, Table::Top, Key::Flow, FLOW_LIMIT)?;
    let later = later_arrays(members, version)?;
    Ok(TopTable {
        keep_free,
        strangers,
        live,
        timing,
        units,
        groups,
        flows,
        later,
    })
}
