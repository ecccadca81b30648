//! The arrays of tables that are known since the fourth version.
ghost use Rattle.std.specs.Prelude.{◌≡◌};
ghost use Rattle.toml.specs.View.{items_view, table_view};
ghost use Rattle.j39_plan.specs.declared.reading.place.Table.TheVariants as at;
ghost use Rattle.j39_plan.specs.Since.{known_faults};
ghost use Rattle.j39_toml.specs.Outcome.{Gives};
ghost use Rattle.j39_plan.specs.PlanFaults.{later_array_rules, need_tables_of, request_tables_of};

use super::tables::array;
use super::{Key, PlanError, Table, Version};
use j39_network::limits::{NEED_LIMIT, REQUEST_LIMIT};
use toml::Value;

/// The tables of needs and those of requests.
#[derive(Clone, Copy)]
pub struct LaterArrays<'a> {
    pub needs: &'a [Value],
    pub requests: &'a [Value],
}

/// The arrays of needs and requests of a plan: empty where its version doesn't know them.
#[tactic(auto, using(j39_toml::proofs::FirstFaults::faults_after))]
pub fn later_arrays(members: &toml::Table, version: Version) -> Result<LaterArrays<'_>, PlanError>
    ensures { Gives result (known_faults at.Top version (table_view members.now) later_array_rules)
        (λ later. (items_view later.needs.now ≡ need_tables_of version (table_view members.now))
        × (items_view later.requests.now ≡ request_tables_of version (table_view members.now))) }
{
    if !version.knows(Version::Fourth) {
        return Ok(LaterArrays {
            needs: &[],
            requests: &[],
        });
    }
    let needs = array(members, Table::Top, Key::Need, NEED_LIMIT)?;
    let requests = array(members, Table::Top, Key::Request, REQUEST_LIMIT)?;
    Ok(LaterArrays { needs, requests })
}
