//! How often what was sent.
ghost use Rattle.std.specs.Prelude.{◌≡◌, ◌==◌, ◌+◌, ◌-◌, ◌^◌, ◌<◌, ◌∷◌, ◌++◌, [], ℕ, List, if◌then◌else◌, length, min};
ghost use Rattle.std.specs.List.{position};
ghost use Rattle.std.specs.Option.{option_to_list};
ghost use Rattle.j39_network.specs.PlanLimits.{flow_limit, group_limit};
ghost use Rattle.j39_network.specs.declared.plan.Plan.{Plan as APlan};
ghost use Rattle.j39_network.specs.declared.plan.group_plan.GroupPlan.{GroupPlan as APlannedGroup};
ghost use Rattle.j39_follow.specs.inside.Tallies.{IsTally, tally_at};
ghost use Rattle.j39_follow.specs.declared.message.Sort.{Sort as ASort};

use crate::message::Sort;
use j39_log::Groups;
use j39_network::Plan;
use j39_network::limits::{FLOW_LIMIT, GROUP_LIMIT};

/// How often each flow was sent, each group without a flow, and at the first group of a number what else there was of
/// the number.
#[derive(Drop)]
pub(crate) struct Tally {
    flows: [u64; FLOW_LIMIT],
    groups: [u64; GROUP_LIMIT],
    others: [u64; GROUP_LIMIT],
}

// One more at a place.
fn add_one(counts: &mut [u64], place: usize)
    ensures { (k : ℕ) → k < length counts.old → tally_at counts.new k
        ≡ (if place == k then min (tally_at counts.old k + 1) (2 ^ 64 - 1) else tally_at counts.old k) }
{
    if place < counts.len() {
        counts[place] = counts[place].saturating_add(1);
    }
}

// The first group of a number, by its place, as its span has it.
fn first_in(groups: &Groups<'_>, pgn: u32) -> Option<usize>
    ensures { result ≡ position (λ (group : APlannedGroup). group.pgn == pgn) groups.now.groups.items }
{
    match groups.span(pgn) {
        Some(span) => Some(span.first),
        None => None,
    }
}

/// The first group of a number, by its place.
pub(crate) fn first_of(plan: &Plan, pgn: u32) -> Option<usize>
    ensures { result ≡ position (λ (group : APlannedGroup). group.pgn == pgn) plan.now.groups.items }
{
    plan.groups
        .as_slice()
        .iter()
        .position(|group| group.pgn == pgn)
}

impl Tally {
    pub fn new() -> Self
        ensures { (plan : APlan) → IsTally plan result [] }
    {
        Tally {
            flows: [0; FLOW_LIMIT],
            groups: [0; GROUP_LIMIT],
            others: [0; GROUP_LIMIT],
        }
    }

    /// Counts a frame, and the message that it ends.
    pub fn count_frame(&mut self, groups: &Groups<'_>, sort: Sort, ended: Option<Sort>)
        ensures { (sent : List ASort) → length sent + 2 < 2 ^ 64 → IsTally groups.now self.old sent
            → IsTally groups.now self.new (sent ++ sort ∷ option_to_list ended) }
    {
        self.count(groups, sort);
        match ended {
            Some(ended) => self.count(groups, ended),
            None => {}
        }
    }

    // Counts a message.
    fn count(&mut self, groups: &Groups<'_>, sort: Sort)
        ensures { (sent : List ASort) → length sent < 2 ^ 64 - 1 → IsTally groups.now self.old sent
            → IsTally groups.now self.new (sent ++ sort ∷ []) }
    {
        match sort {
            Sort::Grouped(_, Some(flow)) => add_one(&mut self.flows, flow),
            Sort::Grouped(group, None) => add_one(&mut self.groups, group),
            Sort::Other(pgn) => {
                if let Some(first) = first_in(groups, pgn) {
                    add_one(&mut self.others, first);
                }
            }
        }
    }

    /// How often a flow was sent.
    pub fn of_flow(&self, flow: usize) -> u64
        requires { flow < flow_limit }
        ensures { result ≡ tally_at self.now.flows flow }
    {
        self.flows[flow]
    }

    /// How often a group was sent without a flow.
    pub fn of_group(&self, group: usize) -> u64
        requires { group < group_limit }
        ensures { result ≡ tally_at self.now.groups group }
    {
        self.groups[group]
    }

    /// How much else there was of the number of a group, at the first group that has it.
    pub fn of_others(&self, group: usize) -> u64
        requires { group < group_limit }
        ensures { result ≡ tally_at self.now.others group }
    {
        self.others[group]
    }
}
