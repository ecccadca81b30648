//! The plan of a line of vehicles.
ghost use Rattle.std.specs.Prelude.{◌≡◌, length};

use j39_id::Label;
use j39_network::Plan;

/// An alternative that a list names.
#[derive(Clone, Copy)]
pub struct Alternative {
    /// The place of its choice among those of the plan, from 0.
    pub choice: usize,
    /// Its place among the alternatives of this choice, from 0.
    pub place: usize,
}

/// Alternatives of which each vehicle has one. No two of a plan have one label.
#[derive(Drop)]
pub struct Choice {
    pub alternatives: Vec<Label>,
}

/// The alternatives with which each unit, group, flow and request is there, and with which each need is asked for, in
/// the order of the plan. A list stands for a box of variants: of each choice of which it names some, one of these; of
/// each other choice, any.
#[derive(Drop)]
pub struct Lists {
    pub units: Vec<Vec<Alternative>>,
    pub groups: Vec<Vec<Alternative>>,
    pub flows: Vec<Vec<Alternative>>,
    pub needs: Vec<Vec<Alternative>>,
    pub requests: Vec<Vec<Alternative>>,
}

/// The plan of a line of vehicles, at most 32 choices of 64 alternatives in all. Where it has no choices, all vehicles
/// have the one plan.
#[derive(Drop)]
pub struct ProductLine {
    /// All that stands in the file, whatever is there together.
    pub plan: Plan,
    pub choices: Vec<Choice>,
    /// Boxes of variants that aren't built, at most 256.
    pub nevers: Vec<Vec<Alternative>>,
    pub lists: Lists,
    pub ghost unit_lists: { length lists.units.items ≡ length plan.units.items },
    pub ghost group_lists: { length lists.groups.items ≡ length plan.groups.items },
    pub ghost flow_lists: { length lists.flows.items ≡ length plan.flows.items },
    pub ghost need_lists: { length lists.needs.items ≡ length plan.needs.items },
    pub ghost request_lists: { length lists.requests.items ≡ length plan.requests.items },
}

impl ProductLine {
    ghost use Rattle.std.specs.Prelude.{◌≢◌, [], true, false};

    /// Whether there are plans of several variants.
    pub fn has_choices(&self) -> bool
        ensures some { result ≡ true → self.now.choices.items ≢ [] }
        ensures none { result ≡ false → self.now.choices.items ≡ [] }
    {
        !self.choices.is_empty()
    }
}
