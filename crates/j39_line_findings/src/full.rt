//! The alternatives that a fullest variant takes.
ghost use Rattle.std.specs.Prelude.{◌≡◌, ◌∷◌, [], IfOk, length, map};
ghost use Rattle.std.specs.List.{list_all, range_with_len};
ghost use Rattle.j39_load.specs.LineLists.{lines_of_each};
ghost use Rattle.j39_line_findings.specs.FullVariants.{AreFullAlternatives, agree_on_answer, agree_on_answers};
ghost use Rattle.j39_line_findings.specs.FullVariants.{agree_on_flow};
ghost use Rattle.j39_line_findings.specs.FullVariants.{agree_on_flows, agree_on_need};
ghost use Rattle.j39_line_findings.specs.FullVariants.{agree_on_sending, alternatives_of, alternatives_of_choice};
ghost use Rattle.j39_line_findings.specs.Boxes.{are_one_answer};
ghost use Rattle.j39_line_findings.specs.FullVariants.{compared, do_keep, provides, does_leave, does_need_admit};
ghost use Rattle.j39_line_findings.specs.FullVariants.{full_alternatives, full_among, full_of_need, is_covered};
ghost use Rattle.j39_line_findings.specs.FullVariants.{is_covered_for};
ghost use Rattle.j39_line_findings.specs.FullVariants.{is_full_among, line_with, nevers_with};

use crate::part::{
    LinePart, admits, do_overlap, flow_admits, is_one_alternative, need_admits, request_admits,
};
use j39_network::{FlowPlan, NeedPlan, meets, serves};
use j39_variants::{Alternative, Choice, ProductLine};
use std::alloc::{AllocError, Global};

fn alternatives_of_choice(
    alloc: Global,
    choice: usize,
    reported: &Choice,
) -> Result<Vec<Alternative>, AllocError>
    ensures { IfOk result (λ v. v.items ≡ alternatives_of_choice choice reported.now) }
{
    (0..reported.alternatives.len())
        .map(|place| Alternative { choice, place })
        .collect(alloc)
}

fn alternatives_in(alloc: Global, choices: &[Choice]) -> Result<Vec<Alternative>, AllocError>
    ensures { IfOk result (λ v. v.items ≡ lines_of_each alternatives_of_choice 0 choices.now) }
{
    let mut alternatives = Vec::new(alloc);
    for (choice, reported) in choices.iter().enumerate() {
        let of_choice = alternatives_of_choice(alloc, choice, reported)?;
        alternatives.extend_from_slice(&of_choice)?;
    }
    Ok(alternatives)
}

/// The alternatives of a line, in order.
pub fn alternatives_of(alloc: Global, line: &ProductLine) -> Result<Vec<Alternative>, AllocError>
    ensures { IfOk result (λ v. v.items ≡ alternatives_of line.now) }
{
    let alternatives = alternatives_in(alloc, &line.choices)?;
    Ok(alternatives)
}

fn do_keep(lists: &[Vec<Alternative>], one: &Alternative, other: &Alternative) -> bool
    ensures { result ≡ do_keep lists.now one.now other.now }
{
    lists
        .iter()
        .all(|list| !admits(list, one) || admits(list, other))
}

/// Whether the boxes of what isn't built count.
#[derive(Clone, Copy)]
pub enum LineNevers {
    Kept,
    /// The line is taken for one that has none.
    LeftOut,
}

// Whether nothing is left unbuilt with the other alternative that isn't with the first.
fn do_nevers_keep(
    line: &ProductLine,
    nevers: LineNevers,
    one: &Alternative,
    other: &Alternative,
) -> bool
    ensures { result ≡ do_keep (nevers_with nevers line.now.nevers).items other.now one.now }
{
    match nevers {
        LineNevers::Kept => do_keep(&line.nevers, other, one),
        LineNevers::LeftOut => true,
    }
}

fn is_covered(
    line: &ProductLine,
    nevers: LineNevers,
    one: &Alternative,
    other: &Alternative,
) -> bool
    ensures { result ≡ is_covered (line_with nevers line.now) one.now other.now }
{
    do_keep(&line.lists.units, one, other)
        && do_keep(&line.lists.groups, one, other)
        && do_keep(&line.lists.flows, one, other)
        && do_keep(&line.lists.requests, one, other)
        && do_nevers_keep(line, nevers, one, other)
}

/// Whether the flow brings what is needed, whether it is asked for or not.
pub fn provides(need: &NeedPlan, flow: &FlowPlan) -> bool
    ensures { result ≡ provides need.now flow.now }
{
    let mut by_itself = *flow;
    by_itself.on_request = false;
    meets(&[], need, &by_itself)
}

fn are_one_answer(one: bool, other: bool) -> bool
    ensures { result ≡ are_one_answer one other }
{
    if one { other } else { !other }
}

// What two alternatives are compared for: a need, by its place in the file.
#[derive(Clone, Copy)]
struct Comparing<'a> {
    line: &'a ProductLine,
    alternatives: &'a [Alternative],
    need: usize,
    one: &'a Alternative,
    other: &'a Alternative,
}

impl Comparing<'_> {
    fn agree_on_answer(&self, place: usize, flow: &FlowPlan, asked: usize) -> bool
        ensures { result
            ≡ agree_on_answer self.now.line.now self.now.alternatives.now self.now.need self.now.one.now self.now.other.now place flow.now asked }
    {
        match self.line.plan.requests.get(asked) {
            Some(request) => {
                !serves(request, flow)
                    || !do_overlap(
                        self.line,
                        self.alternatives,
                        LinePart::Need(self.need),
                        LinePart::Flow(place),
                        LinePart::Request(asked),
                    )
                    || are_one_answer(
                        flow_admits(self.line, self.one, place)
                            && request_admits(self.line, self.one, asked),
                        flow_admits(self.line, self.other, place)
                            && request_admits(self.line, self.other, asked),
                    )
            }
            None => true,
        }
    }

    #[tactic(auto, unfolding(crate::specs::FullVariants::agree_on_answers))]
    fn agree_on_answers(&self, place: usize, flow: &FlowPlan) -> bool
        ensures { result
            ≡ agree_on_answers self.now.line.now self.now.alternatives.now self.now.need self.now.one.now self.now.other.now place flow.now }
    {
        (0..self.line.plan.requests.len()).all(|asked| self.agree_on_answer(place, flow, asked))
    }

    fn agree_on_sending(&self, place: usize) -> bool
        ensures { result
            ≡ agree_on_sending self.now.line.now self.now.alternatives.now self.now.need self.now.one.now self.now.other.now place }
    {
        !do_overlap(
            self.line,
            self.alternatives,
            LinePart::Need(self.need),
            LinePart::Flow(place),
            LinePart::Flow(place),
        ) || are_one_answer(
            flow_admits(self.line, self.one, place),
            flow_admits(self.line, self.other, place),
        )
    }

    fn agree_on_flow(&self, need: &NeedPlan, place: usize) -> bool
        ensures { result
            ≡ agree_on_flow self.now.line.now self.now.alternatives.now self.now.need self.now.one.now self.now.other.now need.now place }
    {
        match self.line.plan.flows.get(place) {
            Some(flow) => {
                if !provides(need, flow) {
                    true
                } else if flow.on_request {
                    self.agree_on_answers(place, flow)
                } else {
                    self.agree_on_sending(place)
                }
            }
            None => true,
        }
    }

    #[tactic(auto, unfolding(crate::specs::FullVariants::agree_on_flows))]
    fn agree_on_flows(&self, need: &NeedPlan) -> bool
        ensures { result
            ≡ agree_on_flows self.now.line.now self.now.alternatives.now self.now.need self.now.one.now self.now.other.now need.now }
    {
        (0..self.line.plan.flows.len()).all(|place| self.agree_on_flow(need, place))
    }

    #[tactic(auto, unfolding(crate::specs::FullVariants::agree_on_need))]
    fn agree(&self) -> bool
        ensures { result
            ≡ agree_on_need self.now.line.now self.now.alternatives.now self.now.need self.now.one.now self.now.other.now }
    {
        match self.line.plan.needs.get(self.need) {
            Some(need) => self.agree_on_flows(need),
            None => true,
        }
    }
}

#[tactic(auto, using(crate::proofs::LeftOutNevers::same_agreement))]
fn is_covered_for(
    line: &ProductLine,
    nevers: LineNevers,
    alternatives: &[Alternative],
    need: Option<usize>,
    one: &Alternative,
    other: &Alternative,
) -> bool
    ensures { result ≡ is_covered_for (line_with nevers line.now) alternatives.now need one.now other.now }
{
    match need {
        None => is_covered(line, nevers, one, other),
        Some(need) => {
            let comparing = Comparing {
                line,
                alternatives,
                need,
                one,
                other,
            };
            is_covered(line, nevers, one, other) && comparing.agree()
        }
    }
}

fn does_leave(
    line: &ProductLine,
    nevers: LineNevers,
    alternatives: &[Alternative],
    need: Option<usize>,
    one: &Alternative,
    other: &Alternative,
) -> bool
    ensures { result ≡ does_leave (line_with nevers line.now) alternatives.now need one.now other.now }
{
    other.choice != one.choice
        || is_one_alternative(other, one)
        || !is_covered_for(line, nevers, alternatives, need, one, other)
        || is_covered_for(line, nevers, alternatives, need, other, one) && one.place < other.place
}

fn is_full_among(
    line: &ProductLine,
    nevers: LineNevers,
    alternatives: &[Alternative],
    need: Option<usize>,
    these: &[Alternative],
    one: &Alternative,
) -> bool
    ensures { result ≡ is_full_among (line_with nevers line.now) alternatives.now need these.now one.now }
{
    these.iter().all(|other| does_leave(line, nevers, alternatives, need, one, other))
}

fn does_need_admit(line: &ProductLine, need: Option<usize>, alternative: &Alternative) -> bool
    ensures { result ≡ does_need_admit line.now need alternative.now }
{
    match need {
        None => true,
        Some(need) => need_admits(line, alternative, need),
    }
}

fn compared(
    alloc: Global,
    line: &ProductLine,
    alternatives: &[Alternative],
    need: Option<usize>,
) -> Result<Vec<Alternative>, AllocError>
    ensures { IfOk result (λ v. v.items ≡ compared line.now alternatives.now need) }
{
    alternatives
        .iter()
        .copied()
        .filter(|alternative| does_need_admit(line, need, alternative))
        .collect(alloc)
}

fn full_among(
    alloc: Global,
    line: &ProductLine,
    nevers: LineNevers,
    alternatives: &[Alternative],
    need: Option<usize>,
    these: &[Alternative],
) -> Result<Vec<Alternative>, AllocError>
    ensures { IfOk result (λ v. v.items ≡ full_among (line_with nevers line.now) alternatives.now need these.now) }
{
    these
        .iter()
        .copied()
        .filter(|alternative| is_full_among(line, nevers, alternatives, need, these, alternative))
        .collect(alloc)
}

fn full_alternatives(
    alloc: Global,
    line: &ProductLine,
    nevers: LineNevers,
    alternatives: &[Alternative],
    need: Option<usize>,
) -> Result<Vec<Alternative>, AllocError>
    ensures { IfOk result (λ v. v.items ≡ full_alternatives (line_with nevers line.now) alternatives.now need) }
{
    let these = compared(alloc, line, alternatives, need)?;
    full_among(alloc, line, nevers, alternatives, need, &these)
}

fn full_of_need(
    alloc: Global,
    line: &ProductLine,
    nevers: LineNevers,
    alternatives: &[Alternative],
    place: usize,
    need: &NeedPlan,
) -> Result<Vec<Alternative>, AllocError>
    ensures { IfOk result (λ v. v.items ≡ full_of_need (line_with nevers line.now) alternatives.now place need.now) }
{
    if need.within.is_some() {
        full_alternatives(alloc, line, nevers, alternatives, Some(place))
    } else {
        Ok(Vec::new(alloc))
    }
}

fn full_of_needs(
    alloc: Global,
    line: &ProductLine,
    nevers: LineNevers,
    alternatives: &[Alternative],
    needs: &[NeedPlan],
) -> Result<Vec<Vec<Alternative>>, AllocError>
    ensures { IfOk result (λ v. map (λ list. list.items) v.items
        ≡ lines_of_each (λ d need. full_of_need (line_with nevers line.now) alternatives.now d need ∷ []) 0 needs.now) }
{
    let mut full = Vec::new(alloc);
    for (place, need) in needs.iter().enumerate() {
        full.push(full_of_need(alloc, line, nevers, alternatives, place, need)?)?;
    }
    Ok(full)
}

/// The full alternatives of a line, and those that are full for each need that asks for an age.
#[derive(Drop)]
pub struct FullAlternatives {
    pub all: Vec<Alternative>,
    pub of_needs: Vec<Vec<Alternative>>,
}

impl FullAlternatives {
    /// The alternatives of the full variants of a line, of which these are all alternatives.
    pub fn new(
        alloc: Global,
        line: &ProductLine,
        nevers: LineNevers,
        alternatives: &[Alternative],
    ) -> Result<Self, AllocError>
        requires { alternatives.now ≡ alternatives_of line.now }
        ensures { IfOk result (AreFullAlternatives (line_with nevers line.now)) }
    {
        Ok(FullAlternatives {
            all: full_alternatives(alloc, line, nevers, alternatives, None)?,
            of_needs: full_of_needs(alloc, line, nevers, alternatives, &line.plan.needs)?,
        })
    }
}
