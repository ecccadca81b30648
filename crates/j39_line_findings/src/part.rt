//! What stands in a plan of a line of vehicles, and the boxes of variants in which it is there.
ghost use Rattle.std.specs.Prelude.{◌≡◌, ◌==◌, ◌&&◌};
ghost use Rattle.std.specs.List.{list_any};
ghost use Rattle.j39_line_findings.specs.Boxes.{do_overlap, is_choice_in_all, is_one_alternative, admits, admits_at};
ghost use Rattle.j39_line_findings.specs.Boxes.{flow_admits, group_admits, need_admits, part_admits};
ghost use Rattle.j39_line_findings.specs.Boxes.{receiver_admits, request_admits, unit_admits};

use j39_network::To;
use j39_variants::{Alternative, ProductLine};

/// What stands at a place of the file.
#[derive(Clone, Copy)]
pub enum LinePart {
    Unit(usize),
    Group(usize),
    Flow(usize),
    Need(usize),
    Request(usize),
}

/// Whether two alternatives are one.
pub(crate) fn is_one_alternative(one: &Alternative, other: &Alternative) -> bool
    ensures { result ≡ is_one_alternative one.now other.now }
{
    one.choice == other.choice && one.place == other.place
}

/// Whether a list names an alternative.
pub fn names(list: &[Alternative], alternative: &Alternative) -> bool
    ensures { result ≡ list_any (λ b. is_one_alternative b alternative.now) list.now }
{
    list.iter()
        .any(|other| is_one_alternative(other, alternative))
}

/// Whether a list names an alternative of a choice.
pub fn names_choice(list: &[Alternative], choice: usize) -> bool
    ensures { result ≡ list_any (λ b. b.choice == choice) list.now }
{
    list.iter().any(|other| other.choice == choice)
}

/// Whether the box of a list has an alternative.
pub fn admits(list: &[Alternative], alternative: &Alternative) -> bool
    ensures { result ≡ admits list.now alternative.now }
{
    !names_choice(list, alternative.choice) || names(list, alternative)
}

fn admits_at(lists: &[Vec<Alternative>], alternative: &Alternative, place: usize) -> bool
    ensures { result ≡ admits_at lists.now alternative.now place }
{
    match lists.get(place) {
        Some(list) => admits(list, alternative),
        None => true,
    }
}

fn unit_admits(line: &ProductLine, alternative: &Alternative, unit: usize) -> bool
    ensures { result ≡ unit_admits line.now alternative.now unit }
{
    admits_at(&line.lists.units, alternative, unit)
}

fn group_admits(line: &ProductLine, alternative: &Alternative, group: usize) -> bool
    ensures { result ≡ group_admits line.now alternative.now group }
{
    admits_at(&line.lists.groups, alternative, group)
}

fn receiver_admits(line: &ProductLine, alternative: &Alternative, to: To) -> bool
    ensures { result ≡ receiver_admits line.now alternative.now to }
{
    match to {
        To::All => true,
        To::One(unit) => unit_admits(line, alternative, unit),
    }
}

pub(crate) fn flow_admits(line: &ProductLine, alternative: &Alternative, place: usize) -> bool
    ensures { result ≡ flow_admits line.now alternative.now place }
{
    match line.plan.flows.get(place) {
        Some(flow) => {
            admits_at(&line.lists.flows, alternative, place)
                && group_admits(line, alternative, flow.group)
                && unit_admits(line, alternative, flow.sender)
                && receiver_admits(line, alternative, flow.to)
        }
        None => true,
    }
}

pub(crate) fn request_admits(line: &ProductLine, alternative: &Alternative, place: usize) -> bool
    ensures { result ≡ request_admits line.now alternative.now place }
{
    match line.plan.requests.get(place) {
        Some(request) => {
            admits_at(&line.lists.requests, alternative, place)
                && group_admits(line, alternative, request.group)
                && unit_admits(line, alternative, request.sender)
                && receiver_admits(line, alternative, request.to)
        }
        None => true,
    }
}

pub(crate) fn need_admits(line: &ProductLine, alternative: &Alternative, place: usize) -> bool
    ensures { result ≡ need_admits line.now alternative.now place }
{
    match line.plan.needs.get(place) {
        Some(need) => {
            admits_at(&line.lists.needs, alternative, place)
                && unit_admits(line, alternative, need.unit)
        }
        None => true,
    }
}

/// Whether the box of a part has an alternative.
pub fn part_admits(line: &ProductLine, alternative: &Alternative, part: LinePart) -> bool
    ensures { result ≡ part_admits line.now alternative.now part }
{
    match part {
        LinePart::Unit(unit) => unit_admits(line, alternative, unit),
        LinePart::Group(group) => group_admits(line, alternative, group),
        LinePart::Flow(flow) => flow_admits(line, alternative, flow),
        LinePart::Need(need) => need_admits(line, alternative, need),
        LinePart::Request(request) => request_admits(line, alternative, request),
    }
}

fn is_choice_in_all(
    line: &ProductLine,
    alternatives: &[Alternative],
    one: LinePart,
    other: LinePart,
    third: LinePart,
    choice: usize,
) -> bool
    ensures { result ≡ is_choice_in_all line.now alternatives.now one other third choice }
{
    alternatives.iter().any(|a| {
        a.choice == choice
            && part_admits(line, a, one)
            && part_admits(line, a, other)
            && part_admits(line, a, third)
    })
}

/// Whether some variant, possible or not, is in each of three boxes, where these are the alternatives of the line.
pub(crate) fn do_overlap(
    line: &ProductLine,
    alternatives: &[Alternative],
    one: LinePart,
    other: LinePart,
    third: LinePart,
) -> bool
    ensures { result ≡ do_overlap line.now alternatives.now one other third }
{
    alternatives.iter().all(|a| is_choice_in_all(line, alternatives, one, other, third, a.choice))
}
