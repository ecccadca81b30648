//! Whether the lists of what stands in the file name only choices that the line has. What names another one is there in
//! no variant.
ghost use Rattle.std.specs.Prelude.{◌≡◌};
ghost use Rattle.j39_line_findings.specs.KnownParts.{names_known_choices, is_flow_known, is_group_known, is_list_known};
ghost use Rattle.j39_line_findings.specs.KnownParts.{is_list_known_at};
ghost use Rattle.j39_line_findings.specs.KnownParts.{is_need_known, is_part_known, is_receiver_known, is_request_known};
ghost use Rattle.j39_line_findings.specs.KnownParts.{is_unit_known};

use j39_line_findings::LinePart;
use j39_network::To;
use j39_variants::{Alternative, ProductLine};

/// Whether a list names only choices that the line has.
pub(crate) fn is_list_known(line: &ProductLine, list: &[Alternative]) -> bool
    ensures { result ≡ is_list_known line.now list.now }
{
    list.iter()
        .all(|alternative| alternative.choice < line.choices.len())
}

fn is_list_known_at(line: &ProductLine, lists: &[Vec<Alternative>], place: usize) -> bool
    ensures { result ≡ is_list_known_at line.now lists.now place }
{
    match lists.get(place) {
        Some(list) => is_list_known(line, list),
        None => false,
    }
}

fn is_unit_known(line: &ProductLine, unit: usize) -> bool
    ensures { result ≡ is_unit_known line.now unit }
{
    is_list_known_at(line, &line.lists.units, unit)
}

fn is_group_known(line: &ProductLine, group: usize) -> bool
    ensures { result ≡ is_group_known line.now group }
{
    is_list_known_at(line, &line.lists.groups, group)
}

fn is_receiver_known(line: &ProductLine, to: To) -> bool
    ensures { result ≡ is_receiver_known line.now to }
{
    match to {
        To::All => true,
        To::One(unit) => is_unit_known(line, unit),
    }
}

fn is_flow_known(line: &ProductLine, place: usize) -> bool
    ensures { result ≡ is_flow_known line.now place }
{
    match line.plan.flows.get(place) {
        Some(flow) => {
            is_list_known_at(line, &line.lists.flows, place)
                && is_group_known(line, flow.group)
                && is_unit_known(line, flow.sender)
                && is_receiver_known(line, flow.to)
        }
        None => false,
    }
}

fn is_request_known(line: &ProductLine, place: usize) -> bool
    ensures { result ≡ is_request_known line.now place }
{
    match line.plan.requests.get(place) {
        Some(request) => {
            is_list_known_at(line, &line.lists.requests, place)
                && is_group_known(line, request.group)
                && is_unit_known(line, request.sender)
                && is_receiver_known(line, request.to)
        }
        None => false,
    }
}

fn is_need_known(line: &ProductLine, place: usize) -> bool
    ensures { result ≡ is_need_known line.now place }
{
    match line.plan.needs.get(place) {
        Some(need) => {
            is_list_known_at(line, &line.lists.needs, place) && is_unit_known(line, need.unit)
        }
        None => false,
    }
}

fn is_part_known(line: &ProductLine, part: LinePart) -> bool
    ensures { result ≡ is_part_known line.now part }
{
    match part {
        LinePart::Unit(unit) => is_unit_known(line, unit),
        LinePart::Group(group) => is_group_known(line, group),
        LinePart::Flow(flow) => is_flow_known(line, flow),
        LinePart::Need(need) => is_need_known(line, need),
        LinePart::Request(request) => is_request_known(line, request),
    }
}

/// Whether all lists by which these parts are there do.
pub(crate) fn names_known_choices(line: &ProductLine, parts: &[LinePart]) -> bool
    ensures { result ≡ names_known_choices line.now parts.now }
{
    parts.iter().all(|part| is_part_known(line, *part))
}
