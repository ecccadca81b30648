//! How a line that accuses is written.
ghost use Rattle.std.specs.Prelude.{◌≡◌, ◌++◌, [], OnOk};
ghost use Rattle.std.specs.List.{slice_get};
ghost use Rattle.std.specs.Option.{option_map_or};
ghost use Rattle.j39_network.specs.declared.plan.flow_plan.FlowPlan.{FlowPlan as AFlow};
ghost use Rattle.j39_network.specs.declared.plan.request_plan.RequestPlan.{RequestPlan as ARequest};
ghost use Rattle.j39_text.specs.Texts.{place_field};
ghost use Rattle.j39_audit.specs.AuditText.{accusing_line, measure_text, named_flow_text, packets_text, request_text};
ghost use Rattle.j39_audit.specs.AuditText.{sending_text};
ghost use Rattle.j39_audit.specs.AuditText.{stranger_text, subject_of, times_text, unit_and_group_text, unit_at_text};
ghost use Rattle.j39_audit.specs.AuditText.{unit_text, word_text, worst_text};

use crate::mark::{Mark, Word};
use crate::tally::Occurrences;
use j39_follow::{write_name, write_to};
use j39_network::{Plan, To};
use j39_text::{TextBuffer, WriteResult, group_label, unit_label};

fn word_text(word: Word) -> &'static str
    ensures { result.now ≡ word_text word }
{
    match word {
        Word::Short => "short",
        Word::Stranger => "stranger",
        Word::Nobody => "nobody",
        Word::Address => "address",
        Word::Cannot => "cannot",
        Word::Deaf => "deaf",
        Word::Layout => "layout",
        Word::NoFlow => "no_flow",
        Word::Priority => "priority",
        Word::NearFlow | Word::NearRequest | Word::NearPackets => "near",
        Word::SilentFlow | Word::SilentPackets => "silent",
        Word::NearOrLate => "near_or_late",
        Word::SilentOrLate => "silent_or_late",
        Word::WrongAnnouncement => "announcement",
        Word::WrongGrant => "grant",
        Word::WrongPacket => "packet",
        Word::WrongReceipt => "acknowledged",
        _ => "urgent",
    }
}

#[tactic(auto, unfolding(crate::specs::AuditText::unit_text))]
fn write_unit(text: &mut TextBuffer, plan: &Plan, unit: usize) -> WriteResult
    ensures { OnOk result (text.new ≡ text.old ++ unit_text plan.now unit) }
{
    text.word(" unit ")?;
    text.word(unit_label(plan, unit))
}

#[tactic(auto, unfolding(crate::specs::AuditText::unit_and_group_text))]
fn write_unit_and_group(
    text: &mut TextBuffer,
    plan: &Plan,
    unit: usize,
    group: usize,
) -> WriteResult
    ensures { OnOk result (text.new ≡ text.old ++ unit_and_group_text plan.now unit group) }
{
    write_unit(text, plan, unit)?;
    text.word(" group ")?;
    text.word(group_label(plan, group))
}

#[tactic(auto, unfolding(crate::specs::AuditText::stranger_text))]
fn write_stranger(text: &mut TextBuffer, address: usize, name: u64) -> WriteResult
    ensures { OnOk result (text.new ≡ text.old ++ stranger_text address name) }
{
    text.field(" address ", address)?;
    text.word(" ")?;
    write_name(text, name)
}

#[tactic(auto, unfolding(crate::specs::AuditText::unit_at_text))]
fn write_unit_at(text: &mut TextBuffer, plan: &Plan, unit: usize, address: u64) -> WriteResult
    ensures { OnOk result (text.new ≡ text.old ++ unit_at_text plan.now unit address) }
{
    write_unit(text, plan, unit)?;
    text.field(" at ", address)
}

/// Writes the place of a flow or a request behind this, and which group is sent, by whom and to whom.
#[tactic(auto, unfolding(crate::specs::AuditText::sending_text))]
pub(crate) fn write_sending(
    text: &mut TextBuffer,
    begin: &str,
    place: usize,
    plan: &Plan,
    group: usize,
    sender: usize,
    to: To,
) -> WriteResult
    ensures { OnOk result (text.new ≡ text.old ++ (place_field begin.now place
        ++ sending_text plan.now group sender to)) }
{
    text.place(begin, place)?;
    text.word(" ")?;
    text.word(group_label(plan, group))?;
    text.word(" ")?;
    text.word(unit_label(plan, sender))?;
    text.word(" ")?;
    write_to(text, plan, to)
}

#[tactic(auto, unfolding(crate::specs::AuditText::named_flow_text))]
fn write_flow_at(text: &mut TextBuffer, plan: &Plan, place: usize) -> WriteResult
    ensures { OnOk result (text.new ≡ text.old ++ option_map_or (λ (flow : AFlow). named_flow_text plan.now place flow)
        (slice_get plan.now.flows.items place) []) }
{
    match plan.flows.get(place) {
        Some(flow) => write_sending(
            text,
            " flow ",
            place,
            plan,
            flow.group,
            flow.sender,
            flow.to,
        ),
        None => Ok(()),
    }
}

#[tactic(auto, unfolding(crate::specs::AuditText::request_text))]
fn write_request_at(text: &mut TextBuffer, plan: &Plan, place: usize) -> WriteResult
    ensures { OnOk result (text.new ≡ text.old ++ option_map_or (λ (r : ARequest). request_text plan.now place r)
        (slice_get plan.now.requests.items place) []) }
{
    match plan.requests.get(place) {
        Some(request) => write_sending(
            text,
            " request ",
            place,
            plan,
            request.group,
            request.sender,
            request.to,
        ),
        None => Ok(()),
    }
}

#[tactic(auto, unfolding(crate::specs::AuditText::packets_text))]
fn write_packets(text: &mut TextBuffer, plan: &Plan, unit: usize) -> WriteResult
    ensures { OnOk result (text.new ≡ text.old ++ packets_text plan.now unit) }
{
    text.word(" packets ")?;
    text.word(unit_label(plan, unit))
}

// Writes whom or what a word speaks of, and what belongs to the first line.
fn write_subject(text: &mut TextBuffer, plan: &Plan, mark: Mark, detail: u64) -> WriteResult
    ensures { OnOk result (text.new ≡ text.old ++ subject_of plan.now mark.word mark.subject mark.group detail) }
{
    match mark.word {
        Word::Short => Ok(()),
        Word::Stranger => write_stranger(text, mark.subject, detail),
        Word::Nobody => text.field(" address ", mark.subject),
        Word::Address => write_unit_at(text, plan, mark.subject, detail),
        Word::Layout | Word::NoFlow | Word::Priority => {
            write_unit_and_group(text, plan, mark.subject, mark.group)
        }
        Word::NearFlow | Word::SilentFlow | Word::NearOrLate | Word::SilentOrLate => {
            write_flow_at(text, plan, mark.subject)
        }
        Word::NearRequest => write_request_at(text, plan, mark.subject),
        Word::NearPackets | Word::SilentPackets => write_packets(text, plan, mark.subject),
        _ => write_unit(text, plan, mark.subject),
    }
}

#[tactic(auto, unfolding(crate::specs::AuditText::worst_text))]
fn write_worst(text: &mut TextBuffer, reported: Occurrences) -> WriteResult
    ensures { OnOk result (text.new ≡ text.old ++ worst_text reported) }
{
    text.field(" worst ", reported.worst_at)?;
    text.field(" by ", reported.worst)?;
    text.word(" us")
}

// Writes by how much at most, where a word has a measure.
fn write_measure(text: &mut TextBuffer, word: Word, reported: Occurrences) -> WriteResult
    ensures { OnOk result (text.new ≡ text.old ++ measure_text word reported) }
{
    match word {
        Word::NearFlow
        | Word::NearRequest
        | Word::NearPackets
        | Word::SilentFlow
        | Word::SilentPackets
        | Word::NearOrLate
        | Word::SilentOrLate => write_worst(text, reported),
        _ => Ok(()),
    }
}

#[tactic(auto, unfolding(crate::specs::AuditText::times_text))]
fn write_times(text: &mut TextBuffer, word: Word, reported: Occurrences) -> WriteResult
    ensures { OnOk result (text.new ≡ text.old ++ times_text word reported) }
{
    text.field(" times ", reported.times)?;
    text.field(" first ", reported.first)?;
    write_measure(text, word, reported)?;
    text.end_line()
}

/// Writes the line of a mark of which this was found.
#[tactic(auto, unfolding(crate::specs::AuditText::accusing_line))]
pub(crate) fn write_accusing(
    text: &mut TextBuffer,
    plan: &Plan,
    mark: Mark,
    reported: Occurrences,
) -> WriteResult
    ensures { OnOk result (text.new ≡ text.old ++ accusing_line plan.now mark reported) }
{
    text.word(word_text(mark.word))?;
    write_subject(text, plan, mark, reported.detail)?;
    write_times(text, mark.word, reported)
}
