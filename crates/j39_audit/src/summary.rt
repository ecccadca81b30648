//! What is written of a log that was read.
ghost use Rattle.std.specs.Prelude.{◌≡◌, ◌≤◌, ◌<◌, ◌++◌, IfOk, OnOk};
ghost use Rattle.j39_audit.specs.AuditText.{accusation_count, accusations, accusing_at, again_text, answers_text};
ghost use Rattle.j39_audit.specs.AuditText.{deviations_line, flow_seen};
ghost use Rattle.j39_audit.specs.AuditText.{flow_seen_line, flows_seen, groups_named, if_not_by_bus, line_reported};
ghost use Rattle.j39_audit.specs.AuditText.{lines_reported, reported_mark};
ghost use Rattle.j39_audit.specs.AuditText.{request_seen, request_seen_line, requests_seen, sorts_text, stamps_text};
ghost use Rattle.j39_audit.specs.AuditText.{subject_count};
ghost use Rattle.j39_audit.specs.AuditText.{subject_lines, subjects, text_by, times_of, unit_frames_line, unit_seen};
ghost use Rattle.j39_audit.specs.AuditText.{units_seen, word_count, word_lines};
ghost use Rattle.j39_audit.specs.inside.Auditing.{all_seen, seen_at, seen_places, tallied};
ghost use Rattle.j39_audit.specs.inside.Recalling.{settings_of};

use crate::accusing::{write_accusing, write_sending};
use crate::audit_log::AuditLog;
use crate::basis::Basis;
use crate::mark::{Mark, Word, make_mark};
use j39_network::{FlowPlan, Plan, RequestPlan};
use j39_text::{TextBuffer, WriteResult, unit_label};
use std::alloc::AllocError;

// The words that accuse, in the order in which they are written.
const ACCUSING: [Word; 19] = [
    Word::Short,
    Word::Stranger,
    Word::Nobody,
    Word::Address,
    Word::Cannot,
    Word::Deaf,
    Word::Layout,
    Word::NoFlow,
    Word::Priority,
    Word::Urgent,
    Word::WrongAnnouncement,
    Word::WrongGrant,
    Word::WrongPacket,
    Word::WrongReceipt,
    Word::NearFlow,
    Word::NearRequest,
    Word::NearPackets,
    Word::SilentFlow,
    Word::SilentPackets,
];

const ADDRESSES: usize = 256;

// The word at a place among those that accuse.
fn accusing_at(place: usize) -> Word
    ensures { result ≡ accusing_at place }
{
    if place < ACCUSING.len() {
        ACCUSING[place]
    } else {
        Word::Urgent
    }
}

// Of how many addresses, units, flows or requests a word speaks.
fn subjects(basis: &Basis<'_>, word: Word) -> usize
    ensures value { result ≡ subjects (settings_of basis.now) word }
    ensures few { result ≤ 512 }
{
    match word {
        Word::Short => 1,
        Word::Stranger | Word::Nobody => ADDRESSES,
        Word::NearFlow | Word::SilentFlow => basis.plan.flows.len(),
        Word::NearRequest => basis.plan.requests.len(),
        _ => basis.plan.units.len(),
    }
}

// Of how many groups of each.
fn groups_named(basis: &Basis<'_>, word: Word) -> usize
    ensures value { result ≡ groups_named (settings_of basis.now) word }
    ensures few { result ≤ 256 }
{
    match word {
        Word::Layout | Word::NoFlow | Word::Priority => basis.plan.groups.len(),
        _ => 1,
    }
}

// The mark that is reported of a flow, where by the bus nothing may be.
fn if_not_by_bus(log: &AuditLog<'_>, by_bus: Mark, or_late: Mark) -> Mark
    ensures { result ≡ if_not_by_bus (tallied log.now) by_bus or_late }
{
    if log.reported(by_bus).times == 0 {
        or_late
    } else {
        by_bus
    }
}

// The mark that is reported of what a word, a subject and a group name: by load that of a flow of which by the bus
// nothing is.
fn reported_mark(log: &AuditLog<'_>, word: Word, subject: usize, group: usize) -> Mark
    ensures { result ≡ reported_mark (tallied log.now) word subject group }
{
    let mark = Mark {
        word,
        subject,
        group,
    };
    match word {
        Word::NearFlow => if_not_by_bus(
            log,
            mark,
            Mark {
                word: Word::NearOrLate,
                ..mark
            },
        ),
        Word::SilentFlow => if_not_by_bus(
            log,
            mark,
            Mark {
                word: Word::SilentOrLate,
                ..mark
            },
        ),
        _ => mark,
    }
}

// Writes the line of a mark where it was found, and answers how many lines that is.
#[tactic(auto, unfolding(crate::specs::AuditText::line_reported, crate::specs::AuditText::line_of_mark, crate::specs::AuditText::lines_reported))]
fn write_line(
    text: &mut TextBuffer,
    plan: &Plan,
    log: &AuditLog<'_>,
    mark: Mark,
) -> Result<u64, AllocError>
    ensures text { OnOk result (text.new ≡ text.old ++ line_reported plan.now (tallied log.now) mark) }
    ensures count { IfOk result (λ n. n ≡ lines_reported (tallied log.now mark)) }
    ensures few { IfOk result (λ n. n ≤ 1) }
{
    let reported = log.reported(mark);
    if reported.times == 0 {
        return Ok(0);
    }
    write_accusing(text, plan, mark, reported)?;
    Ok(1)
}

// Writes the lines of a word and a subject.
fn write_subject_lines(
    text: &mut TextBuffer,
    basis: &Basis<'_>,
    log: &AuditLog<'_>,
    word: Word,
    subject: usize,
) -> Result<u64, AllocError>
    ensures text { OnOk result (text.new ≡ text.old ++ subject_lines (settings_of basis.now)
        (tallied log.now) word subject) }
    ensures count { IfOk result (λ n. n ≡ subject_count (settings_of basis.now) (tallied log.now) word subject) }
    ensures few { IfOk result (λ n. n ≤ 256) }
{
    let mut count = 0;
    for group in 0..groups_named(basis, word) {
        let mark = reported_mark(log, word, subject, group);
        count += write_line(text, basis.plan, log, mark)?;
    }
    Ok(count)
}

// Writes the lines of a word.
fn write_word_lines(
    text: &mut TextBuffer,
    basis: &Basis<'_>,
    log: &AuditLog<'_>,
    word: Word,
) -> Result<u64, AllocError>
    ensures text { OnOk result (text.new ≡ text.old ++ word_lines (settings_of basis.now) (tallied log.now) word) }
    ensures count { IfOk result (λ n. n ≡ word_count (settings_of basis.now) (tallied log.now) word) }
    ensures few { IfOk result (λ n. n ≤ 131072) }
{
    let mut count = 0;
    for subject in 0..subjects(basis, word) {
        count += write_subject_lines(text, basis, log, word, subject)?;
    }
    Ok(count)
}

// Writes the lines that accuse, and answers how many they are.
fn write_accusations(
    text: &mut TextBuffer,
    basis: &Basis<'_>,
    log: &AuditLog<'_>,
) -> Result<u64, AllocError>
    ensures text { OnOk result (text.new ≡ text.old ++ accusations (settings_of basis.now) (tallied log.now)) }
    ensures count { IfOk result (λ n. n ≡ accusation_count (settings_of basis.now) (tallied log.now)) }
{
    let mut count = 0;
    for place in 0..ACCUSING.len() {
        count += write_word_lines(text, basis, log, accusing_at(place))?;
    }
    Ok(count)
}

fn times_of(log: &AuditLog<'_>, word: Word, subject: usize) -> u64
    ensures { result ≡ times_of (tallied log.now) word subject }
{
    log.reported(make_mark(word, subject)).times
}

#[tactic(auto, unfolding(crate::specs::AuditText::flow_seen_line))]
fn write_flow(
    text: &mut TextBuffer,
    plan: &Plan,
    place: usize,
    flow: &FlowPlan,
    seen: u64,
    unclear: u64,
) -> WriteResult
    ensures { OnOk result (text.new ≡ text.old ++ flow_seen_line plan.now place flow.now seen unclear) }
{
    write_sending(text, "flow ", place, plan, flow.group, flow.sender, flow.to)?;
    text.field(" seen ", seen)?;
    text.field(" unclear ", unclear)?;
    text.end_line()
}

#[tactic(auto, unfolding(crate::specs::AuditText::request_seen_line))]
fn write_request(
    text: &mut TextBuffer,
    plan: &Plan,
    place: usize,
    request: &RequestPlan,
    seen: u64,
) -> WriteResult
    ensures { OnOk result (text.new ≡ text.old ++ request_seen_line plan.now place request.now seen) }
{
    write_sending(
        text,
        "request ",
        place,
        plan,
        request.group,
        request.sender,
        request.to,
    )?;
    text.field(" seen ", seen)?;
    text.end_line()
}

fn write_flow_seen(
    text: &mut TextBuffer,
    plan: &Plan,
    log: &AuditLog<'_>,
    place: usize,
) -> WriteResult
    ensures { OnOk result (text.new ≡ text.old ++ flow_seen plan.now (tallied log.now) place) }
{
    let seen = times_of(log, Word::Seen, place);
    let unclear = times_of(log, Word::Unclear, place);
    match plan.flows.get(place) {
        Some(flow) => write_flow(text, plan, place, flow, seen, unclear),
        None => Ok(()),
    }
}

fn write_request_seen(
    text: &mut TextBuffer,
    plan: &Plan,
    log: &AuditLog<'_>,
    place: usize,
) -> WriteResult
    ensures { OnOk result (text.new ≡ text.old ++ request_seen plan.now (tallied log.now) place) }
{
    let seen = times_of(log, Word::Asked, place);
    match plan.requests.get(place) {
        Some(request) => write_request(text, plan, place, request, seen),
        None => Ok(()),
    }
}

// Writes how many messages answer, where some do.
#[tactic(auto, unfolding(crate::specs::AuditText::answers_text))]
fn write_answers(text: &mut TextBuffer, answers: u64) -> WriteResult
    ensures { OnOk result (text.new ≡ text.old ++ answers_text answers) }
{
    if answers == 0 {
        return Ok(());
    }
    text.field(" answers ", answers)
}

#[tactic(auto, unfolding(crate::specs::AuditText::unit_frames_line))]
fn write_unit_seen(
    text: &mut TextBuffer,
    plan: &Plan,
    log: &AuditLog<'_>,
    unit: usize,
) -> WriteResult
    ensures { OnOk result (text.new ≡ text.old ++ unit_seen plan.now (tallied log.now) unit) }
{
    text.word("unit ")?;
    text.word(unit_label(plan, unit))?;
    text.field(" frames ", times_of(log, Word::Counted, unit))?;
    write_answers(text, times_of(log, Word::Answers, unit))?;
    text.end_line()
}

// Of how many flows, requests or units a word is counted.
fn seen_places(plan: &Plan, word: Word) -> usize
    ensures { result ≡ seen_places word plan.now }
{
    match word {
        Word::Seen => plan.flows.len(),
        Word::Asked => plan.requests.len(),
        _ => plan.units.len(),
    }
}

// Writes how often a word was counted of the flow, the request or the unit at a place.
fn write_seen(
    text: &mut TextBuffer,
    plan: &Plan,
    log: &AuditLog<'_>,
    word: Word,
    place: usize,
) -> WriteResult
    ensures { OnOk result (text.new ≡ text.old ++ seen_at word plan.now (tallied log.now) place) }
{
    match word {
        Word::Seen => write_flow_seen(text, plan, log, place),
        Word::Asked => write_request_seen(text, plan, log, place),
        _ => write_unit_seen(text, plan, log, place),
    }
}

// Writes it of each.
fn write_all_seen(text: &mut TextBuffer, plan: &Plan, log: &AuditLog<'_>, word: Word) -> WriteResult
    ensures { OnOk result (text.new ≡ text.old ++ all_seen word plan.now (tallied log.now)) }
{
    for place in 0..seen_places(plan, word) {
        write_seen(text, plan, log, word, place)?;
    }
    Ok(())
}

// Writes how many frames stand there again, where some do.
#[tactic(auto, unfolding(crate::specs::AuditText::again_text))]
fn write_again(text: &mut TextBuffer, again: u64) -> WriteResult
    ensures { OnOk result (text.new ≡ text.old ++ again_text again) }
{
    if again == 0 {
        return Ok(());
    }
    text.field(" again ", again)
}

// Writes the end of their line, with what times may differ by.
#[tactic(auto, unfolding(crate::specs::AuditText::stamps_text))]
fn write_stamps(text: &mut TextBuffer, stamps: u64, again: u64) -> WriteResult
    ensures { OnOk result (text.new ≡ text.old ++ stamps_text stamps again) }
{
    text.field(" stamps ", stamps)?;
    write_again(text, again)?;
    text.end_line()
}

// Writes how many lines there were of each sort.
#[tactic(auto, unfolding(crate::specs::AuditText::sorts_text))]
fn write_counts(text: &mut TextBuffer, log: &AuditLog<'_>) -> WriteResult
    ensures { OnOk result (text.new ≡ text.old ++ sorts_text log.now.basis.stamps log.now.counts log.now.again
        (tallied log.now)) }
{
    log.counts.write(text)?;
    text.field(" elsewhere ", log.counts.elsewhere)?;
    text.field(" unsure ", times_of(log, Word::Unsure, 0))?;
    text.field(" breaks ", times_of(log, Word::Break, 0))?;
    write_stamps(text, log.basis.stamps, log.again)
}

#[tactic(auto, unfolding(crate::specs::AuditText::deviations_line))]
fn write_deviations(text: &mut TextBuffer, count: u64) -> WriteResult
    ensures { OnOk result (text.new ≡ text.old ++ deviations_line count) }
{
    text.field("deviations ", count)?;
    text.end_line()
}

/// Writes what was found in a log, and answers how many lines accuse.
#[tactic(auto, unfolding(crate::specs::AuditText::text_by, crate::specs::AuditText::flows_seen, crate::specs::AuditText::requests_seen, crate::specs::AuditText::units_seen))]
pub(crate) fn write_audit(text: &mut TextBuffer, log: &AuditLog<'_>) -> Result<u64, AllocError>
    ensures text { OnOk result (text.new ≡ text.old ++ text_by (settings_of log.now.basis) log.now.counts log.now.again
        (tallied log.now)) }
    ensures count { IfOk result (λ n. n ≡ accusation_count (settings_of log.now.basis) (tallied log.now)) }
{
    let plan = log.basis.plan;
    let count = write_accusations(text, &log.basis, log)?;
    write_all_seen(text, plan, log, Word::Seen)?;
    write_all_seen(text, plan, log, Word::Asked)?;
    write_all_seen(text, plan, log, Word::Counted)?;
    write_counts(text, log)?;
    write_deviations(text, count)?;
    Ok(count)
}
