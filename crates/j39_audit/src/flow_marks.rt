//! Which flows and requests a message is counted for.
ghost use Rattle.std.specs.Prelude.{◌≡◌, ◌&&◌, ◌||◌, ◌<◌, not, length, OnOk};
ghost use Rattle.j39_network.specs.declared.plan.flow_plan.FlowPlan.{FlowPlan as AFlow};
ghost use Rattle.j39_network.specs.declared.plan.request_plan.RequestPlan.{RequestPlan as ARequest};
ghost use Rattle.j39_audit.specs.SentMessages.{all_marked, asks_by_plan, flows_noted, is_near, is_of, marked};
ghost use Rattle.j39_audit.specs.SentMessages.{requests_noted};
ghost use Rattle.j39_audit.specs.declared.mark.Word.TheVariants.{Unclear};
ghost use Rattle.j39_audit.specs.inside.Recalling.{Notes, known_by, sent_as, settings_of};
ghost use Rattle.j39_audit.specs.inside.Singling.{AreAllMeant, meant_more};

use crate::basis::Basis;
use crate::known::Known;
use crate::mark::{Word, make_mark};
use crate::messages::{UnitMessage, asks, is_near, is_of};
use crate::only_place::{Meant, OnlyPlace};
use crate::tally::MarkTally;
use j39_network::{FlowPlan, To};
use std::alloc::AllocError;

// With one more place, of one that goes to these, if a message may be meant for it.
fn meant_with(
    basis: &Basis<'_>,
    known: &Known,
    message: &UnitMessage<'_>,
    is_meant: bool,
    to: To,
    place: usize,
    meant: Meant,
) -> Meant
    ensures { result ≡ meant_more is_meant (is_meant && is_near (settings_of basis.now) (known_by known.now)
        (sent_as message.now) to) place meant }
{
    if is_meant {
        meant.with(true, is_near(basis, known, message, to), place)
    } else {
        meant
    }
}

/// For which flow a message may be meant.
pub(crate) fn flows_meant(basis: &Basis<'_>, known: &Known, message: &UnitMessage<'_>) -> Meant
    ensures { AreAllMeant (is_of (settings_of basis.now) (known_by known.now) (sent_as message.now))
        (λ (f : AFlow). is_near (settings_of basis.now) (known_by known.now)
        (sent_as message.now) f.to) basis.now.plan.now.flows.items result }
{
    let mut meant = Meant::nothing();
    for place in 0..basis.plan.flows.len() {
        let flow = &basis.plan.flows[place];
        let is_meant = is_of(basis, known, message, flow);
        meant = meant_with(basis, known, message, is_meant, flow.to, place, meant);
    }
    meant
}

// Whether a message is of a flow, where this says whether some flow is near.
fn is_nearest_flow(
    basis: &Basis<'_>,
    known: &Known,
    message: &UnitMessage<'_>,
    some_near: bool,
    flow: &FlowPlan,
) -> bool
    ensures { result ≡ (is_of (settings_of basis.now) (known_by known.now) (sent_as message.now) flow.now
        && (is_near (settings_of basis.now) (known_by known.now) (sent_as message.now) flow.now.to || not some_near)) }
{
    is_of(basis, known, message, flow) && (is_near(basis, known, message, flow.to) || !some_near)
}

// Notes that a message is unclear of a flow, if it is of it.
fn note_flow(
    tally: &mut MarkTally,
    basis: &Basis<'_>,
    known: &Known,
    message: &UnitMessage<'_>,
    some_near: bool,
    line: u64,
    place: usize,
) -> Result<(), AllocError>
    requires { place < length basis.now.plan.now.flows.items }
    ensures { OnOk result (Notes tally.old tally.new
        (marked line Unclear (λ (x : AFlow). is_of (settings_of basis.now) (known_by known.now) (sent_as message.now) x
        && (is_near (settings_of basis.now) (known_by known.now) (sent_as message.now) x.to
        || not some_near)) basis.now.plan.now.flows.items place)) }
{
    let flow = &basis.plan.flows[place];
    if is_nearest_flow(basis, known, message, some_near, flow) {
        tally.note(make_mark(Word::Unclear, place), line, 0)
    } else {
        Ok(())
    }
}

// Notes it of each flow of which it is.
fn note_each_flow(
    tally: &mut MarkTally,
    basis: &Basis<'_>,
    known: &Known,
    message: &UnitMessage<'_>,
    some_near: bool,
    line: u64,
) -> Result<(), AllocError>
    ensures { OnOk result (Notes tally.old tally.new
        (all_marked line Unclear (λ (x : AFlow). is_of (settings_of basis.now) (known_by known.now)
        (sent_as message.now) x && (is_near (settings_of basis.now) (known_by known.now) (sent_as message.now) x.to
        || not some_near)) basis.now.plan.now.flows.items)) }
{
    for place in 0..basis.plan.flows.len() {
        note_flow(tally, basis, known, message, some_near, line, place)?;
    }
    Ok(())
}

/// Counts a message for the flow that it is of, or as unclear for each of several.
pub(crate) fn note_flows(
    tally: &mut MarkTally,
    basis: &Basis<'_>,
    known: &Known,
    message: &UnitMessage<'_>,
    meant: Meant,
    line: u64,
) -> Result<(), AllocError>
    requires { AreAllMeant (is_of (settings_of basis.now) (known_by known.now) (sent_as message.now))
        (λ (f : AFlow). is_near (settings_of basis.now) (known_by known.now)
        (sent_as message.now) f.to) basis.now.plan.now.flows.items meant }
    ensures { OnOk result (Notes tally.old tally.new
        (flows_noted (settings_of basis.now) (known_by known.now) (sent_as message.now) line)) }
{
    match meant.nearest() {
        OnlyPlace::Nowhere => Ok(()),
        OnlyPlace::At(place) => tally.note(make_mark(Word::Seen, place), line, 0),
        OnlyPlace::Several => {
            note_each_flow(tally, basis, known, message, meant.has_near(), line)
        }
    }
}

// Which request of the plan a request may be.
fn requests_meant(basis: &Basis<'_>, known: &Known, message: &UnitMessage<'_>) -> Meant
    ensures { AreAllMeant (asks_by_plan (settings_of basis.now) (known_by known.now) (sent_as message.now))
        (λ (r : ARequest). is_near (settings_of basis.now) (known_by known.now)
        (sent_as message.now) r.to) basis.now.plan.now.requests.items result }
{
    let mut meant = Meant::nothing();
    for place in 0..basis.plan.requests.len() {
        let request = &basis.plan.requests[place];
        let is_meant = asks(basis, known, message, request);
        meant = meant_with(basis, known, message, is_meant, request.to, place, meant);
    }
    meant
}

/// Counts a request for the one of the plan that it is.
pub(crate) fn note_requests(
    tally: &mut MarkTally,
    basis: &Basis<'_>,
    known: &Known,
    message: &UnitMessage<'_>,
    line: u64,
) -> Result<(), AllocError>
    ensures { OnOk result (Notes tally.old tally.new
        (requests_noted (settings_of basis.now) (known_by known.now) (sent_as message.now) line)) }
{
    match requests_meant(basis, known, message).nearest() {
        OnlyPlace::Nowhere => Ok(()),
        OnlyPlace::At(place) => tally.note(make_mark(Word::Asked, place), line, 0),
        OnlyPlace::Several => Ok(()),
    }
}
