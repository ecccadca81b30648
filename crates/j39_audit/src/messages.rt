//! What a message of a unit is by the plan.
ghost use Rattle.std.specs.Prelude.{◌≡◌, ◌==◌, ℕ, false, List};
ghost use Rattle.std.specs.List.{list_any, position, slice_get};
ghost use Rattle.std.specs.Option.{option_copied, option_map_or, option_or};
ghost use Rattle.j39_signal.specs.Selectors.{is_selected};
ghost use Rattle.j39_network.specs.declared.plan.group_plan.GroupPlan.{GroupPlan as AGroup};
ghost use Rattle.j39_audit.specs.SentMessages.{asks_by_plan, deviation, first_group, fits_group, goes, has_priority};
ghost use Rattle.j39_audit.specs.SentMessages.{is_fit};
ghost use Rattle.j39_audit.specs.SentMessages.{is_fit_group, is_group, is_near, is_of, is_own, is_reported_by};
ghost use Rattle.j39_audit.specs.SentMessages.{may_hear, passes};
ghost use Rattle.j39_audit.specs.Pauses.{group_has_number};
ghost use Rattle.j39_audit.specs.SentMessages.{flow_group, without_flow};
ghost use Rattle.j39_audit.specs.declared.messages.Test.TheVariants.{Any, Fitting, Selected};
ghost use Rattle.j39_audit.specs.inside.Recalling.{known_by, sent_as, settings_of};
ghost use Rattle.j39_audit.specs.inside.Singling.{is_somewhere, without_priority};

use crate::basis::Basis;
use crate::known::Known;
use crate::mark::{Mark, Word};
use crate::only_place::Meant;
use crate::senders::may_be;
use j39_id::addresses::GLOBAL_ADDRESS;
use j39_network::{FlowPlan, GroupPlan, RequestPlan, To};
use j39_signal::is_selected;

/// What a unit sent: from where, the number of a group, whereto, whether in a single frame that names no destination,
/// its priority where it is a single frame, how many bytes, and these where it is a single frame.
#[derive(Clone, Copy)]
pub(crate) struct UnitMessage<'a> {
    pub unit: usize,
    pub source: u8,
    pub number: u32,
    pub destination: u8,
    pub unaddressed: bool,
    pub priority: Option<u8>,
    pub size: usize,
    pub bytes: Option<&'a [u8]>,
}

/// What a group of a unit is asked for.
#[derive(Clone, Copy)]
pub enum Test {
    /// That the length and the bytes fit.
    Fitting,
    /// That it is distinguished from others by the bytes.
    Selected,
    /// Nothing more.
    Any,
}

// Whether the bytes of a message are selected.
fn selects(group: &GroupPlan, bytes: Option<&[u8]>, otherwise: bool) -> bool
    ensures { result ≡ option_map_or (λ (b : List ℕ). is_selected group.now.when b)
        (option_copied bytes.entry) otherwise }
{
    match bytes {
        Some(bytes) => is_selected(group.when, bytes),
        None => otherwise,
    }
}

// Whether a message may be one of a group of its number.
fn fits(message: &UnitMessage<'_>, group: &GroupPlan) -> bool
    ensures { result ≡ fits_group (sent_as message.now) group.now }
{
    usize::from(group.length) <= message.size
        && message.size <= usize::from(group.most)
        && selects(group, message.bytes, true)
}

// Whether a group is distinguished from others by the bytes of a message.
fn is_reported_by(message: &UnitMessage<'_>, group: &GroupPlan) -> bool
    ensures { result ≡ is_reported_by (sent_as message.now) group.now }
{
    match group.when {
        Some(_selector) => selects(group, message.bytes, false),
        None => false,
    }
}

fn passes(message: &UnitMessage<'_>, test: Test, group: &GroupPlan) -> bool
    ensures { result ≡ passes (sent_as message.now) test group.now }
{
    match test {
        Test::Fitting => fits(message, group),
        Test::Selected => is_reported_by(message, group),
        Test::Any => true,
    }
}

// Whether a group is one of the sender's of the number.
fn is_own(basis: &Basis<'_>, message: &UnitMessage<'_>, place: usize, group: &GroupPlan) -> bool
    ensures { result ≡ is_own (settings_of basis.now) (sent_as message.now) place group.now }
{
    group.pgn == message.number && (!group.private || basis.sends(message.unit, place))
}

// Whether the group at a place is one of the sender's of the number, and passes.
#[tactic(auto, unfolding(crate::specs::SentMessages::is_group))]
fn is_group(basis: &Basis<'_>, message: &UnitMessage<'_>, test: Test, place: usize) -> bool
    ensures { result ≡ is_group (settings_of basis.now) (sent_as message.now) test place }
{
    match basis.plan.groups.get(place) {
        Some(group) => { is_own(basis, message, place, group) && passes(message, test, group) }
        None => false,
    }
}

/// The first group of the sender of a message that has its number and passes.
pub(crate) fn first_group(basis: &Basis<'_>, message: &UnitMessage<'_>, test: Test) -> Option<usize>
    ensures { result ≡ first_group (settings_of basis.now) (sent_as message.now) test }
{
    for place in 0..basis.plan.groups.len() {
        if is_group(basis, message, test, place) {
            return Some(place);
        }
    }
    None
}

// Whether an address is one of a unit, or where it claimed last.
#[tactic(auto, unfolding(crate::specs::SentMessages::may_hear))]
fn may_hear(basis: &Basis<'_>, known: &Known, unit: usize, address: u8) -> bool
    ensures { result ≡ may_hear (settings_of basis.now) (known_by known.now) unit address }
{
    basis.is_address(unit, address) || known.last(unit) == Some(address)
}

// Whether a message may be meant for these.
fn goes(basis: &Basis<'_>, known: &Known, message: &UnitMessage<'_>, to: To) -> bool
    ensures { result ≡ goes (settings_of basis.now) (known_by known.now) (sent_as message.now) to }
{
    match to {
        To::All => message.unaddressed || message.destination == GLOBAL_ADDRESS,
        To::One(unit) => {
            message.unaddressed
                || message.destination != GLOBAL_ADDRESS
                    && may_hear(basis, known, unit, message.destination)
        }
    }
}

/// Whether these may be at the destination of a message.
pub(crate) fn is_near(basis: &Basis<'_>, known: &Known, message: &UnitMessage<'_>, to: To) -> bool
    ensures { result ≡ is_near (settings_of basis.now) (known_by known.now) (sent_as message.now) to }
{
    match to {
        To::All => true,
        To::One(unit) => { message.unaddressed || may_be(basis, known, unit, message.destination) }
    }
}

// Whether the group at a place has the number, and messages as this one.
#[tactic(auto, unfolding(crate::specs::SentMessages::is_fit_group))]
fn is_fit_group(basis: &Basis<'_>, message: &UnitMessage<'_>, place: usize) -> bool
    ensures { result ≡ is_fit_group (settings_of basis.now) (sent_as message.now) place }
{
    match basis.plan.groups.get(place) {
        Some(group) => group.pgn == message.number && fits(message, group),
        None => false,
    }
}

// Whether the group at a place is of this priority.
fn is_of_priority(basis: &Basis<'_>, place: usize, priority: u8) -> bool
    ensures { result ≡ option_map_or (λ (group : AGroup). group.priority == priority)
        (slice_get basis.now.plan.now.groups.items place) false }
{
    match basis.plan.groups.get(place) {
        Some(group) => group.priority == priority,
        None => false,
    }
}

// Whether messages of the group at a place have the priority of this one, where it has one.
#[tactic(auto, unfolding(crate::specs::SentMessages::has_priority))]
fn has_priority(basis: &Basis<'_>, message: &UnitMessage<'_>, place: usize) -> bool
    ensures { result ≡ has_priority (settings_of basis.now) (sent_as message.now) place }
{
    match message.priority {
        Some(priority) => is_of_priority(basis, place, priority),
        None => true,
    }
}

/// Whether a flow may bring such a message there.
#[tactic(auto, unfolding(crate::specs::SentMessages::is_fit))]
pub(crate) fn is_fit(
    basis: &Basis<'_>,
    known: &Known,
    message: &UnitMessage<'_>,
    flow: &FlowPlan,
) -> bool
    ensures { result ≡ is_fit (settings_of basis.now) (known_by known.now) (sent_as message.now) flow.now }
{
    flow.sender == message.unit
        && is_fit_group(basis, message, flow.group)
        && goes(basis, known, message, flow.to)
}

/// Whether a flow may bring such a message there, with its priority.
#[tactic(auto, unfolding(crate::specs::SentMessages::is_of))]
pub(crate) fn is_of(
    basis: &Basis<'_>,
    known: &Known,
    message: &UnitMessage<'_>,
    flow: &FlowPlan,
) -> bool
    ensures { result ≡ is_of (settings_of basis.now) (known_by known.now) (sent_as message.now) flow.now }
{
    is_fit(basis, known, message, flow) && has_priority(basis, message, flow.group)
}

/// Whether the group at a place has this number.
pub(crate) fn has_number(basis: &Basis<'_>, place: usize, number: u32) -> bool
    ensures { result ≡ group_has_number basis.now.plan.now place number }
{
    match basis.plan.groups.get(place) {
        Some(group) => group.pgn == number,
        None => false,
    }
}

/// Whether a request of the plan asks for the number there.
#[tactic(auto, unfolding(crate::specs::SentMessages::asks_by_plan))]
pub(crate) fn asks(
    basis: &Basis<'_>,
    known: &Known,
    message: &UnitMessage<'_>,
    request: &RequestPlan,
) -> bool
    ensures { result ≡ asks_by_plan (settings_of basis.now) (known_by known.now) (sent_as message.now) request.now }
{
    request.sender == message.unit
        && has_number(basis, request.group, message.number)
        && goes(basis, known, message, request.to)
}

// The first flow that may bring such a message there.
fn first_fit(basis: &Basis<'_>, known: &Known, message: &UnitMessage<'_>) -> Option<usize>
    ensures { result ≡ position (is_fit (settings_of basis.now) (known_by known.now)
        (sent_as message.now)) basis.now.plan.now.flows.items }
{
    basis
        .plan
        .flows
        .as_slice()
        .iter()
        .position(|flow| is_fit(basis, known, message, flow))
}

// The group of the flow at a place.
fn flow_group(basis: &Basis<'_>, place: usize) -> usize
    ensures { result ≡ flow_group (settings_of basis.now) place }
{
    match basis.plan.flows.get(place) {
        Some(flow) => flow.group,
        None => 0,
    }
}

// How a message differs that no flow may bring.
fn without_flow(basis: &Basis<'_>, message: &UnitMessage<'_>) -> Option<Mark>
    ensures { result ≡ without_flow (settings_of basis.now) (sent_as message.now)
        (first_group (settings_of basis.now) (sent_as message.now) Fitting)
        (option_or (first_group (settings_of basis.now) (sent_as message.now) Selected)
        (first_group (settings_of basis.now) (sent_as message.now) Any)) }
{
    if let Some(group) = first_group(basis, message, Test::Fitting) {
        return Some(deviates(message.unit, Word::NoFlow, group));
    }
    if let Some(group) = first_group(basis, message, Test::Selected) {
        return Some(deviates(message.unit, Word::Layout, group));
    }
    match first_group(basis, message, Test::Any) {
        Some(group) => Some(deviates(message.unit, Word::Layout, group)),
        None => None,
    }
}

fn deviates(unit: usize, word: Word, group: usize) -> Mark
    ensures { result ≡ record { word = word; subject = unit; group = group } }
{
    Mark {
        word,
        subject: unit,
        group,
    }
}

// How a message differs from a flow that may bring it, the first of these being at this place, or that no flow may
// bring.
fn without_priority(
    basis: &Basis<'_>,
    message: &UnitMessage<'_>,
    first: Option<usize>,
) -> Option<Mark>
    ensures { result ≡ without_priority (settings_of basis.now) (sent_as message.now) first }
{
    match first {
        Some(flow) => Some(deviates(message.unit, Word::Priority, flow_group(basis, flow))),
        None => without_flow(basis, message),
    }
}

/// How a message differs from all that the plan has of its sender, where it may be meant for these flows.
pub(crate) fn deviation(
    basis: &Basis<'_>,
    known: &Known,
    message: &UnitMessage<'_>,
    meant: Meant,
) -> Option<Mark>
    requires { list_any (is_of (settings_of basis.now) (known_by known.now)
        (sent_as message.now)) basis.now.plan.now.flows.items ≡ is_somewhere meant.all }
    ensures { result ≡ deviation (settings_of basis.now) (known_by known.now) (sent_as message.now) }
{
    if meant.is_any() {
        None
    } else {
        without_priority(basis, message, first_fit(basis, known, message))
    }
}
