//! Which units are asked for claims, and which of them don't answer.
ghost use Rattle.std.specs.Prelude.{◌≡◌, ◌≢◌, ◌<◌, ◌^◌, ℕ, true, IfOk, IfSome, OnOk, Some, None, if◌then◌else◌, length};
ghost use Rattle.std.specs.Option.{option_or};
ghost use Rattle.j39_audit.specs.Asking.{Asking as AnAsking, all_forgotten, answered, answered_at, asked_at};
ghost use Rattle.j39_audit.specs.Asking.{asked_before, asked_behind, asked_with};
ghost use Rattle.j39_audit.specs.Asking.{asks_for_claims as is_for_claims, holds_surely, is_asked_to_claim, is_for};
ghost use Rattle.j39_audit.specs.Asking.{is_overdue, is_sender, nobody_asked, with_deaf};
ghost use Rattle.j39_audit.specs.Asking.{with_sign_of};
ghost use Rattle.j39_audit.specs.Claiming.{sender_at};
ghost use Rattle.j39_audit.specs.Looking.{is_claim};
ghost use Rattle.j39_audit.specs.inside.Recalling.{RecallsAsking, request_in, known_by, settings_of};

use crate::basis::Basis;
use crate::frame_marks::is_claiming;
use crate::idle::LONG_BEFORE;
use crate::known::Known;
use crate::mark::{Word, make_mark};
use crate::places::{forget_at, forget_each, kept_at, nothing_kept};
use crate::senders::{SureSender, may_be, sender_at};
use crate::streams::longest_us;
use crate::tally::MarkTally;
use j39_follow::unit_named;
use j39_id::addresses::GLOBAL_ADDRESS;
use j39_id::services::ADDRESS_CLAIMED;
use j39_id::{Frame, cannot_claim, carried_name, claims_address, requested_group, requests_group};
use j39_network::Timing;
use std::alloc::{AllocError, Global};

// So many milliseconds behind a request a claim is ready to be sent at the latest.
const LONGEST_ANSWER_MS: u32 = 250;

/// A request for claims: when it ended at the latest, and its line.
#[derive(Clone, Copy)]
pub struct ClaimRequest {
    pub moment: u64,
    pub line: u64,
}

/// Of each unit the request for claims that it hasn't answered, and what was found.
#[derive(Drop)]
pub(crate) struct Asking {
    pub asked: Vec<Option<ClaimRequest>>,
    // Whether there may be one.
    pub is_open: bool,
    pub deaf: MarkTally,
}

// Whether a frame is a claim.
fn is_claim(frame: &Frame) -> bool
    ensures { result ≡ is_claim frame.now }
{
    claims_address(frame) || cannot_claim(frame)
}

// Whether a frame asks for claims.
fn asks_for_claims(frame: &Frame) -> bool
    ensures { result ≡ is_for_claims frame.now }
{
    requests_group(frame) && requested_group(frame) == ADDRESS_CLAIMED.number()
}

// Whether a unit claimed an address last, or has no other.
fn holds_surely(basis: &Basis<'_>, known: &Known, unit: usize, address: u8) -> bool
    ensures { result ≡ holds_surely (settings_of basis.now) (known_by known.now) unit address }
{
    known.last(unit) == Some(address) || !basis.moves(unit)
}

// Whether it is this unit.
fn is_sender(sender: SureSender, unit: usize) -> bool
    ensures { result ≡ is_sender sender unit }
{
    match sender {
        SureSender::Unit(one) => one == unit,
        SureSender::Nobody => false,
        SureSender::Unknown => false,
    }
}

// Whether a request to an address, from which this one sends, is for a unit.
fn is_for(basis: &Basis<'_>, known: &Known, sender: SureSender, unit: usize, address: u8) -> bool
    requires { sender ≡ sender_at (settings_of basis.now) (known_by known.now) address }
    ensures { result ≡ is_for (settings_of basis.now) (known_by known.now) unit address }
{
    address == GLOBAL_ADDRESS
        || (is_sender(sender, unit) && holds_surely(basis, known, unit, address))
}

// Whether a frame, at whose destination this one sends, asks a unit for claims.
#[tactic(auto, unfolding(crate::specs::Asking::is_asked_to_claim))]
fn is_asked(
    basis: &Basis<'_>,
    known: &Known,
    frame: &Frame,
    sender: SureSender,
    unit: usize,
) -> bool
    requires { sender ≡ sender_at (settings_of basis.now) (known_by known.now) frame.now.ident.ps }
    ensures { result ≡ is_asked_to_claim (settings_of basis.now) (known_by known.now) frame.now unit }
{
    !basis.part
        && (asks_for_claims(frame)
            && (is_claiming(basis, unit)
                && (!may_be(basis, known, unit, frame.ident.sa)
                    && is_for(basis, known, sender, unit, frame.ident.ps))))
}

// Whether the bus was idle when a claim had to be ready.
fn is_overdue(timing: Timing, request: ClaimRequest, idle: Option<u64>) -> bool
    ensures { result ≡ is_overdue timing request idle }
{
    match idle {
        Some(mark) => {
            request
                .moment
                .saturating_add(longest_us(timing, LONGEST_ANSWER_MS))
                < mark
        }
        None => false,
    }
}

impl Asking {
    pub fn new(alloc: Global, basis: &Basis<'_>) -> Result<Self, AllocError>
        ensures { IfOk result (λ new. RecallsAsking (settings_of basis.now) new nobody_asked) }
    {
        let asked = nothing_kept(alloc, basis.plan.units.len())?;
        Ok(Asking {
            asked,
            is_open: false,
            deaf: MarkTally::new(alloc),
        })
    }

    /// Forgets them all.
    pub fn forget_all(&mut self, basis: &Basis<'_>)
        ensures { (a : AnAsking) → RecallsAsking (settings_of basis.now) self.old a
            → RecallsAsking (settings_of basis.now) self.new (all_forgotten a) }
    {
        if self.is_open {
            forget_each(&mut self.asked);
            self.is_open = false;
        }
    }

    // Forgets them just before a frame, where times begin anew or a gap ends.
    fn begin(&mut self, basis: &Basis<'_>, anew: bool, gap: bool)
        ensures { (a : AnAsking) → RecallsAsking (settings_of basis.now) self.old a
            → RecallsAsking (settings_of basis.now) self.new (asked_before anew gap a) }
    {
        if anew || gap {
            self.forget_all(basis);
        }
    }

    // Takes a claim of a unit, if it is of one.
    fn take_claim(&mut self, basis: &Basis<'_>, claimant: Option<usize>)
        ensures { (a : AnAsking) → RecallsAsking (settings_of basis.now) self.old a
            → RecallsAsking (settings_of basis.now) self.new (answered claimant a) }
    {
        if let Some(unit) = claimant {
            forget_at(&mut self.asked, unit);
        }
    }

    // Takes a frame, if it is a claim.
    fn take_answer(&mut self, basis: &Basis<'_>, frame: &Frame)
        ensures { (a : AnAsking) → RecallsAsking (settings_of basis.now) self.old a
            → RecallsAsking (settings_of basis.now) self.new (answered_at (settings_of basis.now) frame.now a) }
    {
        if is_claim(frame) {
            let claimant = unit_named(basis.plan, carried_name(frame).to_bits());
            self.take_claim(basis, claimant);
        }
    }

    // Asks a unit, where a frame, at whose destination this one sends, does and it wasn't asked before.
    fn ask_unit(
        &mut self,
        basis: &Basis<'_>,
        known: &Known,
        frame: &Frame,
        sender: SureSender,
        request: ClaimRequest,
        unit: usize,
    )
        requires unit { unit < length self.old.asked.items }
        requires sender { sender ≡ sender_at (settings_of basis.now) (known_by known.now) frame.now.ident.ps }
        ensures is_open { self.new.is_open ≡ self.old.is_open }
        ensures deaf { self.new.deaf ≡ self.old.deaf }
        ensures size { length self.new.asked.items ≡ length self.old.asked.items }
        ensures others { (u : ℕ) → u ≢ unit → request_in self.new u ≡ request_in self.old u }
        ensures here { request_in self.new unit ≡ option_or (request_in self.old unit)
            (if is_asked_to_claim (settings_of basis.now) (known_by known.now) frame.now unit then Some request
            else None) }
    {
        if self.asked[unit].is_none() && is_asked(basis, known, frame, sender, unit) {
            self.asked[unit] = Some(request);
        }
    }

    // Asks each unit that a frame asks.
    fn ask_all(&mut self, basis: &Basis<'_>, known: &Known, frame: &Frame, request: ClaimRequest)
        ensures { (a : AnAsking) → RecallsAsking (settings_of basis.now) self.old a
            → RecallsAsking (settings_of basis.now) self.new
            (asked_with (settings_of basis.now) (known_by known.now) frame.now request a) }
    {
        self.is_open = true;
        let sender = sender_at(basis, known, frame.ident.ps);
        for unit in 0..self.asked.len() {
            self.ask_unit(basis, known, frame, sender, request, unit);
        }
    }

    // Takes a frame, if it asks for claims.
    fn take_request(
        &mut self,
        basis: &Basis<'_>,
        known: &Known,
        frame: &Frame,
        request: ClaimRequest,
    )
        ensures { (a : AnAsking) → RecallsAsking (settings_of basis.now) self.old a
            → RecallsAsking (settings_of basis.now) self.new
            (asked_with (settings_of basis.now) (known_by known.now) frame.now request a) }
    {
        if asks_for_claims(frame) {
            self.ask_all(basis, known, frame, request);
        }
    }

    // Takes a frame of this time, if it asks for claims.
    fn take_timed(
        &mut self,
        basis: &Basis<'_>,
        known: &Known,
        time: Option<u64>,
        frame: &Frame,
        line: u64,
    )
        requires { IfSome time (λ t. t < 2 ^ 61) }
        ensures { (a : AnAsking) → RecallsAsking (settings_of basis.now) self.old a
            → RecallsAsking (settings_of basis.now) self.new
            (asked_at (settings_of basis.now) (known_by known.now) frame.now time line a) }
    {
        if let Some(time) = time {
            let moment = time + LONG_BEFORE + basis.logger_error();
            self.take_request(basis, known, frame, ClaimRequest { moment, line });
        }
    }

    /// Takes a frame of this time, just before which a gap ends and times begin anew, or they don't.
    pub fn take(
        &mut self,
        basis: &Basis<'_>,
        known: &Known,
        gap: bool,
        anew: bool,
        time: Option<u64>,
        frame: &Frame,
        line: u64,
    )
        requires { IfSome time (λ t. t < 2 ^ 61) }
        ensures { (a : AnAsking) → RecallsAsking (settings_of basis.now) self.old a
            → RecallsAsking (settings_of basis.now) self.new
            (asked_behind (settings_of basis.now) (known_by known.now) gap anew time frame.now line a) }
    {
        self.begin(basis, anew, gap);
        self.take_answer(basis, frame);
        self.take_timed(basis, known, time, frame, line);
    }

    // Reports that a unit didn't answer.
    fn report(
        &mut self,
        basis: &Basis<'_>,
        unit: usize,
        request: ClaimRequest,
    ) -> Result<(), AllocError>
        ensures { OnOk result ((a : AnAsking) → RecallsAsking (settings_of basis.now) self.old a
            → RecallsAsking (settings_of basis.now) self.new (with_deaf unit request a)) }
    {
        forget_at(&mut self.asked, unit);
        self.deaf.note(make_mark(Word::Deaf, unit), request.line, 0)
    }

    /// Takes a frame that counts for a unit, if it does, at this idle mark.
    pub fn take_sign(
        &mut self,
        basis: &Basis<'_>,
        unit: Option<usize>,
        idle: Option<u64>,
    ) -> Result<(), AllocError>
        ensures { OnOk result ((a : AnAsking) → RecallsAsking (settings_of basis.now) self.old a
            → RecallsAsking (settings_of basis.now) self.new (with_sign_of basis.now.plan.now.timing unit idle a)) }
    {
        let Some(timing) = basis.plan.timing else {
            return Ok(());
        };
        let Some(unit) = unit else {
            return Ok(());
        };
        let Some(request) = kept_at(&self.asked, unit) else {
            return Ok(());
        };
        if !is_overdue(timing, request, idle) {
            return Ok(());
        }
        self.report(basis, unit, request)
    }
}
