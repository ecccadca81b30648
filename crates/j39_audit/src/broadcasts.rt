//! Packets of broadcasts that the plan knows: which of them come too late behind the frame before.
ghost use Rattle.std.specs.Prelude.{◌≡◌, ◌+◌, ◌<◌, ◌^◌, IfOk, IfSome, OnOk, None, length};
ghost use Rattle.j39_audit.specs.BegunBroadcasts.{BegunBroadcasts as SomeBroadcasts, all_ended, announced_to_all};
ghost use Rattle.j39_audit.specs.BegunBroadcasts.{begun_by, broadcasts_before, broadcasts_behind};
ghost use Rattle.j39_audit.specs.BegunBroadcasts.{ended_before, ended_with, is_packet_to_all, late_by, no_broadcasts};
ghost use Rattle.j39_audit.specs.BegunBroadcasts.{packet_of, stream_of_packets, packet_with, with_one, with_packet};
ghost use Rattle.j39_audit.specs.BegunBroadcasts.{with_sent};
ghost use Rattle.j39_audit.specs.Claiming.{Knowledge};
ghost use Rattle.j39_audit.specs.Near.{excess};
ghost use Rattle.j39_audit.specs.inside.Recalling.{RecallsBroadcasts, begun_in, known_by, sent_as, settings_of};

use crate::announcements::{Announcement, announced_to_all, is_paced};
use crate::basis::Basis;
use crate::idle::LONG_BEFORE;
use crate::known::Known;
use crate::mark::{Word, make_mark};
use crate::messages::UnitMessage;
use crate::pauses::Ending;
use crate::places::{forget_at, forget_each, keep_at, kept_at, nothing_kept};
use crate::streams::{MessageStream, longest_us, shortest_us};
use crate::tally::MarkTally;
use j39_id::Frame;
use j39_id::addresses::GLOBAL_ADDRESS;
use j39_id::limits::{FRAME_BYTES, PACKET_BYTES};
use j39_id::services::DATA_TRANSFER;
use j39_network::Timing;
use std::alloc::{AllocError, Global};

/// A planned broadcast: how many of its packets are left, when the frame before these ended at the latest, and its
/// line.
#[derive(Clone, Copy)]
pub struct BegunBroadcast {
    pub left: usize,
    pub moment: u64,
    pub line: u64,
}

/// Of each unit its planned broadcast, and what was found.
#[derive(Drop)]
pub(crate) struct BegunBroadcasts {
    pub begun: Vec<Option<BegunBroadcast>>,
    // Whether there may be one.
    pub is_open: bool,
    pub late: MarkTally,
}

// The broadcast that a message begins, if it is planned.
fn begun_by(
    basis: &Basis<'_>,
    known: &Known,
    message: &UnitMessage<'_>,
    moment: u64,
    line: u64,
) -> Option<BegunBroadcast>
    ensures { result ≡ begun_by (settings_of basis.now) (known_by known.now) (sent_as message.now) moment line }
{
    if is_paced(basis, known, message) {
        Some(BegunBroadcast {
            left: message.size.div_ceil(PACKET_BYTES),
            moment,
            line,
        })
    } else {
        None
    }
}

// Whether a frame is a packet to all.
fn is_packet_to_all(frame: &Frame) -> bool
    ensures { result ≡ is_packet_to_all frame.now }
{
    frame.ident.pgn() == DATA_TRANSFER
        && (frame.ident.ps == GLOBAL_ADDRESS && frame.payload.len() == FRAME_BYTES)
}

// The stream of a unit's packets.
fn stream_of_packets(timing: Timing, unit: usize) -> MessageStream
    ensures value { result ≡ stream_of_packets timing unit }
    ensures few { result.step < 2 ^ 27 }
{
    MessageStream {
        mark: make_mark(Word::NearPackets, unit),
        step: shortest_us(timing, timing.broadcast_gap),
        slack: Some(0),
        pause: None,
    }
}

// By how much an idle mark is later than so long behind a moment.
#[tactic(auto, unfolding(crate::specs::Near::excess))]
fn behind(idle: Option<u64>, moment: u64, longest: u64) -> Option<u64>
    ensures { result ≡ excess idle (moment + longest) }
{
    match idle {
        Some(mark) => {
            let latest = moment.saturating_add(longest);
            if latest < mark {
                Some(mark - latest)
            } else {
                None
            }
        }
        None => None,
    }
}

// By how much a packet comes too late behind the frame before.
fn late_by(timing: Timing, idle: Option<u64>, one: BegunBroadcast) -> Option<u64>
    ensures { result ≡ late_by timing idle one }
{
    if one.left == 0 {
        None
    } else {
        let longest = longest_us(timing, u32::from(timing.broadcast_gap_most));
        behind(idle, one.moment, longest)
    }
}

impl BegunBroadcasts {
    pub fn new(alloc: Global, basis: &Basis<'_>) -> Result<Self, AllocError>
        ensures { IfOk result (λ new. RecallsBroadcasts (settings_of basis.now) new no_broadcasts) }
    {
        let begun = nothing_kept(alloc, basis.plan.units.len())?;
        Ok(BegunBroadcasts {
            begun,
            is_open: false,
            late: MarkTally::new(alloc),
        })
    }

    /// Keeps this as the broadcast of a unit.
    pub fn set(&mut self, basis: &Basis<'_>, unit: usize, one: Option<BegunBroadcast>)
        requires { unit < length self.old.begun.items }
        ensures { (b : SomeBroadcasts) → RecallsBroadcasts (settings_of basis.now) self.old b
            → RecallsBroadcasts (settings_of basis.now) self.new (with_one unit one b) }
    {
        self.is_open = true;
        keep_at(&mut self.begun, unit, one);
    }

    /// Forgets them all.
    pub fn forget_all(&mut self, basis: &Basis<'_>)
        ensures { (b : SomeBroadcasts) → RecallsBroadcasts (settings_of basis.now) self.old b
            → RecallsBroadcasts (settings_of basis.now) self.new (all_ended b) }
    {
        if self.is_open {
            forget_each(&mut self.begun);
            self.is_open = false;
        }
    }

    // Forgets them just before a frame, where times begin anew or a gap ends.
    fn begin(&mut self, basis: &Basis<'_>, anew: bool, gap: bool)
        ensures { (b : SomeBroadcasts) → RecallsBroadcasts (settings_of basis.now) self.old b
            → RecallsBroadcasts (settings_of basis.now) self.new (ended_before anew gap b) }
    {
        if anew || gap {
            self.forget_all(basis);
        }
    }

    // Forgets those that end with pauses.
    fn end(&mut self, basis: &Basis<'_>, ending: Ending)
        ensures { (b : SomeBroadcasts) → RecallsBroadcasts (settings_of basis.now) self.old b
            → RecallsBroadcasts (settings_of basis.now) self.new (ended_with ending b) }
    {
        match ending {
            Ending::Nothing => {}
            Ending::OfUnit(unit) => forget_at(&mut self.begun, unit),
            Ending::OfAll => self.forget_all(basis),
        }
    }

    /// Comes to a frame, just before which a gap ends and times begin anew, or they don't, and at which these
    /// pauses end.
    #[tactic(auto, unfolding(crate::specs::BegunBroadcasts::broadcasts_before))]
    pub fn come_to(&mut self, basis: &Basis<'_>, anew: bool, gap: bool, ending: Ending)
        ensures { (b : SomeBroadcasts) → RecallsBroadcasts (settings_of basis.now) self.old b
            → RecallsBroadcasts (settings_of basis.now) self.new (broadcasts_before anew gap ending b) }
    {
        self.begin(basis, anew, gap);
        self.end(basis, ending);
    }

    // The stream of a unit's packets, if a frame is one.
    fn packet_of(&self, timing: Timing, unit: usize, frame: &Frame) -> Option<MessageStream>
        ensures value { result ≡ packet_of timing unit frame.now (begun_in self.now unit) }
        ensures few { IfSome result (λ stream. stream.step < 2 ^ 27) }
    {
        match kept_at(&self.begun, unit) {
            Some(_one) => {
                if is_packet_to_all(frame) {
                    Some(stream_of_packets(timing, unit))
                } else {
                    None
                }
            }
            None => None,
        }
    }

    /// Of which unit's packets a frame is one that counts for this unit, if it does.
    pub fn packet(
        &self,
        basis: &Basis<'_>,
        unit: Option<usize>,
        frame: &Frame,
    ) -> Option<MessageStream>
        ensures value { (b : SomeBroadcasts) → RecallsBroadcasts (settings_of basis.now) self.now b
            → result ≡ packet_with basis.now.plan.now.timing unit frame.now b }
        ensures few { IfSome result (λ stream. stream.step < 2 ^ 27) }
    {
        let Some(timing) = basis.plan.timing else {
            return None;
        };
        match unit {
            Some(unit) => self.packet_of(timing, unit, frame),
            None => None,
        }
    }

    // Takes a packet of a unit, which ended by this moment, with this broadcast before it.
    fn take_packet(
        &mut self,
        basis: &Basis<'_>,
        timing: Timing,
        unit: usize,
        idle: Option<u64>,
        moment: u64,
        line: u64,
        one: BegunBroadcast,
    ) -> Result<(), AllocError>
        requires { unit < length self.old.begun.items }
        ensures { OnOk result ((b : SomeBroadcasts) → RecallsBroadcasts (settings_of basis.now) self.old b
            → RecallsBroadcasts (settings_of basis.now) self.new (with_packet timing unit idle moment line one b)) }
    {
        self.set(
            basis,
            unit,
            Some(BegunBroadcast {
                left: one.left.saturating_sub(1),
                moment,
                line,
            }),
        );
        let mark = make_mark(Word::SilentPackets, unit);
        let by = late_by(timing, idle, one);
        self.late.note_by(mark, one.line, by)
    }

    // Takes a frame of a unit that announces nothing to all.
    fn take_other(
        &mut self,
        basis: &Basis<'_>,
        timing: Timing,
        unit: usize,
        frame: &Frame,
        idle: Option<u64>,
        moment: u64,
        line: u64,
    ) -> Result<(), AllocError>
        requires { unit < length self.old.begun.items }
        ensures { OnOk result ((b : SomeBroadcasts) (k : Knowledge)
            → RecallsBroadcasts (settings_of basis.now) self.old b
            → RecallsBroadcasts (settings_of basis.now) self.new
            (with_sent (settings_of basis.now) k timing unit frame.now idle moment line None (b.begun unit) b)) }
    {
        let Some(one) = kept_at(&self.begun, unit) else {
            return Ok(());
        };
        if is_packet_to_all(frame) {
            self.take_packet(basis, timing, unit, idle, moment, line, one)
        } else {
            Ok(())
        }
    }

    // Keeps the broadcast that a message of a unit begins, if it is planned.
    fn take_announced(
        &mut self,
        basis: &Basis<'_>,
        known: &Known,
        unit: usize,
        message: &UnitMessage<'_>,
        moment: u64,
        line: u64,
    )
        requires { unit < length self.old.begun.items }
        ensures { (b : SomeBroadcasts) → RecallsBroadcasts (settings_of basis.now) self.old b
            → RecallsBroadcasts (settings_of basis.now) self.new
            (with_one unit (begun_by (settings_of basis.now) (known_by known.now)
            (sent_as message.now) moment line) b) }
    {
        let one = begun_by(basis, known, message, moment, line);
        self.set(basis, unit, one);
    }

    // Takes a frame of a unit of the plan, which announces this, if it does.
    fn take_sent(
        &mut self,
        basis: &Basis<'_>,
        known: &Known,
        timing: Timing,
        unit: usize,
        frame: &Frame,
        announced: Option<Announcement>,
        idle: Option<u64>,
        moment: u64,
        line: u64,
    ) -> Result<(), AllocError>
        requires { unit < length self.old.begun.items }
        ensures { OnOk result ((b : SomeBroadcasts) → RecallsBroadcasts (settings_of basis.now) self.old b
            → RecallsBroadcasts (settings_of basis.now) self.new
            (with_sent (settings_of basis.now) (known_by known.now) timing unit frame.now idle moment line
            (announced_to_all unit frame.now announced) (b.begun unit) b)) }
    {
        match announced_to_all(unit, frame, announced) {
            Some(message) => {
                self.take_announced(basis, known, unit, &message, moment, line);
                Ok(())
            }
            None => self.take_other(basis, timing, unit, frame, idle, moment, line),
        }
    }

    /// Takes a frame of this time, which announces this and counts for this unit, if it does, at this idle mark.
    pub fn take(
        &mut self,
        basis: &Basis<'_>,
        known: &Known,
        unit: Option<usize>,
        frame: &Frame,
        announced: Option<Announcement>,
        time: Option<u64>,
        idle: Option<u64>,
        line: u64,
    ) -> Result<(), AllocError>
        requires { IfSome time (λ t. t < 2 ^ 61) }
        ensures { OnOk result ((b : SomeBroadcasts) → RecallsBroadcasts (settings_of basis.now) self.old b
            → RecallsBroadcasts (settings_of basis.now) self.new
            (broadcasts_behind (settings_of basis.now)
            (known_by known.now) unit frame.now announced time idle line b)) }
    {
        let Some(timing) = basis.plan.timing else {
            return Ok(());
        };
        let Some(unit) = unit else {
            return Ok(());
        };
        let Some(time) = time else {
            return Ok(());
        };
        if unit >= self.begun.len() {
            return Ok(());
        }
        let moment = time + LONG_BEFORE + basis.logger_error();
        self.take_sent(
            basis, known, timing, unit, frame, announced, idle, moment, line,
        )
    }
}
