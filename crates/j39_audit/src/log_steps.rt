//! What a frame does to the parts of an audit.
ghost use Rattle.std.specs.Prelude.{◌≡◌, ◌<◌, ◌^◌, Option, IfSome, OnOk};
ghost use Rattle.j39_audit.specs.BegunBroadcasts.{BegunBroadcasts as SomeBroadcasts, broadcasts_behind, packet_with};
ghost use Rattle.j39_audit.specs.Claiming.{HeardClaims, broken_off};
ghost use Rattle.j39_audit.specs.Looking.{break_noted};
ghost use Rattle.j39_audit.specs.Moments.{Moments as SomeMoments, with_packet_stream};
ghost use Rattle.j39_audit.specs.inside.Recalling.{AreNear, KnowsClaims, Notes, RecallsBroadcasts, RecallsMoments};
ghost use Rattle.j39_audit.specs.inside.Recalling.{known_by, settings_of};

use crate::announcements::Announcement;
use crate::basis::Basis;
use crate::broadcasts::BegunBroadcasts;
use crate::known::Known;
use crate::mark::{Word, make_mark};
use crate::moments::Moments;
use crate::tally::MarkTally;
use j39_id::Frame;
use std::alloc::AllocError;

/// Notes that the log breaks off, where it does, and forgets where units stood that may have moved.
pub(crate) fn take_break(
    tally: &mut MarkTally,
    basis: &Basis<'_>,
    known: &mut Known,
    line: u64,
    broken: bool,
) -> Result<(), AllocError>
    ensures known { (claims : HeardClaims) → KnowsClaims (settings_of basis.now) known.old claims
        → KnowsClaims (settings_of basis.now) known.new (broken_off broken claims) }
    ensures noted { OnOk result (Notes tally.old tally.new (break_noted line broken)) }
{
    if broken {
        known.break_off(basis);
        tally.note(make_mark(Word::Break, 0), line, 0)
    } else {
        Ok(())
    }
}

/// Takes a frame of this time, which announces this and counts for this unit, if it does, for the broadcasts of units.
pub(crate) fn take_packet(
    broadcasts: &mut BegunBroadcasts,
    moments: &mut Moments,
    basis: &Basis<'_>,
    known: &Known,
    unit: Option<usize>,
    frame: &Frame,
    announced: Option<Announcement>,
    time: Option<u64>,
    line: u64,
) -> Result<(), AllocError>
    requires time { IfSome time (λ t. t < 2 ^ 61) }
    requires near { AreNear moments.old }
    ensures near { OnOk result (AreNear moments.new) }
    ensures moments { OnOk result ((m : SomeMoments) (b : SomeBroadcasts) → RecallsMoments moments.old m
        → RecallsBroadcasts (settings_of basis.now) broadcasts.old b
        → RecallsMoments moments.new (with_packet_stream (settings_of basis.now) time line
        (packet_with basis.now.plan.now.timing unit frame.now b) m)) }
    ensures broadcasts { OnOk result ((b : SomeBroadcasts) → RecallsBroadcasts (settings_of basis.now) broadcasts.old b
        → RecallsBroadcasts (settings_of basis.now) broadcasts.new
        (broadcasts_behind (settings_of basis.now)
        (known_by known.now) unit frame.now announced time moments.old.since line b)) }
{
    let stream = broadcasts.packet(basis, unit, frame);
    broadcasts.take(
        basis,
        known,
        unit,
        frame,
        announced,
        time,
        moments.since,
        line,
    )?;
    moments.take_packet(basis, time, line, stream)
}
